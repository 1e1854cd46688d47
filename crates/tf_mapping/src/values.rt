// The value of one field of a document.
ghost use Rattle.std.specs.Prelude.{◌≡◌, IfOk};
ghost use Rattle.std.specs.Option.{option_copied, option_map};
ghost use Rattle.tf_model.specs.Trees.{text_in, truth_in};
ghost use Rattle.tf_time.specs.Dates.{date_of};
ghost use Rattle.tf_mapping.specs.Documents as spec;
ghost use Rattle.tf_mapping.specs.Documents.{Answers, Refuses};
ghost use Rattle.tf_mapping.specs.Findings.{shown};
ghost use Rattle.tf_mapping.specs.declared.error.DocError.TheVariants as error;

use crate::error::DocError;
use crate::found::Found;
use crate::walking::find_inside;
use std::alloc::Global;
use tf_model::{FieldType, OutOfMemory, Text, Tree, Value};
use tf_time::{DateError, read_date};

// The first moment of the year 0 and the last one of the year 9999, in milliseconds since 1970.
const FIRST_DATE: i128 = -62_167_219_200_000;

const LAST_DATE: i128 = 253_402_300_799_999;

/// The value of a field in a document, and `None` where it is missing.
pub(crate) fn read_value(
    alloc: Global,
    field: &Text,
    kind: FieldType,
    tree: &Tree,
) -> Result<Option<Value>, DocError>
    ensures { Answers (spec.value_in tree.now (field.now, kind)) result }
{
    value_from(
        alloc,
        field,
        kind,
        find_inside(tree, field.as_bytes(), Found::Nothing),
    )
}

fn value_from(
    alloc: Global,
    field: &Text,
    kind: FieldType,
    found: Found,
) -> Result<Option<Value>, DocError>
    ensures { Answers (spec.value_from kind field.now (shown found.entry)) result }
{
    match found {
        Found::Nothing => Ok(None),
        Found::One(scalar) => Ok(Some(value_by(alloc, field, kind, scalar)?)),
        Found::Many => Err(DocError::ManyValues {
            field: field.copy(alloc)?,
        }),
    }
}

fn value_by(alloc: Global, field: &Text, kind: FieldType, scalar: &Tree) -> Result<Value, DocError>
    ensures { Answers (spec.value_by kind field.now scalar.now) result }
{
    match kind {
        FieldType::Keyword => typed(alloc, field, keyword_in(alloc, scalar)?),
        FieldType::Long => typed(alloc, field, long_in(scalar).map(Value::Int)),
        FieldType::Boolean => typed(alloc, field, scalar.as_bool().map(Value::Bool)),
        FieldType::Date => date_in(alloc, field, scalar),
    }
}

// A value of the type, or the refusal.
fn typed(alloc: Global, field: &Text, value: Option<Value>) -> Result<Value, DocError>
    ensures { Answers (spec.typed field.now value) result }
{
    match value {
        Some(value) => Ok(value),
        None => Err(wrong_type(alloc, field)),
    }
}

fn wrong_type(alloc: Global, field: &Text) -> DocError
    ensures { Refuses (error.WrongType field.now) result }
{
    match field.copy(alloc) {
        Ok(field) => DocError::WrongType { field },
        Err(_) => DocError::Memory,
    }
}

fn keyword_in(alloc: Global, scalar: &Tree) -> Result<Option<Value>, OutOfMemory>
    ensures { IfOk result (λ value. value ≡ option_map Value.Str (text_in scalar.now)) }
{
    match scalar.as_text() {
        None => Ok(None),
        Some(text) => Ok(Some(Value::Str(text.copy(alloc)?))),
    }
}

fn long_in(scalar: &Tree) -> Option<i128>
    ensures { result ≡ spec.long_in scalar.now }
{
    let number = scalar.as_number()?;
    if -9_223_372_036_854_775_808 <= number && number <= 9_223_372_036_854_775_807 {
        Some(number)
    } else {
        None
    }
}

fn date_in(alloc: Global, field: &Text, scalar: &Tree) -> Result<Value, DocError>
    ensures { Answers (spec.value_by FieldType.Date field.now scalar.now) result }
{
    match scalar.as_number() {
        Some(ms) => moment(alloc, field, ms),
        None => match scalar.as_text() {
            Some(text) => date_text(alloc, field, text.as_str()),
            None => Err(wrong_type(alloc, field)),
        },
    }
}

fn moment(alloc: Global, field: &Text, ms: i128) -> Result<Value, DocError>
    ensures { Answers (spec.moment field.now ms) result }
{
    if FIRST_DATE <= ms && ms <= LAST_DATE {
        Ok(Value::Date(ms as i64))
    } else {
        Err(out_of_range(alloc, field))
    }
}

fn date_text(alloc: Global, field: &Text, text: &str) -> Result<Value, DocError>
    ensures { Answers (spec.date_text field.now (date_of text.now)) result }
{
    match read_date(text) {
        Ok(ms) => Ok(Value::Date(ms)),
        Err(DateError::NotADate) => Err(not_a_date(alloc, field)),
        Err(DateError::OutOfRange) => Err(out_of_range(alloc, field)),
    }
}

fn not_a_date(alloc: Global, field: &Text) -> DocError
    ensures { Refuses (error.NotADate field.now) result }
{
    match field.copy(alloc) {
        Ok(field) => DocError::NotADate { field },
        Err(_) => DocError::Memory,
    }
}

fn out_of_range(alloc: Global, field: &Text) -> DocError
    ensures { Refuses (error.OutOfRange field.now) result }
{
    match field.copy(alloc) {
        Ok(field) => DocError::OutOfRange { field },
        Err(_) => DocError::Memory,
    }
}
