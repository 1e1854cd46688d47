// The values of a query, by the types of their fields.
ghost use Rattle.std.specs.Prelude.{◌≡◌, IfOk};
ghost use Rattle.std.specs.Option.{option_map, option_or};
ghost use Rattle.tf_model.specs.Rows.{fits_i64};
ghost use Rattle.tf_model.specs.Trees.{text_in};
ghost use Rattle.tf_time.specs.Dates.{is_date};
ghost use Rattle.tf_query.specs.Values as spec;

use std::alloc::Global;
use tf_model::{FieldType, OutOfMemory, Tree, Value};
use tf_time::read_date;

// The first moment of the year 0 and the last one of the year 9999, in milliseconds since 1970.
const FIRST_DATE: i128 = -62_167_219_200_000;

const LAST_DATE: i128 = 253_402_300_799_999;

/// The value of a field, and `None` where the tree is no value of the type. A field without a type takes any tree,
/// which stands as `Null`.
pub(crate) fn value_by(
    alloc: Global,
    kind: Option<FieldType>,
    tree: &Tree,
) -> Result<Option<Value>, OutOfMemory>
    ensures { IfOk result (λ value. value ≡ spec.value_by kind tree.now) }
{
    match kind {
        None => Ok(Some(Value::Null)),
        Some(FieldType::Keyword) => keyword_in(alloc, tree),
        Some(FieldType::Long) => Ok(long_in(tree).map(Value::Int)),
        Some(FieldType::Boolean) => Ok(tree.as_bool().map(Value::Bool)),
        Some(FieldType::Date) => Ok(date_in(tree).map(Value::Date)),
    }
}

/// Whether a number is in `i64`.
pub(crate) fn fits_i64(number: i128) -> bool
    ensures { result ≡ fits_i64 number }
{
    -9_223_372_036_854_775_808 <= number && number <= 9_223_372_036_854_775_807
}

/// Whether a number of milliseconds since 1970 is a date of the years 0 to 9999.
pub(crate) fn is_date(ms: i128) -> bool
    ensures { result ≡ is_date ms }
{
    FIRST_DATE <= ms && ms <= LAST_DATE
}

// A text.
fn keyword_in(alloc: Global, tree: &Tree) -> Result<Option<Value>, OutOfMemory>
    ensures { IfOk result (λ value. value ≡ option_map Value.Str (text_in tree.now)) }
{
    match tree.as_text() {
        None => Ok(None),
        Some(text) => Ok(Some(Value::Str(text.copy(alloc)?))),
    }
}

// A number in `i64`.
fn long_in(tree: &Tree) -> Option<i128>
    ensures { result ≡ spec.long_in tree.now }
{
    let number = tree.as_number()?;
    if fits_i64(number) { Some(number) } else { None }
}

// A date as a number or a text, in milliseconds since 1970.
fn date_in(tree: &Tree) -> Option<i64>
    ensures { result ≡ option_or (spec.moment_in tree.now) (spec.date_text_in tree.now) }
{
    match moment_in(tree) {
        Some(ms) => Some(ms),
        None => date_text_in(tree),
    }
}

fn moment_in(tree: &Tree) -> Option<i64>
    ensures { result ≡ spec.moment_in tree.now }
{
    let number = tree.as_number()?;
    if is_date(number) {
        Some(number as i64)
    } else {
        None
    }
}

fn date_text_in(tree: &Tree) -> Option<i64>
    ensures { result ≡ spec.date_text_in tree.now }
{
    read_date(tree.as_text()?.as_str()).ok()
}
