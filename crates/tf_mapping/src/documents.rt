// Reading of documents.
ghost use Rattle.std.specs.Prelude.{◌≡◌, IfOk};
ghost use Rattle.std.specs.Arc.{arc_value};
ghost use Rattle.std.specs.Option.{option_copied};
ghost use Rattle.tf_mapping.specs.Documents as spec;
ghost use Rattle.tf_mapping.specs.Documents.{Answers, AreValues};
ghost use Rattle.tf_mapping.specs.Mappings.{IsMapping};
ghost use Rattle.tf_model.specs.Paired.{paired};

use crate::error::DocError;
use crate::values::read_value;
use std::alloc::Global;
use std::sync::Arc;
use tf_model::{FieldType, List, Mapping, Text, Tree, Value, Values};

/// The values of the mapped fields of a document, which share the mapping.
///
/// A document is an object. Its scalars stand at paths: null has none, an array has those of its items at its own
/// path, an object has those of its members at its path and their names joined by `.`, and anything else is a scalar. A
/// field without a scalar is missing. A keyword is a text, a boolean a truth value, a long a number in `i64`, and a
/// date a number of milliseconds since 1970 or a text as `tf_time::read_date` takes it.
///
/// The refusals of the first field by name that has one, in this order: `ManyValues` for two scalars or more,
/// `WrongType`, `NotADate`, `OutOfRange`, and `Stamped` for a value of the stamp's own field, which with `None` as the
/// stamp does not come. `Memory` may come at any place.
pub fn read_doc(
    alloc: Global,
    mapping: &Arc<Mapping, Global>,
    stamp: Option<&Text>,
    tree: &Tree,
) -> Result<Values, DocError>
    ensures answer { Answers (spec.reading (arc_value mapping.now) (option_copied stamp.entry) tree.now) result }
    ensures values { IfOk result (λ values. values ≡ spec.values_of (arc_value mapping.now) (option_copied stamp.entry) tree.now) }
    ensures good { IsMapping (arc_value mapping.now) → IfOk result (AreValues (arc_value mapping.now)) }
{
    read_shared(alloc, mapping, stamp, tree)
}

fn read_shared(
    alloc: Global,
    mapping: &Arc<Mapping, Global>,
    stamp: Option<&Text>,
    tree: &Tree,
) -> Result<Values, DocError>
    ensures { Answers (spec.reading (arc_value mapping.now) (option_copied stamp.entry) tree.now) result }
{
    match read_all(alloc, mapping, stamp, tree) {
        Ok(values) => Ok(Values::new(Arc::try_clone(mapping)?, values)),
        Err(error) => Err(error),
    }
}

#[tactic(auto, unfolding(crate::specs::Documents::reading))]
fn read_all(
    alloc: Global,
    mapping: &Mapping,
    stamp: Option<&Text>,
    tree: &Tree,
) -> Result<List<Value>, DocError>
    ensures { Answers (spec.reading mapping.now (option_copied stamp.entry) tree.now) (spec.ok_map (paired mapping.now.fields) result) }
{
    read_fields(alloc, mapping.fields.as_slice(), stamp, tree)
}

fn read_fields(
    alloc: Global,
    fields: &[(Text, FieldType)],
    stamp: Option<&Text>,
    tree: &Tree,
) -> Result<List<Value>, DocError>
    ensures { Answers (spec.fields_in (option_copied stamp.entry) tree.now fields.now) (spec.ok_map (paired fields.now) result) }
{
    let mut values = List::with_capacity(alloc, fields.len())?;
    for (field, kind) in fields {
        match read_field(alloc, field, *kind, stamp, tree) {
            Ok(value) => values.push(value.unwrap_or(Value::Null))?,
            Err(error) => return Err(error),
        }
    }
    Ok(values)
}

fn read_field(
    alloc: Global,
    field: &Text,
    kind: FieldType,
    stamp: Option<&Text>,
    tree: &Tree,
) -> Result<Option<Value>, DocError>
    ensures { Answers (spec.field_in (option_copied stamp.entry) tree.now (field.now, kind)) result }
{
    match read_value(alloc, field, kind, tree)? {
        None => Ok(None),
        Some(value) => unstamped(alloc, field, stamp, value),
    }
}

// A value, where its field is not the stamp's own.
fn unstamped(
    alloc: Global,
    field: &Text,
    stamp: Option<&Text>,
    value: Value,
) -> Result<Option<Value>, DocError>
    ensures { Answers (spec.unstamped (option_copied stamp.entry) field.now (Some value)) result }
{
    match stamp {
        Some(stamp) if stamp == field => Err(DocError::Stamped {
            field: field.copy(alloc)?,
        }),
        _ => Ok(Some(value)),
    }
}
