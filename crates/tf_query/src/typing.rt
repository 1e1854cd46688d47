// Whether a query suits fields: its values have the types of their fields, and each range has an end.
ghost use Rattle.std.specs.Prelude.{◌≡◌};
ghost use Rattle.std.specs.List.{list_all};
ghost use Rattle.std.specs.Option.{option_copied};
ghost use Rattle.tf_query.specs.Types as spec;

use crate::values::{fits_i64, is_date};
use tf_model::{FieldType, Mapping, Query, Value};

/// Whether each value of a query is of the type that `fields` gives its field, and each range has an end. A value is a
/// text, a number in `i64`, a truth value or a date in range. A field that is not mapped takes any value. Takes no memory.
#[cycle(typing)]
#[tactic(auto, using(crate::proofs::TypeLaws::types))]
pub fn suits_fields(query: &Query, fields: &Mapping) -> bool
    ensures { result ≡ spec.suits_fields fields.now query.now }
{
    match query {
        Query::MatchAll | Query::Exists { .. } => true,
        Query::Term { field, value } => suits(fields.type_of(field), value),
        Query::Range {
            field,
            low,
            high,
            ..
        } => {
            let kind = fields.type_of(field);
            has_end(low, high) && end_suits(kind, low.as_ref()) && end_suits(kind, high.as_ref())
        }
        Query::Bool { filter, must_not } => all_suit_fields(filter.as_slice(), fields)
            && all_suit_fields(must_not.as_slice(), fields),
    }
}

#[cycle(typing)]
fn all_suit_fields(queries: &[Query], fields: &Mapping) -> bool
    ensures { result ≡ list_all (spec.suits_fields fields.now) queries.now }
{
    for query in queries {
        if !suits_fields(query, fields) {
            return false;
        }
    }
    true
}

fn has_end(low: &Option<Value>, high: &Option<Value>) -> bool
    ensures { result ≡ spec.has_end low.now high.now }
{
    low.is_some() || high.is_some()
}

// Whether an end of a range is of a field's type, where it is given.
fn end_suits(kind: Option<FieldType>, end: Option<&Value>) -> bool
    ensures { result ≡ spec.end_suits kind (option_copied end.entry) }
{
    match end {
        None => true,
        Some(value) => suits(kind, value),
    }
}

fn suits(kind: Option<FieldType>, value: &Value) -> bool
    ensures { result ≡ spec.suits kind value.now }
{
    match kind {
        None => true,
        Some(kind) => is_of_type(kind, value),
    }
}

fn is_of_type(kind: FieldType, value: &Value) -> bool
    ensures { result ≡ spec.is_of_type kind value.now }
{
    match (kind, value) {
        (FieldType::Keyword, Value::Str(_)) => true,
        (FieldType::Long, Value::Int(number)) => fits_i64(*number),
        (FieldType::Boolean, Value::Bool(_)) => true,
        (FieldType::Date, Value::Date(ms)) => is_date(i128::from(*ms)),
        _ => false,
    }
}
