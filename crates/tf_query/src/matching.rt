// Which documents match a query.
ghost use Rattle.std.specs.Prelude.{◌≡◌};
ghost use Rattle.std.specs.List.{list_all, list_any};
ghost use Rattle.std.specs.Option.{option_copied};
ghost use Rattle.tf_model.specs.Query.{meets, is_above, is_below};

use tf_model::{Doc, Query, Value};

/// Whether a document matches a query: Elasticsearch Reference, query DSL. Takes no memory.
///
/// A missing value meets no term, range or exists. Values are compared by the order of `Value`.
#[cycle(matches)]
#[tactic(auto, using(tf_model::proofs::QueryLaws::queries))]
pub fn matches(query: &Query, doc: &Doc) -> bool
    ensures { result ≡ meets doc.now query.now }
{
    match query {
        Query::MatchAll => true,
        Query::Term { field, value } => match doc.value(field) {
            Some(found) => value == found,
            None => false,
        },
        Query::Exists { field } => doc.value(field).is_some(),
        Query::Range {
            field,
            low,
            low_open,
            high,
            high_open,
        } => match doc.value(field) {
            Some(found) => above(low.as_ref(), *low_open, found)
                && below(high.as_ref(), *high_open, found),
            None => false,
        },
        Query::Bool { filter, must_not } => all_match(filter.as_slice(), doc)
            && !any_matches(must_not.as_slice(), doc),
    }
}

#[cycle(matches)]
fn all_match(queries: &[Query], doc: &Doc) -> bool
    ensures { result ≡ list_all (meets doc.now) queries.now }
{
    for query in queries {
        if !matches(query, doc) {
            return false;
        }
    }
    true
}

#[cycle(matches)]
fn any_matches(queries: &[Query], doc: &Doc) -> bool
    ensures { result ≡ list_any (meets doc.now) queries.now }
{
    for query in queries {
        if matches(query, doc) {
            return true;
        }
    }
    false
}

// Whether a value is above the low end of a range.
fn above(low: Option<&Value>, is_open: bool, value: &Value) -> bool
    ensures { result ≡ is_above (option_copied low.entry) is_open value.now }
{
    match low {
        None => true,
        Some(low) => if is_open {
            low.cmp(value).is_lt()
        } else {
            low.cmp(value).is_le()
        },
    }
}

// Whether a value is below the high end of a range.
fn below(high: Option<&Value>, is_open: bool, value: &Value) -> bool
    ensures { result ≡ is_below (option_copied high.entry) is_open value.now }
{
    match high {
        None => true,
        Some(high) => if is_open {
            value.cmp(high).is_lt()
        } else {
            value.cmp(high).is_le()
        },
    }
}
