// Reading of queries.
ghost use Rattle.tf_query.specs.Reading as spec;

use crate::building::build_query;
use crate::error::QueryError;
use crate::forms::Form;
use crate::nesting::nests_within;
use crate::unknown::least_unknown;
use crate::unmapped::least_unmapped;
use std::alloc::Global;
use tf_model::{Mapping, Query, Text, Tree};

// The path of a query in a configuration.
const QUERY_PATH: &str = "source.query";
// How deep queries may nest.
const MOST_NESTING: u32 = 16;

/// The query that a tree is, with values of the types that `fields` gives: Elasticsearch Reference, query DSL.
///
/// A query is `{"match_all":{}}`, `{"term":{F:V}}` or `{"term":{F:{"value":V}}}`, `{"exists":{"field":F}}`,
/// `{"range":{F:{..}}}` with one or two of `gte`, `gt`, `lte` and `lt`, not two on one side, or `{"bool":{..}}` with
/// any of `filter`, `must` and `must_not`, each one query or a list. `must` means the same as `filter`, and its
/// queries come after those of `filter`. A keyword's value is a text, a long's a number in `i64`, a boolean's a truth
/// value, and a date's a number of milliseconds or a text as `tf_time::read_date` takes it.
///
/// The refusals, in this order: `Unknown` for a member outside these forms; `WrongKind` for any other departure from
/// them and for a value that has not its field's type, where a field that is not mapped takes any value; `TooDeep`
/// for queries nested more than 16 deep, one without others inside counting as 1; `NoSuchField` for a field that is
/// not mapped. `Memory` may come at any place.
pub fn read_query(alloc: Global, tree: &Tree, fields: &Mapping) -> Result<Query, QueryError>
    ensures { spec.Answers (spec.reading fields.now tree.now) result }
{
    if let Some(what) = least_unknown(alloc, tree, Form::Query, QUERY_PATH, None)? {
        return Err(QueryError::Unknown { what });
    }
    let Some(query) = build_query(alloc, tree, fields)? else {
        let what = Text::from_str(alloc, QUERY_PATH)?;
        return Err(QueryError::WrongKind { what });
    };
    check_query(alloc, query, fields)
}

// The nesting and the fields of a query.
fn check_query(alloc: Global, query: Query, fields: &Mapping) -> Result<Query, QueryError>
    ensures { spec.Answers (spec.if_nested fields.now query) result }
{
    if !nests_within(&query, MOST_NESTING) {
        let what = Text::from_str(alloc, "query")?;
        return Err(QueryError::TooDeep { what });
    }
    if let Some(field) = least_unmapped(&query, fields, None) {
        let what = field.copy(alloc)?;
        return Err(QueryError::NoSuchField { what });
    }
    Ok(query)
}
