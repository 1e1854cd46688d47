// The query of a configuration.
ghost use Rattle.std.specs.Prelude.{◌≡◌, IfOk, Some};
ghost use Rattle.std.specs.List.{fold};
ghost use Rattle.std.specs.Option.{option_copied};
ghost use Rattle.tf_mapping.specs.Least.{lesser_text, least_text};
ghost use Rattle.tf_config.specs.Checks as spec;
ghost use Rattle.tf_query.specs.Reading.{reading};
ghost use Rattle.tf_config.specs.Reading.{query_by};
ghost use Rattle.tf_config.specs.Refusals.{no_faults};
ghost use Rattle.tf_config.specs.Walked.{IsRead};

use crate::catalogue::Catalogue;
use crate::least::lesser_if;
use std::alloc::Global;
use tf_model::{Config, Mapping, OutOfMemory, Query, Text, Tree};
use tf_query::{QueryError, nests_within, read_query, suits_fields};

// How deep queries may nest.
const MOST_NESTING: u32 = 16;

/// What is at fault in a query that could not be kept, as `read_query` tells it.
#[derive(Drop)]
pub(crate) struct QueryFaults {
    /// The path of the least unknown member in bytes.
    pub(crate) unknown: Option<Text>,
    /// The path of a query that is of another form, or has a value of another type.
    pub(crate) wrong_kind: Option<Text>,
    /// The name of what nests too deep.
    pub(crate) too_deep: Option<Text>,
    /// The least field in bytes that no source maps.
    pub(crate) unmapped: Option<Text>,
}

impl QueryFaults {
    /// Nothing is at fault in a query that is kept.
    pub(crate) fn none() -> QueryFaults
        ensures { result ≡ no_faults }
    {
        QueryFaults {
            unknown: None,
            wrong_kind: None,
            too_deep: None,
            unmapped: None,
        }
    }

    fn with_unknown(self, what: Text) -> QueryFaults
        ensures { result ≡ record self { unknown = Some what } }
    {
        QueryFaults {
            unknown: Some(what),
            ..self
        }
    }

    fn with_wrong_kind(self, what: Text) -> QueryFaults
        ensures { result ≡ record self { wrong_kind = Some what } }
    {
        QueryFaults {
            wrong_kind: Some(what),
            ..self
        }
    }

    fn with_too_deep(self, what: Text) -> QueryFaults
        ensures { result ≡ record self { too_deep = Some what } }
    {
        QueryFaults {
            too_deep: Some(what),
            ..self
        }
    }

    fn with_unmapped(self, what: Text) -> QueryFaults
        ensures { result ≡ record self { unmapped = Some what } }
    {
        QueryFaults {
            unmapped: Some(what),
            ..self
        }
    }
}

/// The query that a tree is, and what is at fault with it. Where there is no tree, or something is at fault, every
/// document matches.
pub(crate) fn read_kept(
    alloc: Global,
    tree: Option<&Tree>,
    fields: &Mapping,
) -> Result<(Query, QueryFaults), OutOfMemory>
    ensures { IfOk result (λ read. IsRead (query_by fields.now (option_copied tree.entry)) read.0 read.1) }
{
    match tree {
        None => Ok((Query::MatchAll, QueryFaults::none())),
        Some(tree) => read_tree(alloc, tree, fields),
    }
}

fn read_tree(
    alloc: Global,
    tree: &Tree,
    fields: &Mapping,
) -> Result<(Query, QueryFaults), OutOfMemory>
    ensures { IfOk result (λ read. IsRead (reading fields.now tree.now) read.0 read.1) }
{
    let none = QueryFaults::none();
    let faults = match read_query(alloc, tree, fields) {
        Ok(query) => return Ok((query, none)),
        Err(QueryError::Unknown { what }) => none.with_unknown(what),
        Err(QueryError::WrongKind { what }) => none.with_wrong_kind(what),
        Err(QueryError::TooDeep { what }) => none.with_too_deep(what),
        Err(QueryError::NoSuchField { what }) => none.with_unmapped(what),
        Err(QueryError::Memory) => return Err(OutOfMemory),
    };
    Ok((Query::MatchAll, faults))
}

/// `source.query`, where a value of the query has not its field's type, or a range has no end.
#[tactic(auto, using(crate::proofs::LeastLaws::leasts))]
pub(crate) fn unfit_query(
    alloc: Global,
    config: &Config,
    catalogue: &Catalogue,
) -> Result<Option<&'static str>, OutOfMemory>
    ensures { IfOk result (λ found. option_copied found ≡ least_text (spec.unfit_query catalogue.now config.now)) }
{
    let fields = catalogue.fields(alloc, config.sources.as_slice())?;
    let is_unfit = !suits_fields(&config.query, &fields);
    Ok(lesser_if(is_unfit, "source.query", None))
}

/// The lesser of the least name before and `query`, where queries nest too deep.
pub(crate) fn lesser_if_too_deep<'a>(config: &Config, least: Option<&'a str>) -> Option<&'a str>
    ensures { option_copied result ≡ fold lesser_text (option_copied least.entry) (spec.too_deep config.now) }
{
    lesser_if(!nests_within(&config.query, MOST_NESTING), "query", least)
}
