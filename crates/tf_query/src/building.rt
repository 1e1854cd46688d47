// The query that a tree is, where it has the form of one.
ghost use Rattle.std.specs.Prelude.{◌≡◌, [], ◌∷◌, IfOk, map, codes};
ghost use Rattle.std.specs.Option.{option_map, option_and_then, option_copied};
ghost use Rattle.tf_model.specs.Trees.{text_in, members_in, member_of};
ghost use Rattle.tf_query.specs.Queries as spec;
ghost use Rattle.tf_query.specs.Values as values;
ghost use Rattle.tf_query.specs.Queries.{part_of};

use crate::values::value_by;
use std::alloc::Global;
use tf_model::{FieldType, List, Mapping, OutOfMemory, Query, Text, Tree, Value};

/// The query that a tree is, and `None` where it has not the form of one or a value has not its field's type.
#[cycle(build)]
#[tactic(auto, using(crate::proofs::PartLaws::parts))]
pub(crate) fn build_query(
    alloc: Global,
    tree: &Tree,
    fields: &Mapping,
) -> Result<Option<Query>, OutOfMemory>
    ensures { IfOk result (λ query. query ≡ spec.query_in fields.now tree.now) }
{
    match tree {
        Tree::Obj(members) => build_object(alloc, members.as_slice(), fields),
        Tree::Null | Tree::Bool(_) | Tree::Num(_) | Tree::Str(_) | Tree::Arr(_) => Ok(None),
    }
}

#[cycle(build)]
fn build_object(
    alloc: Global,
    members: &[(Text, Tree)],
    fields: &Mapping,
) -> Result<Option<Query>, OutOfMemory>
    ensures { IfOk result (λ query. query ≡ spec.query_from fields.now (spec.parts_of fields.now members.now)) }
{
    match members {
        [(kind, tree)] => build_kind(alloc, kind.as_str(), tree, fields),
        _ => Ok(None),
    }
}

#[cycle(build)]
#[tactic(auto, using(crate::proofs::PartLaws::leaf_beside))]
fn build_kind(
    alloc: Global,
    kind: &str,
    tree: &Tree,
    fields: &Mapping,
) -> Result<Option<Query>, OutOfMemory>
    ensures { IfOk result (λ query. query ≡ spec.query_beside fields.now (kind.now, part_of fields.now tree.now)) }
{
    if kind == "bool" {
        build_bool(alloc, tree, fields)
    } else {
        build_leaf(alloc, kind, tree, fields)
    }
}

#[cycle(build)]
#[tactic(auto, using(crate::proofs::PartLaws::parts))]
fn build_bool(alloc: Global, tree: &Tree, fields: &Mapping) -> Result<Option<Query>, OutOfMemory>
    ensures { IfOk result (λ query. query ≡ (part_of fields.now tree.now).clauses) }
{
    match tree {
        Tree::Obj(members) => build_clauses(alloc, members.as_slice(), fields),
        Tree::Null | Tree::Bool(_) | Tree::Num(_) | Tree::Str(_) | Tree::Arr(_) => Ok(None),
    }
}

#[cycle(build)]
fn build_clauses(
    alloc: Global,
    members: &[(Text, Tree)],
    fields: &Mapping,
) -> Result<Option<Query>, OutOfMemory>
    ensures { IfOk result (λ query. query ≡ spec.clauses_from (spec.parts_of fields.now members.now)) }
{
    let Some(filter) = build_clause(alloc, "filter", members, fields)? else {
        return Ok(None);
    };
    let Some(must) = build_clause(alloc, "must", members, fields)? else {
        return Ok(None);
    };
    let Some(must_not) = build_clause(alloc, "must_not", members, fields)? else {
        return Ok(None);
    };
    let mut filter = filter;
    filter.append(must)?;
    Ok(Some(Query::Bool { filter, must_not }))
}

#[cycle(build)]
fn build_clause(
    alloc: Global,
    name: &str,
    members: &[(Text, Tree)],
    fields: &Mapping,
) -> Result<Option<List<Query>>, OutOfMemory>
    ensures { IfOk result (λ queries. queries ≡ spec.clause name.now (spec.parts_of fields.now members.now)) }
{
    for (member, tree) in members {
        if member.as_str() == name {
            return build_queries(alloc, tree, fields);
        }
    }
    Ok(Some(List::new(alloc)))
}

#[cycle(build)]
#[tactic(auto, using(crate::proofs::PartLaws::parts))]
fn build_queries(
    alloc: Global,
    tree: &Tree,
    fields: &Mapping,
) -> Result<Option<List<Query>>, OutOfMemory>
    ensures { IfOk result (λ queries. queries ≡ (part_of fields.now tree.now).queries) }
{
    match tree {
        Tree::Obj(members) => alone(alloc, build_object(alloc, members.as_slice(), fields)?),
        Tree::Arr(items) => build_items(alloc, items.as_slice(), fields),
        Tree::Null | Tree::Bool(_) | Tree::Num(_) | Tree::Str(_) => Ok(None),
    }
}

#[cycle(build)]
fn build_items(
    alloc: Global,
    items: &[Tree],
    fields: &Mapping,
) -> Result<Option<List<Query>>, OutOfMemory>
    ensures { IfOk result (λ queries. queries ≡ spec.all_queries (map (part_of fields.now) items.now)) }
{
    let mut queries = List::new(alloc);
    for item in items {
        match build_query(alloc, item, fields)? {
            None => return Ok(None),
            Some(query) => queries.push(query)?,
        }
    }
    Ok(Some(queries))
}

// The list of one query.
fn alone(alloc: Global, query: Option<Query>) -> Result<Option<List<Query>>, OutOfMemory>
    ensures { IfOk result (λ queries. queries ≡ option_map (λ q. q ∷ []) query) }
{
    match query {
        None => Ok(None),
        Some(query) => {
            let mut queries = List::new(alloc);
            queries.push(query)?;
            Ok(Some(queries))
        }
    }
}

// A query that holds no other, by its kind.
fn build_leaf(
    alloc: Global,
    kind: &str,
    tree: &Tree,
    fields: &Mapping,
) -> Result<Option<Query>, OutOfMemory>
    ensures { IfOk result (λ query. query ≡ spec.leaf_in fields.now kind.now tree.now) }
{
    match kind {
        "match_all" => Ok(build_match_all(tree)),
        "term" => build_term(alloc, tree, fields),
        "range" => build_range(alloc, tree, fields),
        "exists" => build_exists(alloc, tree),
        _ => Ok(None),
    }
}

fn build_match_all(tree: &Tree) -> Option<Query>
    ensures { result ≡ spec.match_all_in tree.now }
{
    match tree.as_object() {
        Some(_) => Some(Query::MatchAll),
        None => None,
    }
}

// The one member of an object.
fn only_member(tree: &Tree) -> Option<&(Text, Tree)>
    ensures { option_copied result ≡ spec.only (members_in tree.now) }
{
    match tree.as_object()?.as_slice() {
        [member] => Some(member),
        _ => None,
    }
}

fn build_term(alloc: Global, tree: &Tree, fields: &Mapping) -> Result<Option<Query>, OutOfMemory>
    ensures { IfOk result (λ query. query ≡ spec.term_in fields.now tree.now) }
{
    match only_member(tree) {
        None => Ok(None),
        Some((field, tree)) => build_term_of(alloc, field, fields.type_of(field), tree),
    }
}

// A term of one field, with the value itself or as an object's member.
fn build_term_of(
    alloc: Global,
    field: &Text,
    kind: Option<FieldType>,
    tree: &Tree,
) -> Result<Option<Query>, OutOfMemory>
    ensures { IfOk result (λ query. query ≡ option_map (Query.Term field.now) (option_and_then (values.value_by kind) (spec.term_tree tree.now (members_in tree.now)))) }
{
    let Some(tree) = term_tree(tree) else {
        return Ok(None);
    };
    match value_by(alloc, kind, tree)? {
        None => Ok(None),
        Some(value) => {
            let field = field.copy(alloc)?;
            Ok(Some(Query::Term { field, value }))
        }
    }
}

fn term_tree(tree: &Tree) -> Option<&Tree>
    ensures { option_copied result ≡ spec.term_tree tree.now (members_in tree.now) }
{
    match tree.as_object() {
        None => Some(tree),
        Some(_) => tree.get("value"),
    }
}

fn build_exists(alloc: Global, tree: &Tree) -> Result<Option<Query>, OutOfMemory>
    ensures { IfOk result (λ query. query ≡ spec.exists_in tree.now) }
{
    match field_name(tree) {
        None => Ok(None),
        Some(field) => {
            let field = field.copy(alloc)?;
            Ok(Some(Query::Exists { field }))
        }
    }
}

fn field_name(tree: &Tree) -> Option<&Text>
    ensures { option_copied result ≡ option_and_then text_in (member_of tree.now (codes "field")) }
{
    tree.get("field")?.as_text()
}

fn build_range(alloc: Global, tree: &Tree, fields: &Mapping) -> Result<Option<Query>, OutOfMemory>
    ensures { IfOk result (λ query. query ≡ spec.range_in fields.now tree.now) }
{
    match only_member(tree) {
        None => Ok(None),
        Some((field, ends)) => build_range_of(alloc, field, fields.type_of(field), ends),
    }
}

fn build_range_of(
    alloc: Global,
    field: &Text,
    kind: Option<FieldType>,
    ends: &Tree,
) -> Result<Option<Query>, OutOfMemory>
    ensures { IfOk result (λ query. query ≡ spec.range_by field.now (values.value_by kind) ends.now) }
{
    let Some(low) = build_end(alloc, kind, ends.get("gte"), ends.get("gt"))? else {
        return Ok(None);
    };
    let Some(high) = build_end(alloc, kind, ends.get("lte"), ends.get("lt"))? else {
        return Ok(None);
    };
    with_ends(alloc, field, low, high)
}

// A range with both its ends, each with whether it is open, of which one is given.
fn with_ends(
    alloc: Global,
    field: &Text,
    low: (Option<Value>, bool),
    high: (Option<Value>, bool),
) -> Result<Option<Query>, OutOfMemory>
    ensures { IfOk result (λ query. query ≡ spec.range_of field.now low high) }
{
    let (low, low_open) = low;
    let (high, high_open) = high;
    if low.is_none() && high.is_none() {
        return Ok(None);
    }
    let field = field.copy(alloc)?;
    Ok(Some(Query::Range {
        field,
        low,
        low_open,
        high,
        high_open,
    }))
}

// One end of a range by its closed and its open form, with whether it is open.
fn build_end(
    alloc: Global,
    kind: Option<FieldType>,
    closed: Option<&Tree>,
    strict: Option<&Tree>,
) -> Result<Option<(Option<Value>, bool)>, OutOfMemory>
    ensures { IfOk result (λ end. end ≡ spec.end_of (values.value_by kind) (option_copied closed.entry) (option_copied strict.entry)) }
{
    match (closed, strict) {
        (None, None) => Ok(Some((None, false))),
        (Some(tree), None) => given_end(alloc, kind, tree, false),
        (None, Some(tree)) => given_end(alloc, kind, tree, true),
        (Some(_), Some(_)) => Ok(None),
    }
}

fn given_end(
    alloc: Global,
    kind: Option<FieldType>,
    tree: &Tree,
    is_open: bool,
) -> Result<Option<(Option<Value>, bool)>, OutOfMemory>
    ensures { IfOk result (λ end. end ≡ spec.with_end is_open (values.value_by kind tree.now)) }
{
    match value_by(alloc, kind, tree)? {
        None => Ok(None),
        Some(value) => Ok(Some((Some(value), is_open))),
    }
}
