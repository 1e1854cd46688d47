// The shape of a configuration: its pivot or its latest.
ghost use Rattle.std.specs.Prelude.{◌≡◌, IfOk, codes};
ghost use Rattle.std.specs.List.{filter_map};
ghost use Rattle.std.specs.Option.{option_copied, option_or};
ghost use Rattle.tf_model.specs.Trees.{member_of, members_in};
ghost use Rattle.tf_config.specs.Drafts as spec;

use crate::values::{beside, fixed_interval, interval, text_or_none, texts_or_none, truth_or};
use std::alloc::Global;
use tf_model::{Agg, AggKind, Group, GroupKind, List, OutOfMemory, Shape, Text, Tree};

/// The shape of a pivot, where there is one, and else of a latest.
pub(crate) fn shape(alloc: Global, tree: &Tree) -> Result<Shape, OutOfMemory>
    ensures { IfOk result (λ shape. shape ≡ spec.shape tree.now) }
{
    match tree.get("pivot") {
        Some(pivot) => pivot_in(alloc, pivot),
        None => latest_in(alloc, tree.get("latest")),
    }
}

fn pivot_in(alloc: Global, tree: &Tree) -> Result<Shape, OutOfMemory>
    ensures { IfOk result (λ shape. shape ≡ spec.pivot tree.now) }
{
    let groups = groups_in(alloc, members_of(tree.get("group_by")))?;
    let aggs = aggs_in(alloc, members_of(aggs_of(tree)))?;
    Ok(Shape::Pivot { groups, aggs })
}

// The aggregations under one of their two names.
fn aggs_of(pivot: &Tree) -> Option<&Tree>
    ensures { option_copied result ≡ option_or (member_of pivot.now (codes "aggregations")) (member_of pivot.now (codes "aggs")) }
{
    match pivot.get("aggregations") {
        Some(aggs) => Some(aggs),
        None => pivot.get("aggs"),
    }
}

// The members of an object, none where there is no object.
fn members_of<'a>(tree: Option<&'a Tree>) -> &'a [(Text, Tree)]
    ensures { result.now ≡ spec.members_or_none (option_copied tree.entry) }
{
    match tree {
        None => &[],
        Some(tree) => match tree.as_object() {
            None => &[],
            Some(members) => members.as_slice(),
        },
    }
}

fn groups_in(alloc: Global, members: &[(Text, Tree)]) -> Result<List<Group>, OutOfMemory>
    ensures { IfOk result (λ groups. groups ≡ filter_map spec.group_of members.now) }
{
    let mut groups = List::new(alloc);
    for (name, tree) in members {
        if let Some(group) = group_of(alloc, name, tree)? {
            groups.push(group)?;
        }
    }
    Ok(groups)
}

fn group_of(alloc: Global, name: &Text, tree: &Tree) -> Result<Option<Group>, OutOfMemory>
    ensures { IfOk result (λ group. group ≡ spec.group_of (name.now, tree.now)) }
{
    match only_member(tree) {
        None => Ok(None),
        Some((kind, tree)) => Ok(Some(group_by(alloc, name, kind, tree)?)),
    }
}

// The one member of an object.
fn only_member(tree: &Tree) -> Option<&(Text, Tree)>
    ensures { option_copied result ≡ spec.only (members_in tree.now) }
{
    match tree.as_object()?.as_slice() {
        [member] => Some(member),
        _ => None,
    }
}

fn group_by(alloc: Global, name: &Text, kind: &Text, tree: &Tree) -> Result<Group, OutOfMemory>
    ensures { IfOk result (λ group. group ≡ spec.group_by name.now (kind.now, tree.now)) }
{
    Ok(Group {
        name: name.copy(alloc)?,
        field: text_or_none(alloc, tree.get("field"))?,
        kind: group_kind(kind.as_str(), tree),
        missing_bucket: truth_or(false, tree.get("missing_bucket")),
    })
}

fn group_kind(name: &str, tree: &Tree) -> GroupKind
    ensures { result ≡ spec.group_kind name.now tree.now }
{
    match name {
        "histogram" => GroupKind::Histogram {
            interval: interval(tree.get("interval")),
        },
        "date_histogram" => GroupKind::DateHistogram {
            ms: fixed_interval(tree.get("fixed_interval")),
        },
        _ => GroupKind::Terms,
    }
}

fn aggs_in(alloc: Global, members: &[(Text, Tree)]) -> Result<List<Agg>, OutOfMemory>
    ensures { IfOk result (λ aggs. aggs ≡ filter_map spec.agg_of members.now) }
{
    let mut aggs = List::new(alloc);
    for (name, tree) in members {
        if let Some(agg) = agg_of(alloc, name, tree)? {
            aggs.push(agg)?;
        }
    }
    Ok(aggs)
}

fn agg_of(alloc: Global, name: &Text, tree: &Tree) -> Result<Option<Agg>, OutOfMemory>
    ensures { IfOk result (λ agg. agg ≡ spec.agg_of (name.now, tree.now)) }
{
    match only_member(tree) {
        None => Ok(None),
        Some((kind, tree)) => Ok(Some(agg_by(alloc, name, kind, tree)?)),
    }
}

fn agg_by(alloc: Global, name: &Text, kind: &Text, tree: &Tree) -> Result<Agg, OutOfMemory>
    ensures { IfOk result (λ agg. agg ≡ spec.agg_by name.now (kind.now, tree.now)) }
{
    Ok(Agg {
        name: name.copy(alloc)?,
        field: text_or_none(alloc, tree.get("field"))?,
        kind: agg_kind(kind.as_str()),
    })
}

fn agg_kind(name: &str) -> AggKind
    ensures { result ≡ spec.agg_kind name.now }
{
    match name {
        "sum" => AggKind::Sum,
        "min" => AggKind::Min,
        "max" => AggKind::Max,
        _ => AggKind::ValueCount,
    }
}

fn latest_in(alloc: Global, tree: Option<&Tree>) -> Result<Shape, OutOfMemory>
    ensures { IfOk result (λ shape. shape ≡ spec.latest (option_copied tree.entry)) }
{
    let unique_key = texts_or_none(alloc, beside("unique_key", tree))?;
    let sort = text_or_none(alloc, beside("sort", tree))?;
    Ok(Shape::Latest { unique_key, sort })
}
