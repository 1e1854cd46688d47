// The `_source` of a pivot's row.
ghost use Rattle.std.specs.Prelude.{◌≡◌, IfOk};
ghost use Rattle.tf_model.specs.Conditions.{IsDate};
ghost use Rattle.tf_reply.specs.Sources as spec;

use crate::members::Member;
use crate::objects::object;
use std::alloc::Global;
use tf_model::{Agg, Group, Key, List, OutOfMemory, Text, Tree, Value};
use tf_time::print_date;

/// The `_source` of a pivot's row: an object with one member for each group, which is its part of the key, and one for
/// each aggregation, which is its value. Dates are texts, or numbers of milliseconds since 1970 where `epoch_millis`
/// says so. The error is want of memory alone.
pub fn pivot_source(
    alloc: Global,
    groups: &List<Group>,
    aggs: &List<Agg>,
    epoch_millis: bool,
    key: &Key,
    values: &List<Value>,
) -> Result<Tree, OutOfMemory>
    requires parts { spec.AreShowable key.now.parts }
    requires values { spec.AreShowable values.now }
    ensures { IfOk result (λ tree. tree ≡ spec.pivot_source groups.now aggs.now epoch_millis key.now values.now) }
{
    let mut members = group_members(alloc, groups.as_slice(), key.parts.as_slice(), epoch_millis)?;
    members.append(agg_members(alloc, aggs.as_slice(), values.as_slice(), epoch_millis)?)?;
    object(alloc, members)
}

fn group_members(
    alloc: Global,
    groups: &[Group],
    parts: &[Value],
    epoch_millis: bool,
) -> Result<List<Member>, OutOfMemory>
    requires { spec.AreShowable parts.now }
    ensures { IfOk result (λ members. members ≡ spec.group_members epoch_millis groups.now parts.now) }
{
    let mut members = List::new(alloc);
    for (group, part) in groups.iter().zip(parts) {
        members.push(shown_member(alloc, &group.name, part, epoch_millis)?)?;
    }
    Ok(members)
}

fn agg_members(
    alloc: Global,
    aggs: &[Agg],
    values: &[Value],
    epoch_millis: bool,
) -> Result<List<Member>, OutOfMemory>
    requires { spec.AreShowable values.now }
    ensures { IfOk result (λ members. members ≡ spec.agg_members epoch_millis aggs.now values.now) }
{
    let mut members = List::new(alloc);
    for (agg, value) in aggs.iter().zip(values) {
        members.push(shown_member(alloc, &agg.name, value, epoch_millis)?)?;
    }
    Ok(members)
}

fn shown_member(
    alloc: Global,
    name: &Text,
    value: &Value,
    epoch_millis: bool,
) -> Result<Member, OutOfMemory>
    requires { spec.IsShowable value.now }
    ensures { IfOk result (λ member. member ≡ (name.now, spec.shown epoch_millis value.now)) }
{
    let tree = shown(alloc, value, epoch_millis)?;
    Ok((name.copy(alloc)?, tree))
}

// A part of a key, or a value, as a row shows it.
fn shown(alloc: Global, value: &Value, epoch_millis: bool) -> Result<Tree, OutOfMemory>
    requires { spec.IsShowable value.now }
    ensures { IfOk result (λ tree. tree ≡ spec.shown epoch_millis value.now) }
{
    match value {
        Value::Null => Ok(Tree::Null),
        Value::Bool(truth) => Ok(Tree::Bool(*truth)),
        Value::Int(number) => Ok(Tree::Num(*number)),
        Value::Date(ms) => shown_date(alloc, *ms, epoch_millis),
        Value::Str(text) => Ok(Tree::Str(text.copy(alloc)?)),
    }
}

fn shown_date(alloc: Global, ms: i64, epoch_millis: bool) -> Result<Tree, OutOfMemory>
    requires { IsDate ms }
    ensures { IfOk result (λ tree. tree ≡ spec.shown_date epoch_millis ms) }
{
    if epoch_millis {
        return Ok(Tree::Num(i128::from(ms)));
    }
    let text = print_date(alloc, ms)?;
    Ok(Tree::Str(Text::from_string(text)))
}
