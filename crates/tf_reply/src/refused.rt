// What a refusal tells.
ghost use Rattle.std.specs.Prelude.{◌≡◌, IfOk};
ghost use Rattle.tf_reply.specs.Refusals as spec;

use crate::faults::Refusal;
use crate::members::{Member, count, listed, number, text};
use crate::naming::{error_name, limit_name, state_name};
use std::alloc::Global;
use tf_group::id_text;
use tf_model::{List, OutOfMemory, State, SumRange, Text};

/// The members by which a reply tells a refusal: its name and its details.
pub(crate) fn refusal_members(alloc: Global, refusal: &Refusal) -> Result<List<Member>, OutOfMemory>
    ensures { IfOk result (λ members. members ≡ spec.refusal_members refusal.now) }
{
    let mut members = details(alloc, refusal)?;
    members.push(text(alloc, "error", error_name(refusal))?)?;
    Ok(members)
}

fn details(alloc: Global, refusal: &Refusal) -> Result<List<Member>, OutOfMemory>
    ensures { IfOk result (λ members. members ≡ spec.details refusal.now) }
{
    match refusal {
        Refusal::LineTooLong { bytes } => one_count(alloc, "bytes", *bytes),
        Refusal::Fraction { path } => one_text(alloc, "path", path.as_str()),
        Refusal::MissingField { field } => one_text(alloc, "field", field.as_str()),
        Refusal::BadValue { field } => one_text(alloc, "field", field.as_str()),
        Refusal::BadName { name } => one_text(alloc, "name", name.as_str()),
        Refusal::NoSuchIndex { name } => one_text(alloc, "name", name.as_str()),
        Refusal::NoSuchTransform { id } => one_text(alloc, "id", id.as_str()),
        Refusal::TransformExists { id } => one_text(alloc, "id", id.as_str()),
        Refusal::Mapping { what, .. } => one_text(alloc, "what", what.as_str()),
        Refusal::Config { what, .. } => one_text(alloc, "what", what.as_str()),
        Refusal::SumRange { sum } => sum_members(alloc, sum),
        Refusal::IndexExists { name } => one_text(alloc, "name", name.as_str()),
        Refusal::Document { field, .. } => one_text(alloc, "field", field.as_str()),
        Refusal::VersionConflict { id, seq, shard } => conflict_members(alloc, id, *seq, *shard),
        Refusal::NotStopped { id, state } => state_members(alloc, id, *state),
        Refusal::AlreadyStarted { id, state } => state_members(alloc, id, *state),
        Refusal::NotStarted { id, state } => state_members(alloc, id, *state),
        Refusal::AlreadyFinished { id, state } => state_members(alloc, id, *state),
        Refusal::IsFailed { id, state } => state_members(alloc, id, *state),
        Refusal::Limit { what } => one_text(alloc, "what", limit_name(*what)),
        Refusal::BadJson => Ok(List::new(alloc)),
        Refusal::UnknownOp => Ok(List::new(alloc)),
        Refusal::NotHere => Ok(List::new(alloc)),
        Refusal::BadAfter => Ok(List::new(alloc)),
        Refusal::UnsupportedYet => Ok(List::new(alloc)),
    }
}

fn one_count(alloc: Global, name: &str, value: u64) -> Result<List<Member>, OutOfMemory>
    ensures { IfOk result (λ members. members ≡ spec.one_count name.now value) }
{
    listed(alloc, [count(alloc, name, value)?])
}

fn one_text(alloc: Global, name: &str, value: &str) -> Result<List<Member>, OutOfMemory>
    ensures { IfOk result (λ members. members ≡ spec.one_text name.now value.now) }
{
    listed(alloc, [text(alloc, name, value)?])
}

/// What tells a sum outside `i64`: the `_id` of its row, its aggregation and its value.
pub(crate) fn sum_members(alloc: Global, sum: &SumRange) -> Result<List<Member>, OutOfMemory>
    ensures { IfOk result (λ members. members ≡ spec.sum_members sum.now) }
{
    let id = id_text(alloc, &sum.key)?;
    let key = text(alloc, "key", id.as_str())?;
    let name = text(alloc, "name", sum.name.as_str())?;
    let value = number(alloc, "value", sum.value)?;
    listed(alloc, [key, name, value])
}

fn conflict_members(
    alloc: Global,
    id: &Text,
    seq: u64,
    shard: u32,
) -> Result<List<Member>, OutOfMemory>
    ensures { IfOk result (λ members. members ≡ spec.conflict_members id.now seq shard) }
{
    let id = text(alloc, "id", id.as_str())?;
    let seq = count(alloc, "seq", seq)?;
    let shard = count(alloc, "shard", u64::from(shard))?;
    listed(alloc, [id, seq, shard])
}

fn state_members(alloc: Global, id: &Text, state: State) -> Result<List<Member>, OutOfMemory>
    ensures { IfOk result (λ members. members ≡ spec.state_members id.now state) }
{
    let id = text(alloc, "id", id.as_str())?;
    let state = text(alloc, "state", state_name(state))?;
    listed(alloc, [id, state])
}
