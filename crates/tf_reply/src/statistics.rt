// What is known of a transform.
ghost use Rattle.std.specs.Prelude.{◌≡◌, IfOk};
ghost use Rattle.std.specs.Option.{option_copied};
ghost use Rattle.tf_reply.specs.Statistics as spec;

use crate::members::{Member, count, listed, member, number, text};
use crate::naming::state_name;
use crate::objects::object;
use crate::refused::sum_members;
use crate::replies::{Checkpoint, Running, Stats};
use std::alloc::Global;
use tf_group::id_text;
use tf_model::{Key, List, OutOfMemory, SumRange, Tree};

pub(crate) fn stats_members(alloc: Global, stats: &Stats) -> Result<List<Member>, OutOfMemory>
    ensures { IfOk result (λ members. members ≡ spec.stats_members stats.now) }
{
    let checkpointing = member(alloc, "checkpointing", checkpointing(alloc, stats)?)?;
    let id = text(alloc, "id", stats.id.as_str())?;
    let late = count(alloc, "late", stats.late)?;
    let state = text(alloc, "state", state_name(stats.state))?;
    let counts = member(alloc, "stats", counts(alloc, stats)?)?;
    let mut members = reason_members(alloc, stats.reason.as_ref())?;
    members.append(listed(alloc, [checkpointing, id, late, state, counts])?)?;
    Ok(members)
}

fn reason_members(alloc: Global, reason: Option<&SumRange>) -> Result<List<Member>, OutOfMemory>
    ensures { IfOk result (λ members. members ≡ spec.reason_members (option_copied reason.entry)) }
{
    match reason {
        None => Ok(List::new(alloc)),
        Some(sum) => listed(alloc, [reason_member(alloc, sum)?]),
    }
}

fn reason_member(alloc: Global, sum: &SumRange) -> Result<Member, OutOfMemory>
    ensures { IfOk result (λ member. member ≡ spec.reason_member sum.now) }
{
    let members = sum_members(alloc, sum)?;
    let tree = object(alloc, members)?;
    member(alloc, "reason", tree)
}

fn counts(alloc: Global, stats: &Stats) -> Result<Tree, OutOfMemory>
    ensures { IfOk result (λ tree. tree ≡ spec.counts stats.now) }
{
    let members = count_members(alloc, stats)?;
    object(alloc, members)
}

fn count_members(alloc: Global, stats: &Stats) -> Result<List<Member>, OutOfMemory>
    ensures { IfOk result (λ members. members ≡ spec.count_members stats.now) }
{
    let deleted = count(alloc, "documents_deleted", stats.documents_deleted)?;
    let indexed = count(alloc, "documents_indexed", stats.documents_indexed)?;
    let pages = count(alloc, "pages_processed", stats.pages_processed)?;
    let begins = count(alloc, "trigger_count", stats.trigger_count)?;
    listed(alloc, [deleted, indexed, pages, begins])
}

fn checkpointing(alloc: Global, stats: &Stats) -> Result<Tree, OutOfMemory>
    ensures { IfOk result (λ tree. tree ≡ spec.checkpointing stats.now) }
{
    let members = checkpointing_members(alloc, stats)?;
    object(alloc, members)
}

fn checkpointing_members(alloc: Global, stats: &Stats) -> Result<List<Member>, OutOfMemory>
    ensures { IfOk result (λ members. members ≡ spec.checkpointing_members stats.now) }
{
    let last = member(alloc, "last", last_tree(alloc, stats.last.as_ref())?)?;
    let behind = count(alloc, "operations_behind", stats.operations_behind)?;
    let mut members = next_members(alloc, stats.next.as_ref())?;
    members.append(listed(alloc, [last, behind])?)?;
    Ok(members)
}

fn last_tree(alloc: Global, last: Option<&Checkpoint>) -> Result<Tree, OutOfMemory>
    ensures { IfOk result (λ tree. tree ≡ spec.last_tree (option_copied last.entry)) }
{
    let members = last_members(alloc, last)?;
    object(alloc, members)
}

fn last_members(alloc: Global, last: Option<&Checkpoint>) -> Result<List<Member>, OutOfMemory>
    ensures { IfOk result (λ members. members ≡ spec.last_members (option_copied last.entry)) }
{
    match last {
        None => listed(alloc, [count(alloc, "checkpoint", 0)?]),
        Some(checkpoint) => checkpoint_members(alloc, checkpoint),
    }
}

fn checkpoint_members(alloc: Global, checkpoint: &Checkpoint) -> Result<List<Member>, OutOfMemory>
    ensures { IfOk result (λ members. members ≡ spec.checkpoint_members checkpoint.now) }
{
    let place = count(alloc, "checkpoint", checkpoint.number)?;
    let began = number(alloc, "timestamp_millis", i128::from(checkpoint.began_ms))?;
    let mut members = bound_members(alloc, checkpoint.bound_ms)?;
    members.append(listed(alloc, [place, began])?)?;
    Ok(members)
}

fn bound_members(alloc: Global, bound_ms: Option<i64>) -> Result<List<Member>, OutOfMemory>
    ensures { IfOk result (λ members. members ≡ spec.bound_members bound_ms) }
{
    match bound_ms {
        None => Ok(List::new(alloc)),
        Some(ms) => {
            let bound = number(alloc, "time_upper_bound_millis", i128::from(ms))?;
            listed(alloc, [bound])
        }
    }
}

fn next_members(alloc: Global, next: Option<&Running>) -> Result<List<Member>, OutOfMemory>
    ensures { IfOk result (λ members. members ≡ spec.next_members (option_copied next.entry)) }
{
    match next {
        None => Ok(List::new(alloc)),
        Some(running) => listed(alloc, [next_member(alloc, running)?]),
    }
}

fn next_member(alloc: Global, running: &Running) -> Result<Member, OutOfMemory>
    ensures { IfOk result (λ member. member ≡ spec.next_member running.now) }
{
    let mut members = checkpoint_members(alloc, &running.checkpoint)?;
    let position = position_tree(alloc, running.position.as_ref())?;
    members.push(member(alloc, "position", position)?)?;
    let tree = object(alloc, members)?;
    member(alloc, "next", tree)
}

fn position_tree(alloc: Global, position: Option<&Key>) -> Result<Tree, OutOfMemory>
    ensures { IfOk result (λ tree. tree ≡ spec.position_tree (option_copied position.entry)) }
{
    match position {
        None => Ok(Tree::Null),
        Some(key) => Ok(Tree::Str(id_text(alloc, key)?)),
    }
}
