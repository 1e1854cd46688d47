// How a transform stands.
ghost use Rattle.std.specs.Prelude.{◌≡◌, IfOk};
ghost use Rattle.tf_reply.specs.Answers as spec;

use crate::members::{Member, count, listed, text};
use crate::naming::state_name;
use std::alloc::Global;
use tf_model::{List, OutOfMemory, State, Text};

pub(crate) fn task_members(
    alloc: Global,
    id: &Text,
    state: State,
    checkpoint: u64,
) -> Result<List<Member>, OutOfMemory>
    ensures { IfOk result (λ members. members ≡ spec.task_members id.now state checkpoint) }
{
    let checkpoint = count(alloc, "checkpoint", checkpoint)?;
    let id = text(alloc, "id", id.as_str())?;
    let state = text(alloc, "state", state_name(state))?;
    listed(alloc, [checkpoint, id, state])
}

/// A transform that was deleted.
pub(crate) fn deleted_members(alloc: Global, id: &Text) -> Result<List<Member>, OutOfMemory>
    ensures { IfOk result (λ members. members ≡ spec.deleted_members id.now) }
{
    let id = text(alloc, "id", id.as_str())?;
    let result = text(alloc, "result", "deleted")?;
    listed(alloc, [id, result])
}
