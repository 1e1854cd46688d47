// The next move of a transform.
ghost use Rattle.std.specs.Prelude.{◌≡◌, IfOk, reverse};
ghost use Rattle.tf_decide.specs.Asking as spec;
ghost use Rattle.tf_decide.specs.Ready.{IsReady};

use crate::asked::{Answer, Asked};
use crate::finding::is_transform;
use crate::making::{refused, told};
use std::alloc::Global;
use tf_core::Core;
use tf_model::{OutOfMemory, Text, is_transform_id};
use tf_reply::Refusal;

/// Whether a transform is there that can be asked for its next move. `step` is refused for every other id.
pub fn may_step(core: &Core, id: &Text) -> bool
    ensures { result ≡ spec.may_step (reverse core.now.history) id.now }
{
    is_transform_id(id.as_str()) && is_transform(core, id)
}

/// A transform is to make its next move. This asks for no entry: the move is no entry of the command.
pub fn ask_step(alloc: Global, core: &Core, id: &Text) -> Result<Asked, OutOfMemory>
    ensures asked { IfOk result (λ asked. asked ≡ spec.asked_step (reverse core.now.history) id.now) }
    ensures ready { IfOk result (IsReady (reverse core.now.history)) }
{
    let id = id.copy(alloc)?;
    Ok(step_asked(alloc, core, id))
}

// The transform of this id is to make its next move.
fn step_asked(alloc: Global, core: &Core, id: Text) -> Asked
    ensures asked { result ≡ spec.asked_step (reverse core.now.history) id }
    ensures ready { IsReady (reverse core.now.history) result }
{
    if !is_transform_id(id.as_str()) {
        return refused(alloc, Refusal::BadName { name: id });
    }
    if is_transform(core, &id) {
        told(alloc, Answer::Stepped(id))
    } else {
        refused(alloc, Refusal::NoSuchTransform { id })
    }
}
