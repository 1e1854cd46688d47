// Transforms that are started.
ghost use Rattle.std.specs.Prelude.{◌≡◌, ◌≤◌, IfOk, reverse};
ghost use Rattle.tf_command.specs.Formed.{IsShort};
ghost use Rattle.tf_decide.specs.Asking as spec;
ghost use Rattle.tf_decide.specs.Ready.{IsReady};

use crate::asked::{Answer, Asked};
use crate::finding::standing_of;
use crate::giving::Given;
use crate::making::{entry_after, made, refused, text_is_utf8};
use crate::standing::Standing;
use std::alloc::Global;
use tf_core::Core;
use tf_model::{Kind, OutOfMemory, State, Text, is_transform_id};
use tf_reply::Refusal;

/// A transform is started.
pub fn ask_start(alloc: Global, core: &Core, id: &Text, given: &Given) -> Result<Asked, OutOfMemory>
    requires id { IsShort id.now }
    requires actor { given.now.actor ≤ 15 }
    ensures asked { IfOk result (λ asked. asked ≡ spec.asked_start (reverse core.now.history) given.now.actor given.now.at_ms id.now) }
    ensures ready { IfOk result (IsReady (reverse core.now.history)) }
{
    let id = id.copy(alloc)?;
    start_asked(alloc, core, id, given)
}

// The transform of this id is started.
fn start_asked(alloc: Global, core: &Core, id: Text, given: &Given) -> Result<Asked, OutOfMemory>
    requires id { IsShort id }
    requires actor { given.now.actor ≤ 15 }
    ensures asked { IfOk result (λ asked. asked ≡ spec.asked_start (reverse core.now.history) given.now.actor given.now.at_ms id) }
    ensures ready { IfOk result (IsReady (reverse core.now.history)) }
{
    if !is_transform_id(id.as_str()) {
        return Ok(refused(alloc, Refusal::BadName { name: id }));
    }
    match standing_of(core, &id) {
        None => Ok(refused(alloc, Refusal::NoSuchTransform { id })),
        Some(standing) => start_by(alloc, core, id, &standing, given),
    }
}

// A transform that is there is started: one that is stopped, and no batch transform whose checkpoint is finished.
fn start_by(
    alloc: Global,
    core: &Core,
    id: Text,
    standing: &Standing,
    given: &Given,
) -> Result<Asked, OutOfMemory>
    requires id { IsShort id }
    requires actor { given.now.actor ≤ 15 }
    ensures asked { IfOk result (λ asked. asked ≡ spec.start_by (reverse core.now.history) given.now.actor given.now.at_ms id standing.now.state standing.now.is_over) }
    ensures ready { IfOk result (IsReady (reverse core.now.history)) }
{
    let state = standing.state;
    match state {
        State::Started | State::Indexing | State::Stopping => {
            Ok(refused(alloc, Refusal::AlreadyStarted { id, state }))
        }
        State::Failed => Ok(refused(alloc, Refusal::IsFailed { id, state })),
        State::Stopped => {
            if standing.is_over {
                Ok(refused(alloc, Refusal::AlreadyFinished { id, state }))
            } else {
                start_made(alloc, core, id, given)
            }
        }
    }
}

fn start_made(alloc: Global, core: &Core, id: Text, given: &Given) -> Result<Asked, OutOfMemory>
    requires id { IsShort id }
    requires actor { given.now.actor ≤ 15 }
    ensures asked { IfOk result (λ asked. asked ≡ spec.start_made (reverse core.now.history) given.now.actor given.now.at_ms id) }
    ensures ready { IfOk result (IsReady (reverse core.now.history)) }
{
    core.is_taken();
    text_is_utf8(&id);
    let told = id.copy(alloc)?;
    let entry = entry_after(core, given, Kind::Start { id });
    made(alloc, entry, Answer::Started(told))
}
