// What a command asks for after a history.
ghost use Rattle.std.specs.Prelude.{◌≡◌, ◌≤◌, IfOk, reverse};
ghost use Rattle.tf_command.specs.Formed.{IsFormedOp};
ghost use Rattle.tf_decide.specs.Asking as spec;
ghost use Rattle.tf_decide.specs.Ready.{IsReady};

use crate::asked::{Answer, Asked};
use crate::bulk::ask_bulk;
use crate::documents::ask_index_document;
use crate::giving::Given;
use crate::indices::ask_index;
use crate::making::{told, unsupported};
use crate::rows::ask_search;
use crate::starting::ask_start;
use crate::stepping::ask_step;
use crate::transforms::ask_put;
use std::alloc::Global;
use tf_command::Op;
use tf_core::Core;
use tf_model::OutOfMemory;

/// What a command asks for after the history of a core, by an actor, where a moment is given. The other commands are not
/// built.
pub fn ask(alloc: Global, core: &Core, op: &Op, given: &Given) -> Result<Asked, OutOfMemory>
    requires formed { IsFormedOp op.now }
    requires actor { given.now.actor ≤ 15 }
    ensures asked { IfOk result (λ asked. asked ≡ spec.asked (reverse core.now.history) given.now.actor given.now.at_ms op.now) }
    ensures ready { IfOk result (IsReady (reverse core.now.history)) }
{
    match op {
        Op::CreateIndex {
            index,
            mappings,
            shards,
            stamp,
            ..
        } => ask_index(alloc, core, index, mappings, *shards, stamp, given),
        Op::Index { index, id, doc } => { ask_index_document(alloc, core, index, id, doc, given) }
        Op::Bulk { index, docs } => ask_bulk(alloc, core, index, docs, given),
        Op::PutTransform { id, config } => ask_put(alloc, core, id, config, given),
        Op::Start { id } => ask_start(alloc, core, id, given),
        Op::Step { id } => ask_step(alloc, core, id),
        Op::Settle => Ok(told(alloc, Answer::Settled)),
        Op::Search { index, size, after } => ask_search(alloc, core, index, *size, after),
        _ => Ok(unsupported(alloc)),
    }
}
