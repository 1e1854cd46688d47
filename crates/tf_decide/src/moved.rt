// The reply to a command after the moves that follow it.
ghost use Rattle.std.specs.Prelude.{◌≡◌, ◌≤◌, ℕ, ℤ, IfOk, None, is_some, true, length, option_map, reverse, take};
ghost use Rattle.tf_decide.specs.Replying as spec;
ghost use Rattle.tf_decide.specs.Replying.{IsAccepted, replied_after, told_alone};

use crate::asked::Search;
use crate::replying::{shown, task_now};
use std::alloc::Global;
use tf_command::{Command, Op};
use tf_core::Core;
use tf_model::{List, OutOfMemory, Text, Tree};
use tf_reply::Reply;

/// The reply to a command that moves follow, when they are made. The history had `from` entries before the command: by
/// those it is told what the command answers, and what is shown is what the history of the core leaves.
///
/// The command was not refused after those entries, and it writes no documents and asks for no rows above a key: what it
/// answers is then told by the command alone.
pub fn reply(alloc: Global, core: &Core, command: &Command, from: u64) -> Result<Reply, OutOfMemory>
    requires from { from ≤ length core.now.history }
    requires alone { is_some (told_alone command.now.op) ≡ true }
    requires accepted { IsAccepted (reverse (take from core.now.history)) command.now.op }
    ensures { IfOk result (λ reply. (actor : ℕ) (given : ℤ) → reply ≡ replied_after (reverse (take from core.now.history)) (reverse core.now.history) actor given command.now) }
{
    let parts = command.parts();
    let told = reply_alone(alloc, core, parts.line, &parts.op)?;
    match told {
        Some(reply) => Ok(reply),
        None => unreachable!(),
    }
}

// The reply to a command by the history alone, where the command tells what it answers.
fn reply_alone(alloc: Global, core: &Core, line: u64, op: &Op) -> Result<Option<Reply>, OutOfMemory>
    ensures { IfOk result (λ reply. reply ≡ spec.reply_alone line (reverse core.now.history) op.now) }
{
    let no = core.count();
    match op {
        Op::CreateIndex { .. } | Op::PutTransform { .. } => Ok(Some(Reply::Created { line, no })),
        Op::Start { id } => {
            let id = id.copy(alloc)?;
            Ok(Some(task_now(core, line, no, id)))
        }
        Op::Step { id } => {
            let id = id.copy(alloc)?;
            Ok(Some(task_now(core, line, no, id)))
        }
        Op::Settle => Ok(Some(Reply::Settled { line, no })),
        Op::Search { index, size, after } => {
            shown_whole(alloc, core, line, no, index, *size, after)
        }
        _ => Ok(None),
    }
}

// The first rows of a destination, where the rows above a key are not asked for.
fn shown_whole(
    alloc: Global,
    core: &Core,
    line: u64,
    no: u64,
    name: &Text,
    size: u32,
    after: &Option<Tree>,
) -> Result<Option<Reply>, OutOfMemory>
    requires { no ≡ length core.now.history }
    ensures { IfOk result (λ reply. reply ≡ option_map (spec.reply_by line (reverse core.now.history) (reverse core.now.history)) (spec.shown_whole name.now size after.now)) }
{
    match after {
        Some(_) => Ok(None),
        None => {
            let dest = name.copy(alloc)?;
            let reply = shown_now(alloc, core, line, no, first_rows(dest, size))?;
            Ok(Some(reply))
        }
    }
}

// A search for so many of the first rows of a destination.
fn first_rows(dest: Text, size: u32) -> Search
    ensures { result ≡ record { dest = dest; after = None; size = size } }
{
    Search {
        dest,
        after: None,
        size,
    }
}

// The rows of a destination that a search shows by the history of a core.
fn shown_now(
    alloc: Global,
    core: &Core,
    line: u64,
    no: u64,
    search: Search,
) -> Result<Reply, OutOfMemory>
    requires { no ≡ length core.now.history }
    ensures { IfOk result (λ reply. reply ≡ spec.found_now line (reverse core.now.history) search) }
{
    let none = List::new(alloc);
    shown(alloc, core, line, no, &none, &search)
}
