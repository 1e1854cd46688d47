// What a command does.
ghost use Rattle.std.specs.Prelude.{◌≡◌, ◌≤◌, IfOk, reverse};
ghost use Rattle.std.specs.List.{AllByRecursion};
ghost use Rattle.tf_event.specs.Entries.{FitsEntry};
ghost use Rattle.tf_event.specs.declared.grammar.Grammar.TheVariants.{First};
ghost use Rattle.tf_core.specs.Legal.{AreTakenAfter};
ghost use Rattle.tf_decide.specs.Asking.{asked};
ghost use Rattle.tf_decide.specs.Ready.{IsReady};
ghost use Rattle.tf_decide.specs.Replying.{past_after, replied, reply_by};

use crate::asked::Asked;
use crate::asking::ask;
use crate::giving::given_by;
use crate::replying::reply_to;
use std::alloc::Global;
use tf_command::Command;
use tf_core::Core;
use tf_model::{Entry, List, OutOfMemory};
use tf_reply::Reply;

/// What a command does: the entries that it makes, and the reply to it when they are there. A command that is refused makes
/// none.
#[derive(Drop)]
pub struct Decision {
    pub entries: List<Entry>,
    pub reply: Reply,
}

/// What a command does after the history of a core, by an actor, where a moment is given, in milliseconds since 1970. A
/// document is copied into its entry.
pub fn decide(
    alloc: Global,
    core: &Core,
    command: &Command,
    actor: u8,
    now: i64,
) -> Result<Decision, OutOfMemory>
    requires actor { actor ≤ 15 }
    ensures entries { IfOk result (λ d. d.entries ≡ (asked (reverse core.now.history) actor now command.now.op).entries) }
    ensures reply { IfOk result (λ d. d.reply ≡ replied (reverse core.now.history) actor now command.now) }
    // Each of the entries is taken after those before it, and has a spelling.
    ensures taken { IfOk result (λ d. AreTakenAfter core.now.history d.entries) }
    ensures spelled { IfOk result (λ d. AllByRecursion (FitsEntry First) d.entries) }
{
    core.is_taken();
    let parts = command.parts();
    let given = given_by(actor, now);
    let asked = ask(alloc, core, &parts.op, &given)?;
    decided(alloc, core, parts.line, asked)
}

// What is asked for, with its reply.
fn decided(alloc: Global, core: &Core, line: u64, asked: Asked) -> Result<Decision, OutOfMemory>
    requires ready { IsReady (reverse core.now.history) asked }
    ensures entries { IfOk result (λ d. d.entries ≡ asked.entries) }
    ensures reply { IfOk result (λ d. d.reply ≡ reply_by line (reverse core.now.history) (past_after (reverse core.now.history) asked) asked.answer) }
{
    let Asked { entries, answer } = asked;
    let reply = reply_to(alloc, core, line, &entries, answer)?;
    Ok(Decision { entries, reply })
}
