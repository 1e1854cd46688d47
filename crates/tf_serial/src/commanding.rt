// Doing a command.
ghost use Rattle.std.specs.Prelude.{◌≡◌, ◌++◌, IfErr, IfOk, OnOk, false, reverse, true};
ghost use Rattle.tf_decide.specs.Replying.{replied};
ghost use Rattle.tf_serial.specs.Following.{followed, is_followed as has_moves, moves_of};
ghost use Rattle.tf_serial.specs.Frames.{IsFollowing, IsOfCommand, IsOnly};
ghost use Rattle.tf_serial.specs.Parts.{Fits, Runs, Stops};
ghost use Rattle.tf_serial.specs.Script as spec;
ghost use Rattle.tf_serial.specs.Script.{after_command, reply_of};
ghost use Rattle.tf_store.specs.Commands.{entries_of};
ghost use Rattle.tf_store.specs.Words.{broken_at, history_of};

use crate::settling::{settle, step};
use std::alloc::Global;
use tf_command::{Command, Op};
use tf_core::Core;
use tf_decide::may_step;
use tf_disk::Disk;
use tf_reply::Reply;
use tf_store::{Store, StoreError};

/// Does a command, and gives the reply.
pub fn do_command<D: Disk>(
    alloc: Global,
    store: &mut Store<D>,
    command: &Command,
) -> Result<Reply, StoreError>
    ensures reply { IfOk result (λ reply. reply ≡ reply_of (reverse (history_of store.old)) command.now) }
    ensures after { OnOk result (reverse (history_of store.new) ≡ after_command (reverse (history_of store.old)) command.now) }
    ensures broken { OnOk result (broken_at store.new ≡ broken_at store.old) }
    ensures within { OnOk result (Fits store.old store.new) }
    ensures stops { IfErr result (Stops D.meaning (IsOfCommand (reverse (history_of store.old)) command.now) store.old (reverse (after_command (reverse (history_of store.old)) command.now)) store.new) }
    ensures runs { Runs D.meaning store.old store.new }
{
    if is_followed(store.core(), &command.parts().op) {
        do_moves(alloc, store, command)
    } else {
        do_entries(store, command)
    }
}

// Whether moves may follow an op.
fn is_followed(core: &Core, op: &Op) -> bool
    ensures { result ≡ has_moves (reverse core.now.history) op.now }
{
    match op {
        Op::Settle => true,
        Op::Step { id } => may_step(core, id),
        _ => false,
    }
}

// The moment that a command gives, or that of the newest entry where it gives none.
#[tactic(auto, using(tf_core::proofs::LastMoment::last_is_newest))]
fn given<D: Disk>(store: &Store<D>, command: &Command) -> i64
    ensures { result ≡ spec.given (reverse (history_of store.now)) command.now }
{
    match command.parts().at_ms {
        Some(at_ms) => at_ms,
        None => store.last_ms(),
    }
}

// Makes the moves that follow a command, and gives the reply.
fn do_moves<D: Disk>(
    alloc: Global,
    store: &mut Store<D>,
    command: &Command,
) -> Result<Reply, StoreError>
    requires followed { has_moves (reverse (history_of store.old)) command.now.op ≡ true }
    ensures reply { IfOk result (λ reply. reply ≡ reply_of (reverse (history_of store.old)) command.now) }
    ensures after { OnOk result (reverse (history_of store.new) ≡ after_command (reverse (history_of store.old)) command.now) }
    ensures broken { OnOk result (broken_at store.new ≡ broken_at store.old) }
    ensures within { OnOk result (Fits store.old store.new) }
    ensures stops { IfErr result (Stops D.meaning (IsOfCommand (reverse (history_of store.old)) command.now) store.old (reverse (after_command (reverse (history_of store.old)) command.now)) store.new) }
    ensures runs { Runs D.meaning store.old store.new }
{
    let from = store.count();
    let moment = given(store, command);
    match make_following(alloc, store, &command.parts().op, moment) {
        Ok(()) => {}
        Err(error) => return Err(error),
    }
    let reply = store.reply(command, from)?;
    Ok(reply)
}

// Makes the moves that an op asks for, each as one frame of the file.
fn make_following<D: Disk>(
    alloc: Global,
    store: &mut Store<D>,
    op: &Op,
    moment: i64,
) -> Result<(), StoreError>
    ensures after { OnOk result (reverse (history_of store.new) ≡ followed moment (moves_of op.now) (reverse (history_of store.old))) }
    ensures broken { OnOk result (broken_at store.new ≡ broken_at store.old) }
    ensures within { OnOk result (Fits store.old store.new) }
    ensures stops { IfErr result (Stops D.meaning (IsFollowing moment (moves_of op.now) (reverse (history_of store.old))) store.old (reverse (followed moment (moves_of op.now) (reverse (history_of store.old)))) store.new) }
    ensures runs { Runs D.meaning store.old store.new }
{
    match op {
        Op::Settle => settle(alloc, store, moment),
        Op::Step { id } => step(alloc, store, id, moment),
        _ => Ok(()),
    }
}

// Commits the entries of a command that no move follows, and gives the reply.
fn do_entries<D: Disk>(store: &mut Store<D>, command: &Command) -> Result<Reply, StoreError>
    requires alone { has_moves (reverse (history_of store.old)) command.now.op ≡ false }
    ensures reply { IfOk result (λ reply. reply ≡ reply_of (reverse (history_of store.old)) command.now) }
    ensures after { OnOk result (reverse (history_of store.new) ≡ after_command (reverse (history_of store.old)) command.now) }
    ensures broken { OnOk result (broken_at store.new ≡ broken_at store.old) }
    ensures within { OnOk result (Fits store.old store.new) }
    ensures stops { IfErr result (Stops D.meaning (IsOfCommand (reverse (history_of store.old)) command.now) store.old (reverse (after_command (reverse (history_of store.old)) command.now)) store.new) }
    ensures runs { Runs D.meaning store.old store.new }
{
    let moment = given(store, command);
    submit(store, command, moment)
}

// Commits the entries of a command at a moment, and gives the reply to them.
fn submit<D: Disk>(
    store: &mut Store<D>,
    command: &Command,
    moment: i64,
) -> Result<Reply, StoreError>
    ensures reply { IfOk result (λ reply. reply ≡ replied (reverse (history_of store.old)) 0 moment command.now) }
    ensures after { OnOk result (history_of store.new ≡ history_of store.old ++ entries_of (history_of store.old) 0 moment command.now) }
    ensures broken { OnOk result (broken_at store.new ≡ broken_at store.old) }
    ensures within { OnOk result (Fits store.old store.new) }
    ensures stops { IfErr result (Stops D.meaning (IsOnly (history_of store.old) (entries_of (history_of store.old) 0 moment command.now)) store.old (history_of store.old ++ entries_of (history_of store.old) 0 moment command.now) store.new) }
    ensures runs { Runs D.meaning store.old store.new }
{
    store.submit(command, 0, moment)
}
