// The lines of a script, done in order.
ghost use Rattle.std.specs.Prelude.{◌≡◌, ◌≤◌, ◌++◌, IfErr, IfOk, IsSome, OnOk, length, reverse, string_bytes};
ghost use mathlib.Core.List.{IsPrefix};
ghost use Rattle.tf_command.specs.Commands.{command_of};
ghost use Rattle.tf_reply.specs.Refusals.{line_refusal};
ghost use Rattle.tf_reply.specs.declared.replies.Reply.TheVariants as reply;
ghost use Rattle.tf_decide.specs.Asking.{refusal_or};
ghost use Rattle.tf_core.specs.Legal.{IsTakenHistory, read};
ghost use Rattle.tf_history.specs.Histories.{AllRight};
ghost use Rattle.tf_serial.specs.Frames.{IsOfLine, IsOfLines, IsOfReading};
ghost use Rattle.tf_serial.specs.Parts.{Fits, Runs, StaysBroken, Stops};
ghost use Rattle.tf_serial.specs.Script.{IsGrouped, after_line, after_reading, history_after, output, reply_to, reply_to_reading};
ghost use Rattle.tf_store.specs.Words.{broken_at, disk_of, found_of, history_of, opened_at, opened_with};

use crate::commanding::do_command;
use std::alloc::Global;
use tf_command::{LineError, is_blank, read_command};
use tf_disk::Disk;
use tf_io::Lines;
use tf_model::OutOfMemory;
use tf_reply::{Reply, line_refusal, write_reply};
use tf_store::{Store, StoreError};

/// Does the lines in order over a store, and gives the replies to them.
///
/// A command makes its entries at the moment that it gives, or at that of the newest entry where it gives none. The entries of
/// a command are one frame, and each move of a settling is one. `Disk` comes only where a call of the disk failed in this
/// call, and `Full` exactly where the next frame would make the file longer than 2^40 bytes. `Broken` comes exactly where the
/// store was broken before and a frame is to be written: lines that make no entry are done on a broken store too. After a
/// refusal the store has the first entries of those that all lines make, and no reply is given.
pub fn run_script<D: Disk>(
    alloc: Global,
    lines: &Lines,
    store: &mut Store<D>,
) -> Result<String, StoreError>
    ensures output { IfOk result (λ text. string_bytes text ≡ output (reverse (history_of store.old)) 1 lines.now) }
    ensures after { OnOk result (history_of store.new ≡ history_after (history_of store.old) lines.now) }
    ensures broken { OnOk result (broken_at store.new ≡ broken_at store.old) }
    // No frame that was written made the file longer than 2^40 bytes.
    ensures within { OnOk result (Fits store.old store.new) }
    ensures stops { IfErr result (Stops D.meaning (IsOfLines (reverse (history_of store.old)) 1 lines.now) store.old (history_after (history_of store.old) lines.now) store.new) }
    // A store that was broken stays so, and its history as it was.
    ensures stuck { StaysBroken (broken_at store.old) (history_of store.old) (broken_at store.new) (history_of store.new) }
    ensures begun { IsPrefix (history_of store.old) (history_of store.new) }
    // The Pages that a settling makes are right.
    ensures right { AllRight (length (history_of store.old)) (read (reverse (history_of store.new))) }
    // Each entry was taken after those before it; where the Pages of the old history are right, the rows of a finished
    // transform are the grouping from scratch, wherever one stands in the new one.
    ensures taken { IsTakenHistory (history_of store.new) }
    ensures grouped { AllRight 0 (read (reverse (history_of store.old))) → IsGrouped (history_of store.new) }
    ensures opened { (opened_at store.new ≡ opened_at store.old) × (opened_with store.new ≡ opened_with store.old) }
    ensures found { found_of store.new ≡ found_of store.old }
    ensures later { D.meaning.faults (disk_of store.old) ≤ D.meaning.faults (disk_of store.new) }
{
    let result = do_lines(alloc, lines, store);
    store.core().is_taken();
    result
}

// Does the lines in order.
fn do_lines<D: Disk>(
    alloc: Global,
    lines: &Lines,
    store: &mut Store<D>,
) -> Result<String, StoreError>
    ensures output { IfOk result (λ text. string_bytes text ≡ output (reverse (history_of store.old)) 1 lines.now) }
    ensures after { OnOk result (history_of store.new ≡ history_after (history_of store.old) lines.now) }
    ensures broken { OnOk result (broken_at store.new ≡ broken_at store.old) }
    ensures within { OnOk result (Fits store.old store.new) }
    ensures stops { IfErr result (Stops D.meaning (IsOfLines (reverse (history_of store.old)) 1 lines.now) store.old (history_after (history_of store.old) lines.now) store.new) }
    ensures runs { Runs D.meaning store.old store.new }
{
    let mut text = String::new(alloc);
    for i in 0..lines.len() {
        let number = i as u64 + 1;
        match do_line(alloc, store, number, lines.get(i), &mut text) {
            Ok(()) => {}
            Err(error) => return Err(error),
        }
    }
    Ok(text)
}

// Does one line, and adds its reply to the text.
fn do_line<D: Disk>(
    alloc: Global,
    store: &mut Store<D>,
    number: u64,
    line: &[u8],
    text: &mut String,
) -> Result<(), StoreError>
    ensures reply { OnOk result (string_bytes text.new ≡ string_bytes text.old ++ reply_to (reverse (history_of store.old)) number line.now) }
    ensures after { OnOk result (reverse (history_of store.new) ≡ after_line (reverse (history_of store.old)) number line.now) }
    ensures broken { OnOk result (broken_at store.new ≡ broken_at store.old) }
    ensures within { OnOk result (Fits store.old store.new) }
    ensures stops { IfErr result (Stops D.meaning (IsOfLine (reverse (history_of store.old)) number line.now) store.old (reverse (after_line (reverse (history_of store.old)) number line.now)) store.new) }
    ensures runs { Runs D.meaning store.old store.new }
{
    if is_blank(line) {
        return Ok(());
    }
    let reply = answer(alloc, store, number, line)?;
    write_reply(alloc, &reply, text)?;
    Ok(())
}

// Does a line that is not blank, and gives the reply.
fn answer<D: Disk>(
    alloc: Global,
    store: &mut Store<D>,
    number: u64,
    line: &[u8],
) -> Result<Reply, StoreError>
    ensures reply { IfOk result (λ reply. reply ≡ reply_to_reading (reverse (history_of store.old)) number (command_of number line.now)) }
    ensures after { OnOk result (reverse (history_of store.new) ≡ after_reading (reverse (history_of store.old)) (command_of number line.now)) }
    ensures broken { OnOk result (broken_at store.new ≡ broken_at store.old) }
    ensures within { OnOk result (Fits store.old store.new) }
    ensures stops { IfErr result (Stops D.meaning (IsOfReading (reverse (history_of store.old)) (command_of number line.now)) store.old (reverse (after_reading (reverse (history_of store.old)) (command_of number line.now))) store.new) }
    ensures runs { Runs D.meaning store.old store.new }
{
    match read_command(alloc, line, number) {
        Ok(command) => do_command(alloc, store, &command),
        Err(error) => {
            let reply = refused(number, store.count(), error)?;
            Ok(reply)
        }
    }
}

// The reply to a line that is no command. Want of memory is handed on.
fn refused(number: u64, count: u64, error: LineError) -> Result<Reply, OutOfMemory>
    ensures reply { IfOk result (λ told. told ≡ reply.Refused number count (refusal_or (line_refusal error))) }
    ensures some { OnOk result (IsSome (line_refusal error)) }
{
    let refusal = line_refusal(error)?;
    Ok(Reply::Refused {
        line: number,
        no: count,
        refusal,
    })
}
