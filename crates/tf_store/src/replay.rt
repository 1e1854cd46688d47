// Taking the entries of frames, each after those before it.
ghost use Rattle.std.specs.Prelude.{◌≡◌, ◌++◌, [], ◌∷◌, List, true, false, reverse, IfOk, IfErr};
ghost use Rattle.tf_model.specs.declared.entry.Entry.{Entry};
ghost use Rattle.tf_core.specs.Legal.{AreTakenAfter, IsTaken};
ghost use Rattle.tf_store.specs.Histories.{Spells, Holds, IsDamagedAfter};
ghost use Rattle.tf_store.specs.Answers.{IsReplayRefusal, TakesEntries, TakesBody};

use crate::error::OpenError;
use std::alloc::Global;
use tf_core::Core;
use tf_event::decode;
use tf_journal::Frame;
use tf_model::{Entry, List, OutOfMemory};

/// The core whose history is the entries of the frames. `Damaged` tells the first frame whose body spells no
/// entries that are taken after those before it.
pub(crate) fn replay(alloc: Global, frames: List<Frame>) -> Result<Core, OpenError>
    ensures holds { IfOk result (λ core. Holds frames core.history) }
    ensures refused { IfErr result (IsReplayRefusal frames) }
{
    let mut core = Core::new(alloc);
    let count = frames.len() as u64;
    let mut left = count;
    for frame in frames.into_vec() {
        left -= 1;
        if !take_body(alloc, &mut core, frame.body())? {
            return Err(OpenError::Damaged {
                frame: count - left,
            });
        }
    }
    Ok(core)
}

// Takes the entries that a body spells. It says no where the body is damaged.
fn take_body(alloc: Global, core: &mut Core, body: &[u8]) -> Result<bool, OutOfMemory>
    ensures { IfOk result (TakesBody core.old.history body.now core.new.history) }
{
    match decode(alloc, body)? {
        Some(entries) => take_entries(alloc, core, entries),
        None => Ok(false),
    }
}

// Takes entries one after the other. It says no where one of them is not taken.
fn take_entries(alloc: Global, core: &mut Core, entries: List<Entry>) -> Result<bool, OutOfMemory>
    ensures { IfOk result (TakesEntries core.old.history entries core.new.history) }
{
    for entry in entries.into_vec() {
        if !core.allowed(&entry)? {
            return Ok(false);
        }
        take_entry(alloc, core, entry)?;
    }
    Ok(true)
}

// Takes one entry.
fn take_entry(alloc: Global, core: &mut Core, entry: Entry) -> Result<(), OutOfMemory>
    requires { IsTaken (reverse core.old.history) entry }
    ensures { IfOk result (λ done. core.new.history ≡ core.old.history ++ entry ∷ []) }
{
    let mut one = List::with_capacity(alloc, 1)?;
    one.push(entry)?;
    let ready = core.prepare(one)?;
    core.apply(ready);
    Ok(())
}
