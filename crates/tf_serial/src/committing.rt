// Committing one entry.
ghost use Rattle.std.specs.Prelude.{◌≡◌, ◌∷◌, ◌++◌, [], IfErr, IfOk, OnOk, reverse};
ghost use Rattle.tf_serial.specs.Frames.{IsOnly};
ghost use Rattle.tf_serial.specs.Parts.{Fits, IsNext, Runs, Stops};
ghost use Rattle.tf_store.specs.Words.{broken_at, history_of};

use std::alloc::Global;
use tf_disk::Disk;
use tf_model::{Entry, List, OutOfMemory};
use tf_store::{Store, StoreError};

/// Makes the history longer by an entry, as one frame of the file.
pub fn commit_entry<D: Disk>(
    alloc: Global,
    store: &mut Store<D>,
    entry: Entry,
) -> Result<(), StoreError>
    requires next { IsNext (reverse (history_of store.old)) entry }
    ensures after { OnOk result (history_of store.new ≡ history_of store.old ++ entry ∷ []) }
    ensures broken { OnOk result (broken_at store.new ≡ broken_at store.old) }
    ensures within { OnOk result (Fits store.old store.new) }
    ensures stops { IfErr result (Stops D.meaning (IsOnly (history_of store.old) (entry ∷ [])) store.old (history_of store.old ++ entry ∷ []) store.new) }
    ensures runs { Runs D.meaning store.old store.new }
{
    let entries = alone(alloc, entry)?;
    match store.commit(entries) {
        Ok(_) => Ok(()),
        Err(error) => Err(error),
    }
}

// The list of one entry.
fn alone(alloc: Global, entry: Entry) -> Result<List<Entry>, OutOfMemory>
    ensures { IfOk result (λ entries. entries ≡ entry ∷ []) }
{
    let mut entries = List::new(alloc);
    entries.push(entry)?;
    Ok(entries)
}
