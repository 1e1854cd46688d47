// Opening a store.
ghost use Rattle.std.specs.Prelude.{◌≡◌, ◌≤◌, length, None, is_some, IfOk, IfErr};
ghost use Rattle.tf_store.specs.Standing.{IsFound};
ghost use Rattle.tf_store.specs.Answers.{IsOpenRefusal, IsRefusalOf};

use crate::error::OpenError;
use crate::replay::replay;
use crate::state::Store;
use std::alloc::Global;
use std::snapshot::Snapshot;
use tf_core::Core;
use tf_disk::Disk;
use tf_journal::{Journal, JournalError};
use tf_model::List;

impl<D: Disk> Store<D> {
    ghost use Rattle.tf_store.specs.Words.{history_of, found_of, opened_with, disk_of, file_len, broken_at, opened_at};

    /// Opens the file of a disk, whose history is then the store's.
    ///
    /// `DiskFault` comes only where a call of the disk failed in this call. `Damaged` comes exactly where a frame
    /// of the bytes read is damaged, and tells the first such frame. A refusal gives the disk back, which may have
    /// been synced, have lost the bytes behind its last gate, or have got its header again. After every refusal but
    /// `DiskFault` each image since the first sync has what the bytes read have.
    pub fn open(alloc: Global, disk: D) -> Result<Store<D>, (OpenError, D)>
        // The history is that of the bytes that the disk had, and of each image since the first sync.
        ensures found { IfOk result (λ store. IsFound D.meaning disk (disk_of store) (history_of store) (file_len store) (opened_at store)) }
        ensures counts { IfOk result (λ store. (found_of store ≡ length (history_of store)) × (opened_with store ≡ length (history_of store))) }
        ensures whole { IfOk result (λ store. broken_at store ≡ None) }
        ensures refused { IfErr result (λ e. IsOpenRefusal D.meaning disk e.1 e.0) }
        ensures later { IfOk result (λ store. D.meaning.faults disk ≤ D.meaning.faults (disk_of store)) }
        ensures later_refused { IfErr result (λ e. D.meaning.faults disk ≤ D.meaning.faults e.1) }
        ensures tells { IfOk result (λ store. is_some (D.meaning.seen (disk_of store)) ≡ is_some (D.meaning.seen disk)) }
        ensures tells_refused { IfErr result (λ e. is_some (D.meaning.seen e.1) ≡ is_some (D.meaning.seen disk)) }
    {
        match Journal::open(alloc, disk) {
            Ok((journal, frames)) => match replay(alloc, frames) {
                Ok(core) => {
                    let mut core = core;
                    core.found();
                    let count = core.count();
                    Ok(Store {
                        alloc,
                        journal,
                        core,
                        broken: None,
                        failed: Snapshot::of(&List::new(alloc)),
                        opened_with: Snapshot::of(&count),
                    })
                }
                Err(error) => Err((error, journal.into_disk())),
            },
            Err((error, disk)) => Err((refusal(alloc, error), disk)),
        }
    }
}

// Why a store is not opened where its journal is not. A frame before one that is damaged by its bytes may be damaged
// by its body.
fn refusal(alloc: Global, error: JournalError) -> OpenError
    ensures { IsRefusalOf error result }
{
    match error {
        JournalError::DiskFault { count } => OpenError::DiskFault { count },
        JournalError::Damaged { frame, before } => match replay(alloc, before) {
            Ok(_) => OpenError::Damaged { frame },
            Err(error) => error,
        },
        JournalError::Memory | JournalError::Broken { .. } | JournalError::Full { .. } => {
            OpenError::Memory
        }
    }
}
