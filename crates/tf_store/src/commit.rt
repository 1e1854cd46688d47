// Committing entries.
ghost use Rattle.std.specs.Prelude.{◌≡◌, ◌≤◌, ◌+◌, ◌++◌, List, ℕ, None, is_some, length, IfOk, OnErr, OnOk};
ghost use Rattle.tf_model.specs.declared.entry.Entry.{Entry};
ghost use Rattle.tf_journal.specs.Crashes.{LeavesOnly};
ghost use Rattle.tf_event.specs.Entries.{FitsEntry, IsBody, spelled_entries, spelled_entry};
ghost use Rattle.tf_event.specs.declared.grammar.Grammar.TheVariants.{First};
ghost use Rattle.tf_core.specs.Kept.{entry_of};
ghost use Rattle.tf_core.specs.Legal.{AreTakenAfter};
ghost use Rattle.tf_store.specs.Crashes.{IsBeforeOrAfter};
ghost use Rattle.tf_store.specs.Standing.{StandsFor};
ghost use Rattle.tf_store.specs.Answers.{CommitAnswers, OnNoCall, frame_size, history_after, broken_after, failed_after};

use crate::error::StoreError;
use crate::state::Store;
use std::alloc::Global;
use std::snapshot::Snapshot;
use tf_core::{Kept, Ready};
use tf_disk::Disk;
use tf_event::{encode, encode_write};
use tf_journal::{Frame, JournalError};
use tf_model::{Entry, List, OutOfMemory};

impl<D: Disk> Store<D> {
    ghost use Rattle.tf_store.specs.Words.{history_of, failed_of, found_of, opened_with, journal_of, disk_of, file_len, broken_at, opened_at};

    /// Makes the history longer by these entries, as one frame of the file, and answers how many it then has. All
    /// memory is taken before the first call of the disk.
    ///
    /// `Disk` comes only where a call of the disk failed in this call. The store is then broken: its history is as
    /// before, and a crash may leave it with these entries behind it or without them. `Broken` comes exactly where
    /// an earlier call answered `Disk`, with the count of that time. `Full` comes exactly where the store is not
    /// broken and the file would be longer than 2^40 bytes. After `Memory`, `Broken` and `Full` all is as before.
    pub fn commit(&mut self, entries: List<Entry>) -> Result<u64, StoreError>
        requires body { IsBody First entries }
        requires taken { AreTakenAfter (history_of self.old) entries }
        ensures answer { CommitAnswers (broken_at self.old) (file_len self.old) (frame_size entries) (length (history_of self.old ++ entries)) (D.meaning.faults (disk_of self.old)) (D.meaning.faults (disk_of self.new)) result }
        ensures history { history_of self.new ≡ history_after (history_of self.old) entries result }
        ensures broken { broken_at self.new ≡ broken_after (broken_at self.old) result }
        ensures failed { failed_of self.new ≡ failed_after (failed_of self.old) entries result }
        ensures no_call { OnNoCall result (journal_of self.new ≡ journal_of self.old) }

        // The history of the file is the one from before it, followed by the entries.
        ensures stands { StandsFor D.meaning (history_of self.old) (file_len self.old) (disk_of self.old)
            → OnOk result (StandsFor D.meaning (history_of self.old ++ entries) (file_len self.new) (disk_of self.new)) }

        // A crash at any moment of the call leaves the history from before it, with the entries or without them.
        ensures any_moment { StandsFor D.meaning (history_of self.old) (file_len self.old) (disk_of self.old)
            → LeavesOnly D.meaning (disk_of self.old) (disk_of self.new) (IsBeforeOrAfter (history_of self.old) entries) }

        ensures len { OnOk result (file_len self.new ≡ file_len self.old + frame_size entries) }
        ensures same_len { OnErr result (file_len self.new ≡ file_len self.old) }
        ensures found { found_of self.new ≡ found_of self.old }
        ensures opened { (opened_at self.new ≡ opened_at self.old) × (opened_with self.new ≡ opened_with self.old) }
        ensures later { D.meaning.faults (disk_of self.old) ≤ D.meaning.faults (disk_of self.new) }
        ensures tells { is_some (D.meaning.seen (disk_of self.new)) ≡ is_some (D.meaning.seen (disk_of self.old)) }
    {
        if let Some(count) = self.broken {
            return Err(StoreError::Broken { count });
        }
        let asked = Snapshot::of(&entries);
        let ready = self.core.prepare(entries)?;
        let frame = frame_of(self.alloc, &ready)?;
        match self.journal.append(&frame) {
            Ok(()) => {
                self.core.apply(ready);
                Ok(self.core.count())
            }
            Err(JournalError::DiskFault { count }) => {
                self.failed = asked;
                self.broken = Some(count);
                Err(StoreError::Disk { count })
            }
            Err(JournalError::Full { len }) => Err(StoreError::Full { len }),
            Err(JournalError::Broken { count }) => Err(StoreError::Broken { count }),
            Err(JournalError::Memory | JournalError::Damaged { .. }) => Err(StoreError::Memory),
        }
    }
}

// The frame that spells entries that are ready.
fn frame_of(alloc: Global, ready: &Ready) -> Result<Frame, OutOfMemory>
    requires { IsBody First ready.now.entries }
    ensures { IfOk result (λ frame. frame ≡ spelled_entries First ready.now.entries) }
{
    let body = body_of(alloc, ready)?;
    Frame::of(alloc, &body)
}

// The spellings of entries that are ready, one after another.
fn body_of(alloc: Global, ready: &Ready) -> Result<List<u8>, OutOfMemory>
    requires { IsBody First ready.now.entries }
    ensures { IfOk result (λ body. body ≡ spelled_entries First ready.now.entries) }
{
    let mut body = List::new(alloc);
    let count = ready.len();
    for at in 0..count {
        encode_kept(alloc, ready.get(at), &mut body)?;
    }
    Ok(body)
}

// Appends the spelling of an entry. The document of a Write has been printed already.
fn encode_kept(alloc: Global, kept: &Kept, out: &mut List<u8>) -> Result<(), OutOfMemory>
    requires { FitsEntry First (entry_of kept.now) }
    ensures { OnOk result (out.new ≡ out.old ++ spelled_entry First (entry_of kept.now)) }
{
    match kept {
        Kept::Write { at_ms, actor, doc } => encode_write(alloc, *at_ms, *actor, doc, out),
        Kept::Other(entry) => encode(alloc, entry, out),
    }
}
