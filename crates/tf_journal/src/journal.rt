// Appending to a journal.
ghost use Rattle.std.specs.Prelude.{◌≡◌, ◌<◌, ◌≤◌, ◌+◌, [], ◌∷◌, ◌++◌, List, ℕ, None, is_some, length, IfOk, IfErr, OnErr, OnOk};
ghost use Rattle.tf_model.specs.Causes.{HasCause};
ghost use Rattle.tf_disk.specs.Disk.{Tells, IsUntouched};
ghost use Rattle.tf_journal.specs.Frames.{IsBody, reading, whole};
ghost use Rattle.tf_journal.specs.Crashes.{LeavesOnly, IsBeforeOrAfter};
ghost use Rattle.tf_journal.specs.Answers.{AppendAnswers, broken_after, OnNoCall};
ghost use Rattle.tf_journal.specs.Standing.{EndsAt, StandsFor, IsKnown, IsKnownAfter, disk_of, file_len, broken_at, opened_at};

use crate::error::JournalError;
use crate::frame::Frame;
use crate::state::Journal;
use crate::through::write_through;
use tf_disk::Disk;
use tf_model::Failed;

// A file has at most so many bytes.
const LIMIT: u64 = 1 << 40;

impl<D: Disk> Journal<D> {
    /// Appends a frame that has at least one byte, by four calls of the disk: one write of its length, its body
    /// and a new closed gate behind the last gate, a sync, one write of 1 into the gate that was the last, and
    /// a sync. At `Ok` each crash leaves a file that has the frame. Takes no memory.
    ///
    /// `DiskFault` comes only where a call of the disk failed in this call, and the journal is then broken: a
    /// crash leaves the frames from before, with this one or without. `Broken` comes exactly where an earlier
    /// append answered `DiskFault`, with the count of that time. `Full` comes exactly where the journal is not
    /// broken and the file would be longer than 2^40 bytes. After these two nothing has changed.
    pub fn append(&mut self, frame: &Frame) -> Result<(), JournalError>
        requires { 0 < length frame.now }
        ensures answer { AppendAnswers (broken_at self.old) (file_len self.old) (length frame.now + 9) (D.meaning.faults (disk_of self.old)) (D.meaning.faults (disk_of self.new)) result }
        ensures broken { broken_at self.new ≡ broken_after (broken_at self.old) result }
        ensures no_call { OnNoCall result (self.new ≡ self.old) }
        ensures end { OnErr result (file_len self.new ≡ file_len self.old) }

        // The frames are those from before it and the new one.
        ensures frames { (frames : List (List ℕ)) → StandsFor D.meaning frames self.old → OnOk result (StandsFor D.meaning (frames ++ frame.now ∷ []) self.new) }

        // A crash at any moment of the call leaves the frames from before it, with the new one or without.
        ensures any_moment { (frames : List (List ℕ)) → StandsFor D.meaning frames self.old → LeavesOnly D.meaning (disk_of self.old) (disk_of self.new) (IsBeforeOrAfter frames frame.now) }

        // What is known of a journal is known after each call.
        ensures known { (synced : D) (first : List (List ℕ)) (frames : List (List ℕ)) (failed : List ℕ) → IsKnown D.meaning synced first frames failed self.old
            → IsKnownAfter D.meaning synced first frames failed frame.now self.new result }

        ensures opened { opened_at self.new ≡ opened_at self.old }
        ensures later { D.meaning.faults (disk_of self.old) ≤ D.meaning.faults (disk_of self.new) }
        ensures tells { is_some (D.meaning.seen (disk_of self.new)) ≡ is_some (D.meaning.seen (disk_of self.old)) }
    {
        if let Some(count) = self.broken {
            return Err(JournalError::Broken { count });
        }
        let size = frame.spelling().len() as u64;
        if size > LIMIT.saturating_sub(self.len) {
            return Err(JournalError::Full { len: self.len });
        }
        match write_frame(&mut self.disk, self.len, frame) {
            Ok(()) => {
                self.len += size;
                Ok(())
            }
            Err(Failed) => {
                let count = self.disk.faults();
                self.broken = Some(count);
                Err(JournalError::DiskFault { count })
            }
        }
    }

    /// The disk. Takes no memory.
    pub fn into_disk(self) -> D
        ensures { result ≡ disk_of self }
    {
        let Journal {
            disk,
            len: _,
            broken: _,
            opened: _,
        } = self;
        disk
    }
}

// Writes a frame behind the closed gate at the file's end, and then opens the gate.
fn write_frame<D: Disk>(disk: &mut D, end: u64, frame: &Frame) -> Result<(), Failed>
    requires { 1 ≤ end }
    ensures ends { (frames : List (List ℕ)) → EndsAt D.meaning frames end disk.old → 0 < length frame.now → OnOk result (EndsAt D.meaning (frames ++ frame.now ∷ []) (end + (length frame.now + 9)) disk.new) }
    ensures any_moment { (frames : List (List ℕ)) → EndsAt D.meaning frames end disk.old → 0 < length frame.now → LeavesOnly D.meaning disk.old disk.new (IsBeforeOrAfter frames frame.now) }
    ensures cause { HasCause (D.meaning.faults disk.old) (D.meaning.faults disk.new) result }
    ensures tells { is_some (D.meaning.seen disk.new) ≡ is_some (D.meaning.seen disk.old) }
{
    let bytes = frame.spelling();
    write_through(disk, end, bytes)?;
    write_through(disk, end - 1, &[1])?;
    Ok(())
}
