// Opening a file of frames.
ghost use Rattle.std.specs.Prelude.{◌≡◌, ◌≤◌, ◌+◌, ◌<◌, List, ℕ, None, is_some, length, get_or, IfOk, IfErr, OnOk};
ghost use Rattle.tf_disk.specs.Disk.{Kept, Makes, Tells, IsDurable, IsUntouched};
ghost use Rattle.tf_journal.specs.Frames.{reading, whole, opened};
ghost use Rattle.tf_journal.specs.Answers.{IsReadRefusal, IsOpenRefusal, IsReadOnlyRefusal};
ghost use Rattle.tf_journal.specs.Standing.{IsFound, IsFileRead, StandsFor, IsKnown, disk_of, file_len, broken_at, opened_at};

use crate::error::JournalError;
use crate::frame::Frame;
use crate::reads::read_bytes;
use crate::repair::repair;
use crate::scan::scan_file;
use crate::state::Journal;
use crate::through::fault;
use std::alloc::Global;
use std::snapshot::Snapshot;
use tf_disk::Disk;
use tf_model::{Failed, List};

// What an opening found: the frames, the file's length after it, and the disk just after its first sync.
#[derive(Drop)]
struct Opening<D> {
    frames: List<Frame>,
    len: u64,
    at: Snapshot<D>,
}

// What stands in a file: the frames, its length, and where its last gate ends.
#[derive(Drop)]
struct Content {
    frames: List<Frame>,
    len: u64,
    end: u64,
}

impl<D: Disk> Journal<D> {
    /// Opens the file of a disk, and gives its frames: it syncs, reads, cuts the bytes behind the last gate
    /// where there are any, and syncs. A file of at most 9 bytes gets its header again.
    ///
    /// `DiskFault` comes only where a call of the disk failed in this call. `Damaged` comes exactly where a frame
    /// of the bytes read is damaged; after it, and after `Memory`, the disk was synced but nothing was written or
    /// cut. A refusal gives the disk back. A crash during the call leaves the frames that it finds, or what it
    /// might have left before.
    pub fn open(alloc: Global, disk: D) -> Result<(Journal<D>, List<Frame>), (JournalError, D)>
        // The frames are those of the bytes that the disk had, and each image since the first sync has them.
        ensures found { IfOk result (λ r. IsFound D.meaning disk (disk_of r.0) r.1 (file_len r.0) (opened_at r.0)) }
        ensures stands { IfOk result (λ r. StandsFor D.meaning r.1 r.0) }
        ensures known { IfOk result (λ r. (failed : List ℕ) → IsKnown D.meaning (opened_at r.0) r.1 r.1 failed r.0) }
        ensures refused { IfErr result (λ e. IsOpenRefusal D.meaning disk e.1 e.0) }
        ensures later { IfOk result (λ r. D.meaning.faults disk ≤ D.meaning.faults (disk_of r.0)) }
        ensures later_refused { IfErr result (λ e. D.meaning.faults disk ≤ D.meaning.faults e.1) }
        ensures tells { IfOk result (λ r. is_some (D.meaning.seen (disk_of r.0)) ≡ is_some (D.meaning.seen disk)) }
        ensures tells_refused { IfErr result (λ e. is_some (D.meaning.seen e.1) ≡ is_some (D.meaning.seen disk)) }
    {
        let mut disk = disk;
        match open_file(alloc, &mut disk) {
            Ok(Opening { frames, len, at }) => {
                let journal = Journal {
                    disk,
                    len,
                    broken: None,
                    opened: at,
                };
                Ok((journal, frames))
            }
            Err(error) => Err((error, disk)),
        }
    }
}

/// The frames in the file of a disk, which is neither written nor cut nor synced. The refusals are `DiskFault`,
/// only where a call of the disk failed in this call, `Damaged`, exactly where a frame is damaged, and `Memory`.
pub fn read_only<D: Disk>(alloc: Global, disk: &mut D) -> Result<List<Frame>, JournalError>
    ensures frames { IfOk result (λ frames. (bytes : List ℕ) × Tells (D.meaning.seen disk.old) bytes × (reading bytes ≡ whole frames)) }
    ensures refused { IfErr result (IsReadOnlyRefusal D.meaning disk.old disk.new) }
    ensures same { IsUntouched D.meaning disk.old disk.new }
    ensures later { D.meaning.faults disk.old ≤ D.meaning.faults disk.new }
{
    match read_content(alloc, disk) {
        Ok(Content { frames, .. }) => Ok(frames),
        Err(error) => Err(error),
    }
}

// Reads what stands in a file.
fn read_content<D: Disk>(alloc: Global, disk: &mut D) -> Result<Content, JournalError>
    ensures read { IfOk result (λ content. IsFileRead (D.meaning.seen disk.old) content.frames content.len content.end) }
    ensures refused { IfErr result (IsReadOnlyRefusal D.meaning disk.old disk.new) }
    ensures same { IsUntouched D.meaning disk.old disk.new }
    ensures later { D.meaning.faults disk.old ≤ D.meaning.faults disk.new }
{
    let bytes = read_bytes(alloc, disk)?;
    let scan = scan_file(alloc, &bytes)?;
    Ok(Content {
        frames: scan.frames,
        len: bytes.len() as u64,
        end: scan.end as u64,
    })
}

// Syncs a file, reads it and repairs its end.
fn open_file<D: Disk>(alloc: Global, disk: &mut D) -> Result<Opening<D>, JournalError>
    ensures found { IfOk result (λ o. IsFound D.meaning disk.old disk.new o.frames o.len o.at.value) }
    ensures refused { IfErr result (IsOpenRefusal D.meaning disk.old disk.new) }
    ensures later { D.meaning.faults disk.old ≤ D.meaning.faults disk.new }
    ensures tells { is_some (D.meaning.seen disk.new) ≡ is_some (D.meaning.seen disk.old) }
{
    match disk.sync() {
        Ok(()) => {}
        Err(Failed) => return Err(fault(disk)),
    }
    let at = Snapshot::of(&*disk);
    let Content { frames, len, end } = match read_content(alloc, disk) {
        Ok(content) => content,
        Err(error) => return Err(error),
    };
    match repair(disk, len, end) {
        Ok(len) => Ok(Opening { frames, len, at }),
        Err(Failed) => Err(fault(disk)),
    }
}
