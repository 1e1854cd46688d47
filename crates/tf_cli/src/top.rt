// The top call.
ghost use Rattle.std.specs.Prelude.{◌≡◌, ◌⊎◌, ◌≢◌, ◌<◌, ◌≤◌, ◌↔◌, ℕ, None, is_some, map, string_bytes};
ghost use Rattle.tf_model.specs.Causes.{Rose};
ghost use Rattle.tf_io.specs.Reads.{TakesCount};
ghost use Rattle.tf_store.specs.Answers.{LeavesContent};
ghost use Rattle.tf_cli.specs.Words.{file_of_run};
ghost use Rattle.tf_cli.specs.Top.{AfterOpening, FailedToOpen, HasNoDetail, IsDamaged, IsRunStatus, OfScript, Ran, RanPartly, StoppedByDisk, StoppedFull, StoppedShort, max_script, reading_ended};

use crate::running::run_file;
use crate::words::file_word;
use std::alloc::Global;
use tf_disk::Disk;
use tf_io::{ReadError, Sink, Source, read_lines};

const MAX_SCRIPT: u64 = 268_435_456;

/// How a call of the program ended.
#[derive(Clone, Copy, Debug, PartialEq, Eq)]
pub struct End {
    pub status: u8,
    pub detail: u64,
}

impl End {
    pub fn new(status: u8, detail: u64) -> End
        ensures { (result.status ≡ status) × (result.detail ≡ detail) }
    {
        End { status, detail }
    }
}

/// Does what the words of the command line say, over the disk that is handed in and given back.
///
/// `run FILE` reads the whole script, opens the journal of the disk, does the lines in order on the history that it found,
/// and writes the replies. The statuses, with the detail of each:
/// 0 all is done (0); 2 the words are of no command (0); 3 the source failed (bytes taken); 4 the sink failed (bytes that it
/// took); 5 the disk failed (entries of the history then, 0 while opening); 6 the journal is damaged (its least damaged frame,
/// 0 for its beginning); 7 the script is too long (bytes taken); 8 no memory was found (0); 9 the journal is full (its length
/// in bytes).
pub fn run_top<S: Source, K: Sink, D: Disk>(
    alloc: Global,
    words: &[String],
    src: &mut S,
    out: &mut K,
    disk: D,
) -> (End, D)
    // It answers one of these statuses.
    ensures status { IsRunStatus result.0.status }

    // At the statuses 0, 2 and 8 the detail is 0.
    ensures no_detail { HasNoDetail result.0.status → result.0.detail ≡ 0 }

    // Status 0: the source was read to its end, a history was found in the file, the sink gained the replies to the lines done
    // from there, and the file has the history that the lines make.
    ensures done { result.0.status ≡ 0 → OfScript (S.left src.old) (S.left src.new) (λ lines.
        AfterOpening D.meaning disk (λ synced. Ran D.meaning synced result.1 (K.written out.old) (K.written out.new) (λ output. output) lines)) }

    // Status 2 comes exactly where the words are not those of a command, and then nothing was called.
    ensures usage { (result.0.status ≡ 2) ↔ (file_of_run (map string_bytes words.now) ≡ None) }
    ensures usage_calls { result.0.status ≡ 2 → src.new ≡ src.old }

    // Status 3 comes only where the source failed in this call.
    ensures read_fault { result.0.status ≡ 3 → Rose (S.faults src.old) (S.faults src.new) × TakesCount (S.left src.old) (S.left src.new) result.0.detail }

    // Status 4 comes only where the sink failed in this call. It has then the first bytes of the replies, not all of
    // them, and all lines are in the file.
    ensures write_fault { result.0.status ≡ 4 → Rose (K.faults out.old) (K.faults out.new) × OfScript (S.left src.old) (S.left src.new) (λ lines.
        AfterOpening D.meaning disk (λ synced. RanPartly D.meaning synced result.1 (K.written out.old) (K.written out.new) result.0.detail lines)) }

    // Status 5 comes only where the disk failed in this call: while the file was opened, or while the lines were done.
    ensures disk_fault { result.0.status ≡ 5 → Rose (D.meaning.faults disk) (D.meaning.faults result.1) × OfScript (S.left src.old) (S.left src.new) (λ lines.
        FailedToOpen D.meaning disk result.1 result.0.detail ⊎ AfterOpening D.meaning disk (λ synced. StoppedByDisk D.meaning synced result.1 result.0.detail lines)) }

    // Status 6: this is the least damaged frame of the bytes that the disk had.
    ensures damaged { result.0.status ≡ 6 → IsDamaged D.meaning disk result.1 result.0.detail }

    // Status 7 comes exactly where more bytes were taken than a script may have.
    ensures too_long { result.0.status ≡ 7 → (max_script < result.0.detail) × TakesCount (S.left src.old) (S.left src.new) result.0.detail }
    ensures not_too_long { result.0.status ≢ 7 → (count : ℕ) × (count ≤ max_script) × TakesCount (S.left src.old) (S.left src.new) count }

    // Status 8: what is in the file then is a part of what the lines make.
    ensures memory { result.0.status ≡ 8 → (result.1 ≡ disk) ⊎ OfScript (S.left src.old) (S.left src.new) (λ lines.
        LeavesContent D.meaning disk result.1 ⊎ AfterOpening D.meaning disk (λ synced. StoppedShort D.meaning synced result.1 lines)) }

    // Status 9: the next frame would make the file longer than 2^40 bytes.
    ensures full { result.0.status ≡ 9 → OfScript (S.left src.old) (S.left src.new) (λ lines.
        AfterOpening D.meaning disk (λ synced. StoppedFull D.meaning synced result.1 result.0.detail lines)) }

    // Nothing was written but at the statuses 0 and 4, and no call of the disk was made at 2, 3 and 7.
    ensures unwritten { result.0.status ≢ 0 → result.0.status ≢ 4 → out.new ≡ out.old }
    ensures uncalled { (result.0.status ≡ 2) ⊎ ((result.0.status ≡ 3) ⊎ (result.0.status ≡ 7)) → result.1 ≡ disk }

    // Whether the disk tells its bytes stays, and the counts never fall.
    ensures tells { is_some (D.meaning.seen result.1) ≡ is_some (D.meaning.seen disk) }
    ensures later { (S.faults src.old ≤ S.faults src.new) × (K.faults out.old ≤ K.faults out.new) × (D.meaning.faults disk ≤ D.meaning.faults result.1) }
{
    if file_word(words).is_none() {
        return (End::new(2, 0), disk);
    }
    match read_lines(alloc, src, MAX_SCRIPT) {
        Ok(lines) => {
            let (outcome, disk) = run_file(alloc, &lines, out, disk);
            (outcome.end(), disk)
        }
        Err(error) => (end_of_reading(error), disk),
    }
}

fn end_of_reading(error: ReadError) -> End
    ensures { result ≡ reading_ended error }
{
    match error {
        ReadError::Memory => End::new(8, 0),
        ReadError::ReadFault { taken } => End::new(3, taken),
        ReadError::TooLong { taken } => End::new(7, taken),
    }
}
