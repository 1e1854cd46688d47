// Why a call of a journal was refused.
ghost use Rattle.std.specs.Prelude.{◌≡◌};
ghost use Rattle.tf_journal.specs.declared.error.JournalError.TheVariants.{Memory};

use crate::frame::Frame;
use tf_model::{List, OutOfMemory};

/// Why a call of a journal was refused.
#[derive(Debug, Drop)]
pub enum JournalError {
    /// No memory was found.
    Memory,
    /// A call of the disk failed, and this is its count of faults.
    DiskFault { count: u64 },
    /// This frame is the first damaged one: its length is 0, it runs past the end of the file, or no gate
    /// follows it. Frames are counted from 1, and 0 is the file's beginning. The frames before it are whole.
    Damaged { frame: u64, before: List<Frame> },
    /// An earlier append answered `DiskFault` with this count.
    Broken { count: u64 },
    /// The file has this length in bytes, and with the frame it would have more than 2^40.
    Full { len: u64 },
}

impl From<OutOfMemory> for JournalError {
    ghost from_gives = { λ _ e. e ≡ Memory };

    fn from(_: OutOfMemory) -> Self {
        JournalError::Memory
    }
}
