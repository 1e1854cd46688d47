// How a run over a file ends.
ghost use Rattle.std.specs.Prelude.{◌≡◌};
ghost use Rattle.tf_cli.specs.Top as spec;

use crate::top::End;
use tf_store::OpenError;

/// How a run over a file ends.
#[derive(Clone, Copy, Debug, PartialEq, Eq)]
pub enum Outcome {
    /// Every line was done, and the replies were written.
    Done,
    /// The sink failed after it took so many bytes.
    WriteFault { taken: u64 },
    /// The disk failed where the history had so many entries.
    DiskFault { entries: u64 },
    /// This frame of the file is the least damaged one.
    Damaged { frame: u64 },
    /// No memory was found.
    Memory,
    /// The file has this length in bytes, and the next frame would make it too long.
    Full { len: u64 },
}

impl Outcome {
    /// The status and the detail of the program.
    pub fn end(self) -> End
        ensures { result ≡ spec.ended self }
    {
        match self {
            Outcome::Done => End::new(0, 0),
            Outcome::WriteFault { taken } => End::new(4, taken),
            Outcome::DiskFault { entries } => End::new(5, entries),
            Outcome::Damaged { frame } => End::new(6, frame),
            Outcome::Memory => End::new(8, 0),
            Outcome::Full { len } => End::new(9, len),
        }
    }
}

/// How a run ends whose file is not opened.
pub fn refused(error: OpenError) -> Outcome
    ensures { result ≡ spec.unopened error }
{
    match error {
        OpenError::Memory => Outcome::Memory,
        OpenError::DiskFault { .. } => Outcome::DiskFault { entries: 0 },
        OpenError::Damaged { frame } => Outcome::Damaged { frame },
    }
}
