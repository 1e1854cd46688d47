//! A journal: a file of frames over a disk, each of which is on the disk before its append answers `Ok`.
//!
//! The file begins with the eight bytes `TFJRNL1\n` and a gate byte. Then come for each frame its body's
//! length as eight bytes, least first, its body, and the next gate byte. A gate is open where it is 1 and
//! closed otherwise, and the gate before a frame belongs to it: the frames are those up to the first closed
//! gate. A file of at most 9 bytes has no frames, whatever its bytes are.
#![tactic(auto)]

mod error;
mod frame;
mod journal;
mod opening;
mod reads;
mod repair;
mod scan;
mod state;
mod through;

pub use error::JournalError;
pub use frame::Frame;
pub use opening::read_only;
pub use state::Journal;
