// A journal.
ghost use Rattle.std.specs.Prelude.{◌≤◌};

use std::snapshot::Snapshot;

/// A file of frames over a disk. After an append that answered `DiskFault` it is broken: no append makes a
/// call of the disk any more, until the file is opened again.
#[derive(Drop)]
pub struct Journal<D> {
    pub(crate) disk: D,
    // the file's length in bytes
    pub(crate) len: u64,
    // the disk's count of faults, where a call failed
    pub(crate) broken: Option<u64>,
    // the disk just after the first sync of the opening, which only clauses read
    pub(crate) opened: Snapshot<D>,
    ghost has_gate: { 1 ≤ len },
}
