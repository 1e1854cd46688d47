// A store.
ghost use Rattle.std.specs.Prelude.{◌≡◌};
ghost use Rattle.tf_journal.specs.Standing.{broken_at};
ghost use Rattle.tf_store.specs.Standing.{IsKnown};

use std::alloc::Global;
use std::snapshot::Snapshot;
use tf_core::Core;
use tf_disk::Disk;
use tf_journal::Journal;
use tf_model::{Entry, List};

/// A core whose history is the history of a disk's file.
///
/// It keeps in its type what is known of crashes. Each image since the first sync of the opening has a history
/// that the one found begins and that begins the store's. Where the store is not broken, each image that a crash
/// now may leave has the store's history. Where it is broken, the entries whose append failed may follow it.
#[derive(Drop)]
pub struct Store<D: Disk> {
    pub(crate) alloc: Global,
    pub(crate) journal: Journal<D>,
    pub(crate) core: Core,
    // the disk's count of faults, where an append failed
    pub(crate) broken: Option<u64>,
    // the entries whose append failed, which only clauses read
    pub(crate) failed: Snapshot<List<Entry>>,
    // how many entries the opening found, which only clauses read
    pub(crate) opened_with: Snapshot<u64>,
    ghost breaks: { broken ≡ broken_at journal },
    pub ghost known: { ∥ IsKnown D.meaning opened_with.value core.history failed.value journal ∥₁ },
}
