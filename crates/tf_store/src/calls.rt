// What a store tells.
ghost use Rattle.std.specs.Prelude.{◌≡◌, IfOk, length};
ghost use Rattle.tf_core.specs.Held.{last_ms_of};
ghost use Rattle.tf_core.specs.Listing.{ids_in};
ghost use Rattle.tf_store.specs.Standing.{AreSpelled};

use crate::state::Store;
use tf_core::Core;
use tf_disk::Disk;
use tf_model::{List, OutOfMemory, Text};

impl<D: Disk> Store<D> {
    ghost use Rattle.tf_store.specs.Words.{history_of, failed_of, found_of, opened_with, journal_of, disk_of, broken_at};

    /// The disk's count of faults at which the store broke, where it is broken. Takes no memory.
    pub fn broken(&self) -> Option<u64>
        ensures { result ≡ broken_at self.now }
    {
        self.broken
    }

    /// What the history leaves. Takes no memory.
    pub fn core(&self) -> &Core
        ensures history { result.now.history ≡ history_of self.now }
        ensures spelled { AreSpelled (history_of self.now) }
    {
        &self.core
    }

    /// How many entries the history has. Takes no memory.
    pub fn count(&self) -> u64
        ensures { result ≡ length (history_of self.now) }
    {
        self.core.count()
    }

    /// The ids of the transforms that exist, ascending by their bytes.
    pub fn ids(&self) -> Result<List<Text>, OutOfMemory>
        ensures { IfOk result (λ ids. ids ≡ ids_in (history_of self.now)) }
    {
        self.core.ids()
    }

    /// The moment of the last entry, 0 where there is none. Takes no memory.
    pub fn last_ms(&self) -> i64
        ensures { result ≡ last_ms_of (history_of self.now) }
    {
        self.core.last_ms()
    }

    /// Sets the found count to the length of the history. Takes no memory.
    pub fn found(&mut self)
        ensures found { found_of self.new ≡ length (history_of self.old) }
        ensures history { history_of self.new ≡ history_of self.old }
        ensures journal { journal_of self.new ≡ journal_of self.old }
        ensures failed { failed_of self.new ≡ failed_of self.old }
        ensures opened { opened_with self.new ≡ opened_with self.old }
    {
        self.core.found();
    }

    /// The disk. Takes no memory.
    pub fn into_disk(self) -> D
        ensures { result ≡ disk_of self }
    {
        let Store {
            alloc: _,
            journal,
            core: _,
            broken: _,
            failed: _,
            opened_with: _,
        } = self;
        journal.into_disk()
    }
}
