// A disk in memory, whose calls fail by a list. It keeps what it held at first and what was done since.
ghost use Rattle.std.specs.Prelude.{◌≡◌, ◌≤◌, ◌++◌, [], ◌∷◌, length, Some, is_ok, is_err, IfOk, OnOk, OnErr};
ghost use Rattle.std.specs.Io.{ReadsAtMost};
ghost use Rattle.tf_model.specs.Causes.{HasCause, Rose};
ghost use Rattle.tf_disk.specs.Disk.{Torn, Cut, Kept, Writes, Cuts, Reads, IsLength, IsDurable, Makes, IsUntouched};
ghost use Rattle.tf_disk.specs.InMemory.{in_memory, contents, IsImage, image_from, counted, is_listed, IsCall, Adds};
ghost use Rattle.tf_disk.specs.declared.change.Change.TheVariants.{Write, Trim, Sync};
ghost use Rattle.tf_disk.specs.MemoryLaws.{read_is_image, image_was, was_image_now};

use crate::change::{Change, apply, image_after, write_change};
use crate::device::Disk;
use std::alloc::Global;
use std::marker::Model;
use tf_model::{Failed, OutOfMemory};

/// A disk in memory, for tests. Its calls are counted from 1, and those in its list fail.
///
/// It tells all that contracts may ask of a disk. A listed write or cut counts as begun, so its image may be
/// torn. A call that finds no memory fails too, and is counted in `wanted`. The count of faults rises for these
/// two causes alone.
#[derive(Drop)]
pub struct MemDisk {
    alloc: Global,
    first: Vec<u8>,
    changes: Vec<Change>,
    bytes: Vec<u8>,
    failing: Vec<u64>,
    calls: u64,
    faults: u64,
    wanted: u64,
}

impl Model for MemDisk {
    ghost use Rattle.std.specs.Prelude.{◌≡◌};
    ghost use Rattle.tf_disk.specs.InMemory.{DiskState, contents};

    ghost Value = { DiskState };

    ghost view = { λ d. record {
      first = d.first.items;
      changes = d.changes.items;
      failing = d.failing.items;
      calls = d.calls;
      faults = d.faults;
      wanted = d.wanted;
    } };

    ghost invariant = { λ d. d.bytes.items ≡ contents d.first.items d.changes.items };
}

impl MemDisk {
    /// A disk with these bytes, all of them kept. Its k-th call, counted from 1, fails for each k in the list.
    pub fn new(alloc: Global, bytes: &[u8], failing: &[u64]) -> Result<MemDisk, OutOfMemory>
        ensures bytes { IfOk result (λ d. (d.first ≡ bytes.now) × (d.changes ≡ []) × (d.failing ≡ failing.now)) }
        ensures counts { IfOk result (λ d. (d.calls ≡ 0) × (d.faults ≡ 0) × (d.wanted ≡ 0)) }
    {
        let first = bytes.to_vec(alloc)?;
        let bytes = bytes.to_vec(alloc)?;
        let failing = failing.to_vec(alloc)?;
        Ok(MemDisk {
            alloc,
            first,
            changes: Vec::new(alloc),
            bytes,
            failing,
            calls: 0,
            faults: 0,
            wanted: 0,
        })
    }

    /// What a read gives. Takes no memory.
    pub fn bytes(&self) -> &[u8]
        ensures { result.now ≡ contents self.now.first self.now.changes }
    {
        &self.bytes
    }

    /// How many calls there were. The count stays at the largest u64. Takes no memory.
    pub fn calls(&self) -> u64
        ensures { result ≡ self.now.calls }
    {
        self.calls
    }

    /// How many calls found no memory. The count stays at the largest u64. Takes no memory.
    pub fn wanted(&self) -> u64
        ensures { result ≡ self.now.wanted }
    {
        self.wanted
    }

    /// One disk that a crash now may leave. Of the writes and cuts since the last sync the first `keep` are
    /// whole; the ranges of the other writes hold the fill, and the other cuts are undone. No call of it fails.
    pub fn image(&self, fill: u8, keep: u64) -> Result<MemDisk, OutOfMemory>
        ensures value { IfOk result (λ d. d.first ≡ image_from fill keep self.now.changes self.now.first self.now.first keep) }
        ensures image { IfOk result (λ d. IsImage self.now.first self.now.changes d.first) }
        ensures fresh { IfOk result (λ d. (d.changes ≡ []) × (d.failing ≡ []) × (d.calls ≡ 0) × (d.faults ≡ 0) × (d.wanted ≡ 0)) }
    {
        let bytes = image_after(self.alloc, &self.first, &self.changes, fill, keep)?;
        let disk = MemDisk::new(self.alloc, &bytes, &[])?;
        Ok(disk)
    }

    // Counts a call, which fails where its number is in the list.
    fn begin(&mut self) -> Result<(), Failed>
        ensures file { (self.new.first ≡ self.old.first) × (self.new.changes ≡ self.old.changes) }
        ensures call { (self.new.calls ≡ counted self.old.calls) × (self.new.failing ≡ self.old.failing) × (self.new.wanted ≡ self.old.wanted) }
        ensures fails { is_err result ≡ is_listed self.old.failing (counted self.old.calls) }
        ensures faults { OnOk result (self.new.faults ≡ self.old.faults) }
        ensures cause { HasCause self.old.faults self.new.faults result }
    {
        self.calls = self.calls.saturating_add(1);
        if self.failing.contains(&self.calls) {
            self.faults = self.faults.saturating_add(1);
            return Err(Failed);
        }
        Ok(())
    }

    // Counts a call that found no memory.
    fn want(&mut self) -> Failed
        ensures file { (self.new.first ≡ self.old.first) × (self.new.changes ≡ self.old.changes) }
        ensures call { (self.new.calls ≡ self.old.calls) × (self.new.failing ≡ self.old.failing) × (self.new.wanted ≡ counted self.old.wanted) }
        ensures rose { Rose self.old.faults self.new.faults }
        ensures later { self.old.faults ≤ self.new.faults }
    {
        self.wanted = self.wanted.saturating_add(1);
        self.faults = self.faults.saturating_add(1);
        Failed
    }

    // Makes a change, or nothing where memory is wanted.
    fn make(&mut self, change: Change) -> Result<(), OutOfMemory>
        ensures ok { OnOk result (self.new.changes ≡ self.old.changes ++ change ∷ []) }
        ensures err { OnErr result (self.new.changes ≡ self.old.changes) }
        ensures rest { (self.new.first ≡ self.old.first) × (self.new.failing ≡ self.old.failing) × (self.new.calls ≡ self.old.calls) }
        ensures counts { (self.new.faults ≡ self.old.faults) × (self.new.wanted ≡ self.old.wanted) }
    {
        self.changes.reserve(1)?;
        apply(&mut self.bytes, &change)?;
        self.changes.push_reserved(change);
        Ok(())
    }
}

// Copies as many bytes as there are from a place on and fit.
fn copy_from(bytes: &[u8], place: usize, buf: &mut [u8]) -> usize
    ensures bytes { Reads (Some bytes.now) place buf.new result }
    ensures bound { result ≤ length buf.new }
{
    let rest = &bytes[bytes.len().min(place)..];
    let count = rest.len().min(buf.len());
    buf[..count].copy_from_slice(&rest[..count]);
    count
}

impl Disk for MemDisk {
    ghost meaning = { in_memory };

    ghost as_it_reads = { read_is_image };

    ghost counts_now = { image_was };

    ghost only_now = { was_image_now };

    fn faults(&self) -> u64 {
        self.faults
    }

    fn len(&mut self) -> Result<u64, Failed>
        ensures value { IfOk result (IsLength (in_memory.seen self.old)) }
        ensures same { IsUntouched in_memory self.old self.new }
        ensures cause { HasCause self.old.faults self.new.faults result }
        ensures call { IsCall self.old self.new (is_err result) }
        ensures file { (self.new.first ≡ self.old.first) × (self.new.changes ≡ self.old.changes) }
    {
        self.begin()?;
        Ok(self.bytes.len() as u64)
    }

    fn read(&mut self, place: u64, buf: &mut [u8]) -> Result<usize, Failed>
        ensures bound { ReadsAtMost result buf.new }
        ensures bytes { IfOk result (Reads (in_memory.seen self.old) place buf.new) }
        ensures same { IsUntouched in_memory self.old self.new }
        ensures cause { HasCause self.old.faults self.new.faults result }
        ensures call { IsCall self.old self.new (is_err result) }
        ensures file { (self.new.first ≡ self.old.first) × (self.new.changes ≡ self.old.changes) }
    {
        self.begin()?;
        Ok(copy_from(&self.bytes, place as usize, buf))
    }

    fn write_at(&mut self, place: u64, bytes: &[u8]) -> Result<(), Failed>
        ensures written { OnOk result (Writes place bytes.now (in_memory.seen self.old) (in_memory.seen self.new)) }
        ensures model { Makes in_memory (Torn place (length bytes.now)) self.old self.new }
        ensures cause { HasCause self.old.faults self.new.faults result }
        ensures call { IsCall self.old self.new (is_err result) }
        ensures change { Adds (Write place bytes.now (is_ok result)) self.old self.new }
        ensures first { self.new.first ≡ self.old.first }
    {
        let begun = self.begin();
        let is_done = begun.is_ok();
        match write_change(self.alloc, place, bytes, is_done) {
            Ok(change) => match self.make(change) {
                Ok(()) => begun,
                Err(_) => Err(self.want()),
            },
            Err(_) => Err(self.want()),
        }
    }

    fn cut(&mut self, len: u64) -> Result<(), Failed>
        ensures cut { OnOk result (Cuts len (in_memory.seen self.old) (in_memory.seen self.new)) }
        ensures model { Makes in_memory (Cut len) self.old self.new }
        ensures cause { HasCause self.old.faults self.new.faults result }
        ensures call { IsCall self.old self.new (is_err result) }
        ensures change { Adds (Trim len (is_ok result)) self.old self.new }
        ensures first { self.new.first ≡ self.old.first }
    {
        let begun = self.begin();
        let is_done = begun.is_ok();
        match self.make(Change::Trim { len, is_done }) {
            Ok(()) => begun,
            Err(_) => Err(self.want()),
        }
    }

    fn sync(&mut self) -> Result<(), Failed>
        ensures durable { OnOk result (IsDurable in_memory self.new) }
        ensures same { in_memory.seen self.new ≡ in_memory.seen self.old }
        ensures model { Makes in_memory Kept self.old self.new }
        ensures cause { HasCause self.old.faults self.new.faults result }
        ensures call { IsCall self.old self.new (is_err result) }
        ensures change { OnOk result (self.new.changes ≡ self.old.changes ++ Sync ∷ []) }
        ensures no_change { OnErr result (self.new.changes ≡ self.old.changes) }
        ensures first { self.new.first ≡ self.old.first }
    {
        self.begin()?;
        match self.make(Change::Sync) {
            Ok(()) => Ok(()),
            Err(_) => Err(self.want()),
        }
    }
}
