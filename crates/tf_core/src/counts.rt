// How many documents shards have, and how many entries name transforms.
ghost use Rattle.std.specs.Prelude.{◌≡◌, ◌&&◌, ◌+◌, ℕ, List, if◌then◌else◌, nat_eq, IsSome, OnOk};
ghost use Rattle.tf_history.specs.Lives.{is_same};
ghost use Rattle.tf_core.specs.Counts.{AreFew, HasCount, HaveCounts, IsCounted, KeepsCounts, SameCounts, count_at, count_for, entered, entered_for};

use crate::ready::{Prepared, Step};
use std::alloc::Global;
use std::collections::BTreeMap;
use tf_model::{OutOfMemory, Text};

/// How many documents each shard of each index has, and how many entries name each transform. Where there is no count there
/// are none.
#[derive(Drop)]
pub struct Counts {
    by_shard: BTreeMap<(u32, u32), u64, Global>,
    by_transform: BTreeMap<Text, u64, Global>,
}

impl Counts {
    /// No counts.
    pub fn new(alloc: Global) -> Counts
        ensures shards { (index shard : ℕ) → count_at result index shard ≡ 0 }
        ensures transforms { (id : List ℕ) → count_for result id ≡ 0 }
    {
        Counts {
            by_shard: BTreeMap::new(alloc),
            by_transform: BTreeMap::new(alloc),
        }
    }

    /// How many documents a shard of an index has.
    pub fn count(&self, index: u32, shard: u32) -> u64
        ensures { result ≡ count_at self.now index shard }
    {
        match self.by_shard.get(&(index, shard)) {
            Some(count) => *count,
            None => 0,
        }
    }

    /// Makes a count for a shard of an index that has none, and changes no other.
    pub fn make(&mut self, index: u32, shard: u32) -> Result<(), OutOfMemory>
        ensures same { SameCounts self.old self.new }
        ensures kept { KeepsCounts self.old self.new }
        ensures there { OnOk result (IsSome (entered self.new index shard)) }
    {
        match self.by_shard.get(&(index, shard)) {
            Some(_) => Ok(()),
            None => {
                self.by_shard.insert((index, shard), 0)?;
                Ok(())
            }
        }
    }

    /// Counts one document more in a shard of an index. Takes no memory.
    pub fn add(&mut self, index: u32, shard: u32)
        requires there { IsSome (entered self.old index shard) }
        requires few { AreFew self.old }
        ensures adds { (i s : ℕ) → count_at self.new i s ≡ count_at self.old i s + (if nat_eq i index && nat_eq s shard then 1 else 0) }
        ensures transforms { self.new.by_transform ≡ self.old.by_transform }
        ensures kept { KeepsCounts self.old self.new }
    {
        if let Some(count) = self.by_shard.get_mut(&(index, shard)) {
            *count += 1;
        }
    }

    /// How many entries name a transform.
    pub fn mentions(&self, id: &Text) -> u64
        ensures { result ≡ count_for self.now id.now }
    {
        match self.by_transform.get(id) {
            Some(count) => *count,
            None => 0,
        }
    }

    /// Makes a count for a transform that has none, and changes no other.
    pub fn make_for(&mut self, alloc: Global, id: &Text) -> Result<(), OutOfMemory>
        ensures same { SameCounts self.old self.new }
        ensures kept { KeepsCounts self.old self.new }
        ensures there { OnOk result (IsSome (entered_for self.new id.now)) }
    {
        match self.by_transform.get(id) {
            Some(_) => Ok(()),
            None => {
                let name = id.copy(alloc)?;
                self.by_transform.insert(name, 0)?;
                Ok(())
            }
        }
    }

    /// Counts one entry more that names a transform. Takes no memory.
    pub fn mention(&mut self, id: &Text)
        requires there { IsSome (entered_for self.old id.now) }
        requires few { AreFew self.old }
        ensures adds { (other : List ℕ) → count_for self.new other ≡ count_for self.old other + (if is_same other id.now then 1 else 0) }
        ensures shards { self.new.by_shard ≡ self.old.by_shard }
        ensures kept { KeepsCounts self.old self.new }
    {
        if let Some(count) = self.by_transform.get_mut(id) {
            *count += 1;
        }
    }
}

/// Makes a count for each shard that steps write to and each transform that they name. Where memory is wanting, what was
/// made stays.
pub fn make_counts(
    counts: &mut Counts,
    alloc: Global,
    steps: &[Prepared],
) -> Result<(), OutOfMemory>
    ensures same { SameCounts counts.old counts.new }
    ensures there { OnOk result (HaveCounts counts.new steps.now) }
{
    for prepared in steps {
        make_count(counts, alloc, &prepared.step)?;
    }
    Ok(())
}

fn make_count(counts: &mut Counts, alloc: Global, step: &Step) -> Result<(), OutOfMemory>
    ensures same { SameCounts counts.old counts.new }
    ensures kept { KeepsCounts counts.old counts.new }
    ensures there { OnOk result (HasCount counts.new step.now) }
{
    match step {
        Step::Index(_) => Ok(()),
        Step::Write(doc) => counts.make(doc.index, doc.shard),
        Step::Put(transform) => counts.make_for(alloc, &transform.id),
        Step::Delete(id) => counts.make_for(alloc, id),
        Step::Change { id, change: _ } => counts.make_for(alloc, id),
    }
}

/// Counts the document that a step adds, and the entry for the transform that it names. Takes no memory.
pub fn count_step(counts: &mut Counts, step: &Step)
    requires there { HasCount counts.old step.now }
    requires few { AreFew counts.old }
    ensures { IsCounted step.now counts.old counts.new }
{
    match step {
        Step::Index(_) => {}
        Step::Write(doc) => counts.add(doc.index, doc.shard),
        Step::Put(transform) => counts.mention(&transform.id),
        Step::Delete(id) => counts.mention(id),
        Step::Change { id, change: _ } => counts.mention(id),
    }
}
