// Where documents stand, by their indices and ids.
ghost use Rattle.std.specs.Prelude.{◌≡◌, ◌++◌, ◌<◌, ℕ, List, [], if◌then◌else◌, length, Some, OnOk, OnErr};
ghost use Rattle.std.specs.BTreeMap.{get};
ghost use Rattle.std.specs.Cmp.Lexicographic.{slice_cmp};
ghost use Rattle.std.specs.Ordering.{nat_cmp};
ghost use Rattle.std.specs.Str.{bytes_eq};
ghost use Rattle.tf_core.specs.Ids.{AreIndexed, AreNew, Enters, EntersAt, SameMaps, SamePlaces, all_docs, place_at};
ghost use Rattle.tf_core.specs.Standing.{shared};
ghost use Rattle.tf_core.specs.Steps.{docs_of};

use crate::ready::{Prepared, Step};
use std::alloc::Global;
use std::collections::BTreeMap;
use std::sync::Arc;
use tf_model::{Doc, OutOfMemory, Text};

/// The places of documents among all documents, by their ids, for each index.
#[derive(Drop)]
pub struct Ids {
    maps: Vec<BTreeMap<Text, u64, Global>>,
}

impl Ids {
    /// No places.
    pub fn new(alloc: Global) -> Ids
        ensures { result.maps.items ≡ [] }
    {
        Ids {
            maps: Vec::new(alloc),
        }
    }

    /// The place that is entered for an id of an index.
    pub fn place(&self, index: u32, id: &Text) -> Option<u64>
        ensures { result ≡ place_at self.now index id.now }
    {
        match self.maps.get(index as usize) {
            Some(map) => map.get(id).copied(),
            None => None,
        }
    }

    /// Enters a place. Where memory is wanting, what was entered stays.
    pub fn enter(
        &mut self,
        alloc: Global,
        index: u32,
        id: &Text,
        place: u64,
    ) -> Result<(), OutOfMemory>
        ensures ok { OnOk result (EntersAt index id.now place self.old self.new) }
        ensures err { OnErr result (SamePlaces self.old self.new) }
    {
        let name = id.copy(alloc)?;
        make_maps(&mut self.maps, alloc, index)?;
        enter_in(&mut self.maps[index as usize], name, place)
    }
}

/// Makes an empty map for each index up to this one that has none.
fn make_maps(
    maps: &mut Vec<BTreeMap<Text, u64, Global>>,
    alloc: Global,
    index: u32,
) -> Result<(), OutOfMemory>
    ensures same { SameMaps maps.old.items maps.new.items }
    ensures there { OnOk result (index < length maps.new.items) }
{
    for _at in maps.len()..index as usize + 1 {
        maps.push(BTreeMap::new(alloc))?;
    }
    Ok(())
}

fn enter_in(
    map: &mut BTreeMap<Text, u64, Global>,
    name: Text,
    place: u64,
) -> Result<(), OutOfMemory>
    ensures ok { OnOk result ((q : List ℕ) → get (slice_cmp nat_cmp) map.new q ≡ (if bytes_eq name q then Some place else get (slice_cmp nat_cmp) map.old q)) }
    ensures err { OnErr result ((q : List ℕ) → get (slice_cmp nat_cmp) map.new q ≡ get (slice_cmp nat_cmp) map.old q) }
{
    map.insert(name, place)?;
    Ok(())
}

/// Enters the places of the documents that steps add, behind those that are there.
pub fn enter_all(
    ids: &mut Ids,
    alloc: Global,
    docs: &[Arc<Doc, Global>],
    steps: &[Prepared],
) -> Result<(), OutOfMemory>
    requires indexed { AreIndexed ids.old (shared docs.now) }
    requires new { AreNew (shared docs.now) steps.now }
    ensures ok { OnOk result (AreIndexed ids.new (shared docs.now ++ all_docs steps.now)) }
    ensures err { OnErr result (AreIndexed ids.new (shared docs.now)) }
{
    let mut place = docs.len() as u64;
    for prepared in steps {
        enter_step(ids, alloc, place, &prepared.step)?;
        place += docs_in(&prepared.step);
    }
    Ok(())
}

fn enter_step(ids: &mut Ids, alloc: Global, place: u64, step: &Step) -> Result<(), OutOfMemory>
    ensures ok { OnOk result (Enters step.now place ids.old ids.new) }
    ensures err { OnErr result (SamePlaces ids.old ids.new) }
{
    match step {
        Step::Write(doc) => ids.enter(alloc, doc.index, &doc.id, place),
        _ => Ok(()),
    }
}

fn docs_in(step: &Step) -> u64
    ensures { result ≡ length (docs_of step.now) }
{
    match step {
        Step::Write(_) => 1,
        _ => 0,
    }
}
