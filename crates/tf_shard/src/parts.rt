// What stands in a shard.
ghost use Rattle.std.specs.Prelude.{◌≡◌, ◌∷◌, ◌++◌, ◌<◌, [], None, Some, drop, if◌then◌else◌, length, nat_lt, true};
ghost use Rattle.std.specs.Arc.{arc_value};
ghost use Rattle.tf_shard.specs.Created as spec;
ghost use Rattle.tf_shard.specs.Created.{most};
ghost use Rattle.tf_shard.specs.Ids.{number_of};
ghost use Rattle.tf_shard.specs.Parts.{IsWhole, docs_of, spare_of};

use indexmap::IndexSet;
use std::alloc::Global;
use std::sync::Arc;
use tf_model::{Doc, Text};
use tf_segment::Segment;

/// The documents in segments and a tail, how many they are, and their ids in the same order. Behind these stand ids that
/// are entered ahead of their documents.
#[derive(Drop)]
pub struct Parts {
    pub ids: IndexSet<Text>,
    pub count: u64,
    pub segments: Vec<Arc<Segment, Global>>,
    pub tail: Vec<Arc<Doc, Global>>,
}

/// No documents.
pub fn no_parts(alloc: Global) -> Parts
    ensures whole { IsWhole result }
    ensures docs { docs_of result ≡ [] }
    ensures spare { spare_of result ≡ [] }
{
    Parts {
        ids: IndexSet::new(alloc),
        count: 0,
        segments: Vec::new(alloc),
        tail: Vec::new(alloc),
    }
}

/// The number of the document with an id.
pub fn number_in(parts: &Parts, id: &Text) -> Option<u64>
    requires { IsWhole parts.now }
    ensures { result ≡ number_of id.now (docs_of parts.now) }
{
    match parts.ids.get_index_of(id) {
        Some(at) => below(at as u64, parts.count),
        None => None,
    }
}

// A number that is below a limit.
fn below(number: u64, limit: u64) -> Option<u64>
    ensures { result ≡ (if nat_lt number limit then Some number else None) }
{
    if number < limit { Some(number) } else { None }
}

/// Whether an id is the next that is entered ahead of its document.
pub fn is_next(parts: &Parts, id: &Text) -> bool
    ensures { result ≡ spec.is_next id.now (spare_of parts.now) }
{
    match parts.ids.get_index(parts.count as usize) {
        Some(next) => next == id,
        None => false,
    }
}

/// Appends a document whose id is the next that is entered ahead. Answers its number. Takes no memory.
pub fn append(parts: &mut Parts, doc: Arc<Doc, Global>) -> u64
    requires whole { IsWhole parts.old }
    requires few { parts.old.count < most }
    requires next { spec.is_next (arc_value doc).id (spare_of parts.old) ≡ true }
    ensures whole { IsWhole parts.new }
    ensures docs { docs_of parts.new ≡ docs_of parts.old ++ arc_value doc ∷ [] }
    ensures spare { spare_of parts.new ≡ drop 1 (spare_of parts.old) }
    ensures number { result ≡ length (docs_of parts.old) }
{
    let number = parts.count;
    parts.tail.push_reserved(doc);
    parts.count += 1;
    number
}
