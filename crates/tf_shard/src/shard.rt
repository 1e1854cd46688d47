// Shards.
ghost use Rattle.std.specs.Prelude.{◌≡◌, ◌≢◌, ◌<◌, ◌≤◌, ◌-ℤ◌, ◌∷◌, ◌++◌, [], Err, IfOk, IsTrue, None, OnErr, OnOk, false, length, pos, slice_index_or, take};
ghost use Rattle.std.specs.Arc.{arc_value};
ghost use Rattle.std.specs.List.{list_any};
ghost use Rattle.tf_shard.specs.Created.{IsCreated, is_next, left_after, most};
ghost use Rattle.tf_shard.specs.Ids.{AreNew, number_of, same_id};
ghost use Rattle.tf_shard.specs.Parts.{IsWhole, docs_of, spare_of};
ghost use Rattle.tf_shard.specs.declared.error.ShardError.TheVariants.{Memory};

use crate::entering::{forget, make_all_room, make_more_room, make_room};
use crate::error::ShardError;
use crate::parts::{Parts, append, no_parts, number_in};
use std::alloc::Global;
use std::marker::Model;
use std::sync::Arc;
use tf_model::{Doc, List, OutOfMemory, Text};
use tf_segment::{Run, doc_at};

/// The documents of a shard in the order of writing. A document's sequence number is its place, counted from 0.
///
/// Contracts see the documents, and the ids for which there is room: those that `reserve` was given and whose documents
/// did not come yet.
#[derive(Drop)]
pub struct Shard {
    parts: Parts,
}

impl Model for Shard {
    ghost use Rattle.tf_shard.specs.Seen.{Seen, seen_code};

    ghost Value = { Seen };

    ghost coded = { seen_code };

    ghost use Rattle.tf_shard.specs.Parts.{IsWhole, docs_of, spare_of};

    ghost view = { λ shard. record { docs = docs_of shard.parts; spare = spare_of shard.parts } };

    ghost invariant = { λ shard. IsWhole shard.parts };
}

impl Shard {
    /// A shard without documents. Takes no memory.
    pub fn new(alloc: Global) -> Shard
        ensures docs { result.docs ≡ [] }
        ensures spare { result.spare ≡ [] }
    {
        Shard {
            parts: no_parts(alloc),
        }
    }

    /// One document more, which is shared, behind all others. Answers its sequence number.
    ///
    /// `VersionConflict` comes exactly where a document has its id, and tells that document's number. `Full` comes exactly
    /// where none has and there are 2^31 documents. `Memory` is the only other error, and never comes where the id is the
    /// next for which there is room: then no memory is taken. After each error the documents are as before.
    ///
    /// The id is no longer in spare then. A document with another id than the next empties spare.
    pub fn create(&mut self, alloc: Global, doc: Arc<Doc, Global>) -> Result<u64, ShardError>
        ensures answer { IsCreated self.old.docs (arc_value doc) self.new.docs result }
        ensures left { OnOk result (self.new.spare ≡ left_after (arc_value doc).id self.old.spare) }
        ensures no_memory { IsTrue (is_next (arc_value doc).id self.old.spare) → result ≢ Err Memory }
    {
        create_in(alloc, &mut self.parts, doc)
    }

    /// Makes room for documents with these ids, which are to come in this order. The ids differ, and no document has one
    /// of them. The tail is sealed first, where it has 1,024 documents or more. After `OutOfMemory` the documents are as
    /// before.
    pub fn reserve(&mut self, alloc: Global, ids: &List<Text>) -> Result<(), OutOfMemory>
        requires { AreNew self.old.docs ids.now }
        ensures docs { self.new.docs ≡ self.old.docs }
        ensures spare { OnOk result (self.new.spare ≡ ids.now) }
    {
        make_all_room(alloc, &mut self.parts, ids)
    }

    /// Makes room for one document more, which is to come behind those for which there is room. No document has its id, and
    /// none of those ids is the same. After `OutOfMemory` everything is as before.
    pub fn reserve_one(&mut self, alloc: Global, id: &Text) -> Result<(), OutOfMemory>
        requires free { number_of id.now self.old.docs ≡ None }
        requires new { list_any (same_id id.now) self.old.spare ≡ false }
        ensures docs { self.new.docs ≡ self.old.docs }
        ensures ok { OnOk result (self.new.spare ≡ self.old.spare ++ id.now ∷ []) }
        ensures err { OnErr result (self.new.spare ≡ self.old.spare) }
    {
        make_more_room(alloc, &mut self.parts, id)
    }

    /// Gives up the room for documents that did not come. Takes no memory.
    pub fn clear_spare(&mut self)
        ensures docs { self.new.docs ≡ self.old.docs }
        ensures spare { self.new.spare ≡ [] }
    {
        forget(&mut self.parts);
    }

    /// The documents as they are now. They stay so, whatever is created later. `OutOfMemory` comes where no memory is
    /// found for a share of each segment and of each document of the tail.
    pub fn snapshot(&self, alloc: Global) -> Result<Run, OutOfMemory>
        ensures { IfOk result (λ run. run ≡ self.now.docs) }
    {
        self.prefix(alloc, self.parts.count)
    }

    /// The first `len` documents, as `snapshot` shares them. `len` is at most their number.
    pub fn prefix(&self, alloc: Global, len: u64) -> Result<Run, OutOfMemory>
        requires { len ≤ length self.now.docs }
        ensures { IfOk result (λ run. run ≡ take len self.now.docs) }
    {
        Run::sharing(
            alloc,
            self.parts.segments.as_slice(),
            self.parts.tail.as_slice(),
            len,
        )
    }

    /// How many documents there are. Takes no memory.
    pub fn len(&self) -> u64
        ensures count { result ≡ length self.now.docs }
        ensures few { result ≤ most }
    {
        self.parts.count
    }

    /// The greatest sequence number, -1 where there is no document. Takes no memory.
    pub fn max_seq_no(&self) -> i64
        ensures { result ≡ pos (length self.now.docs) -ℤ pos 1 }
    {
        self.parts.count as i64 - 1
    }

    /// The sequence number of the document with an id, and `None` where there is none. Takes no memory.
    pub fn number(&self, id: &Text) -> Option<u64>
        ensures { result ≡ number_of id.now self.now.docs }
    {
        number_in(&self.parts, id)
    }

    /// The document with a sequence number. Takes no memory.
    pub fn doc(&self, number: usize) -> &Doc
        requires { number < length self.now.docs }
        ensures { result.now ≡ slice_index_or self.now.docs number result.now }
    {
        doc_at(
            self.parts.segments.as_slice(),
            self.parts.tail.as_slice(),
            number,
        )
    }
}

// How many documents a shard has at most.
const MOST: u64 = 1 << 31;

// One document more.
fn create_in(alloc: Global, parts: &mut Parts, doc: Arc<Doc, Global>) -> Result<u64, ShardError>
    requires { IsWhole parts.old }
    ensures whole { IsWhole parts.new }
    ensures answer { IsCreated (docs_of parts.old) (arc_value doc) (docs_of parts.new) result }
    ensures left { OnOk result (spare_of parts.new ≡ left_after (arc_value doc).id (spare_of parts.old)) }
    ensures no_memory { IsTrue (is_next (arc_value doc).id (spare_of parts.old)) → result ≢ Err Memory }
{
    if let Some(seq) = number_in(parts, &doc.id) {
        return Err(ShardError::VersionConflict { seq });
    }
    if MOST <= parts.count {
        return Err(ShardError::Full);
    }
    make_room(alloc, parts, &doc.id)?;
    Ok(append(parts, doc))
}
