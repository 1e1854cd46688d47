// What is looked up in a core: indices, documents and transforms.
ghost use Rattle.std.specs.Prelude.{◌≡◌, ◌^◌, ◌||◌, IfOk, not, length, slice_get, reverse, option_map, IfSome, Some, ◌<◌};
ghost use Rattle.std.specs.List.{find as find_doc, list_any, position};
ghost use Rattle.std.specs.Option.{option_copied};
ghost use Rattle.std.specs.Arc.{arc_value};
ghost use Rattle.std.specs.Str.{bytes_eq};
ghost use Rattle.tf_history.specs.Catalogue as catalogue;
ghost use Rattle.tf_history.specs.LegalEntries as legal;
ghost use Rattle.tf_history.specs.LegalEntries.{has_id};
ghost use Rattle.tf_history.specs.Transforms.{transform_of};
ghost use Rattle.tf_core.specs.Held.{life_in};
ghost use Rattle.tf_core.specs.Ids.{AreIndexed};
ghost use Rattle.tf_core.specs.Lookups as spec;
ghost use Rattle.tf_core.specs.Lookups.{docs_in, indices_in, mentions_in, some_has, transforms_in};
ghost use Rattle.tf_core.specs.Sources.{catalogued};
ghost use Rattle.tf_core.specs.Standing.{shared};
ghost use Rattle.tf_core.specs.Summary.{put_of};
ghost use Rattle.tf_core.specs.Table.{Tells};

use crate::catalogue::{catalogue_of, number_in};
use crate::ids::Ids;
use crate::index::Index;
use crate::state::Core;
use crate::table::find;
use crate::transform::Transform;
use std::alloc::Global;
use std::sync::Arc;
use tf_config::Catalogue;
use tf_model::{Doc, OutOfMemory, Text};

impl Core {
    /// How many documents were written.
    pub fn written(&self) -> u64
        ensures count { result ≡ length (docs_in self.now.history) }
        ensures few { result < 2 ^ 63 }
    {
        self.docs.len() as u64
    }

    /// The number of the index with a name.
    pub fn index_number(&self, name: &Text) -> Option<u64>
        ensures { result ≡ catalogue.number_of name.now (indices_in self.now.history) }
    {
        number_in(self.indices.as_slice(), name)
    }

    /// The index with a number.
    pub fn index_at(&self, number: u64) -> Option<&Index>
        ensures { option_copied result ≡ slice_get (indices_in self.now.history) number }
    {
        self.indices.get(number as usize)
    }

    /// How many indices there are.
    pub fn index_count(&self) -> u64
        ensures { result ≡ length (indices_in self.now.history) }
    {
        self.indices.len() as u64
    }

    /// The indices as configurations see them, in the order of their numbers. Mappings are shared.
    pub fn catalogue(&self) -> Result<Catalogue, OutOfMemory>
        ensures { IfOk result (λ catalogue. catalogue ≡ catalogued (indices_in self.now.history)) }
    {
        catalogue_of(self.alloc, self.indices.as_slice())
    }

    /// How many transforms there are.
    pub fn transform_count(&self) -> u64
        ensures { result ≡ length (transforms_in self.now.history) }
    {
        self.transforms.len() as u64
    }

    /// The transform with an id.
    pub fn transform(&self, id: &Text) -> Option<&Transform>
        ensures put { option_map put_of (option_copied result) ≡ transform_of id.now (reverse self.now.history) }
        ensures life { Tells (docs_in self.now.history) (option_copied result) (life_in id.now self.now.history) }
    {
        find(self.transforms.as_slice(), id)
    }

    /// The place of the document with an id in an index, among all documents. Looks at no other document.
    pub fn document_place(&self, index: u32, id: &Text) -> Option<u64>
        ensures { result ≡ spec.document_place index id.now self.now.history }
    {
        place_in(&self.ids, self.docs.as_slice(), index, id)
    }
}

impl Core {
    /// The document with an id in an index. Looks at no other document.
    pub fn document(&self, index: u32, id: &Text) -> Option<&Doc>
        ensures { option_copied result ≡ find_doc (has_id index id.now) (docs_in self.now.history) }
    {
        found_doc(&self.ids, self.docs.as_slice(), index, id)
    }
}

fn found_doc<'a>(ids: &Ids, docs: &'a [Arc<Doc, Global>], index: u32, id: &Text) -> Option<&'a Doc>
    requires { AreIndexed ids.now (shared docs.now) }
    ensures { option_copied result ≡ find_doc (has_id index id.now) (shared docs.now) }
{
    match place_in(ids, docs, index, id) {
        None => None,
        Some(place) => doc_behind(docs, place),
    }
}

fn doc_behind(docs: &[Arc<Doc, Global>], place: u64) -> Option<&Doc>
    ensures { option_copied result ≡ slice_get (shared docs.now) place }
{
    match docs.get(place as usize) {
        Some(doc) => Some(doc),
        None => None,
    }
}

impl Core {
    /// How many documents a shard of an index has: the sequence number of its next one. Looks at no document.
    pub fn next_seq(&self, index: u32, shard: u32) -> u64
        ensures { result ≡ spec.shard_count index shard self.now.history }
    {
        self.counts.count(index, shard)
    }

    /// How many entries of the history name a transform, over all its lives: it is not 0 again after a delete. A worker sees
    /// by it that its transform changed.
    pub fn count_of(&self, id: &Text) -> u64
        ensures { result ≡ mentions_in id.now self.now.history }
    {
        self.counts.mentions(id)
    }
}

/// The place that is entered, where it is seen: where the document there has the id.
pub fn place_in(ids: &Ids, docs: &[Arc<Doc, Global>], index: u32, id: &Text) -> Option<u64>
    requires { AreIndexed ids.now (shared docs.now) }
    ensures { result ≡ position (has_id index id.now) (shared docs.now) }
{
    match ids.place(index, id) {
        None => None,
        Some(place) => {
            if is_at(doc_at(docs, place), index, id) {
                Some(place)
            } else {
                None
            }
        }
    }
}

fn doc_at(docs: &[Arc<Doc, Global>], place: u64) -> Option<&Arc<Doc, Global>>
    ensures { option_copied result ≡ slice_get docs.now place }
{
    docs.get(place as usize)
}

fn is_at(doc: Option<&Arc<Doc, Global>>, index: u32, id: &Text) -> bool
    ensures { result ≡ some_has (has_id index id.now) (option_map arc_value (option_copied doc.entry)) }
{
    match doc {
        Some(doc) => index == doc.index && *id == doc.id,
        None => false,
    }
}

impl Core {
    /// The transform whose destination has a name.
    pub fn transform_into(&self, name: &Text) -> Option<&Transform>
        ensures put { option_map put_of (option_copied result) ≡ spec.transform_into name.now self.now.history }
        ensures life { IfSome result (λ t. Tells (docs_in self.now.history) (Some t.now) (life_in t.now.id self.now.history)) }
    {
        find_into(self.transforms.as_slice(), name)
    }

    /// Whether a name is in use neither by an index nor by a destination.
    pub fn is_free(&self, name: &Text) -> bool
        ensures { result ≡ legal.is_free name.now (reverse self.now.history) }
    {
        let is_index = names_index(self.indices.as_slice(), name);
        let is_dest = names_dest(self.transforms.as_slice(), name);
        neither(is_index, is_dest)
    }
}

fn find_into<'a>(transforms: &'a [Transform], name: &Text) -> Option<&'a Transform>
    ensures { option_copied result ≡ spec.into_at name.now transforms.now }
{
    for transform in transforms {
        if *name == transform.config.dest {
            return Some(transform);
        }
    }
    None
}

fn names_index(indices: &[Index], name: &Text) -> bool
    ensures { result ≡ list_any (λ s. bytes_eq name.now s.name) indices.now }
{
    for index in indices {
        if *name == *index.name() {
            return true;
        }
    }
    false
}

fn neither(a: bool, b: bool) -> bool
    ensures { result ≡ not (a || b) }
{
    !(a || b)
}

fn names_dest(transforms: &[Transform], name: &Text) -> bool
    ensures { result ≡ list_any (λ t. bytes_eq name.now t.config.dest) transforms.now }
{
    for transform in transforms {
        if *name == transform.config.dest {
            return true;
        }
    }
    false
}
