// Documents that are written in bulk.
ghost use Rattle.std.specs.Prelude.{◌≡◌, ◌≤◌, ◌<◌, ◌^◌, ◌+◌, ◌++◌, ◌∷◌, [], ℕ, List, IfOk, OnOk, Some, if◌then◌else◌, length, map, reverse, slice_get, slice_set};
ghost use Rattle.std.specs.BTreeMap.{get};
ghost use Rattle.std.specs.Cmp.Lexicographic.{slice_cmp};
ghost use Rattle.std.specs.List.{AllByRecursion};
ghost use Rattle.std.specs.Ordering.{nat_cmp};
ghost use Rattle.std.specs.Str.{bytes_eq};
ghost use Rattle.tf_command.specs.Formed.{AreDocuments, IsDocumentId, IsObject};
ghost use Rattle.tf_event.specs.Entries.{FitsEntry};
ghost use Rattle.tf_event.specs.declared.grammar.Grammar.TheVariants.{First};
ghost use Rattle.tf_history.specs.Catalogue.{catalogue};
ghost use Rattle.tf_history.specs.Lives.{documents as written};
ghost use Rattle.tf_core.specs.Legal.{read};
ghost use Rattle.tf_reply.specs.declared.replies.Item.TheVariants as item;
ghost use Rattle.tf_decide.specs.Asking as spec;
ghost use Rattle.tf_decide.specs.Bulk as bulk;
ghost use Rattle.tf_decide.specs.Ready.{IsReady};

use crate::asked::{Answer, Asked};
use crate::batch::Batch;
use crate::documents::{may_be_written, place_in, shard_of, try_document};
use crate::finding::index_number;
use crate::giving::Given;
use crate::making::refused;
use std::alloc::Global;
use std::collections::BTreeMap;
use tf_core::{Core, Index};
use tf_model::{Entry, List, OutOfMemory, Text, Tree, copy_tree};
use tf_reply::{Item, Refusal};

/// Documents go into an index in their order, each after those before it.
pub fn ask_bulk(
    alloc: Global,
    core: &Core,
    name: &Text,
    docs: &List<(Text, Tree)>,
    given: &Given,
) -> Result<Asked, OutOfMemory>
    requires docs { AreDocuments docs.now }
    requires actor { given.now.actor ≤ 15 }
    ensures asked { IfOk result (λ asked. asked ≡ spec.asked_bulk (reverse core.now.history) given.now.actor given.now.at_ms name.now docs.now) }
    ensures ready { IfOk result (IsReady (reverse core.now.history)) }
{
    let name = name.copy(alloc)?;
    let docs = copies(alloc, docs.as_slice())?;
    bulk_asked(alloc, core, name, docs, given)
}

fn copies(alloc: Global, docs: &[(Text, Tree)]) -> Result<List<(Text, Tree)>, OutOfMemory>
    ensures { IfOk result (λ copies. copies ≡ docs.now) }
{
    let mut copies = List::new(alloc);
    for document in docs {
        copies.push(copy(alloc, document)?)?;
    }
    Ok(copies)
}

fn copy(alloc: Global, document: &(Text, Tree)) -> Result<(Text, Tree), OutOfMemory>
    ensures { IfOk result (λ copy. copy ≡ document.now) }
{
    Ok((document.0.copy(alloc)?, copy_tree(alloc, &document.1)?))
}

// These documents go into an index.
fn bulk_asked(
    alloc: Global,
    core: &Core,
    name: Text,
    docs: List<(Text, Tree)>,
    given: &Given,
) -> Result<Asked, OutOfMemory>
    requires docs { AreDocuments docs }
    requires actor { given.now.actor ≤ 15 }
    ensures asked { IfOk result (λ asked. asked ≡ spec.asked_bulk (reverse core.now.history) given.now.actor given.now.at_ms name docs) }
    ensures ready { IfOk result (IsReady (reverse core.now.history)) }
{
    if !may_be_written(core, &name) {
        return Ok(refused(alloc, Refusal::BadName { name }));
    }
    match index_number(core, &name) {
        Some(index) => ask_numbered(alloc, core, index, name, docs, given),
        None => Ok(refused(alloc, Refusal::NoSuchIndex { name })),
    }
}

// Documents go into the index with a number.
fn ask_numbered(
    alloc: Global,
    core: &Core,
    index: u32,
    name: Text,
    docs: List<(Text, Tree)>,
    given: &Given,
) -> Result<Asked, OutOfMemory>
    requires docs { AreDocuments docs }
    requires actor { given.now.actor ≤ 15 }
    ensures asked { IfOk result (λ asked. asked ≡ spec.into_number (reverse core.now.history) name (λ index s. spec.documents_tried (spec.asked_documents (reverse core.now.history) given.now.actor given.now.at_ms index s docs)) (Some index)) }
    ensures ready { IfOk result (IsReady (reverse core.now.history)) }
{
    match core.index_at(u64::from(index)) {
        Some(source) => ask_documents(alloc, core, index, source, docs, given),
        None => Ok(refused(alloc, Refusal::NoSuchIndex { name })),
    }
}

fn ask_documents(
    alloc: Global,
    core: &Core,
    index: u32,
    source: &Index,
    docs: List<(Text, Tree)>,
    given: &Given,
) -> Result<Asked, OutOfMemory>
    requires source { slice_get (catalogue (reverse core.now.history)) index ≡ Some source.now }
    requires docs { AreDocuments docs }
    requires actor { given.now.actor ≤ 15 }
    ensures asked { IfOk result (λ asked. asked ≡ spec.documents_tried (spec.asked_documents (reverse core.now.history) given.now.actor given.now.at_ms index source.now docs)) }
    ensures ready { IfOk result (IsReady (reverse core.now.history)) }
{
    let batch = try_all(alloc, core, index, source, docs, given)?;
    Ok(Asked {
        entries: batch.entries,
        answer: Answer::Tried(batch.items),
    })
}

// Each document is tried after those before it.
fn try_all(
    alloc: Global,
    core: &Core,
    index: u32,
    source: &Index,
    docs: List<(Text, Tree)>,
    given: &Given,
) -> Result<Batch, OutOfMemory>
    requires source { slice_get (catalogue (reverse core.now.history)) index ≡ Some source.now }
    requires docs { AreDocuments docs }
    requires actor { given.now.actor ≤ 15 }
    ensures entries { IfOk result (λ b. b.entries ≡ spec.accepted (spec.asked_documents (reverse core.now.history) given.now.actor given.now.at_ms index source.now docs)) }
    ensures items { IfOk result (λ b. b.items ≡ map spec.item_of (spec.asked_documents (reverse core.now.history) given.now.actor given.now.at_ms index source.now docs)) }
    ensures spelled { IfOk result (λ b. AllByRecursion (FitsEntry First) b.entries) }
{
    let mut batch = empty_batch(alloc, core, index, source, given)?;
    for document in docs.into_vec() {
        let (id, doc) = document;
        batch = try_next(alloc, core, index, source, batch, id, doc, given)?;
    }
    Ok(batch)
}

// Nothing is tried yet.
fn empty_batch(
    alloc: Global,
    core: &Core,
    index: u32,
    source: &Index,
    _given: &Given,
) -> Result<Batch, OutOfMemory>
    ensures entries { IfOk result (λ b. b.entries ≡ []) }
    ensures items { IfOk result (λ b. b.items ≡ []) }
    ensures batch { IfOk result (λ b. bulk.IsBatch (reverse core.now.history) _given.now.at_ms index source.now b) }
{
    let counts = first_counts(alloc, core, index, source.shards())?;
    Ok(Batch {
        entries: List::new(alloc),
        items: List::new(alloc),
        places: BTreeMap::new(alloc),
        counts,
    })
}

// How many documents each shard of an index has.
fn first_counts(
    alloc: Global,
    core: &Core,
    index: u32,
    shards: u32,
) -> Result<List<u64>, OutOfMemory>
    ensures { IfOk result (bulk.AreCounts (reverse core.now.history) index shards) }
{
    let mut counts = List::new(alloc);
    for shard in 0..shards {
        counts.push(core.next_seq(index, shard))?;
    }
    Ok(counts)
}

// The next document is tried after those before it.
fn try_next(
    alloc: Global,
    core: &Core,
    index: u32,
    source: &Index,
    batch: Batch,
    id: Text,
    doc: Tree,
    given: &Given,
) -> Result<Batch, OutOfMemory>
    requires source { slice_get (catalogue (reverse core.now.history)) index ≡ Some source.now }
    requires batch { bulk.IsBatch (reverse core.now.history) given.now.at_ms index source.now batch }
    requires id { IsDocumentId id }
    requires doc { IsObject doc }
    requires actor { given.now.actor ≤ 15 }
    requires spelled { AllByRecursion (FitsEntry First) batch.entries }
    ensures batch { IfOk result (bulk.IsBatch (reverse core.now.history) given.now.at_ms index source.now) }
    ensures tried { IfOk result (bulk.IsTried (bulk.next_tried (reverse core.now.history) given.now.actor given.now.at_ms index source.now batch id doc) batch) }
    ensures spelled { IfOk result (λ b. AllByRecursion (FitsEntry First) b.entries) }
{
    let shard = shard_of(core, index, source, &id);
    let place = place_with(core, index, &batch.places, &id);
    let seq = count_at(&batch.counts, shard);
    let name = id.copy(alloc)?;
    let tried = try_document(
        alloc, core, index, source, shard, place, seq, id, doc, given,
    )?;
    add(batch, name, shard, seq, tried)
}

// Where the document with an id stands in the index, or among those that are accepted.
fn place_with(
    core: &Core,
    index: u32,
    places: &BTreeMap<Text, (u64, u32), Global>,
    id: &Text,
) -> Option<(u64, u32)>
    ensures { result ≡ bulk.place_or (bulk.place_among (written (read (reverse core.now.history))) index id.now) (get (slice_cmp nat_cmp) places.now id.now) }
{
    match place_in(core, index, id) {
        Some(place) => Some(place),
        None => places.get(id).copied(),
    }
}

fn count_at(counts: &List<u64>, shard: u32) -> u64
    ensures { result ≡ bulk.count_or (slice_get counts.now shard) }
{
    match counts.get(shard as usize) {
        Some(count) => *count,
        None => 0,
    }
}

// What became of a document with an id is added.
fn add(
    batch: Batch,
    name: Text,
    shard: u32,
    seq: u64,
    tried: Result<Entry, Refusal>,
) -> Result<Batch, OutOfMemory>
    requires { bulk.IsPlaced tried shard seq batch }
    ensures tried { IfOk result (bulk.IsTried tried batch) }
    ensures kept { IfOk result (bulk.IsAdded tried name shard seq batch) }
{
    match tried {
        Ok(entry) => accept(batch, name, shard, seq, entry),
        Err(refusal) => refuse(batch, refusal),
    }
}

// A document is accepted.
fn accept(
    batch: Batch,
    name: Text,
    shard: u32,
    seq: u64,
    entry: Entry,
) -> Result<Batch, OutOfMemory>
    requires within { shard < length batch.counts }
    requires small { seq < 2 ^ 31 }
    ensures entries { IfOk result (λ b. b.entries ≡ batch.entries ++ entry ∷ []) }
    ensures items { IfOk result (λ b. b.items ≡ batch.items ++ item.Written seq shard ∷ []) }
    ensures places { IfOk result (λ b. (q : List ℕ) → get (slice_cmp nat_cmp) b.places q ≡ (if bytes_eq name q then Some (seq, shard) else get (slice_cmp nat_cmp) batch.places q)) }
    ensures counts { IfOk result (λ b. b.counts ≡ slice_set batch.counts shard (seq + 1)) }
{
    let Batch {
        mut entries,
        mut items,
        mut places,
        mut counts,
    } = batch;
    entries.push(entry)?;
    items.push(Item::Written { seq, shard })?;
    put_place(&mut places, name, (seq, shard))?;
    counts.set(shard as usize, seq + 1);
    Ok(Batch {
        entries,
        items,
        places,
        counts,
    })
}

fn put_place(
    places: &mut BTreeMap<Text, (u64, u32), Global>,
    name: Text,
    place: (u64, u32),
) -> Result<(), OutOfMemory>
    ensures { OnOk result ((q : List ℕ) → get (slice_cmp nat_cmp) places.new q ≡ (if bytes_eq name q then Some place else get (slice_cmp nat_cmp) places.old q)) }
{
    places.insert(name, place)?;
    Ok(())
}

// A document is refused.
fn refuse(batch: Batch, refusal: Refusal) -> Result<Batch, OutOfMemory>
    ensures entries { IfOk result (λ b. b.entries ≡ batch.entries) }
    ensures items { IfOk result (λ b. b.items ≡ batch.items ++ item.Refused refusal ∷ []) }
    ensures places { IfOk result (λ b. b.places ≡ batch.places) }
    ensures counts { IfOk result (λ b. b.counts ≡ batch.counts) }
{
    let Batch {
        entries,
        mut items,
        places,
        counts,
    } = batch;
    items.push(Item::Refused { refusal })?;
    Ok(Batch {
        entries,
        items,
        places,
        counts,
    })
}
