// Documents that are written one at a time.
ghost use Rattle.std.specs.Prelude.{◌≡◌, ◌≤◌, ◌<◌, IfOk, Ok, Some, option_map, reverse, slice_get};
ghost use Rattle.std.specs.List.{find};
ghost use Rattle.std.specs.Option.{option_copied};
ghost use Rattle.tf_command.specs.Formed.{IsDocumentId, IsObject};
ghost use Rattle.tf_model.specs.Lines.{IsLine};
ghost use Rattle.tf_history.specs.Catalogue.{catalogue};
ghost use Rattle.tf_history.specs.LegalEntries.{has_id};
ghost use Rattle.tf_history.specs.Lives.{documents as written};
ghost use Rattle.tf_mapping.specs.Documents.{reading};
ghost use Rattle.tf_mapping.specs.Routes as shards;
ghost use Rattle.tf_core.specs.Legal.{read};
ghost use Rattle.tf_core.specs.Moves.{moment_after};
ghost use Rattle.tf_decide.specs.Asking as spec;
ghost use Rattle.tf_decide.specs.Documents as spec_tried;
ghost use Rattle.tf_decide.specs.Ready.{IsReady, IsReadyDocument};

use crate::asked::{Answer, Asked};
use crate::finding::{index_number, is_dest};
use crate::giving::Given;
use crate::making::{entry_after, made, moment_of, refused, text_is_utf8};
use std::alloc::Global;
use tf_core::{Core, Index};
use tf_json::line_is_read;
use tf_mapping::{read_doc, route, stamped};
use tf_model::{Entry, Kind, OutOfMemory, Text, Tree, copy_tree, is_index_name};
use tf_reply::{Limit, Refusal, doc_refusal};

const MOST_DOCUMENTS: u64 = 2_147_483_648;

/// A document goes into an index, and not into a destination.
pub fn ask_index_document(
    alloc: Global,
    core: &Core,
    name: &Text,
    id: &Text,
    doc: &Tree,
    given: &Given,
) -> Result<Asked, OutOfMemory>
    requires id { IsDocumentId id.now }
    requires doc { IsObject doc.now }
    requires actor { given.now.actor ≤ 15 }
    ensures asked { IfOk result (λ asked. asked ≡ spec.asked_written (reverse core.now.history) given.now.actor given.now.at_ms name.now id.now doc.now) }
    ensures ready { IfOk result (IsReady (reverse core.now.history)) }
{
    let name = name.copy(alloc)?;
    let id = id.copy(alloc)?;
    let doc = copy_tree(alloc, doc)?;
    document_asked(alloc, core, name, id, doc, given)
}

// This document goes into an index.
fn document_asked(
    alloc: Global,
    core: &Core,
    name: Text,
    id: Text,
    doc: Tree,
    given: &Given,
) -> Result<Asked, OutOfMemory>
    requires id { IsDocumentId id }
    requires doc { IsObject doc }
    requires actor { given.now.actor ≤ 15 }
    ensures asked { IfOk result (λ asked. asked ≡ spec.asked_written (reverse core.now.history) given.now.actor given.now.at_ms name id doc) }
    ensures ready { IfOk result (IsReady (reverse core.now.history)) }
{
    if !may_be_written(core, &name) {
        return Ok(refused(alloc, Refusal::BadName { name }));
    }
    match index_number(core, &name) {
        Some(index) => ask_numbered(alloc, core, index, name, id, doc, given),
        None => Ok(refused(alloc, Refusal::NoSuchIndex { name })),
    }
}

/// Whether a name is well formed, and no destination has it.
pub fn may_be_written(core: &Core, name: &Text) -> bool
    ensures { result ≡ spec.may_be_written (reverse core.now.history) name.now }
{
    is_index_name(name.as_str()) && !is_dest(core, name)
}

// A document goes into the index with a number.
fn ask_numbered(
    alloc: Global,
    core: &Core,
    index: u32,
    name: Text,
    id: Text,
    doc: Tree,
    given: &Given,
) -> Result<Asked, OutOfMemory>
    requires id { IsDocumentId id }
    requires doc { IsObject doc }
    requires actor { given.now.actor ≤ 15 }
    ensures asked { IfOk result (λ asked. asked ≡ spec.into_number (reverse core.now.history) name (λ index s. spec.document_alone (spec.asked_document (reverse core.now.history) given.now.actor given.now.at_ms index s id doc)) (Some index)) }
    ensures ready { IfOk result (IsReady (reverse core.now.history)) }
{
    match core.index_at(u64::from(index)) {
        Some(source) => ask_alone(alloc, core, index, source, id, doc, given),
        None => Ok(refused(alloc, Refusal::NoSuchIndex { name })),
    }
}

// A document alone.
fn ask_alone(
    alloc: Global,
    core: &Core,
    index: u32,
    source: &Index,
    id: Text,
    doc: Tree,
    given: &Given,
) -> Result<Asked, OutOfMemory>
    requires source { slice_get (catalogue (reverse core.now.history)) index ≡ Some source.now }
    requires id { IsDocumentId id }
    requires doc { IsObject doc }
    requires actor { given.now.actor ≤ 15 }
    ensures asked { IfOk result (λ asked. asked ≡ spec.document_alone (spec.asked_document (reverse core.now.history) given.now.actor given.now.at_ms index source.now id doc)) }
    ensures ready { IfOk result (IsReady (reverse core.now.history)) }
{
    let tried = ask_document(alloc, core, index, source, id, doc, given)?;
    alone(alloc, tried)
}

// What is told of a document alone.
fn alone(alloc: Global, tried: Result<Entry, Refusal>) -> Result<Asked, OutOfMemory>
    ensures asked { IfOk result (λ asked. asked ≡ spec.document_alone tried) }
{
    match tried {
        Ok(entry) => {
            let answer = written(&entry);
            made(alloc, entry, answer)
        }
        Err(refusal) => Ok(refused(alloc, refusal)),
    }
}

// Where a document that an entry writes stands.
fn written(entry: &Entry) -> Answer
    ensures { result ≡ spec.written_of entry.now }
{
    match &entry.kind {
        Kind::Write { seq, shard, .. } => Answer::Written {
            seq: *seq,
            shard: *shard,
        },
        _ => Answer::Written { seq: 0, shard: 0 },
    }
}

// What becomes of a document of an index.
fn ask_document(
    alloc: Global,
    core: &Core,
    index: u32,
    source: &Index,
    id: Text,
    doc: Tree,
    given: &Given,
) -> Result<Result<Entry, Refusal>, OutOfMemory>
    requires source { slice_get (catalogue (reverse core.now.history)) index ≡ Some source.now }
    requires id { IsDocumentId id }
    requires doc { IsObject doc }
    requires actor { given.now.actor ≤ 15 }
    ensures asked { IfOk result (λ tried. tried ≡ spec.asked_document (reverse core.now.history) given.now.actor given.now.at_ms index source.now id doc) }
    ensures ready { IfOk result (IsReadyDocument (reverse core.now.history)) }
{
    let shard = shard_of(core, index, source, &id);
    let place = place_in(core, index, &id);
    let seq = core.next_seq(index, shard);
    try_document(
        alloc, core, index, source, shard, place, seq, id, doc, given,
    )
}

/// The shard of a document of an index.
pub fn shard_of(core: &Core, index: u32, source: &Index, id: &Text) -> u32
    requires source { slice_get (catalogue (reverse core.now.history)) index ≡ Some source.now }
    ensures shard { result ≡ shards.shard_of id.now source.now.shards }
    ensures within { result < source.now.shards }
{
    core.is_taken();
    route(id, source.shards())
}

/// Where the document with an id stands in an index.
pub fn place_in(core: &Core, index: u32, id: &Text) -> Option<(u64, u32)>
    ensures { result ≡ option_map spec.place_of (find (has_id index id.now) (written (read (reverse core.now.history)))) }
{
    match core.document(index, id) {
        Some(doc) => Some((doc.seq, doc.shard)),
        None => None,
    }
}

/// What becomes of a document, by the place of one with its id and the next number of its shard.
pub fn try_document(
    alloc: Global,
    core: &Core,
    index: u32,
    source: &Index,
    shard: u32,
    place: Option<(u64, u32)>,
    seq: u64,
    id: Text,
    doc: Tree,
    given: &Given,
) -> Result<Result<Entry, Refusal>, OutOfMemory>
    requires source { slice_get (catalogue (reverse core.now.history)) index ≡ Some source.now }
    requires id { IsDocumentId id }
    requires doc { IsObject doc }
    requires actor { given.now.actor ≤ 15 }
    ensures asked { IfOk result (λ tried. tried ≡ spec_tried.document_tried (reverse core.now.history) given.now.actor given.now.at_ms index source.now shard place seq id doc) }
    ensures ready { IfOk result (IsReadyDocument (reverse core.now.history)) }
{
    match refused_by(alloc, source, &doc)? {
        Some(refusal) => Ok(Err(refusal)),
        None => match place {
            Some((seq, shard)) => Ok(Err(Refusal::VersionConflict { id, seq, shard })),
            None => keep_document(alloc, core, index, source, shard, seq, id, doc, given),
        },
    }
}

// Why an index does not read a document with its stamp free, where it does not.
fn refused_by(alloc: Global, source: &Index, doc: &Tree) -> Result<Option<Refusal>, OutOfMemory>
    ensures { IfOk result (λ refused. refused ≡ spec_tried.refused_by (reading source.now.mapping source.now.stamp doc.now)) }
{
    match read_doc(alloc, source.shared_mapping(), source.stamp(), doc) {
        Ok(_) => Ok(None),
        Err(error) => Ok(Some(doc_refusal(error)?)),
    }
}

// A document whose id is new.
fn keep_document(
    alloc: Global,
    core: &Core,
    index: u32,
    source: &Index,
    shard: u32,
    seq: u64,
    id: Text,
    doc: Tree,
    given: &Given,
) -> Result<Result<Entry, Refusal>, OutOfMemory>
    requires source { slice_get (catalogue (reverse core.now.history)) index ≡ Some source.now }
    requires id { IsDocumentId id }
    requires doc { IsObject doc }
    requires actor { given.now.actor ≤ 15 }
    ensures asked { IfOk result (λ tried. tried ≡ spec_tried.document_new (reverse core.now.history) given.now.actor given.now.at_ms index source.now shard seq id doc) }
    ensures ready { IfOk result (IsReadyDocument (reverse core.now.history)) }
{
    if MOST_DOCUMENTS <= seq {
        return Ok(Err(Refusal::Limit {
            what: Limit::Documents,
        }));
    }
    core.is_taken();
    text_is_utf8(&id);
    let tree = keep_next(alloc, core, source, given, doc)?;
    line_is_read(&tree);
    Ok(Ok(entry_after(
        core,
        given,
        Kind::Write {
            index,
            shard,
            seq,
            id,
            tree,
        },
    )))
}

// A document as an index keeps it next.
fn keep_next(
    alloc: Global,
    core: &Core,
    source: &Index,
    given: &Given,
    doc: Tree,
) -> Result<Tree, OutOfMemory>
    requires doc { IsObject doc }
    ensures tree { IfOk result (λ tree. tree ≡ spec.kept_tree source.now.stamp (moment_after (reverse core.now.history) given.now.at_ms) doc) }
    ensures line { IfOk result IsLine }
{
    let at_ms = moment_of(core, given);
    keep(alloc, source, at_ms, doc)
}

// A document as an index keeps it at a moment.
fn keep(alloc: Global, source: &Index, at_ms: i64, doc: Tree) -> Result<Tree, OutOfMemory>
    requires doc { IsObject doc }
    ensures tree { IfOk result (λ tree. tree ≡ spec.kept_tree source.now.stamp at_ms doc) }
    ensures line { IfOk result IsLine }
{
    match source.stamp() {
        None => Ok(doc),
        Some(stamp) => {
            let tree = stamped(alloc, doc, stamp, at_ms)?;
            Ok(tree)
        }
    }
}
