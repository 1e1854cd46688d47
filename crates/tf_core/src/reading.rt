// The documents that a checkpoint reads.
ghost use Rattle.std.specs.Prelude.{◌≡◌, ◌<◌, ◌++◌, ◌∷◌, [], IfOk, OnOk, filter, map};
ghost use Rattle.std.specs.Arc.{arc_value};
ghost use Rattle.std.specs.Option.{option_copied};
ghost use Rattle.tf_model.specs.Changed.{changed_above};
ghost use Rattle.tf_model.specs.Conditions.{AllFit, IsInRange};
ghost use Rattle.tf_reader.specs.Places.{documents};
ghost use Rattle.tf_core.specs.Allowing.{has_none_left, is_empty, read_by};
ghost use Rattle.tf_core.specs.Passed.{HasMark, unpassed};
ghost use Rattle.tf_core.specs.Sources.{is_among as among};
ghost use Rattle.tf_core.specs.Standing.{shared};

use crate::late::is_among;
use crate::marks::{first, from};
use crate::transform::Transform;
use std::alloc::Global;
use std::marker::Brand;
use std::sync::Arc;
use std::sync::ledger::{Blank, Ledger};
use tf_model::{Config, Doc, Key, List, OutOfMemory, Steps};
use tf_page::changed_after;
use tf_reader::Reader;
use tf_segment::Run;

// How many documents are read at most.
const MOST_DOCS: usize = 1 << 31;

/// A reader of the documents that the newest checkpoint of a transform reads.
pub fn reader_of(
    alloc: Global,
    transform: &Transform,
    docs: &[Arc<Doc, Global>],
) -> Result<Reader, OutOfMemory>
    ensures { IfOk result (λ reader. documents reader ≡ read_by transform.now (shared docs.now)) }
{
    let read = first(docs, transform.read);
    let docs = docs_in(alloc, transform.sources.as_slice(), read)?;
    reader_over(alloc, docs)
}

// A reader of those that the mark has not passed.
fn window_reader(
    alloc: Global,
    transform: &Transform,
    docs: &[Arc<Doc, Global>],
) -> Result<Reader, OutOfMemory>
    ensures { IfOk result (λ reader. documents reader ≡ unpassed transform.now (shared docs.now)) }
{
    let docs = from(first(docs, transform.read), transform.passed);
    let docs = docs_in(alloc, transform.sources.as_slice(), docs)?;
    reader_over(alloc, docs)
}

// The reader of shared documents. More of them than a run can have are too many for the memory.
fn reader_over(alloc: Global, docs: List<Arc<Doc, Global>>) -> Result<Reader, OutOfMemory>
    ensures { IfOk result (λ reader. documents reader ≡ map (λ doc. arc_value doc) docs) }
{
    if MOST_DOCS < docs.len() {
        return Err(OutOfMemory);
    }
    let mut runs = List::new(alloc);
    runs.push(Run::new(docs))?;
    Ok(Reader::new(runs))
}

// Those documents that are in these indices, shared.
fn docs_in(
    alloc: Global,
    sources: &[u64],
    docs: &[Arc<Doc, Global>],
) -> Result<List<Arc<Doc, Global>>, OutOfMemory>
    ensures { IfOk result (λ found. map (λ doc. arc_value doc) found ≡ filter (among sources.now) (map (λ doc. arc_value doc) docs.now)) }
{
    let mut found = List::new(alloc);
    for doc in docs {
        push_if(&mut found, sources, doc)?;
    }
    Ok(found)
}

fn push_if(
    found: &mut List<Arc<Doc, Global>>,
    sources: &[u64],
    doc: &Arc<Doc, Global>,
) -> Result<(), OutOfMemory>
    ensures { OnOk result (map (λ doc. arc_value doc) found.new ≡ map (λ doc. arc_value doc) found.old ++ filter (among sources.now) (arc_value doc.now ∷ [])) }
{
    if is_among(sources, doc.index) {
        found.push(Arc::try_clone(doc)?)?;
    }
    Ok(())
}

/// Whether no changed key of a transform's newest checkpoint is above its position. Looks only at documents that its mark has
/// not passed.
#[tactic(auto, using(crate::proofs::Passed::keys_behind))]
pub fn none_left(
    alloc: Global,
    transform: &Transform,
    docs: &[Arc<Doc, Global>],
) -> Result<bool, OutOfMemory>
    requires config { IsInRange transform.now.config }
    requires marked { HasMark transform.now (shared docs.now) }
    requires fit { AllFit transform.now.config (read_by transform.now (shared docs.now)) }
    ensures { IfOk result (λ none. none ≡ has_none_left transform.now (shared docs.now)) }
{
    let reader = window_reader(alloc, transform, docs)?;
    none_after::<Brand>(
        alloc,
        &reader,
        &transform.config,
        transform.low,
        transform.bound,
        transform.position.as_ref(),
        Blank::new(1),
    )
}

// Whether no changed key is above a position, for a caller that counts no steps.
fn none_after<L: Ledger>(
    alloc: Global,
    reader: &Reader,
    config: &Config,
    low: Option<i64>,
    bound: Option<i64>,
    position: Option<&Key>,
    blank: Blank,
) -> Result<bool, OutOfMemory>
    requires config { IsInRange config.now }
    requires docs { AllFit config.now (documents reader.now) }
    requires name { blank.name ≡ L.name }
    requires parts { blank.parts ≡ L.parts }
    requires some { 0 < blank.parts }
    ensures { IfOk result (λ none. none ≡ is_empty (changed_above config.now low bound (option_copied position.entry) (documents reader.now))) }
{
    let mut steps = Steps::<L>::new(blank);
    let changed = changed_after(alloc, reader, config, low, bound, position, 1, &mut steps)?;
    Ok(changed.keys.is_empty())
}
