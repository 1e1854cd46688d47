// How entries are prepared.
ghost use Rattle.std.specs.Prelude.{◌≡◌, ◌++◌, List, IfOk};
ghost use Rattle.tf_core.specs.declared.ready.Prepared.{Prepared};
ghost use Rattle.tf_core.specs.Counts.{HaveCounts, SameCounts};
ghost use Rattle.tf_core.specs.Ids.{AreIndexed, AreNew, all_docs};
ghost use Rattle.tf_core.specs.Standing.{shared};
ghost use Rattle.tf_core.specs.Chain.{HasRoom, all_added};
ghost use Rattle.tf_core.specs.Made.{IsFit, IsOther, IsPreparedFor, pages_of};
ghost use Rattle.tf_core.specs.Rooms.{SameTables};
ghost use Rattle.tf_core.specs.Preparing.{AllFit, ArePrepared};

use crate::counts::{Counts, make_counts};
use crate::ids::{Ids, enter_all};
use crate::index::Index;
use crate::kept::Kept;
use crate::planning::step_of;
use crate::ready::Prepared;
use crate::rooms::make_room;
use crate::transform::Transform;
use crate::writing::{doc_of, written};
use std::alloc::Global;
use std::sync::Arc;
use tf_model::{Doc, Entry, Kind, List, OutOfMemory};

/// Takes all the memory that entries need, and changes nothing but room, counts of 0 and places that are not seen yet.
pub fn make_ready(
    alloc: Global,
    entries: &mut Vec<Kept>,
    indices: &mut Vec<Index>,
    docs: &mut Vec<Arc<Doc, Global>>,
    transforms: &mut Vec<Transform>,
    ids: &mut Ids,
    counts: &mut Counts,
    more: List<Entry>,
) -> Result<Vec<Prepared>, OutOfMemory>
    requires fit { AllFit indices.old.items more }
    requires new { (steps : List Prepared) → ArePrepared indices.old.items more steps → AreNew (shared docs.old.items) steps }
    requires indexed { AreIndexed ids.old (shared docs.old.items) }
    ensures entries { entries.new.items ≡ entries.old.items }
    ensures indices { indices.new.items ≡ indices.old.items }
    ensures docs { docs.new.items ≡ docs.old.items }
    ensures transforms { SameTables transforms.old.items transforms.new.items }
    ensures indexed { AreIndexed ids.new (shared docs.old.items) }
    ensures counted { SameCounts counts.old counts.new }
    ensures steps { IfOk result (λ steps. ArePrepared indices.old.items more steps.items) }
    ensures room { IfOk result (λ steps. HasRoom steps.items entries.new indices.new docs.new transforms.new) }
    ensures places { IfOk result (λ steps. AreIndexed ids.new (shared docs.old.items ++ all_docs steps.items)) }
    ensures counts { IfOk result (λ steps. HaveCounts counts.new steps.items) }
{
    let steps = prepare_all(alloc, indices.as_slice(), more)?;
    make_room(alloc, entries, indices, docs, transforms, steps.as_slice())?;
    make_counts(counts, alloc, steps.as_slice())?;
    enter_all(ids, alloc, docs.as_slice(), steps.as_slice())?;
    Ok(steps)
}

/// Prepares entries one after the other, where these indices are there before the first.
pub fn prepare_all(
    alloc: Global,
    indices: &[Index],
    entries: List<Entry>,
) -> Result<Vec<Prepared>, OutOfMemory>
    requires { AllFit indices.now entries }
    ensures { IfOk result (λ steps. ArePrepared indices.now entries steps.items) }
{
    let mut steps = Vec::new(alloc);
    let mut behind = entries.into_vec();
    behind.reverse();
    while let Some(entry) = behind.pop() {
        let prepared = prepare(alloc, indices, steps.as_slice(), behind.as_slice(), entry)?;
        steps.push(prepared)?;
    }
    Ok(steps)
}

/// Prepares one entry, where others come behind it.
fn prepare(
    alloc: Global,
    indices: &[Index],
    steps: &[Prepared],
    behind: &[Entry],
    entry: Entry,
) -> Result<Prepared, OutOfMemory>
    requires { IsFit (indices.now ++ all_added steps.now) entry.kind }
    ensures { IfOk result (IsPreparedFor (indices.now ++ all_added steps.now) (pages_of behind.now) entry) }
{
    let Entry { at_ms, actor, kind } = entry;
    match kind {
        Kind::Write {
            index,
            shard,
            seq,
            id,
            tree,
        } => {
            let doc = doc_of(alloc, indices, steps, index, shard, seq, id, tree)?;
            written(alloc, at_ms, actor, doc)
        }
        kind => whole(alloc, indices, steps, behind, Entry { at_ms, actor, kind }),
    }
}

/// Prepares an entry that is kept whole.
fn whole(
    alloc: Global,
    indices: &[Index],
    steps: &[Prepared],
    behind: &[Entry],
    entry: Entry,
) -> Result<Prepared, OutOfMemory>
    requires other { IsOther entry.kind }
    requires fit { IsFit (indices.now ++ all_added steps.now) entry.kind }
    ensures { IfOk result (IsPreparedFor (indices.now ++ all_added steps.now) (pages_of behind.now) entry) }
{
    let step = step_of(alloc, indices, steps, behind, &entry)?;
    Ok(Prepared {
        kept: Kept::Other(Arc::new(alloc, entry)?),
        step,
    })
}
