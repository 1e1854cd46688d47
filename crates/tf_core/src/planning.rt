// The step of an entry.
ghost use Rattle.std.specs.Prelude.{◌≡◌, ◌++◌, IfOk};
ghost use Rattle.tf_core.specs.Chain.{all_added};
ghost use Rattle.tf_core.specs.Made.{IsFit, IsOther, IsStepFor, pages_of};

use crate::index::Index;
use crate::making::{opened, paged};
use crate::ready::{Change, Prepared, Step};
use std::alloc::Global;
use tf_model::{Entry, Key, Kind, OutOfMemory, SumRange, Text, copy_key};

/// The step of an entry that is no Write. A transform that it puts has room for the Pages of entries behind it.
pub fn step_of(
    alloc: Global,
    indices: &[Index],
    steps: &[Prepared],
    behind: &[Entry],
    entry: &Entry,
) -> Result<Step, OutOfMemory>
    requires other { IsOther entry.now.kind }
    requires fit { IsFit (indices.now ++ all_added steps.now) entry.now.kind }
    ensures { IfOk result (IsStepFor (indices.now ++ all_added steps.now) (pages_of behind.now) entry.now) }
{
    match &entry.kind {
        Kind::Index {
            name,
            shards,
            mapping,
            stamp,
            quick,
        } => Ok(Step::Index(Index::copied(alloc, name, *shards, mapping, stamp, *quick)?)),
        Kind::Write { .. } => unreachable!(),
        Kind::Put { id, config } => Ok(Step::Put(opened(
            alloc, indices, steps, behind, id, config,
        )?)),
        Kind::Delete { id } => Ok(Step::Delete(id.copy(alloc)?)),
        Kind::Reset { id } => changed(alloc, id, Change::Reset),
        Kind::Start { id } => changed(alloc, id, Change::Start),
        Kind::StopAsked { id, wait } => changed(alloc, id, Change::AskStop { wait: *wait }),
        Kind::Stopped { id } => changed(alloc, id, Change::Stop),
        Kind::Schedule { id } => changed(alloc, id, Change::Prompt),
        Kind::Begin { id, n, bound } => changed(alloc, id, begun(*n, *bound, entry.at_ms)),
        Kind::Page { id, n, rows } => changed(alloc, id, paged(alloc, *n, rows.as_slice())?),
        Kind::Finish { id, n } => changed(alloc, id, Change::Finish { n: *n }),
        Kind::Fail {
            id,
            n: _,
            key,
            name,
            value,
        } => changed(alloc, id, Change::Fail(reason(alloc, key, name, *value)?)),
    }
}

fn changed(alloc: Global, id: &Text, change: Change) -> Result<Step, OutOfMemory>
    ensures { IfOk result (λ step. step ≡ Step.Change id.now change) }
{
    Ok(Step::Change {
        id: id.copy(alloc)?,
        change,
    })
}

fn begun(n: u64, bound: Option<i64>, at_ms: i64) -> Change
    ensures { result ≡ Change.Begin n bound at_ms }
{
    Change::Begin { n, bound, at_ms }
}

fn reason(alloc: Global, key: &Key, name: &Text, value: i128) -> Result<SumRange, OutOfMemory>
    ensures { IfOk result (λ reason. reason ≡ record { key = key.now; name = name.now; value = value }) }
{
    Ok(SumRange {
        key: copy_key(alloc, key)?,
        name: name.copy(alloc)?,
        value,
    })
}
