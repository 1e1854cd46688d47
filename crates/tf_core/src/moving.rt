// The indexer's next move.
ghost use Rattle.std.specs.Prelude.{◌≡◌, ◌<◌, ◌≤◌, ◌^◌, IfOk, Some, true, length, reverse};
ghost use Rattle.std.specs.List.{AllByRecursion};
ghost use Rattle.tf_history.specs.Lives.{documents};
ghost use Rattle.tf_history.specs.Transforms.{transforms as puts};
ghost use Rattle.tf_core.specs.Job.{Fits, IsJob, IsRunningAt, IsWhat, kind_for};
ghost use Rattle.tf_core.specs.Kept.{past_in};
ghost use Rattle.tf_core.specs.Legal.{IsTaken, read};
ghost use Rattle.tf_core.specs.Moves as spec;
ghost use Rattle.tf_core.specs.Moves.{IsRunningOf, is_moved_on, moment_after, moved};
ghost use Rattle.tf_core.specs.Passed.{HasMark};
ghost use Rattle.tf_core.specs.Standing.{Stands, shared};
ghost use Rattle.tf_core.specs.Table.{transform_at};
ghost use Rattle.tf_core.specs.Texts.{HasTexts, IsShort, IsShortKind, IsShortPut};
ghost use Rattle.tf_model.specs.Conditions.{IsInRange, IsSpan};

use crate::allowing::{GREATEST_DATE, is_active, is_started, may_stop};
use crate::beginning::{bound_at, is_due};
use crate::index::Index;
use crate::job::{Job, Running, What, Work};
use crate::kept::Kept;
use crate::reading::reader_of;
use crate::state::Core;
use crate::table::find;
use crate::taking::last_moment;
use crate::transform::Transform;
use std::alloc::Global;
use std::sync::Arc;
use tf_model::{Doc, Entry, Key, Kind, OutOfMemory, Text, copy_config, copy_key};

const INDEXER: u8 = 8;

/// Which move comes next.
#[derive(Clone, Copy)]
pub enum Next {
    /// The transform comes to its stop.
    Stopped,
    /// Checkpoint `n` begins.
    Begin { n: u64, bound: Option<i64> },
    /// The running checkpoint gets a page, is finished or fails.
    Page,
    /// There is none.
    Nothing,
}

/// Which move of a transform comes next at a moment in milliseconds since 1970.
pub fn what_next(transform: &Transform, docs: &[Arc<Doc, Global>], at_ms: i64) -> Next
    requires config { IsInRange transform.now.config }
    requires begun { IsSpan transform.now.begun_ms }
    requires few { transform.now.finished < 2 ^ 63 }
    requires at { IsSpan at_ms }
    requires marked { HasMark transform.now (shared docs.now) }
    ensures { result ≡ spec.what_next transform.now (shared docs.now) at_ms }
{
    if may_stop(transform) {
        Next::Stopped
    } else if is_started(transform.state) && is_due(transform, docs, at_ms) {
        Next::Begin {
            n: transform.finished + 1,
            bound: bound_at(transform, at_ms),
        }
    } else if transform.finished < transform.begun && is_active(transform.state) {
        Next::Page
    } else {
        Next::Nothing
    }
}

impl Core {
    /// The moment of an entry that comes next, where a moment is given: it is in the range of moments, and not before the
    /// last entry.
    pub fn moment(&self, now: i64) -> i64
        ensures { result ≡ moment_after (reverse self.now.history) now }
    {
        moment_of(self.entries.as_slice(), now)
    }

    /// The job of a transform at the moment that a given one makes, none exactly where it has no next move.
    pub fn job(&self, id: &Text, now: i64) -> Result<Option<Job>, OutOfMemory>
        ensures { IfOk result (IsJob (reverse self.now.history) (moment_after (reverse self.now.history) now) id.now) }
    {
        let entries = self.entries.as_slice();
        let indices = self.indices.as_slice();
        let docs = self.docs.as_slice();
        let transforms = self.transforms.as_slice();
        match find(transforms, id) {
            None => Ok(None),
            Some(found) => job_of(
                self.alloc, entries, indices, docs, transforms, id, found, now,
            ),
        }
    }

    /// The entry of a work that fits a transform, at the moment that a given one makes. It is taken next. Where the texts of
    /// documents and the names of aggregations have lengths that fit four bytes, so have those of the entry.
    pub fn entry(&self, id: &Text, work: Work, now: i64) -> Result<Entry, OutOfMemory>
        requires { Fits (reverse self.now.history) (moment_after (reverse self.now.history) now) id.now work }
        ensures made { IfOk result (λ entry. entry ≡ moved (moment_after (reverse self.now.history) now) (kind_for id.now work)) }
        ensures next { IfOk result (λ entry. Some entry ≡ spec.move id.now (reverse self.now.history) (moment_after (reverse self.now.history) now)) }
        ensures taken { IfOk result (IsTaken (reverse self.now.history)) }
        ensures short { AllByRecursion (HasTexts IsShort) (documents (read (reverse self.now.history))) → AllByRecursion IsShortPut (puts (reverse self.now.history)) → IfOk result (λ entry. IsShortKind entry.kind) }
    {
        entry_of(
            self.alloc,
            self.entries.as_slice(),
            self.indices.as_slice(),
            self.docs.as_slice(),
            self.transforms.as_slice(),
            id,
            work,
            now,
        )
    }
}

// The job of a transform that is there, at the moment that a given one makes.
fn job_of(
    alloc: Global,
    entries: &[Kept],
    indices: &[Index],
    docs: &[Arc<Doc, Global>],
    transforms: &[Transform],
    id: &Text,
    found: &Transform,
    now: i64,
) -> Result<Option<Job>, OutOfMemory>
    requires stands { Stands (past_in entries.now) indices.now (shared docs.now) transforms.now }
    requires found { transform_at id.now transforms.now ≡ Some found.now }
    requires few { length entries.now < 2 ^ 63 }
    ensures { IfOk result (IsJob (past_in entries.now) (moment_after (past_in entries.now) now) id.now) }
{
    match what_of(alloc, entries, indices, docs, transforms, id, found, now)? {
        Some(what) => Ok(Some(Job {
            id: id.copy(alloc)?,
            what,
        })),
        None => Ok(None),
    }
}

// What the next move of a transform is, at the moment that a given one makes.
fn what_of(
    alloc: Global,
    entries: &[Kept],
    indices: &[Index],
    docs: &[Arc<Doc, Global>],
    transforms: &[Transform],
    id: &Text,
    found: &Transform,
    now: i64,
) -> Result<Option<What>, OutOfMemory>
    requires stands { Stands (past_in entries.now) indices.now (shared docs.now) transforms.now }
    requires found { transform_at id.now transforms.now ≡ Some found.now }
    requires few { length entries.now < 2 ^ 63 }
    ensures { IfOk result (IsWhat (past_in entries.now) (moment_after (past_in entries.now) now) id.now) }
{
    match what_next(found, docs, moment_of(entries, now)) {
        Next::Stopped => Ok(Some(What::Stopped)),
        Next::Begin { n, bound } => Ok(Some(What::Begin { n, bound })),
        Next::Page => {
            let running = checkpoint_of(alloc, entries, indices, docs, transforms, id, found)?;
            Ok(Some(What::Page(running)))
        }
        Next::Nothing => Ok(None),
    }
}

// The running checkpoint that the next move moves on.
fn checkpoint_of(
    alloc: Global,
    entries: &[Kept],
    indices: &[Index],
    docs: &[Arc<Doc, Global>],
    transforms: &[Transform],
    id: &Text,
    found: &Transform,
) -> Result<Running, OutOfMemory>
    requires stands { Stands (past_in entries.now) indices.now (shared docs.now) transforms.now }
    requires found { transform_at id.now transforms.now ≡ Some found.now }
    requires moved { is_moved_on found.now ≡ true }
    ensures { IfOk result (IsRunningAt (past_in entries.now) id.now) }
{
    running_of(alloc, found, docs)
}

// The newest checkpoint of a transform.
fn running_of(
    alloc: Global,
    transform: &Transform,
    docs: &[Arc<Doc, Global>],
) -> Result<Running, OutOfMemory>
    ensures { IfOk result (IsRunningOf transform.now (shared docs.now)) }
{
    Ok(Running {
        n: transform.begun,
        config: copy_config(alloc, &transform.config)?,
        low: transform.low,
        high: transform.bound,
        after: copy_position(alloc, &transform.position)?,
        reader: reader_of(alloc, transform, docs)?,
    })
}

fn copy_position(alloc: Global, position: &Option<Key>) -> Result<Option<Key>, OutOfMemory>
    ensures { IfOk result (λ copy. copy ≡ position.now) }
{
    match position {
        Some(key) => Ok(Some(copy_key(alloc, key)?)),
        None => Ok(None),
    }
}

// The entry of a work that fits.
fn entry_of(
    alloc: Global,
    entries: &[Kept],
    indices: &[Index],
    docs: &[Arc<Doc, Global>],
    transforms: &[Transform],
    id: &Text,
    work: Work,
    now: i64,
) -> Result<Entry, OutOfMemory>
    requires stands { Stands (past_in entries.now) indices.now (shared docs.now) transforms.now }
    requires fits { Fits (past_in entries.now) (moment_after (past_in entries.now) now) id.now work }
    requires few { length docs.now < 2 ^ 63 }
    ensures made { IfOk result (λ entry. entry ≡ moved (moment_after (past_in entries.now) now) (kind_for id.now work)) }
    ensures next { IfOk result (λ entry. Some entry ≡ spec.move id.now (past_in entries.now) (moment_after (past_in entries.now) now)) }
    ensures taken { IfOk result (IsTaken (past_in entries.now)) }
    ensures short { AllByRecursion (HasTexts IsShort) (shared docs.now) → AllByRecursion IsShortPut (puts (past_in entries.now)) → IfOk result (λ entry. IsShortKind entry.kind) }
{
    let entry = moved_by(moment_of(entries, now), id.copy(alloc)?, work);
    Ok(entry)
}

// An entry of the indexer.
fn moved_by(at_ms: i64, id: Text, work: Work) -> Entry
    ensures { result ≡ moved at_ms (kind_for id work) }
{
    Entry {
        at_ms,
        actor: INDEXER,
        kind: kind_of(id, work),
    }
}

// What a work does, as an entry's kind.
fn kind_of(id: Text, work: Work) -> Kind
    ensures { result ≡ kind_for id work }
{
    match work {
        Work::Stopped => Kind::Stopped { id },
        Work::Begin { n, bound } => Kind::Begin { id, n, bound },
        Work::Page { n, rows } => Kind::Page { id, n, rows },
        Work::Finish { n } => Kind::Finish { id, n },
        Work::Fail { n, sum } => Kind::Fail {
            id,
            n,
            key: sum.key,
            name: sum.name,
            value: sum.value,
        },
    }
}

// The moment of an entry after these, where a moment is given.
#[tactic(auto, using(crate::proofs::LastMoment::now_is, crate::proofs::LastMoment::last_is))]
fn moment_of(entries: &[Kept], now: i64) -> i64
    ensures { result ≡ moment_after (past_in entries.now) now }
{
    let last = last_moment(entries);
    let now = clamped(now);
    if last <= now { now } else { last }
}

// A moment taken into the range of moments.
fn clamped(now: i64) -> i64
    ensures { result ≡ spec.clamped now }
{
    if now <= 0 {
        0
    } else if GREATEST_DATE <= now {
        GREATEST_DATE
    } else {
        now
    }
}
