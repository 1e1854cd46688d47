// Which entries are taken.
ghost use Rattle.std.specs.Prelude.{◌≡◌, ◌↔◌, IfOk, true, reverse};
ghost use Rattle.tf_core.specs.Allowing.{is_timely as timely, may_be_begun as begun_spec, may_be_failed as failed_spec, may_be_finished as finished_spec, may_do as spec};
ghost use Rattle.tf_core.specs.Held.{last_ms_of};
ghost use Rattle.tf_model.specs.Conditions.{IsSpan};
ghost use Rattle.tf_core.specs.Counts.{AreCounted};
ghost use Rattle.tf_core.specs.Ids.{AreIndexed};
ghost use Rattle.tf_core.specs.Kept.{history_in, past_in};
ghost use Rattle.tf_core.specs.Legal.{IsTaken};
ghost use Rattle.tf_core.specs.Standing.{Stands, shared};

use crate::allowing::{
    is_timely, may_finish, may_page, may_start, may_stop, takes_document, takes_index,
    takes_transform,
};
use crate::beginning::may_begin;
use crate::counts::Counts;
use crate::ids::Ids;
use crate::index::Index;
use crate::kept::{Kept, moment};
use crate::paging::fails_with;
use crate::reading::none_left;
use crate::state::Core;
use crate::table::find;
use crate::transform::Transform;
use std::alloc::Global;
use std::sync::Arc;
use tf_model::{Doc, Entry, Key, Kind, OutOfMemory, Text};

impl Core {
    /// Whether an entry is taken next: it is legal after the history, and of a form that is built. Want of memory may come
    /// for a Write, whose tree is read, for a Put, whose configuration is checked, and for a Finish and a Fail, for which the
    /// documents of the checkpoint are gone over.
    pub fn allowed(&self, entry: &Entry) -> Result<bool, OutOfMemory>
        ensures { IfOk result (λ taken. (taken ≡ true) ↔ IsTaken (reverse self.now.history) entry.now) }
    {
        is_taken(
            self.alloc,
            &self.ids,
            &self.counts,
            self.entries.as_slice(),
            self.indices.as_slice(),
            self.docs.as_slice(),
            self.transforms.as_slice(),
            entry,
        )
    }
}

// Whether an entry is taken after these.
fn is_taken(
    alloc: Global,
    ids: &Ids,
    counts: &Counts,
    entries: &[Kept],
    indices: &[Index],
    docs: &[Arc<Doc, Global>],
    transforms: &[Transform],
    entry: &Entry,
) -> Result<bool, OutOfMemory>
    requires stands { Stands (past_in entries.now) indices.now (shared docs.now) transforms.now }
    requires indexed { AreIndexed ids.now (shared docs.now) }
    requires counted { AreCounted counts.now (shared docs.now) }
    ensures { IfOk result (λ taken. (taken ≡ true) ↔ IsTaken (past_in entries.now) entry.now) }
{
    if !is_in_time(entries, entry) {
        return Ok(false);
    }
    may_do(
        alloc,
        ids,
        counts,
        entries,
        indices,
        docs,
        transforms,
        entry.at_ms,
        &entry.kind,
    )
}

fn is_in_time(entries: &[Kept], entry: &Entry) -> bool
    ensures { result ≡ timely (last_ms_of (history_in entries.now)) entry.now.at_ms entry.now.actor }
{
    is_timely(last_moment(entries), entry.at_ms, entry.actor)
}

/// The moment of the last entry, 0 where there is none.
pub fn last_moment(entries: &[Kept]) -> i64
    ensures { result ≡ last_ms_of (history_in entries.now) }
{
    match entries.last() {
        None => 0,
        Some(kept) => moment(kept),
    }
}

// Whether what an entry does may be done at a moment that is in range.
fn may_do(
    alloc: Global,
    ids: &Ids,
    counts: &Counts,
    entries: &[Kept],
    indices: &[Index],
    docs: &[Arc<Doc, Global>],
    transforms: &[Transform],
    at_ms: i64,
    kind: &Kind,
) -> Result<bool, OutOfMemory>
    requires stands { Stands (past_in entries.now) indices.now (shared docs.now) transforms.now }
    requires indexed { AreIndexed ids.now (shared docs.now) }
    requires counted { AreCounted counts.now (shared docs.now) }
    requires at { IsSpan at_ms }
    ensures { IfOk result (λ may. may ≡ spec indices.now (shared docs.now) transforms.now at_ms kind.now) }
{
    match kind {
        Kind::Index {
            name,
            shards,
            mapping,
            stamp,
            quick,
        } => Ok(takes_index(indices, transforms, name, *shards, mapping, stamp, *quick)),
        Kind::Write {
            index,
            shard,
            seq,
            id,
            tree,
        } => takes_document(
            alloc, ids, counts, indices, docs, at_ms, *index, *shard, *seq, id, tree,
        ),
        Kind::Put { id, config } => takes_transform(alloc, indices, transforms, id, config),
        Kind::Start { id } => Ok(find(transforms, id).is_some_and(|found| may_start(found))),
        Kind::Stopped { id } => Ok(find(transforms, id).is_some_and(|found| may_stop(found))),
        Kind::Begin { id, n, bound } => {
            Ok(may_be_begun(entries, indices, docs, transforms, at_ms, id, *n, *bound))
        }
        Kind::Page { id, n, rows } => {
            Ok(find(transforms, id).is_some_and(|found| may_page(found, *n, rows.as_slice())))
        }
        Kind::Finish { id, n } => may_be_finished(
            alloc, entries, indices, docs, transforms, id, *n,
        ),
        Kind::Fail {
            id,
            n,
            key,
            name,
            value,
        } => may_be_failed(
            alloc, entries, indices, docs, transforms, id, *n, key, name, *value,
        ),
        Kind::Delete { .. } | Kind::StopAsked { .. } | Kind::Schedule { .. } | Kind::Reset { .. } =>
            Ok(false),
    }
}

fn may_be_begun(
    entries: &[Kept],
    indices: &[Index],
    docs: &[Arc<Doc, Global>],
    transforms: &[Transform],
    at_ms: i64,
    id: &Text,
    n: u64,
    bound: Option<i64>,
) -> bool
    requires stands { Stands (past_in entries.now) indices.now (shared docs.now) transforms.now }
    requires at { IsSpan at_ms }
    ensures { result ≡ begun_spec (shared docs.now) transforms.now at_ms id.now n bound }
{
    match find(transforms, id) {
        Some(found) => may_begin(found, docs, n, bound, at_ms),
        None => false,
    }
}

fn may_be_finished(
    alloc: Global,
    entries: &[Kept],
    indices: &[Index],
    docs: &[Arc<Doc, Global>],
    transforms: &[Transform],
    id: &Text,
    n: u64,
) -> Result<bool, OutOfMemory>
    requires { Stands (past_in entries.now) indices.now (shared docs.now) transforms.now }
    ensures { IfOk result (λ may. may ≡ finished_spec (shared docs.now) transforms.now id.now n) }
{
    match find(transforms, id) {
        Some(found) if may_finish(found, n) => none_left(alloc, found, docs),
        _ => Ok(false),
    }
}

fn may_be_failed(
    alloc: Global,
    entries: &[Kept],
    indices: &[Index],
    docs: &[Arc<Doc, Global>],
    transforms: &[Transform],
    id: &Text,
    n: u64,
    key: &Key,
    name: &Text,
    value: i128,
) -> Result<bool, OutOfMemory>
    requires { Stands (past_in entries.now) indices.now (shared docs.now) transforms.now }
    ensures { IfOk result (λ may. may ≡ failed_spec (shared docs.now) transforms.now id.now n key.now name.now value) }
{
    match find(transforms, id) {
        Some(found) if may_finish(found, n) => fails_with(alloc, found, docs, key, name, value),
        _ => Ok(false),
    }
}
