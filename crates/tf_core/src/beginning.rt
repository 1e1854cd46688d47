// When a checkpoint begins.
ghost use Rattle.std.specs.Prelude.{◌≡◌};
ghost use Rattle.std.specs.List.{list_any};
ghost use Rattle.tf_core.specs.Allowing as spec;
ghost use Rattle.tf_core.specs.Passed.{HasMark};
ghost use Rattle.tf_core.specs.Standing.{shared};
ghost use Rattle.tf_model.specs.Conditions.{IsInRange, IsSpan};

use crate::allowing::is_started;
use crate::late::is_among;
use crate::marks::from;
use crate::transform::Transform;
use std::alloc::Global;
use std::sync::Arc;
use tf_bound::{due, next_bound};
use tf_model::Doc;
use tf_query::is_in_window;

/// Whether checkpoint `n` may begin with this bound at a moment in milliseconds since 1970.
pub fn may_begin(
    transform: &Transform,
    docs: &[Arc<Doc, Global>],
    n: u64,
    bound: Option<i64>,
    at_ms: i64,
) -> bool
    requires config { IsInRange transform.now.config }
    requires begun { IsSpan transform.now.begun_ms }
    requires at { IsSpan at_ms }
    requires marked { HasMark transform.now (shared docs.now) }
    ensures { result ≡ spec.may_begin transform.now (shared docs.now) n bound at_ms }
{
    is_started(transform.state)
        && transform.begun == transform.finished
        && 0 < n
        && n - 1 == transform.finished
        && is_same_bound(bound, bound_at(transform, at_ms))
        && is_due(transform, docs, at_ms)
}

/// The bound of a checkpoint that begins at a moment.
#[tactic(auto, using(crate::proofs::Begun::span_within))]
pub fn bound_at(transform: &Transform, at_ms: i64) -> Option<i64>
    requires config { IsInRange transform.now.config }
    requires at { IsSpan at_ms }
    ensures { result ≡ spec.bound_at transform.now at_ms }
{
    next_bound(&transform.config, transform.bound, at_ms)
}

/// Whether a checkpoint of a started transform with none running is due at a moment. Goes over documents only where it is
/// time, and only over those that the mark has not passed.
#[tactic(auto, using(crate::proofs::Due::due_first, crate::proofs::Due::due_not, crate::proofs::Due::due_window))]
pub fn is_due(transform: &Transform, docs: &[Arc<Doc, Global>], at_ms: i64) -> bool
    requires config { IsInRange transform.now.config }
    requires begun { IsSpan transform.now.begun_ms }
    requires at { IsSpan at_ms }
    requires marked { HasMark transform.now (shared docs.now) }
    ensures { result ≡ spec.is_due transform.now (shared docs.now) at_ms }
{
    if !is_time(transform, at_ms) {
        return false;
    }
    transform.begun == 0 || has_window(transform, docs, bound_at(transform, at_ms))
}

// Whether a checkpoint is due where its window has a document.
#[tactic(auto, using(crate::proofs::Begun::span_within))]
fn is_time(transform: &Transform, at_ms: i64) -> bool
    requires config { IsInRange transform.now.config }
    requires begun { IsSpan transform.now.begun_ms }
    ensures { result ≡ spec.is_time transform.now at_ms }
{
    due(
        &transform.config,
        last_begin(transform),
        transform.prompted,
        true,
        at_ms,
    )
}

fn last_begin(transform: &Transform) -> Option<i64>
    ensures { result ≡ spec.last_begin transform.now }
{
    if transform.begun == 0 {
        None
    } else {
        Some(transform.begun_ms)
    }
}

// Whether the window of a checkpoint that begins with a bound has a document.
#[tactic(auto, using(crate::proofs::Passed::window_behind))]
fn has_window(transform: &Transform, docs: &[Arc<Doc, Global>], bound: Option<i64>) -> bool
    requires { HasMark transform.now (shared docs.now) }
    ensures { result ≡ spec.has_window transform.now (shared docs.now) bound }
{
    any_in_next(transform, from(docs, transform.passed), bound)
}

// Whether one of these documents is in the window of a checkpoint that begins with a bound. Stops at the first.
fn any_in_next(transform: &Transform, docs: &[Arc<Doc, Global>], bound: Option<i64>) -> bool
    ensures { result ≡ list_any (spec.is_in_next transform.now bound) (shared docs.now) }
{
    for doc in docs {
        if is_in_next(transform, bound, doc) {
            return true;
        }
    }
    false
}

fn is_in_next(transform: &Transform, bound: Option<i64>, doc: &Doc) -> bool
    ensures { result ≡ spec.is_in_next transform.now bound doc.now }
{
    is_among(transform.sources.as_slice(), doc.index)
        && is_in_window(&transform.config, transform.bound, bound, doc)
}

fn is_same_bound(bound: Option<i64>, other: Option<i64>) -> bool
    ensures { result ≡ spec.is_same_bound bound other }
{
    match bound {
        None => other.is_none(),
        Some(ms) => match other {
            None => false,
            Some(other) => ms == other,
        },
    }
}
