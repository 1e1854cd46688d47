// How far documents are behind the windows of transforms: neither the windows to come nor the running one look at them again.
ghost use Rattle.std.specs.Prelude.{◌≡◌, drop, map, take, vec_capacity};
ghost use Rattle.std.specs.List.{prefix_len};
ghost use Rattle.tf_core.specs.Passed as spec;
ghost use Rattle.tf_core.specs.Passed.{marked};
ghost use Rattle.tf_core.specs.Standing.{shared};

use crate::transform::Transform;
use std::alloc::Global;
use std::sync::Arc;
use tf_model::{Config, Doc};
use tf_query::is_in_window;

/// Moves the mark of each transform over the next documents that are in no window. Takes no memory.
pub fn move_marks(transforms: &mut Vec<Transform>, docs: &[Arc<Doc, Global>])
    ensures items { transforms.new.items ≡ map (marked (shared docs.now)) transforms.old.items }
    ensures capacity { vec_capacity transforms.new ≡ vec_capacity transforms.old }
{
    for transform in transforms.iter_mut() {
        move_mark(transform, docs);
    }
}

fn move_mark(transform: &mut Transform, docs: &[Arc<Doc, Global>])
    ensures { transform.new ≡ marked (shared docs.now) transform.old }
{
    let next = from(first(docs, transform.read), transform.passed);
    transform.passed += count_passed(&transform.config, transform.low, next);
}

// How many documents there are before the first that is in a window from a bound on.
fn count_passed(config: &Config, low: Option<i64>, docs: &[Arc<Doc, Global>]) -> u64
    ensures { result ≡ prefix_len (spec.is_passed config.now low) (shared docs.now) }
{
    let mut count = 0;
    for doc in docs {
        if !is_passed(config, low, doc) {
            return count;
        }
        count += 1;
    }
    count
}

fn is_passed(config: &Config, low: Option<i64>, doc: &Doc) -> bool
    ensures { result ≡ spec.is_passed config.now low doc.now }
{
    !is_in_window(config, low, None, doc)
}

/// The first documents, so many or all that there are.
pub fn first(docs: &[Arc<Doc, Global>], count: u64) -> &[Arc<Doc, Global>]
    ensures { shared result.now ≡ take count (shared docs.now) }
{
    if docs.len() as u64 <= count {
        docs
    } else {
        &docs[..count as usize]
    }
}

/// The documents behind the first so many.
pub fn from(docs: &[Arc<Doc, Global>], count: u64) -> &[Arc<Doc, Global>]
    ensures { shared result.now ≡ drop count (shared docs.now) }
{
    if docs.len() as u64 <= count {
        &[]
    } else {
        &docs[count as usize..]
    }
}
