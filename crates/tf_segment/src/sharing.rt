// Shares of documents.
ghost use Rattle.std.specs.Prelude.{◌≡◌, ◌+◌, ◌*◌, ◌≤◌, ◌<◌, All, IfOk, length, slice_index_or, take};
ghost use Rattle.tf_segment.specs.Segments.{IsFull, all_of, segment_len, shared};

use crate::segment::{SEGMENT_LEN, Segment};
use std::alloc::Global;
use std::sync::Arc;
use tf_model::{Doc, List, OutOfMemory};

/// Shares of the first `count` items. `count` is at most their number. `OutOfMemory` comes where no memory is found for
/// the list or for a share.
pub fn first_shares<T: Drop>(
    alloc: Global,
    items: &[Arc<T, Global>],
    count: usize,
) -> Result<List<Arc<T, Global>>, OutOfMemory>
    requires { count ≤ length items.now }
    ensures { IfOk result (λ first. shared first ≡ take count (shared items.now)) }
{
    let mut first = List::with_capacity(alloc, count)?;
    for item in &items[..count] {
        first.push(Arc::try_clone(item)?)?;
    }
    Ok(first)
}

/// How many segments have so many documents at least.
pub fn segments_for(len: u64) -> u64
    ensures enough { len ≤ result * segment_len }
    ensures least { result * segment_len < len + segment_len }
{
    len.div_ceil(SEGMENT_LEN as u64)
}

/// The document at a place of segments and a tail.
pub fn doc_at<'a>(
    segments: &'a [Arc<Segment, Global>],
    tail: &'a [Arc<Doc, Global>],
    at: usize,
) -> &'a Doc
    requires full { All IsFull (shared segments.now) }
    requires within { at < length (all_of (shared segments.now) (shared tail.now)) }
    ensures { result.now ≡ slice_index_or (all_of (shared segments.now) (shared tail.now)) at result.now }
{
    let number = at / SEGMENT_LEN;
    if number < segments.len() {
        let segment = &segments[number];
        segment.doc(at % SEGMENT_LEN)
    } else {
        &tail[at - segments.len() * SEGMENT_LEN]
    }
}
