// Runs.
ghost use Rattle.std.specs.Prelude.{◌≡◌, ◌*◌, ◌≤◌, ◌<◌, [], All, IfOk, length, map, slice_index_or, take};
ghost use Rattle.std.specs.Arc.{arc_value};
ghost use Rattle.tf_segment.specs.Segments.{IsFull, all_of, segment_len, shared};

use crate::segment::{SEGMENT_LEN, Segment};
use crate::sharing::{doc_at, first_shares, segments_for};
use std::alloc::Global;
use std::marker::Model;
use std::sync::Arc;
use tf_model::{Doc, List, OutOfMemory};

/// The documents of a shard up to some moment, in the order of writing. They are shared and not copied, and a run never
/// changes.
///
/// They stand in segments and a tail, of which the run has the first `len` documents. Places are counted from 0.
#[derive(Drop)]
pub struct Run {
    segments: List<Arc<Segment, Global>>,
    tail: List<Arc<Doc, Global>>,
    len: u64,
}

impl Model for Run {
    ghost use Rattle.std.specs.Prelude.{◌≤◌, All, List, length, take};
    ghost use Rattle.std.specs.Coded.{coded_list};
    ghost use Rattle.tf_model.specs.contracts.doc.Doc as doc;
    ghost use Rattle.tf_model.specs.declared.doc.Doc.{Doc};
    ghost use Rattle.tf_segment.specs.Segments.{IsFull, all_of, shared};

    ghost Value = { List Doc };

    ghost coded = { coded_list doc.the_row.coded };

    ghost view = { λ run. take run.len (all_of (shared run.segments) (shared run.tail)) };

    ghost invariant = { λ run. All IsFull (shared run.segments) × (run.len ≤ length (all_of (shared run.segments) (shared run.tail))) };
}

impl Run {
    /// The run of these documents, which are moved. Takes no memory.
    pub fn new(docs: List<Arc<Doc, Global>>) -> Run
        ensures { result ≡ map (λ doc. arc_value doc) docs }
    {
        let docs = docs.into_vec();
        let len = docs.len() as u64;
        Run {
            segments: List::new(*docs.allocator()),
            tail: List::from_vec(docs),
            len,
        }
    }

    /// The run of the first `len` documents of segments and a tail, which it shares: at most one share for each segment,
    /// and one for each document of the tail. `len` is at most the number of the documents. `OutOfMemory` comes where no
    /// memory is found for the lists or for a share.
    pub fn sharing(
        alloc: Global,
        segments: &[Arc<Segment, Global>],
        tail: &[Arc<Doc, Global>],
        len: u64,
    ) -> Result<Run, OutOfMemory>
        requires full { All IsFull (shared segments.now) }
        requires within { len ≤ length (all_of (shared segments.now) (shared tail.now)) }
        ensures { IfOk result (λ run. run ≡ take len (all_of (shared segments.now) (shared tail.now))) }
    {
        let count = segments_for(len);
        if count <= segments.len() as u64 {
            Run::of_segments(alloc, segments, count as usize, len)
        } else {
            Run::with_tail(alloc, segments, tail, len)
        }
    }

    // The run of the first documents of segments, of which so many have enough.
    fn of_segments(
        alloc: Global,
        segments: &[Arc<Segment, Global>],
        count: usize,
        len: u64,
    ) -> Result<Run, OutOfMemory>
        requires full { All IsFull (shared segments.now) }
        requires few { count ≤ length segments.now }
        requires enough { len ≤ count * segment_len }
        ensures { IfOk result (λ run. run ≡ take len (all_of (shared segments.now) [])) }
    {
        Ok(Run {
            segments: first_shares(alloc, segments, count)?,
            tail: List::new(alloc),
            len,
        })
    }

    // The run of the first documents of segments and a tail, where the segments have too few.
    fn with_tail(
        alloc: Global,
        segments: &[Arc<Segment, Global>],
        tail: &[Arc<Doc, Global>],
        len: u64,
    ) -> Result<Run, OutOfMemory>
        requires full { All IsFull (shared segments.now) }
        requires more { length segments.now * segment_len ≤ len }
        requires within { len ≤ length (all_of (shared segments.now) (shared tail.now)) }
        ensures { IfOk result (λ run. run ≡ take len (all_of (shared segments.now) (shared tail.now))) }
    {
        let left = len as usize - segments.len() * SEGMENT_LEN;
        Ok(Run {
            segments: first_shares(alloc, segments, segments.len())?,
            tail: first_shares(alloc, tail, left)?,
            len,
        })
    }

    /// How many documents there are. Takes no memory.
    pub fn len(&self) -> u64
        ensures { result ≡ length self.now }
    {
        self.len
    }

    /// The document at a place below the length. Takes no memory.
    pub fn doc(&self, at: usize) -> &Doc
        requires { at < length self.now }
        ensures { result.now ≡ slice_index_or self.now at result.now }
    {
        doc_at(self.segments.as_slice(), self.tail.as_slice(), at)
    }

    /// The run of the first `len` documents, which this one shares as `sharing` does. `len` is at most its length.
    /// `OutOfMemory` comes where no memory is found for the lists or for a share.
    pub fn prefix(&self, alloc: Global, len: u64) -> Result<Run, OutOfMemory>
        requires { len ≤ length self.now }
        ensures { IfOk result (λ run. run ≡ take len self.now) }
    {
        Run::sharing(alloc, self.segments.as_slice(), self.tail.as_slice(), len)
    }
}
