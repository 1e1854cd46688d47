// Segments.
ghost use Rattle.std.specs.Prelude.{◌≡◌, ◌<◌, length, slice_index_or};
ghost use Rattle.tf_segment.specs.Segments.{IsFull, shared};

use std::alloc::Global;
use std::marker::Model;
use std::sync::Arc;
use tf_model::{Doc, List};

/// How many documents a segment has.
pub const SEGMENT_LEN: usize = 1024;

/// 1,024 shared documents in the order of writing. A segment never changes, so runs share it as a whole.
#[derive(Drop)]
pub struct Segment {
    docs: List<Arc<Doc, Global>>,
}

impl Model for Segment {
    ghost use Rattle.std.specs.Prelude.{List};
    ghost use Rattle.std.specs.Coded.{coded_list};
    ghost use Rattle.tf_model.specs.contracts.doc.Doc as doc;
    ghost use Rattle.tf_model.specs.declared.doc.Doc.{Doc};
    ghost use Rattle.tf_segment.specs.Segments.{IsFull, shared};

    ghost Value = { List Doc };

    ghost coded = { coded_list doc.the_row.coded };

    ghost view = { λ segment. shared segment.docs };

    ghost invariant = { λ segment. IsFull (shared segment.docs) };
}

impl Segment {
    /// The segment of these documents, which are moved. Takes no memory.
    pub fn new(docs: List<Arc<Doc, Global>>) -> Segment
        requires { IsFull (shared docs) }
        ensures { result ≡ shared docs }
    {
        Segment { docs }
    }

    /// The document at a place, counted from 0. Takes no memory.
    pub fn doc(&self, at: usize) -> &Doc
        requires { at < length self.now }
        ensures { result.now ≡ slice_index_or self.now at result.now }
    {
        &self.docs[at]
    }
}
