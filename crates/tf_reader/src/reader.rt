// Readers.
ghost use Rattle.std.specs.Prelude.{◌≡◌, ◌+◌, ◌≤◌, ◌^◌, IfOk, Some, length, map};
ghost use Rattle.std.specs.List.{list_any};
ghost use Rattle.tf_model.specs.Counted as spec;
ghost use Rattle.tf_reader.specs.Places.{IsPlaceOf, IsShort, doc_at, documents};

use crate::place::Place;
use crate::scanning::{any_of_runs, count_of, scan_runs};
use std::alloc::Global;
use std::marker::Model;
use std::sync::ledger::Ledger;
use tf_model::{Config, Doc, List, OutOfMemory, Steps};
use tf_segment::Run;

/// The documents of some runs, which contracts see as the list of those runs. Its documents are those of the first run,
/// then those of the second, and so on, each once.
///
/// Moments and bounds are milliseconds since 1970, and a step is one document fetched.
#[derive(Drop)]
pub struct Reader {
    runs: List<Run>,
}

impl Model for Reader {
    ghost use Rattle.std.specs.Prelude.{List};
    ghost use Rattle.std.specs.Coded.{coded_list};
    ghost use Rattle.tf_model.specs.contracts.doc.Doc as doc;
    ghost use Rattle.tf_model.specs.declared.doc.Doc.{Doc};
    ghost use Rattle.tf_reader.specs.Places.{IsShort};

    ghost Value = { List (List Doc) };

    ghost coded = { coded_list (coded_list doc.the_row.coded) };

    ghost view = { λ reader. reader.runs };

    ghost invariant = { λ reader. IsShort reader.runs };
}

impl Reader {
    /// The reader of these runs, which are moved: fewer than 2^32, each of fewer than 2^32 documents, and of at most
    /// 2^40 documents together. Takes no memory.
    pub fn new(runs: List<Run>) -> Reader
        requires { IsShort runs }
        ensures { result ≡ runs }
    {
        Reader { runs }
    }

    /// How many documents there are. Takes no memory.
    pub fn len(&self) -> u64
        ensures { result ≡ length (documents self.now) }
    {
        count_of(self.runs.as_slice())
    }

    /// The places, in their order, of the documents of a window: those that match the query, with a sync value below
    /// `high` where that is given, and not below `low` where that is given. `OutOfMemory` comes where no memory is
    /// found for the places.
    pub fn window(
        &self,
        alloc: Global,
        config: &Config,
        low: Option<i64>,
        high: Option<i64>,
    ) -> Result<List<Place>, OutOfMemory>
        ensures found { IfOk result (λ places. map (doc_at self.now) places ≡ map Some (spec.window config.now low high (documents self.now))) }
        ensures few { length (documents self.now) ≤ 2 ^ 40 }
    {
        scan_runs(alloc, self.runs.as_slice(), config, low, high)
    }

    /// The places, in their order, of the documents that match the query and have a sync value below `high`, where that
    /// is given. `OutOfMemory` comes where no memory is found for the places.
    #[tactic(auto, using(tf_model::proofs::WindowLaws::window_of_all))]
    pub fn counted(
        &self,
        alloc: Global,
        config: &Config,
        high: Option<i64>,
    ) -> Result<List<Place>, OutOfMemory>
        ensures found { IfOk result (λ places. map (doc_at self.now) places ≡ map Some (spec.counted config.now high (documents self.now))) }
        ensures few { length (documents self.now) ≤ 2 ^ 40 }
    {
        let places = self.window(alloc, config, None, high)?;
        Ok(places)
    }

    /// Whether a window has a document. Takes no memory, and stops at the first document that it finds.
    pub fn any_in_window(&self, config: &Config, low: Option<i64>, high: Option<i64>) -> bool
        ensures { result ≡ list_any (spec.is_in_window config.now low high) (documents self.now) }
    {
        any_of_runs(self.runs.as_slice(), config, low, high)
    }

    /// The document at a place of this reader, for one step. Takes no memory.
    pub fn fetch<L: Ledger>(&self, place: Place, steps: &mut Steps<L>) -> &Doc
        requires { IsPlaceOf self.now place }
        ensures document { doc_at self.now place ≡ Some result.now }
        ensures cost { steps.new ≡ steps.old + 1 }
    {
        steps.tick();
        self.runs[place.run as usize].doc(place.doc as usize)
    }
}
