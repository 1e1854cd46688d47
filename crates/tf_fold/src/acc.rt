// A fold and its calls.
ghost use Rattle.std.specs.Prelude.{◌≡◌, ◌+◌, ◌<◌, ◌≤◌, ◌^◌, All, List, [], ◌∷◌, ◌++◌, length};
ghost use Rattle.tf_fold.specs.Bounds.{IsPartWithin};
ghost use Rattle.tf_fold.specs.Fold.{AllHaveKey, IsRowOver, StandsFor};
ghost use Rattle.tf_model.specs.declared.doc.Doc.{Doc};
ghost use Rattle.tf_model.specs.Conditions.{Fits};
ghost use Rattle.tf_model.specs.Rows.{aggs_of};

use crate::error::FoldError;
use crate::finishing::row_of;
use crate::part::Part;
use crate::parts::{add_parts, merge_parts};
use crate::starting::aggs;
use std::alloc::Global;
use std::marker::Model;
use tf_model::{Config, Doc, Key, List, Row};

/// A fold: what the aggregations of a configuration keep of a list of documents, for which it stands.
///
/// It keeps one part for each aggregation, in their order, and no document.
#[derive(Drop)]
pub struct Acc {
    parts: List<Part>,
    /// How many documents the parts were made of, or more. No sum leaves `i128` while it is at most 2^42.
    weight: u64,
}

impl Model for Acc {
    ghost use Rattle.std.specs.Prelude.{All, ◌≤◌, ◌^◌};
    ghost use Rattle.tf_fold.specs.Bounds.{IsPartWithin};
    ghost use Rattle.tf_fold.specs.Fold.{Kept};

    ghost Value = { Kept };

    ghost view = { λ acc. record { parts = acc.parts; weight = acc.weight } };

    ghost invariant = { λ acc. All (IsPartWithin acc.weight) acc.parts × (acc.weight ≤ 2 ^ 42) };
}

impl Acc {
    /// The fold over no documents, of these parts.
    pub(crate) fn of(parts: List<Part>) -> Acc
        requires { All (IsPartWithin 0) parts }
        ensures { result ≡ record { parts = parts; weight = 0 } }
    {
        Acc { parts, weight: 0 }
    }

    /// Takes one document more, so that the fold stands for its list with this document at the end. The configuration
    /// is that of the fold's start, and the values of the document are of the kinds that it aggregates. Takes no
    /// memory.
    pub fn add(&mut self, config: &Config, doc: &Doc)
        requires same { length self.old.parts ≡ length (aggs_of config.now.shape) }
        requires few { self.old.weight < 2 ^ 42 }
        requires fits { Fits config.now doc.now }
        ensures grown { (docs : List Doc) → StandsFor config.now docs self.old → StandsFor config.now (docs ++ doc.now ∷ []) self.new }
        ensures weight { self.new.weight ≡ self.old.weight + 1 }
        ensures same { length self.new.parts ≡ length self.old.parts }
    {
        let weight = self.weight;
        add_parts(&mut self.parts, weight, aggs(config), doc);
        self.weight = weight + 1;
    }

    /// Takes the documents of another fold of the same configuration, so that this one stands for its list followed
    /// by the other's. Takes no memory.
    pub fn merge(&mut self, other: &Acc)
        requires same { length self.old.parts ≡ length other.now.parts }
        requires few { self.old.weight + other.now.weight ≤ 2 ^ 42 }
        ensures both { (config : Config) (docs more : List Doc) → StandsFor config docs self.old → StandsFor config more other.now → StandsFor config (docs ++ more) self.new }
        ensures weight { self.new.weight ≡ self.old.weight + other.now.weight }
        ensures same { length self.new.parts ≡ length self.old.parts }
    {
        let weight = self.weight;
        merge_parts(
            &mut self.parts,
            weight,
            other.parts.as_slice(),
            other.weight,
        );
        self.weight = weight + other.weight;
    }

    /// The pivot row of a key that each document of the list has: the values of the aggregations in their order.
    /// `SumRange` comes exactly where a sum is outside `i64`, and names the first such aggregation in that order, which
    /// is by name, with the exact sum. `Memory` comes where no memory is found for the row.
    pub fn row(&self, alloc: Global, config: &Config, key: Key) -> Result<Row, FoldError>
        requires same { length self.now.parts ≡ length (aggs_of config.now.shape) }
        ensures { (docs : List Doc) → StandsFor config.now docs self.now → AllHaveKey config.now key docs → IsRowOver config.now key docs result }
    {
        row_of(alloc, aggs(config), self.parts.as_slice(), key)
    }
}
