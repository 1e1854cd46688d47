// The parts of all aggregations, one by one.
ghost use Rattle.std.specs.Prelude.{◌≡◌, ◌+◌, ◌<◌, ◌≤◌, ◌^◌, All, length, map};
ghost use Rattle.tf_fold.specs.Bounds.{IsPartWithin};
ghost use Rattle.tf_fold.specs.Parts.{all_joined, part_in};
ghost use Rattle.tf_model.specs.Conditions.{FitsAgg};
ghost use Rattle.tf_model.specs.Values.{value_of};

use crate::joining::{join, part_of};
use crate::part::Part;
use tf_model::{Agg, Doc, List};

/// Joins each part with what its aggregation keeps of one document more. The parts are over at most `weight`
/// documents. Takes no memory.
pub fn add_parts(parts: &mut List<Part>, weight: u64, aggs: &[Agg], doc: &Doc)
    requires same { length parts.old ≡ length aggs.now }
    requires few { weight < 2 ^ 42 }
    requires within { All (IsPartWithin weight) parts.old }
    requires fits { All (λ agg. FitsAgg agg.kind (value_of doc.now agg.field)) aggs.now }
    ensures value { parts.new ≡ all_joined parts.old (map (part_in doc.now) aggs.now) }
    ensures within { All (IsPartWithin (weight + 1)) parts.new }
{
    for at in 0..aggs.len() {
        let more = part_of(&aggs[at], doc);
        let joined = join(&parts[at], weight, &more, 1);
        parts.set(at, joined);
    }
}

/// Joins each part with that of another fold. The parts are over at most `weight` documents, and the others over at
/// most `other_weight`. Takes no memory.
pub fn merge_parts(parts: &mut List<Part>, weight: u64, others: &[Part], other_weight: u64)
    requires same { length parts.old ≡ length others.now }
    requires few { weight + other_weight ≤ 2 ^ 42 }
    requires within { All (IsPartWithin weight) parts.old }
    requires others { All (IsPartWithin other_weight) others.now }
    ensures value { parts.new ≡ all_joined parts.old others.now }
    ensures within { All (IsPartWithin (weight + other_weight)) parts.new }
{
    for at in 0..others.len() {
        let joined = join(&parts[at], weight, &others[at], other_weight);
        parts.set(at, joined);
    }
}
