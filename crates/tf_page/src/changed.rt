// A page of changed keys.
ghost use Rattle.std.specs.Prelude.{◌≡◌, ◌+◌, ◌≤◌, ◌↔◌, IfOk, IsTrue, length, take};
ghost use Rattle.std.specs.Option.{option_copied};
ghost use Rattle.tf_model.specs.Changed as spec;
ghost use Rattle.tf_model.specs.Conditions.{AllFit, IsInRange};
ghost use Rattle.tf_model.specs.Counted.{window};
ghost use Rattle.tf_reader.specs.Places.{documents};

use crate::least::Least;
use std::alloc::Global;
use std::sync::ledger::Ledger;
use tf_model::{Config, Key, List, OutOfMemory, Steps};
use tf_reader::Reader;

/// A page of changed keys.
#[derive(Drop)]
pub struct Changed {
    /// Ascending, each once.
    pub keys: List<Key>,
    /// Whether no other changed key is above the position. So it is true of a full page with nothing after it, and where
    /// no key was left.
    pub is_last: bool,
}

/// The least changed keys above the position `after`, as many as `size` or all that are left. Above no position are all.
///
/// The changed keys are those of the reader's documents that match the query of `config` and have a sync value below
/// `high` and not below `low`, both in milliseconds since 1970. `None` sets no bound: `low` is none at a first checkpoint,
/// and both are where the transform is a batch, which has no sync value. A document without a key changes none. Here
/// `size` is a number of keys; at most one more than that is held while the window is gone over once, with at most one
/// step for each of its documents.
///
/// `OutOfMemory` is the only error. Elasticsearch pages in the same way, by the `after` of a composite aggregation
/// (Elasticsearch Reference, "Composite aggregation").
pub fn changed_after<L: Ledger>(
    alloc: Global,
    reader: &Reader,
    config: &Config,
    low: Option<i64>,
    high: Option<i64>,
    after: Option<&Key>,
    size: u32,
    steps: &mut Steps<L>,
) -> Result<Changed, OutOfMemory>
    requires config { IsInRange config.now }
    requires docs { AllFit config.now (documents reader.now) }
    ensures keys { IfOk result (λ changed. changed.keys ≡ take size (spec.changed_above config.now low high (option_copied after.entry) (documents reader.now))) }
    ensures last { IfOk result (λ changed. IsTrue changed.is_last ↔ (length (spec.changed_above config.now low high (option_copied after.entry) (documents reader.now)) ≤ size)) }
    ensures cost { steps.new ≤ steps.old + length (window config.now low high (documents reader.now)) }
{
    let places = reader.window(alloc, config, low, high)?;
    let mut least = Least::new(alloc, size as usize);
    for place in places.as_slice() {
        let doc = reader.fetch(*place, steps);
        least.offer_of(alloc, config, after, doc)?;
    }
    let is_last = least.is_whole();
    Ok(Changed {
        keys: least.into_keys(alloc)?,
        is_last,
    })
}
