// The rows of given keys.
ghost use Rattle.std.specs.Prelude.{◌≡◌, ◌+◌, ◌≤◌, IfOk, length};
ghost use Rattle.std.specs.List.{filter_map};
ghost use Rattle.std.specs.List.Sorted.{IsStrictlySortedBy};
ghost use Rattle.tf_model.specs.Conditions.{AllFit, IsInRange};
ghost use Rattle.tf_model.specs.Counted.{counted};
ghost use Rattle.tf_model.specs.Latest.{latest_row, sort_of};
ghost use Rattle.tf_model.specs.Order.{key_cmp};
ghost use Rattle.tf_reader.specs.Places.{documents};

use crate::keeping::{add_doc, none_yet};
use crate::naming::named_rows;
use std::alloc::Global;
use std::sync::ledger::Ledger;
use tf_model::{Config, Key, List, OutOfMemory, Row, Shape, Steps, Text};
use tf_reader::Reader;

/// The rows of the keys, in the order of the keys, over the documents that count below `high`.
///
/// A document counts where it matches the query of `config` and has a sync value below `high`, in milliseconds since 1970.
/// With `None` every document that matches counts, as in a batch transform. A row names the greatest of the counted
/// documents that have its key: by the sort value, where a missing one is the lowest, then by the place of its index in
/// `sources`, then by shard, then by number in the shard. `sources` are the numbers of the source indices in the order of
/// the configuration. The keys ascend. A key that no counted document has gets no row, so there are as many rows as keys
/// where each has one. For a pivot, which has no sort field, the field of the empty name stands for it.
///
/// `OutOfMemory` is the only error. The documents are gone over once, with at most one step for each that counts.
///
/// The rows are those of Elasticsearch Reference, "Create transform API", `latest`.
pub fn rows_for<L: Ledger>(
    alloc: Global,
    reader: &Reader,
    sources: &[u64],
    config: &Config,
    high: Option<i64>,
    keys: &List<Key>,
    steps: &mut Steps<L>,
) -> Result<List<Row>, OutOfMemory>
    requires config { IsInRange config.now }
    requires docs { AllFit config.now (documents reader.now) }
    requires keys { IsStrictlySortedBy key_cmp keys.now }
    ensures rows { IfOk result (λ rows. rows ≡ filter_map (λ k. latest_row sources.now config.now k (counted config.now high (documents reader.now))) keys.now) }
    ensures cost { steps.new ≤ steps.old + length (counted config.now high (documents reader.now)) }
{
    match &config.shape {
        Shape::Latest { sort, .. } => rows_by(
            alloc, reader, sources, config, sort, high, keys, steps,
        ),
        Shape::Pivot { .. } => {
            rows_by(
                alloc,
                reader,
                sources,
                config,
                &Text::new(alloc),
                high,
                keys,
                steps,
            )
        }
    }
}

/// The same, where the sort field is given.
fn rows_by<L: Ledger>(
    alloc: Global,
    reader: &Reader,
    sources: &[u64],
    config: &Config,
    sort: &Text,
    high: Option<i64>,
    keys: &List<Key>,
    steps: &mut Steps<L>,
) -> Result<List<Row>, OutOfMemory>
    requires config { IsInRange config.now }
    requires docs { AllFit config.now (documents reader.now) }
    requires keys { IsStrictlySortedBy key_cmp keys.now }
    requires sort { sort.now ≡ sort_of config.now.shape }
    ensures rows { IfOk result (λ rows. rows ≡ filter_map (λ k. latest_row sources.now config.now k (counted config.now high (documents reader.now))) keys.now) }
    ensures cost { steps.new ≤ steps.old + length (counted config.now high (documents reader.now)) }
{
    let places = reader.counted(alloc, config, high)?;
    let keys = keys.as_slice();
    let mut found = none_yet(alloc, keys)?;
    for place in places.as_slice() {
        let doc = reader.fetch(*place, steps);
        add_doc(&mut found, sources, config, sort, keys, doc);
    }
    named_rows(alloc, keys, found.as_slice())
}
