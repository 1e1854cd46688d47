// The rows of given keys.
ghost use Rattle.std.specs.Prelude.{◌≡◌, ◌+◌, ◌≤◌, length};
ghost use Rattle.tf_model.specs.Conditions.{AllFit, IsInRange};
ghost use Rattle.tf_model.specs.Counted.{counted};
ghost use Rattle.tf_pivot.specs.Found.{IsAnswer};
ghost use Rattle.tf_reader.specs.Places.{documents};

use crate::error::PivotError;
use crate::finding::find_rows;
use crate::folds::{add_doc, empty_folds};
use std::alloc::Global;
use std::sync::ledger::Ledger;
use tf_model::{Config, Key, List, Row, Steps};
use tf_reader::Reader;

/// The rows of the keys, in the order of the keys, over the documents that count below `high`.
///
/// A document counts where it matches the query of `config` and has a sync value below `high`, in milliseconds since 1970.
/// With `None` every document that matches counts, as in a batch transform. A row has its key and a value for each
/// aggregation, in the order of their names, made of all the counted documents that have the key. The keys may stand in
/// any order, and a key that stands twice gets its row twice. A key that no document has gets the row over no documents.
/// For a latest, which has no aggregations, the rows have no values.
///
/// `SumRange` comes exactly where some key has no row, since a sum is outside `i64`. It names the least such key, in it the
/// first aggregation by name, and the exact sum. `Memory` is the only other error. The documents are gone over once, with
/// at most one step for each that counts.
///
/// The rows are those of Elasticsearch Reference, "Create transform API", `pivot`.
pub fn rows_for<L: Ledger>(
    alloc: Global,
    reader: &Reader,
    config: &Config,
    high: Option<i64>,
    keys: &List<Key>,
    steps: &mut Steps<L>,
) -> Result<List<Row>, PivotError>
    requires config { IsInRange config.now }
    requires docs { AllFit config.now (documents reader.now) }
    ensures rows { IsAnswer config.now (counted config.now high (documents reader.now)) keys.now result }
    ensures cost { steps.new ≤ steps.old + length (counted config.now high (documents reader.now)) }
{
    let places = reader.counted(alloc, config, high)?;
    let mut folds = empty_folds(alloc, config, keys)?;
    for place in places.as_slice() {
        let doc = reader.fetch(*place, steps);
        add_doc(alloc, &mut folds, config, doc)?;
    }
    find_rows(alloc, config, keys, &folds)
}
