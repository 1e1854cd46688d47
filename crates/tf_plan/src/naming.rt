// The newest documents of keys in the order of the keys, and their rows.
ghost use Rattle.std.specs.Prelude.{◌≡◌, ◌++◌, IfOk, OnOk};
ghost use Rattle.std.specs.BTreeMap.{IsOrdered, get};
ghost use Rattle.std.specs.List.{filter_map};
ghost use Rattle.std.specs.Map.{lookup};
ghost use Rattle.std.specs.Option.{option_to_list};
ghost use Rattle.std.specs.Ordering.{eq_by_cmp};
ghost use Rattle.tf_model.specs.declared.value.Key.{Key as K};
ghost use Rattle.tf_model.specs.Order.{key_cmp};
ghost use Rattle.tf_plan.specs.Newest.{named};

use crate::newest::Newest;
use std::alloc::Global;
use std::collections::BTreeMap;
use tf_latest::row_named;
use tf_model::{Doc, Key, List, OutOfMemory, Row};

/// The same keys with their documents, ascending by key. They are moved.
pub fn sorted_newest<'a>(
    alloc: Global,
    newest: Newest<'a>,
) -> Result<BTreeMap<Key, Option<&'a Doc>, Global>, OutOfMemory>
    ensures same { IfOk result (λ sorted. (k : K) → get key_cmp sorted k ≡ lookup (eq_by_cmp key_cmp k) newest.entry.entries) }
    ensures ordered { IfOk result (IsOrdered key_cmp) }
{
    let mut sorted = BTreeMap::new(alloc);
    let _count = newest.len();
    for (key, found) in newest {
        sorted.insert(key.into_key(), found)?;
    }
    let _count = sorted.len();
    Ok(sorted)
}

/// The rows of those keys that have a document, in the order of the keys.
pub fn named_rows(
    alloc: Global,
    newest: BTreeMap<Key, Option<&Doc>, Global>,
) -> Result<List<Row>, OutOfMemory>
    ensures { IfOk result (λ rows. rows ≡ filter_map named newest.entry.entries) }
{
    let mut rows = List::new(alloc);
    for (key, found) in newest {
        push_named(&mut rows, key, found)?;
    }
    Ok(rows)
}

/// Appends the row of a key, where it has a document.
fn push_named(rows: &mut List<Row>, key: Key, found: Option<&Doc>) -> Result<(), OutOfMemory>
    ensures { OnOk result (rows.new ≡ rows.old ++ option_to_list (named (key, found.entry))) }
{
    if let Some(doc) = found {
        rows.push(row_named(key, doc))?;
    }
    Ok(())
}
