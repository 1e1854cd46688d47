// The rows that name documents.
ghost use Rattle.std.specs.Prelude.{◌≡◌, ◌++◌, IfOk, OnOk, length, map};
ghost use Rattle.std.specs.Option.{option_copied, option_map, option_to_list};
ghost use Rattle.tf_model.specs.Latest.{row_named as spec_row_named};
ghost use Rattle.tf_latest.specs.Newest.{named};

use std::alloc::Global;
use tf_model::{Doc, Key, List, OutOfMemory, Row, copy_key};

/// The rows of those keys that have a document, in the order of the keys.
pub fn named_rows(
    alloc: Global,
    keys: &[Key],
    found: &[Option<&Doc>],
) -> Result<List<Row>, OutOfMemory>
    requires many { length found.now ≡ length keys.now }
    ensures { IfOk result (λ rows. rows ≡ named keys.now (map option_copied found.now)) }
{
    let mut rows = List::new(alloc);
    for at in 0..keys.len() {
        push_named(alloc, &mut rows, &keys[at], found[at])?;
    }
    Ok(rows)
}

/// Appends the row of a key, where it has a document.
fn push_named(
    alloc: Global,
    rows: &mut List<Row>,
    key: &Key,
    found: Option<&Doc>,
) -> Result<(), OutOfMemory>
    ensures { OnOk result (rows.new ≡ rows.old ++ option_to_list (option_map (spec_row_named key.now) (option_copied found.entry))) }
{
    if let Some(doc) = found {
        rows.push(row_named(copy_key(alloc, key)?, doc))?;
    }
    Ok(())
}

/// The row of a key, which is moved, that names a document. Takes no memory.
pub fn row_named(key: Key, doc: &Doc) -> Row
    ensures { result ≡ spec_row_named key doc.now }
{
    Row::Latest {
        key,
        index: doc.index,
        shard: doc.shard,
        seq: doc.seq,
    }
}
