// Rows, and what is kept of them beside their keys.
ghost use Rattle.std.specs.Prelude.{◌≡◌, IfOk};
ghost use Rattle.tf_dest.specs.Slots.{held_of, row_of};
ghost use Rattle.tf_history.specs.Meaning.{row_key};

use std::alloc::Global;
use tf_model::{Key, List, OutOfMemory, Row, TryCopy, Value, copy_key};

/// A row, and its retention value where that is a date: the moment from which a cutoff that is later takes it out.
#[derive(Drop)]
pub struct Held {
    pub row: Row,
    pub moment: Option<i64>,
}

/// What a row has beside its key.
#[derive(Drop)]
pub(crate) enum Shown {
    Pivot(List<Value>),
    Latest(u32, u32, u64),
}

/// What is kept at the key of a row.
#[derive(Drop)]
pub(crate) struct Slot {
    pub(crate) shown: Shown,
    pub(crate) moment: Option<i64>,
}

/// The key of a row. Takes no memory.
pub fn key_of_row(row: &Row) -> &Key
    ensures { result.now ≡ row_key row.now }
{
    match row {
        Row::Pivot { key, .. } => key,
        Row::Latest { key, .. } => key,
    }
}

/// A row as its key and the rest. Takes no memory.
pub(crate) fn split(row: Row) -> (Key, Shown)
    ensures row { row_of result.0 result.1 ≡ row }
    ensures key { result.0 ≡ row_key row }
{
    match row {
        Row::Pivot { key, values } => (key, Shown::Pivot(values)),
        Row::Latest {
            key,
            index,
            shard,
            seq,
        } => (key, Shown::Latest(index, shard, seq)),
    }
}

/// A copy of the row that is kept at a key.
pub(crate) fn row_copy(alloc: Global, key: &Key, shown: &Shown) -> Result<Row, OutOfMemory>
    ensures { IfOk result (λ row. row ≡ row_of key.now shown.now) }
{
    let key = copy_key(alloc, key)?;
    Ok(match shown {
        Shown::Pivot(values) => Row::Pivot {
            key,
            values: values.try_copy(alloc)?,
        },
        Shown::Latest(index, shard, seq) => Row::Latest {
            key,
            index: *index,
            shard: *shard,
            seq: *seq,
        },
    })
}
