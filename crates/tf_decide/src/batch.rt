// What became of the documents of a bulk so far.
use std::alloc::Global;
use std::collections::BTreeMap;
use tf_model::{Entry, List, Text};
use tf_reply::Item;

/// What became of the documents of a bulk so far.
#[derive(Drop)]
pub struct Batch {
    /// The entries of those that are accepted.
    pub entries: List<Entry>,
    pub items: List<Item>,
    /// Where the accepted ones stand, by their ids: a number and a shard.
    pub places: BTreeMap<Text, (u64, u32), Global>,
    /// How many documents each shard of the index has with them.
    pub counts: List<u64>,
}
