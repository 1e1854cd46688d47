// What a command asks for.
use tf_model::{Entry, Key, List, Text};
use tf_reply::{Item, Refusal};

/// What is told of a command, beside what the transforms then are.
#[derive(Drop)]
pub enum Answer {
    Created,
    /// A document was written: number `seq` of a shard.
    Written { seq: u64, shard: u32 },
    /// Documents were tried in order.
    Tried(List<Item>),
    /// A transform was started: how it stands is told.
    Started(Text),
    /// The next move of a transform is to be made, where it has one: how it then stands is told.
    Stepped(Text),
    /// The transforms are to be settled.
    Settled,
    /// Rows of a destination are shown.
    Shown(Search),
    Refused(Refusal),
}

/// Which rows are shown.
#[derive(Drop)]
pub struct Search {
    /// The name of the destination.
    pub dest: Text,
    /// The rows above this key, and all where there is none.
    pub after: Option<Key>,
    /// So many of them at most, the first ones.
    pub size: u32,
}

/// The entries that a command makes, and what is told of it.
#[derive(Drop)]
pub struct Asked {
    pub entries: List<Entry>,
    pub answer: Answer,
}
