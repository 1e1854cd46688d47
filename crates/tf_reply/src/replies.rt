// What a line of a script is answered.
ghost use Rattle.std.specs.Prelude.{◌≡◌};
ghost use Rattle.tf_reply.specs.Places.{line_of, no_of};

use crate::faults::Refusal;
use tf_model::{Key, List, State, SumRange, Text, Tree};

/// The reply to a line. `line` is the line's number, and `no` is how many entries the history had when the reply was
/// made, those of the line included.
#[derive(Drop)]
pub enum Reply {
    /// An index or a transform was created.
    Created {
        line: u64,
        no: u64,
    },
    /// A document was written: number `seq` of a shard.
    Written {
        line: u64,
        no: u64,
        seq: u64,
        shard: u32,
    },
    /// Documents were tried in order. `from` is how many entries the history had before.
    Bulk {
        line: u64,
        no: u64,
        from: u64,
        items: List<Item>,
    },
    /// A transform was deleted.
    Deleted {
        line: u64,
        no: u64,
        id: Text,
    },
    /// How a transform stands. `checkpoint` is the last one that it has finished in this life, 0 for none.
    Task {
        line: u64,
        no: u64,
        id: Text,
        state: State,
        checkpoint: u64,
    },
    /// The transforms have made all the moves that were due.
    Settled {
        line: u64,
        no: u64,
    },
    /// Rows of a destination, in the order of their keys. `total` is the number of all its rows.
    Found {
        line: u64,
        no: u64,
        hits: List<Hit>,
        total: u64,
    },
    /// What is known of a transform.
    Stats {
        line: u64,
        no: u64,
        stats: Stats,
    },
    /// The `_source` objects that a configuration would give, in the order of their keys.
    Preview {
        line: u64,
        no: u64,
        sources: List<Tree>,
    },
    /// The line was refused, and changed nothing.
    Refused {
        line: u64,
        no: u64,
        refusal: Refusal,
    },
}

impl Reply {
    /// The number of the line.
    pub(crate) fn line(&self) -> u64
        ensures { result ≡ line_of self.now }
    {
        match self {
            Reply::Created { line, .. } => *line,
            Reply::Written { line, .. } => *line,
            Reply::Bulk { line, .. } => *line,
            Reply::Deleted { line, .. } => *line,
            Reply::Task { line, .. } => *line,
            Reply::Settled { line, .. } => *line,
            Reply::Found { line, .. } => *line,
            Reply::Stats { line, .. } => *line,
            Reply::Preview { line, .. } => *line,
            Reply::Refused { line, .. } => *line,
        }
    }

    /// How many entries the history had when the reply was made.
    pub(crate) fn no(&self) -> u64
        ensures { result ≡ no_of self.now }
    {
        match self {
            Reply::Created { no, .. } => *no,
            Reply::Written { no, .. } => *no,
            Reply::Bulk { no, .. } => *no,
            Reply::Deleted { no, .. } => *no,
            Reply::Task { no, .. } => *no,
            Reply::Settled { no, .. } => *no,
            Reply::Found { no, .. } => *no,
            Reply::Stats { no, .. } => *no,
            Reply::Preview { no, .. } => *no,
            Reply::Refused { no, .. } => *no,
        }
    }
}

/// What became of one document of a bulk.
#[derive(Drop)]
pub enum Item {
    /// It was written: number `seq` of a shard.
    Written { seq: u64, shard: u32 },
    Refused { refusal: Refusal },
}

/// A row that a search shows.
#[derive(Drop)]
pub struct Hit {
    /// Its text is the row's `_id`.
    pub key: Key,
    pub source: Tree,
}

/// What is known of a transform: Elasticsearch Reference, get transform statistics. The counts are over its life.
#[derive(Drop)]
pub struct Stats {
    pub id: Text,
    pub state: State,
    /// How many of its documents came too late for the checkpoint in which they would have counted.
    pub late: u64,
    /// The last checkpoint that it has finished, none before the first.
    pub last: Option<Checkpoint>,
    /// The checkpoint that is running.
    pub next: Option<Running>,
    /// How many documents were written into the sources after the last finished checkpoint began.
    pub operations_behind: u64,
    /// How many rows the ends of checkpoints took out of the destination.
    pub documents_deleted: u64,
    /// How many rows the pages had.
    pub documents_indexed: u64,
    pub pages_processed: u64,
    /// How many checkpoints began.
    pub trigger_count: u64,
    /// The sum that failed the transform, where it has failed.
    pub reason: Option<SumRange>,
}

/// A checkpoint that began.
#[derive(Drop)]
pub struct Checkpoint {
    /// Its number, counted from 1.
    pub number: u64,
    /// The moment at which it began, in milliseconds since 1970.
    pub began_ms: i64,
    /// Below it a sync value counts, in milliseconds since 1970. None for a batch transform.
    pub bound_ms: Option<i64>,
}

/// A checkpoint that is running.
#[derive(Drop)]
pub struct Running {
    pub checkpoint: Checkpoint,
    /// The last key of its last page, none before the first.
    pub position: Option<Key>,
}
