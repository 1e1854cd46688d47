// Jobs, and the works that they want.
use tf_model::{Config, Key, List, Row, SumRange, Text};
use tf_reader::Reader;

/// The next move of a transform, with all that its work is made of: who has a job reads no core.
#[derive(Drop)]
pub struct Job {
    pub id: Text,
    pub what: What,
}

/// Which move comes next.
#[derive(Drop)]
pub enum What {
    /// The transform comes to its stop.
    Stopped,
    /// Checkpoint `n` begins.
    Begin {
        n: u64,
        /// Its bound in milliseconds since 1970, none for a batch transform.
        bound: Option<i64>,
    },
    /// The running checkpoint gets its next Page, is finished or fails.
    Page(Running),
}

/// A running checkpoint: its bounds and its position, and the documents that it reads.
#[derive(Drop)]
pub struct Running {
    /// Its number, from 1.
    pub n: u64,
    pub config: Config,
    /// The bound of the checkpoint before it in milliseconds since 1970, none at the first.
    pub low: Option<i64>,
    /// Its own bound in milliseconds since 1970, none for a batch transform.
    pub high: Option<i64>,
    /// Its position: the last key of its last Page.
    pub after: Option<Key>,
    /// The documents that were written into its sources before it.
    pub reader: Reader,
}

/// What a move does.
#[derive(Drop)]
pub enum Work {
    Stopped,
    Begin { n: u64, bound: Option<i64> },
    Page { n: u64, rows: List<Row> },
    Finish { n: u64 },
    /// A sum is outside `i64`.
    Fail { n: u64, sum: SumRange },
}
