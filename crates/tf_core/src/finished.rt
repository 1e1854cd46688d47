// The last finished checkpoint of a transform.

/// A finished checkpoint.
pub struct Finished {
    /// Its number, from 1.
    pub n: u64,
    /// Its bound in milliseconds since 1970, none for a batch transform.
    pub bound: Option<i64>,
    /// The moment at which it began, in milliseconds since 1970.
    pub at_ms: i64,
    /// How many of all documents it saw: those written before it.
    pub read: u64,
}
