// Places.

/// Where a document stands in a reader.
#[derive(Clone, Copy, PartialEq, Eq, Debug)]
pub struct Place {
    /// The number of its run, from 0.
    pub run: u32,
    /// Its place in the run, from 0.
    pub doc: u32,
}
