//! Readers: the documents of some runs as one list, in which windows are found and documents fetched.
#![tactic(auto)]

mod place;
mod reader;
mod scanning;

pub use place::Place;
pub use reader::Reader;
