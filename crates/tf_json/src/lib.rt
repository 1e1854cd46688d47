//! Lines of JSON as trees whose numbers are whole.
#![tactic(auto)]

mod read;

pub use read::{JsonError, line_is_read, read_object, read_tree};
