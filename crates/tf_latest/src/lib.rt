//! The rows of given keys of a latest.
//!
//! Each key keeps the newest of its documents so far, which the reader lends. One pass over the documents that count serves
//! all keys.
#![tactic(auto)]

mod age;
mod finding;
mod keeping;
mod naming;
mod rows;

pub use age::newer_of;
pub use naming::row_named;
pub use rows::rows_for;
