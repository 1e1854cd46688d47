//! The rows of given keys of a pivot.
//!
//! Each key has a fold, which takes in one document after another. One pass over the documents that count serves all keys.
#![tactic(auto)]

mod error;
mod finding;
mod folds;
mod rows;

pub use error::PivotError;
pub use rows::rows_for;
