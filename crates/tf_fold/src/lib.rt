//! Folds: what the aggregations of a pivot keep of some documents, and the row that is made of it.
//!
//! A fold stands for a list of documents, of which it keeps only a sum, a least value, a greatest value or a count
//! for each aggregation. Two folds are merged into the fold over both lists, so the documents of a key may be taken
//! in parts.
#![tactic(auto)]

mod acc;
mod error;
mod finishing;
mod joining;
mod part;
mod parts;
mod starting;
#[cfg(test)]
mod tests;

pub use acc::Acc;
pub use error::FoldError;
pub use starting::start;
