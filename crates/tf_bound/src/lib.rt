//! The bounds of checkpoints, the cutoffs of retention, and when a checkpoint is due.
//!
//! After "How checkpoints work" of the Elasticsearch Reference; how a bound is aligned, how a cutoff rises and the exact test for
//! when a checkpoint begins are this project's own. No call takes memory.
#![tactic(auto)]

mod aligning;
mod bounds;

pub use aligning::aligned;
pub use bounds::{cutoff, due, next_bound};
