//! Runs: lists of shared documents that stay as they are, whatever is written after them. The documents of a run stand in
//! segments, which runs share as a whole, and a tail.
#![tactic(auto)]

mod run;
mod segment;
mod sharing;

pub use run::Run;
pub use segment::{SEGMENT_LEN, Segment};
pub use sharing::{doc_at, first_shares};
