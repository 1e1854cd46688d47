//! The moves of transforms: a checkpoint is computed once, and each of its Pages is taken from what was computed.
//!
//! An `Indexer` holds the running checkpoint that it is at, with its plan. While it makes the moves of this transform it asks
//! the core for no other job and reads no document.
#![tactic(auto)]

mod indexer;
mod laws;
mod planned;
mod works;

pub use indexer::Indexer;
pub use laws::pages_fit;
pub use planned::Planned;
pub use works::work_of;
