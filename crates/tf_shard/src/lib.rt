//! Shards: the documents of a shard in the order of writing, each id once, and runs of them that stay as they are.
#![tactic(auto)]

mod entering;
mod error;
mod parts;
mod sealing;
mod shard;

pub use error::ShardError;
pub use shard::Shard;
