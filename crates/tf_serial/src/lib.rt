//! The lines of a script, done in order over a store by one thread.
//!
//! The entries of a command are one frame of the store's file, and each move of a settling is one. The replies and the history
//! are those that `specs/Script.antt` defines.
#![tactic(auto)]

mod commanding;
mod committing;
mod laws;
mod numbers;
mod script;
mod settling;

pub use laws::settlings_follow_the_rule;
pub use script::run_script;
