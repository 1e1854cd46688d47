//! The rest of a checkpoint, made in one go: all changed keys above a position with their rows, of which page after page is
//! taken.
#![tactic(auto)]

mod above;
mod folds;
mod hashed;
mod laws;
mod naming;
mod newest;
mod page;
mod passes;
mod plan;
mod rows;
mod scanning;
mod sorted;

pub use laws::{latest_pages_are_those_of_two_calls, pages_are_those_of_two_calls};
pub use page::Page;
pub use plan::Plan;
