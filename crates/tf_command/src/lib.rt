//! The command that a line of a script is.
#![tactic(auto)]

mod build;
mod checks;
mod command;
mod documents;
mod forms;
mod line;
mod members;
mod read;
mod table;

pub use command::{Command, LineError, Op, Parts};
pub use line::{is_blank, lane_of};
pub use read::read_command;
