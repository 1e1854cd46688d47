//! The top calls of the program: they take the words of the command line and all that is outside, and answer a status.
#![tactic(auto)]

mod outcome;
mod running;
mod top;
mod words;

pub use top::{End, run_top};
pub use words::file_word;
