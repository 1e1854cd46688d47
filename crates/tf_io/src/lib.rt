//! What the program reads and writes: a source of bytes, a sink for them, and the lines of a script.
//!
//! A [`Source`] and a [`Sink`] count their faults, so that a caller can say of a fault that it came only where the
//! count rose. They may tell their bytes to contracts, and those in memory do. Standard input and output do not.
#![tactic(auto)]

mod lines;
mod memory;
mod sink;
mod source;
mod standard;

pub use lines::{Lines, ReadError, read_lines};
pub use memory::{MemSink, MemSource};
pub use sink::{Sink, WriteFault, write_out};
pub use source::Source;
pub use standard::{InSource, OutSink};
