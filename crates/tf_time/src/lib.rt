//! Dates and spans as texts, and moments taken down to multiples of a step.
//!
//! A moment is a number of milliseconds since 1970 in UTC. A date is a moment of the years 0 to 9999.
#![tactic(auto)]

mod calendar;
mod date;
mod floor;
mod print;
mod reader;
mod span;

pub use date::{DateError, read_date};
pub use floor::floor_to;
pub use print::print_date;
pub use span::{NotASpan, read_span};
