//! Destinations: rows in the order of their keys, which change without taking memory.
//!
//! A row is put at a key that has a place. Places are made while memory may be taken, so that putting, taking out and
//! clearing cannot fail. What a page costs hangs on its own size and, by its logarithm, on the number of places.
#![tactic(auto)]

mod dest;
mod due;
mod dues;
mod held;
mod slots;

pub use dest::Dest;
pub use held::{Held, key_of_row};
