//! A value that threads take in turns.
//!
//! A value stands for a list of items, of which each names the seat that gave it. Each thread has a [`Seat`]: with it it takes the
//! turn, and with the turn the value; it makes the list longer by items of its own, and gives the value back, which publishes
//! the list. What a seat has seen is always a beginning of the published list, so all seats see one list grow, each its own
//! items in their order. Contracts alone know what a seat has seen; at run time there are two words and the place of the value.
#![tactic(auto)]

mod calls;
mod ends;
mod plays;
mod seat;
mod turn;
mod view;

pub use seat::Seat;
pub use turn::{Busy, Turn};
pub use view::{Gone, Law, Stands, Start, View};
