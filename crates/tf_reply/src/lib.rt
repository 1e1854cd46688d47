//! The replies of the program, as trees and as lines.
//!
//! A `Reply` says what a line of a script did, or why it was refused. Its tree is an object whose members stand
//! ascending by name, and its line is that tree, printed.
#![tactic(auto)]

mod answers;
mod bulk;
mod faults;
mod hits;
mod lines;
mod members;
mod naming;
mod objects;
mod refused;
mod replies;
mod sources;
mod statistics;
mod tasks;

pub use answers::reply_tree;
pub use faults::{
    ConfigFault, DocFault, Limit, MappingFault, Refusal, config_refusal, doc_refusal, line_refusal,
    mapping_refusal,
};
pub use lines::{reply_line, write_reply};
pub use replies::{Checkpoint, Hit, Item, Reply, Running, Stats};
pub use sources::pivot_source;
