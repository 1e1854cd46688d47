//! A store: a core whose history is the history of a disk's file.
//!
//! Opening it reads the frames of the file, and takes the entries of each after those before it. A commit is one
//! frame: it is on the disk before the history has its entries.
#![tactic(auto)]

mod calls;
mod commit;
mod error;
mod laws;
mod opening;
mod replay;
mod state;
mod submitting;

pub use error::{OpenError, StoreError};
pub use laws::{content_is_one, histories_are_taken};
pub use state::Store;
