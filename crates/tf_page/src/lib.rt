//! Pages of changed keys.
//!
//! A key has changed where a document of the window has it: one that matches, has a sync value below the new bound and is
//! not below the bound before. A checkpoint takes its changed keys page by page, each page above the last key of the page
//! before.
#![tactic(auto)]

mod changed;
mod fates;
mod least;

pub use changed::{Changed, changed_after};
