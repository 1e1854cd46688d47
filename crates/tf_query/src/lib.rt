//! Queries: how they are read from a configuration, and which documents match them.
#![tactic(auto)]

mod building;
mod counting;
mod error;
mod forms;
mod least;
mod matching;
mod nesting;
mod reading;
mod typing;
mod unknown;
mod unmapped;
mod values;

pub use counting::is_in_window;
pub use error::QueryError;
pub use matching::matches;
pub use nesting::nests_within;
pub use reading::read_query;
pub use typing::suits_fields;
