//! Configurations of transforms: how they are read, and what is wrong with them over the indices that there are.
#![tactic(auto)]

mod catalogue;
mod check;
mod columns;
mod drafts;
mod error;
mod field_tests;
mod forms;
mod laws;
mod least;
mod lists;
mod members;
mod named_fields;
mod naming;
mod numbers;
mod query;
mod read;
mod shapes;
mod table;
mod typing;
mod values;

pub use catalogue::Catalogue;
pub use check::check_config;
pub use error::ConfigError;
pub use laws::{
    fields_are_typed, form_suffices, passing_fits, passing_has_pivot_types, passing_has_types,
    passing_is_in_range,
};
pub use read::read_config;
