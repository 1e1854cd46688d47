//! Mappings, the documents that they read, stamps, and the shards of documents.
#![tactic(auto)]

mod documents;
mod error;
mod found;
mod gathered;
mod laws;
mod least;
mod leaves;
mod mappings;
mod paths;
mod routing;
mod settings;
mod stamping;
mod values;
mod walking;

pub use documents::read_doc;
pub use error::{DocError, MappingError};
pub use laws::stamped_is_written;
pub use mappings::read_mapping;
pub use routing::route;
pub use stamping::{put_stamp, stamped};
