//! The keys of documents, the text of a key, and the key of a text that was read.
#![tactic(auto)]

mod comparing;
mod ids;
mod keys;
mod parts;
mod reading;

pub use comparing::compare_key;
pub use ids::id_text;
pub use keys::key_of;
pub use reading::read_key;
