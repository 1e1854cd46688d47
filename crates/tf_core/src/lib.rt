//! The state that a history leaves.
//!
//! A `Core` stands for a history of entries: the indices, documents and transforms that it keeps are what the history leaves,
//! and each entry was taken after those before it. `prepare` takes all the memory that further entries need and changes
//! nothing that contracts see; `apply` then makes the history longer by them, takes no memory and cannot fail.
#![tactic(auto)]

mod allowing;
mod applying;
mod beginning;
mod built;
mod catalogue;
mod counts;
mod finished;
mod ids;
mod index;
mod job;
mod kept;
mod late;
mod laws;
mod listing;
mod lookups;
mod making;
mod marks;
mod moving;
mod names;
mod paging;
mod planning;
mod preparing;
mod reading;
mod ready;
mod rooms;
mod state;
mod stepping;
mod table;
mod taking;
mod transform;
mod trees;
mod writing;

pub use built::is_built_config;
pub use finished::Finished;
pub use index::Index;
pub use job::{Job, Running, What, Work};
pub use kept::Kept;
pub use laws::{
    aligned_keys_are_apart, running_checkpoints_go_on, stamped_documents_are_never_late,
    taken_entries_are_legal,
};
pub use ready::Ready;
pub use state::Core;
pub use transform::Transform;
