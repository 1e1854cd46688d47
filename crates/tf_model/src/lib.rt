//! The types that the crates of the transform service share.
#![tactic(auto)]

mod config;
mod copy;
mod doc;
mod entry;
mod laws;
mod list;
mod names;
mod outside;
mod printing;
mod query;
mod source;
mod steps;
mod task;
mod text;
mod tree;
mod value;
mod values;

pub use config::{Agg, AggKind, Config, Group, GroupKind, Retention, Shape, SyncTime};
pub use copy::{TryCopy, copy_config, copy_key, copy_mapping, copy_query, copy_row, copy_tree};
pub use doc::Doc;
pub use entry::{Entry, Kind, Row, SumRange};
pub use laws::{key_order_is_exact, value_order_is_exact};
pub use list::List;
pub use names::{is_field_path, is_index_name, is_transform_id};
pub use outside::Failed;
pub use printing::{print, print_onto};
pub use query::{FieldType, Mapping, Query};
pub use source::Source;
pub use std::alloc::AllocError as OutOfMemory;
pub use steps::Steps;
pub use task::State;
pub use text::Text;
pub use tree::Tree;
pub use value::{Key, Value};
pub use values::Values;
