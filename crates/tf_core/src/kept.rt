// The entries that a core keeps.
ghost use Rattle.std.specs.Prelude.{◌≡◌};
ghost use Rattle.tf_core.specs.Kept.{entry_of};

use std::alloc::Global;
use std::sync::Arc;
use tf_model::{Doc, Entry};

/// An entry as a core keeps it: a Write as its document, which the list of documents shares. Others are long and few,
/// and stand behind a share so that an entry is short.
#[derive(Drop)]
pub enum Kept {
    Write {
        at_ms: i64,
        actor: u8,
        doc: Arc<Doc, Global>,
    },
    Other(Arc<Entry, Global>),
}

/// The moment of an entry.
pub fn moment(kept: &Kept) -> i64
    ensures { result ≡ (entry_of kept.now).at_ms }
{
    match kept {
        Kept::Write { at_ms, .. } => *at_ms,
        Kept::Other(entry) => entry.at_ms,
    }
}
