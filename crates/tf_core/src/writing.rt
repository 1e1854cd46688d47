// The document of a Write.
ghost use Rattle.std.specs.Prelude.{◌≡◌, ◌++◌, true, None, IfOk, IsSomeAnd, slice_get};
ghost use Rattle.std.specs.Option.{option_copied};
ghost use Rattle.tf_history.specs.Catalogue as spec;
ghost use Rattle.tf_core.specs.Chain.{all_added};
ghost use Rattle.tf_mapping.specs.Documents.{reads, values_of as read};
ghost use Rattle.tf_core.specs.Made.{IsWritten};

use crate::catalogue::index_at;
use crate::index::Index;
use crate::kept::Kept;
use crate::ready::{Prepared, Step};
use crate::trees::read_values;
use std::alloc::Global;
use std::sync::Arc;
use tf_model::{Doc, OutOfMemory, Source, Text, Tree, Values};

/// The document of a Write, where these indices are there and its index reads the tree.
pub fn doc_of(
    alloc: Global,
    indices: &[Index],
    steps: &[Prepared],
    index: u32,
    shard: u32,
    seq: u64,
    id: Text,
    tree: Tree,
) -> Result<Doc, OutOfMemory>
    requires { IsSomeAnd (slice_get (indices.now ++ all_added steps.now) index) (λ s. reads s.mapping None tree ≡ true) }
    ensures { IfOk result (λ doc. doc ≡ spec.written_doc read (indices.now ++ all_added steps.now) index shard seq id tree) }
{
    let values = values_in(alloc, index_at(indices, steps, index as usize), &tree)?;
    let tree = Source::of(alloc, &tree)?;
    Ok(Doc {
        index,
        shard,
        seq,
        id,
        tree,
        values,
    })
}

/// A Write, as a document that the history and the list of documents share.
pub fn written(alloc: Global, at_ms: i64, actor: u8, doc: Doc) -> Result<Prepared, OutOfMemory>
    ensures { IfOk result (IsWritten at_ms actor doc) }
{
    let doc = Arc::new(alloc, doc)?;
    let other = Arc::try_clone(&doc)?;
    Ok(Prepared {
        kept: Kept::Write { at_ms, actor, doc },
        step: Step::Write(other),
    })
}

fn values_in(alloc: Global, index: Option<&Index>, tree: &Tree) -> Result<Values, OutOfMemory>
    requires { IsSomeAnd (option_copied index) (λ s. reads s.mapping None tree.now ≡ true) }
    ensures { IfOk result (λ values. values ≡ spec.values_in read (option_copied index.entry) tree.now) }
{
    match index {
        None => unreachable!(),
        Some(index) => values_by(alloc, index, tree),
    }
}

#[tactic(auto, using(crate::proofs::Written::same_values))]
fn values_by(alloc: Global, index: &Index, tree: &Tree) -> Result<Values, OutOfMemory>
    requires { reads index.now.mapping None tree.now ≡ true }
    ensures { IfOk result (λ values. values ≡ read index.now.mapping index.now.stamp tree.now) }
{
    match read_values(alloc, index, tree)? {
        Some(values) => Ok(values),
        None => unreachable!(),
    }
}
