// The trees that an index keeps.
ghost use Rattle.std.specs.Prelude.{◌≡◌, IfOk};
ghost use Rattle.std.specs.Option.{option_copied};
ghost use Rattle.tf_core.specs.Allowing as spec;
ghost use Rattle.tf_mapping.specs.Written as tree_spec;

use crate::index::Index;
use std::alloc::Global;
use tf_mapping::{DocError, read_doc};
use tf_model::{OutOfMemory, Text, Tree, Value, Values};

/// The values of a tree that an index keeps where it was written at a moment, none where it does not keep it.
#[tactic(auto, using(crate::proofs::Written::no_object, crate::proofs::Written::not_read, crate::proofs::Written::kept))]
pub fn written_values(
    alloc: Global,
    index: &Index,
    at_ms: i64,
    tree: &Tree,
) -> Result<Option<Values>, OutOfMemory>
    ensures { IfOk result (λ values. values ≡ spec.written_in index.now at_ms tree.now) }
{
    if !is_object(tree) {
        return Ok(None);
    }
    match read_values(alloc, index, tree)? {
        Some(values) => Ok(if_stamped(index.stamp(), at_ms, values)),
        None => Ok(None),
    }
}

/// The values that an index reads from a tree, none where it does not read it.
#[tactic(auto, unfolding(tf_mapping::specs::Documents::reads))]
pub fn read_values(alloc: Global, index: &Index, tree: &Tree) -> Result<Option<Values>, OutOfMemory>
    ensures { IfOk result (λ values. values ≡ spec.read_in index.now.mapping tree.now) }
{
    match read_doc(alloc, index.shared_mapping(), None, tree) {
        Ok(values) => Ok(Some(values)),
        Err(DocError::Memory) => Err(OutOfMemory),
        Err(
            DocError::ManyValues { .. }
            | DocError::WrongType { .. }
            | DocError::NotADate { .. }
            | DocError::OutOfRange { .. }
            | DocError::Stamped { .. },
        ) => Ok(None),
    }
}

fn is_object(tree: &Tree) -> bool
    ensures { result ≡ tree_spec.is_object tree.now }
{
    tree.as_object().is_some()
}

// The values, where the stamp has the moment.
fn if_stamped(stamp: Option<&Text>, at_ms: i64, values: Values) -> Option<Values>
    ensures { result ≡ spec.if_stamped (option_copied stamp.entry) at_ms values }
{
    if has_moment(stamp, at_ms, &values) {
        Some(values)
    } else {
        None
    }
}

fn has_moment(stamp: Option<&Text>, at_ms: i64, values: &Values) -> bool
    ensures { result ≡ tree_spec.has_moment (option_copied stamp.entry) at_ms values.now }
{
    match stamp {
        None => true,
        Some(stamp) => is_moment(at_ms, values.get(stamp)),
    }
}

fn is_moment(at_ms: i64, value: Option<&Value>) -> bool
    ensures { result ≡ tree_spec.is_moment at_ms (option_copied value.entry) }
{
    match value {
        Some(Value::Date(found)) => *found == at_ms,
        _ => false,
    }
}
