// The forms of members.
ghost use Rattle.std.specs.Prelude.{◌≡◌, is_some};
ghost use Rattle.tf_model.specs.Trees.{text_in};
ghost use Rattle.tf_command.specs.Forms as spec;

use crate::documents::are_documents;
use crate::table::Form;
use tf_model::{Text, Tree};

/// Whether a tree has a form.
pub(crate) fn has_form(form: Form, tree: &Tree) -> bool
    ensures { result ≡ spec.has_form form tree.now }
{
    match form {
        Form::Text => tree.as_text().is_some(),
        Form::DocumentId => is_document_id(tree),
        Form::Object => tree.as_object().is_some(),
        Form::Array => tree.as_array().is_some(),
        Form::Documents => are_documents(tree),
        Form::Truth => tree.as_bool().is_some(),
        Form::Request => is_request(tree),
        Form::Size => size_in(tree).is_some(),
        Form::Lane => lane_in(tree).is_some(),
        Form::Moment => moment_in(tree).is_some(),
        Form::Checkpoint => checkpoint_in(tree).is_some(),
        Form::Number => tree.as_number().is_some(),
    }
}

/// Whether a tree is the id of a document, a text of 1 to 512 bytes.
pub(crate) fn is_document_id(tree: &Tree) -> bool
    ensures { result ≡ is_some (spec.document_id_in tree.now) }
{
    match tree.as_text() {
        Some(id) => has_id_length(id),
        None => false,
    }
}

fn has_id_length(id: &Text) -> bool
    ensures { result ≡ spec.is_document_id id.now }
{
    let length = id.as_bytes().len();
    length >= 1 && length <= 512
}

fn is_request(tree: &Tree) -> bool
    ensures { result ≡ is_some (spec.kept_if spec.is_request (text_in tree.now)) }
{
    match tree.as_text() {
        Some(text) => text.as_str() == "request",
        None => false,
    }
}

// A whole number that is at least the one and at most the other.
fn number_between(tree: &Tree, low: i128, high: i128) -> Option<i128>
    ensures { result ≡ spec.number_between low high tree.now }
{
    let number = tree.as_number()?;
    if low <= number && number <= high {
        Some(number)
    } else {
        None
    }
}

/// From 1 to 1000.
pub(crate) fn size_in(tree: &Tree) -> Option<u32>
    ensures { result ≡ spec.size_in tree.now }
{
    let number = number_between(tree, 1, 1000)?;
    Some(number as u32)
}

/// From 0 to 7.
pub(crate) fn lane_in(tree: &Tree) -> Option<u8>
    ensures { result ≡ spec.lane_in tree.now }
{
    let number = number_between(tree, 0, 7)?;
    Some(number as u8)
}

/// Any number in i64.
pub(crate) fn moment_in(tree: &Tree) -> Option<i64>
    ensures { result ≡ spec.moment_in tree.now }
{
    let number = number_between(tree, -9_223_372_036_854_775_808, 9_223_372_036_854_775_807)?;
    Some(number as i64)
}

/// From 0 to 2^63 - 1.
pub(crate) fn checkpoint_in(tree: &Tree) -> Option<u64>
    ensures { result ≡ spec.checkpoint_in tree.now }
{
    let number = number_between(tree, 0, 9_223_372_036_854_775_807)?;
    Some(number as u64)
}

/// The text, moved out of its tree.
#[tactic(auto, unfolding(tf_model::specs::Trees::text_in))]
pub(crate) fn text_in(tree: Tree) -> Option<Text>
    ensures { result ≡ text_in tree }
{
    match tree {
        Tree::Str(text) => Some(text),
        _ => None,
    }
}
