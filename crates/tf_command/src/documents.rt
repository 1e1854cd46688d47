// The documents of a bulk.
ghost use Rattle.std.specs.Prelude.{◌≡◌, [], IfOk, is_some, unwrap_or};
ghost use Rattle.tf_command.specs.Forms as spec;
ghost use Rattle.tf_model.specs.Names.{is_between};

use crate::forms::{is_document_id, text_in};
use std::alloc::Global;
use tf_model::{List, OutOfMemory, Text, Tree};

/// Whether a tree is a list of 1 to 10,000 documents, each with its id.
pub(crate) fn are_documents(tree: &Tree) -> bool
    ensures { result ≡ is_some (spec.documents_in tree.now) }
{
    match tree.as_array() {
        Some(items) => has_bulk_length(items.len()) && all_documents(items.as_slice()),
        None => false,
    }
}

fn has_bulk_length(items: usize) -> bool
    ensures { result ≡ is_between 1 10000 items }
{
    items >= 1 && items <= 10_000
}

fn all_documents(items: &[Tree]) -> bool
    ensures { result ≡ is_some (spec.all_documents items.now) }
{
    for item in items {
        if !is_document(item) {
            return false;
        }
    }
    true
}

// Whether a tree is an object with exactly `doc` and `id`.
fn is_document(tree: &Tree) -> bool
    ensures { result ≡ is_some (spec.document_in tree.now) }
{
    match tree.as_object() {
        Some(members) => are_document_members(members.as_slice()),
        None => false,
    }
}

fn are_document_members(members: &[(Text, Tree)]) -> bool
    ensures { result ≡ is_some (spec.document_of members.now) }
{
    match members {
        [first, second] => are_doc_and_id(first, second),
        _ => false,
    }
}

fn are_doc_and_id(first: &(Text, Tree), second: &(Text, Tree)) -> bool
    ensures { result ≡ is_some (spec.doc_and_id first.now second.now) }
{
    first.0.as_str() == "doc"
        && second.0.as_str() == "id"
        && first.1.as_object().is_some()
        && is_document_id(&second.1)
}

/// The documents of a list with their ids, moved out of it; no document where the tree is no such list.
#[tactic(auto, unfolding(tf_model::specs::Trees::items_in))]
pub(crate) fn documents_of(alloc: Global, tree: Tree) -> Result<List<(Text, Tree)>, OutOfMemory>
    ensures { IfOk result (λ docs. docs ≡ unwrap_or (spec.documents_in tree) []) }
{
    match tree {
        Tree::Arr(items) => counted(alloc, items),
        _ => Ok(List::new(alloc)),
    }
}

// The documents of items, where there are 1 to 10,000.
fn counted(alloc: Global, items: List<Tree>) -> Result<List<(Text, Tree)>, OutOfMemory>
    ensures { IfOk result (λ docs. docs ≡ unwrap_or (spec.counted items) []) }
{
    if !has_bulk_length(items.len()) {
        return Ok(List::new(alloc));
    }
    match moved(alloc, items)? {
        Some(docs) => Ok(docs),
        None => Ok(List::new(alloc)),
    }
}

// The documents of items, where each is one.
fn moved(alloc: Global, items: List<Tree>) -> Result<Option<List<(Text, Tree)>>, OutOfMemory>
    ensures { IfOk result (λ docs. docs ≡ spec.all_documents items) }
{
    let mut docs = List::new(alloc);
    for item in items.into_vec() {
        match document_of(item) {
            Some(doc) => docs.push(doc)?,
            None => return Ok(None),
        }
    }
    Ok(Some(docs))
}

// The document of an item.
fn document_of(tree: Tree) -> Option<(Text, Tree)>
    ensures { result ≡ spec.document_in tree }
{
    let mut members = tree.into_object()?;
    if !are_document_members(members.as_slice()) {
        return None;
    }
    let (_, id) = members.pop()?;
    let (_, doc) = members.pop()?;
    Some((text_in(id)?, doc))
}
