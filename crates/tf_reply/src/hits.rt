// The rows that a search shows.
ghost use Rattle.std.specs.Prelude.{◌≡◌, IfOk, map};
ghost use Rattle.tf_reply.specs.Answers as spec;

use crate::members::{listed, member, text};
use crate::objects::object;
use crate::replies::Hit;
use std::alloc::Global;
use tf_group::id_text;
use tf_model::{List, OutOfMemory, Tree, copy_tree};

pub(crate) fn hit_trees(alloc: Global, hits: &[Hit]) -> Result<List<Tree>, OutOfMemory>
    ensures { IfOk result (λ trees. trees ≡ map spec.hit_tree hits.now) }
{
    let mut trees = List::new(alloc);
    for hit in hits {
        trees.push(hit_tree(alloc, hit)?)?;
    }
    Ok(trees)
}

fn hit_tree(alloc: Global, hit: &Hit) -> Result<Tree, OutOfMemory>
    ensures { IfOk result (λ tree. tree ≡ spec.hit_tree hit.now) }
{
    let id = id_text(alloc, &hit.key)?;
    let id = text(alloc, "_id", id.as_str())?;
    let source = member(alloc, "_source", copy_tree(alloc, &hit.source)?)?;
    object(alloc, listed(alloc, [id, source])?)
}

/// The `_source` objects of a preview.
pub(crate) fn copies(alloc: Global, trees: &[Tree]) -> Result<List<Tree>, OutOfMemory>
    ensures { IfOk result (λ copies. copies ≡ trees.now) }
{
    let mut copies = List::new(alloc);
    for tree in trees {
        copies.push(copy_tree(alloc, tree)?)?;
    }
    Ok(copies)
}
