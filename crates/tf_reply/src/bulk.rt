// What became of the documents of a bulk.
ghost use Rattle.std.specs.Prelude.{◌≡◌, IfOk, map};
ghost use Rattle.tf_reply.specs.Answers as spec;

use crate::members::{Member, count, listed};
use crate::objects::object;
use crate::refused::refusal_members;
use crate::replies::Item;
use std::alloc::Global;
use tf_model::{List, OutOfMemory, Tree};

pub(crate) fn item_trees(alloc: Global, items: &[Item]) -> Result<List<Tree>, OutOfMemory>
    ensures { IfOk result (λ trees. trees ≡ map spec.item_tree items.now) }
{
    let mut trees = List::new(alloc);
    for item in items {
        trees.push(item_tree(alloc, item)?)?;
    }
    Ok(trees)
}

fn item_tree(alloc: Global, item: &Item) -> Result<Tree, OutOfMemory>
    ensures { IfOk result (λ tree. tree ≡ spec.item_tree item.now) }
{
    let members = item_members(alloc, item)?;
    object(alloc, members)
}

fn item_members(alloc: Global, item: &Item) -> Result<List<Member>, OutOfMemory>
    ensures { IfOk result (λ members. members ≡ spec.item_members item.now) }
{
    match item {
        Item::Written { seq, shard } => place_members(alloc, *seq, *shard),
        Item::Refused { refusal } => refusal_members(alloc, refusal),
    }
}

/// The place of a document that was written.
pub(crate) fn place_members(
    alloc: Global,
    seq: u64,
    shard: u32,
) -> Result<List<Member>, OutOfMemory>
    ensures { IfOk result (λ members. members ≡ spec.place_members seq shard) }
{
    let seq = count(alloc, "seq", seq)?;
    let shard = count(alloc, "shard", u64::from(shard))?;
    listed(alloc, [seq, shard])
}
