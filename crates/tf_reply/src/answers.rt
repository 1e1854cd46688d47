// Replies as trees.
ghost use Rattle.std.specs.Prelude.{◌≡◌, IfOk};
ghost use Rattle.tf_model.specs.Lines.{IsLine};
ghost use Rattle.tf_reply.specs.Answers as spec;
ghost use Rattle.tf_reply.specs.Objects.{AreLines, HasOrderedNames};

use crate::bulk::{item_trees, place_members};
use crate::hits::{copies, hit_trees};
use crate::members::{Member, count, listed, member, text};
use crate::objects::placed;
use crate::refused::refusal_members;
use crate::replies::{Hit, Item, Reply};
use crate::statistics::stats_members;
use crate::tasks::{deleted_members, task_members};
use std::alloc::Global;
use tf_model::{List, OutOfMemory, Tree};

/// The object that a reply is. Its members ascend by name, each name once. It is one that a line can be wherever the
/// reply's own members are: where its texts are UTF-8, and its sums and sources are such. The error is want of memory
/// alone.
#[tactic(auto, unfolding(crate::specs::Answers::reply_tree))]
pub fn reply_tree(alloc: Global, reply: &Reply) -> Result<Tree, OutOfMemory>
    ensures tree { IfOk result (λ tree. tree ≡ spec.reply_tree reply.now) }
    ensures names { IfOk result (λ tree. HasOrderedNames tree) }
    ensures line { IfOk result (λ tree. AreLines 126 (spec.own_members reply.now) → IsLine tree) }
{
    let members = own_members(alloc, reply)?;
    placed(alloc, reply.line(), reply.no(), members)
}

// The members beside `line` and `no`.
fn own_members(alloc: Global, reply: &Reply) -> Result<List<Member>, OutOfMemory>
    ensures { IfOk result (λ members. members ≡ spec.own_members reply.now) }
{
    match reply {
        Reply::Created { .. } => result_members(alloc, "created"),
        Reply::Written { seq, shard, .. } => written_members(alloc, *seq, *shard),
        Reply::Bulk { from, items, .. } => bulk_members(alloc, *from, items.as_slice()),
        Reply::Deleted { id, .. } => deleted_members(alloc, id),
        Reply::Task {
            id,
            state,
            checkpoint,
            ..
        } => task_members(alloc, id, *state, *checkpoint),
        Reply::Settled { .. } => result_members(alloc, "settled"),
        Reply::Found { hits, total, .. } => found_members(alloc, hits.as_slice(), *total),
        Reply::Stats { stats, .. } => stats_members(alloc, stats),
        Reply::Preview { sources, .. } => preview_members(alloc, sources.as_slice()),
        Reply::Refused { refusal, .. } => refusal_members(alloc, refusal),
    }
}

fn result_members(alloc: Global, word: &str) -> Result<List<Member>, OutOfMemory>
    ensures { IfOk result (λ members. members ≡ spec.result_members word.now) }
{
    listed(alloc, [text(alloc, "result", word)?])
}

fn written_members(alloc: Global, seq: u64, shard: u32) -> Result<List<Member>, OutOfMemory>
    ensures { IfOk result (λ members. members ≡ spec.written_members seq shard) }
{
    let mut members = place_members(alloc, seq, shard)?;
    members.push(text(alloc, "result", "created")?)?;
    Ok(members)
}

fn bulk_members(alloc: Global, from: u64, items: &[Item]) -> Result<List<Member>, OutOfMemory>
    ensures { IfOk result (λ members. members ≡ spec.bulk_members from items.now) }
{
    let from = count(alloc, "from", from)?;
    let items = member(alloc, "items", Tree::Arr(item_trees(alloc, items)?))?;
    listed(alloc, [from, items])
}

fn found_members(alloc: Global, hits: &[Hit], total: u64) -> Result<List<Member>, OutOfMemory>
    ensures { IfOk result (λ members. members ≡ spec.found_members hits.now total) }
{
    let hits = member(alloc, "hits", Tree::Arr(hit_trees(alloc, hits)?))?;
    let total = count(alloc, "total", total)?;
    listed(alloc, [hits, total])
}

fn preview_members(alloc: Global, sources: &[Tree]) -> Result<List<Member>, OutOfMemory>
    ensures { IfOk result (λ members. members ≡ spec.preview_members sources.now) }
{
    let sources = copies(alloc, sources)?;
    listed(alloc, [member(alloc, "preview", Tree::Arr(sources))?])
}
