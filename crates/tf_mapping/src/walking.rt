// The scalars of a document at a field's path. The path is followed into the document, and nothing is copied.
ghost use Rattle.std.specs.Prelude.{◌≡◌};
ghost use Rattle.std.specs.List.{fold, flat_map};
ghost use Rattle.tf_mapping.specs.Findings.{shown, seen_more};
ghost use Rattle.tf_mapping.specs.Scalars as spec;

use crate::found::{Found, with_one};
use tf_model::{Text, Tree};

/// What was found before, and the scalars at the path that is left inside a tree.
#[cycle(inside)]
#[tactic(auto, using(crate::proofs::FoundLaws::founds))]
pub(crate) fn find_inside<'a>(tree: &'a Tree, path: &[u8], found: Found<'a>) -> Found<'a>
    ensures { shown result ≡ seen_more (shown found.entry) tree.now (spec.inside path.now) }
{
    match tree {
        Tree::Obj(members) => find_in_members(members.as_slice(), path, found),
        Tree::Arr(items) => find_in_items(items.as_slice(), path, found),
        Tree::Null | Tree::Bool(_) | Tree::Num(_) | Tree::Str(_) => found,
    }
}

#[cycle(inside)]
fn find_in_members<'a>(members: &'a [(Text, Tree)], path: &[u8], found: Found<'a>) -> Found<'a>
    ensures { shown result ≡ fold spec.with_one (shown found.entry) (flat_map (λ m. spec.found_in m.1 (spec.behind m.0 path.now)) members.now) }
{
    let mut all = found;
    for (name, tree) in members {
        all = find_in_member(name.as_bytes(), tree, path, all);
    }
    all
}

#[cycle(inside)]
#[tactic(auto, using(crate::proofs::FoundLaws::founds, crate::proofs::PathLaws::strips))]
fn find_in_member<'a>(name: &[u8], tree: &'a Tree, path: &[u8], found: Found<'a>) -> Found<'a>
    ensures { shown result ≡ seen_more (shown found.entry) tree.now (spec.behind name.now path.now) }
{
    match path.strip_prefix(name) {
        None => found,
        Some(rest) => find_behind(tree, rest, found),
    }
}

// The same, where the path goes on so behind the name.
#[cycle(inside)]
#[tactic(auto, using(crate::proofs::FoundLaws::founds))]
fn find_behind<'a>(tree: &'a Tree, rest: &[u8], found: Found<'a>) -> Found<'a>
    ensures { shown result ≡ seen_more (shown found.entry) tree.now (spec.left_from (Some rest.now)) }
{
    match rest {
        [] => find_here(tree, found),
        [b'.', below @ ..] => find_inside(tree, below, found),
        [_, ..] => found,
    }
}

#[cycle(inside)]
fn find_in_items<'a>(items: &'a [Tree], path: &[u8], found: Found<'a>) -> Found<'a>
    ensures { shown result ≡ fold spec.with_one (shown found.entry) (flat_map (λ item. spec.found_in item (spec.inside path.now)) items.now) }
{
    let mut all = found;
    for item in items {
        all = find_inside(item, path, all);
    }
    all
}

// What was found before, and the scalars of a tree where the path ends.
#[cycle(here)]
#[tactic(auto, using(crate::proofs::FoundLaws::founds))]
fn find_here<'a>(tree: &'a Tree, found: Found<'a>) -> Found<'a>
    ensures { shown result ≡ seen_more (shown found.entry) tree.now spec.here }
{
    match tree {
        Tree::Null => found,
        Tree::Obj(_) => found,
        Tree::Arr(items) => find_here_in_items(items.as_slice(), found),
        Tree::Bool(_) | Tree::Num(_) | Tree::Str(_) => with_one(found, tree),
    }
}

#[cycle(here)]
fn find_here_in_items<'a>(items: &'a [Tree], found: Found<'a>) -> Found<'a>
    ensures { shown result ≡ fold spec.with_one (shown found.entry) (flat_map (λ item. spec.found_in item spec.here) items.now) }
{
    let mut all = found;
    for item in items {
        all = find_here(item, all);
    }
    all
}
