// The stamp of a written document.
ghost use Rattle.std.specs.Prelude.{◌≡◌, IfOk, IsSome, MatchResult, ◌≤◌, ◌<◌, length, insert, slice_set};
ghost use Rattle.std.specs.Cmp.Lexicographic.{slice_cmp};
ghost use Rattle.std.specs.Ordering.{nat_cmp};
ghost use Rattle.tf_model.specs.Trees.{members_in};
ghost use Rattle.tf_model.specs.Lines.{IsLine};
ghost use Rattle.tf_mapping.specs.Stamps as spec;

use std::alloc::Global;
use std::cmp::Ordering;
use tf_model::{List, OutOfMemory, Text, Tree, copy_tree};

/// A copy of a document with the moment beside the stamp's whole path at its top, where it replaces a member of that
/// name. The moment is in milliseconds since 1970.
pub fn put_stamp(alloc: Global, tree: &Tree, path: &Text, ms: i64) -> Result<Tree, OutOfMemory>
    requires { IsSome (members_in tree.now) }
    ensures tree { IfOk result (λ written. written ≡ spec.stamped tree.now path.now ms) }
    ensures line { IfOk result (λ written. IsLine tree.now → IsLine written) }
{
    stamped(alloc, copy_tree(alloc, tree)?, path, ms)
}

/// The same of a document that is moved: no part of it is copied.
#[tactic(auto, unfolding(crate::specs::Stamps::stamped))]
pub fn stamped(alloc: Global, tree: Tree, path: &Text, ms: i64) -> Result<Tree, OutOfMemory>
    requires { IsSome (members_in tree) }
    ensures tree { IfOk result (λ written. written ≡ spec.stamped tree path.now ms) }
    ensures line { IfOk result (λ written. IsLine tree → IsLine written) }
{
    match tree.into_object() {
        Some(members) => Ok(Tree::Obj(with_member(alloc, members, path.as_str(), number(ms))?)),
        None => unreachable!(),
    }
}

fn number(ms: i64) -> Tree
    ensures { result ≡ Tree.Num ms }
{
    Tree::Num(i128::from(ms))
}

// The members with one at its place, in place of one of its name.
fn with_member(
    alloc: Global,
    members: List<(Text, Tree)>,
    name: &str,
    tree: Tree,
) -> Result<List<(Text, Tree)>, OutOfMemory>
    ensures { IfOk result (λ all. all ≡ spec.with_member members name.now tree) }
{
    let mut members = members;
    let member = (Text::from_str(alloc, name)?, tree);
    match place_of(members.as_slice(), name) {
        Ok(at) => members.set(at, member),
        Err(at) => members.insert(at, member)?,
    }
    Ok(members)
}

// The place of a name among members, or the place where it goes.
fn place_of(members: &[(Text, Tree)], name: &str) -> Result<usize, usize>
    ensures within { MatchResult result (λ at. at < length members.now) (λ at. at ≤ length members.now) }
    ensures member { (t : Tree) → MatchResult result (λ at. spec.with_member members.now name.now t ≡ slice_set members.now at (name.now, t)) (λ at. spec.with_member members.now name.now t ≡ insert members.now at (name.now, t)) }
{
    for (at, member) in members.iter().enumerate() {
        match compare(name, &member.0) {
            Ordering::Less => return Err(at),
            Ordering::Equal => return Ok(at),
            Ordering::Greater => {}
        }
    }
    Err(members.len())
}

fn compare(name: &str, other: &Text) -> Ordering
    ensures { result ≡ slice_cmp nat_cmp name.now other.now }
{
    name.as_bytes().cmp(other.as_bytes())
}
