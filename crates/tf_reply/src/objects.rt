// Objects, whose members stand ascending by name.
ghost use Rattle.std.specs.Prelude.{◌≡◌, ◌<◌, ◌≤◌, IfOk, OnOk, MatchResult, length, insert, slice_set};
ghost use Rattle.std.specs.Cmp.Lexicographic.{slice_cmp};
ghost use Rattle.std.specs.Ordering.{nat_cmp};
ghost use Rattle.tf_reply.specs.Objects as spec;

use crate::members::{Member, count};
use std::alloc::Global;
use std::cmp::Ordering;
use tf_model::{List, OutOfMemory, Text, Tree};

/// The object of some members, in whichever order they come.
#[tactic(auto, unfolding(crate::specs::Objects::object))]
pub(crate) fn object(alloc: Global, members: List<Member>) -> Result<Tree, OutOfMemory>
    ensures { IfOk result (λ tree. tree ≡ spec.object members) }
{
    Ok(Tree::Obj(by_name(alloc, members)?))
}

/// The object of some members, and of where a reply stands.
pub(crate) fn placed(
    alloc: Global,
    line: u64,
    entries: u64,
    members: List<Member>,
) -> Result<Tree, OutOfMemory>
    ensures { IfOk result (λ tree. tree ≡ spec.placed line entries members) }
{
    let mut members = members;
    members.push(count(alloc, "line", line)?)?;
    members.push(count(alloc, "no", entries)?)?;
    object(alloc, members)
}

fn by_name(alloc: Global, members: List<Member>) -> Result<List<Member>, OutOfMemory>
    ensures { IfOk result (λ sorted. sorted ≡ spec.by_name members) }
{
    let mut members = members;
    let mut sorted = List::new(alloc);
    while let Some(member) = members.pop() {
        place(&mut sorted, member)?;
    }
    Ok(sorted)
}

// Puts a member at its place, where it stands in the place of one of its name.
fn place(members: &mut List<Member>, member: Member) -> Result<(), OutOfMemory>
    ensures { OnOk result (members.new ≡ spec.with_member members.old member) }
{
    match place_of(members.as_slice(), &member.0) {
        Ok(at) => {
            members.set(at, member);
            Ok(())
        }
        Err(at) => members.insert(at, member),
    }
}

// The place of a name among members, or the place where it goes.
fn place_of(members: &[Member], name: &Text) -> Result<usize, usize>
    ensures within { MatchResult result (λ at. at < length members.now) (λ at. at ≤ length members.now) }
    ensures member { (t : Tree) → MatchResult result (λ at. spec.with_member members.now (name.now, t) ≡ slice_set members.now at (name.now, t)) (λ at. spec.with_member members.now (name.now, t) ≡ insert members.now at (name.now, t)) }
{
    for (at, member) in members.iter().enumerate() {
        match compare(name, &member.0) {
            Ordering::Less => return Err(at),
            Ordering::Equal => return Ok(at),
            Ordering::Greater => {}
        }
    }
    Err(members.len())
}

fn compare(name: &Text, other: &Text) -> Ordering
    ensures { result ≡ slice_cmp nat_cmp name.now other.now }
{
    name.cmp(other)
}
