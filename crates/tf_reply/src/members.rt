// The members of an object, one by one.
ghost use Rattle.std.specs.Prelude.{◌≡◌, IfOk};
ghost use Rattle.tf_reply.specs.Objects as spec;

use std::alloc::Global;
use tf_model::{List, OutOfMemory, Text, Tree};

/// A member of an object.
pub(crate) type Member = (Text, Tree);

pub(crate) fn member(alloc: Global, name: &str, tree: Tree) -> Result<Member, OutOfMemory>
    ensures { IfOk result (λ member. member ≡ (name.now, tree)) }
{
    Ok((Text::from_str(alloc, name)?, tree))
}

pub(crate) fn text(alloc: Global, name: &str, text: &str) -> Result<Member, OutOfMemory>
    ensures { IfOk result (λ member. member ≡ spec.text name.now text.now) }
{
    let text = Text::from_str(alloc, text)?;
    member(alloc, name, Tree::Str(text))
}

/// A member that is a count.
pub(crate) fn count(alloc: Global, name: &str, count: u64) -> Result<Member, OutOfMemory>
    ensures { IfOk result (λ member. member ≡ spec.count name.now count) }
{
    member(alloc, name, Tree::Num(i128::from(count)))
}

pub(crate) fn number(alloc: Global, name: &str, number: i128) -> Result<Member, OutOfMemory>
    ensures { IfOk result (λ member. member ≡ spec.number name.now number) }
{
    member(alloc, name, Tree::Num(number))
}

/// The list of some members.
pub(crate) fn listed<const N: usize>(
    alloc: Global,
    members: [Member; N],
) -> Result<List<Member>, OutOfMemory>
    ensures { IfOk result (λ list. list ≡ members.entry) }
{
    Ok(List::from_vec(Vec::from_array(alloc, members)?))
}
