// Members that are absent, and members that have not their form.
ghost use Rattle.std.specs.Prelude.{◌≡◌, map};
ghost use Rattle.std.specs.Option.{option_copied, option_map};
ghost use Rattle.tf_command.specs.Commands as spec;
ghost use Rattle.tf_command.specs.Seen.{seen};
ghost use Rattle.tf_command.specs.Table.{form_of};
ghost use Rattle.tf_model.specs.Trees.{member_at};

use crate::forms::has_form;
use crate::table::{Member, Name, form_of};
use tf_model::{Text, Tree};

/// The member with a name.
pub(crate) fn member_at<'a>(members: &'a [(Text, Tree)], name: &str) -> Option<&'a Tree>
    ensures { option_copied result ≡ member_at members.now name.now }
{
    for (member, tree) in members {
        if member.as_str() == name {
            return Some(tree);
        }
    }
    None
}

/// The first of the wanted members that is absent.
pub(crate) fn first_absent(members: &[(Text, Tree)], wanted: &[Member]) -> Option<&'static str>
    ensures { option_map (λ name. name.now) result ≡ spec.first_absent members.now (map seen wanted.now) }
{
    for (name, _) in wanted {
        if member_at(members, *name).is_none() {
            return Some(*name);
        }
    }
    None
}

/// The first member that is not one of the op's, or has not its form.
pub(crate) fn first_bad(op: Name, members: &[(Text, Tree)]) -> Option<&Text>
    ensures { option_copied result ≡ spec.first_bad op members.now }
{
    for (name, tree) in members {
        if !fits(op, name.as_str(), tree) {
            return Some(name);
        }
    }
    None
}

fn fits(op: Name, name: &str, tree: &Tree) -> bool
    ensures { result ≡ spec.fits (form_of op name.now) tree.now }
{
    match form_of(op, name) {
        Some(form) => has_form(form, tree),
        None => false,
    }
}
