// What is at fault with the names of an object's members.
ghost use Rattle.std.specs.Prelude.{◌≡◌, OnOk, Some, [], ◌∷◌, map};
ghost use Rattle.std.specs.List.{fold};
ghost use Rattle.std.specs.Option.{option_copied};
ghost use Rattle.tf_mapping.specs.Least.{is_one_of, lesser_text};
ghost use Rattle.tf_config.specs.Forms as spec;
ghost use Rattle.tf_config.specs.Forms.{noted};
ghost use Rattle.tf_config.specs.Members.{names_of, missing_each};
ghost use Rattle.tf_config.specs.Table.{seen};

use crate::forms::{FormFault, FormFaults, member_path, path_of};
use crate::table::{Member, Object, form_of, required};
use std::alloc::Global;
use tf_model::{OutOfMemory, Text, Tree};

/// What is at fault with the names of an object's members.
#[tactic(auto, using(crate::proofs::FormLaws::folds))]
pub(crate) fn note_names(
    alloc: Global,
    members: &[(Text, Tree)],
    parent: Object,
    place: Option<&str>,
    found: &mut FormFaults,
) -> Result<(), OutOfMemory>
    ensures { OnOk result (found.new ≡ fold noted found.old (spec.in_names parent (option_copied place.entry) (names_of members.now))) }
{
    note_unknown(alloc, members, parent, place, found)?;
    note_absent(alloc, members, parent, place, found)?;
    note_miscounted(alloc, members, parent, place, found)
}

// The first name that may not stand there.
fn note_unknown(
    alloc: Global,
    members: &[(Text, Tree)],
    parent: Object,
    place: Option<&str>,
    found: &mut FormFaults,
) -> Result<(), OutOfMemory>
    ensures { OnOk result (found.new ≡ fold noted found.old (spec.unknown_member parent (option_copied place.entry) (names_of members.now))) }
{
    match first_unknown(members, parent) {
        None => Ok(()),
        Some(name) => {
            let path = member_path(alloc, place, name.as_str())?;
            found.note(alloc, FormFault::Unknown, path.as_str())
        }
    }
}

// The least name in bytes that may not stand there.
fn first_unknown(members: &[(Text, Tree)], parent: Object) -> Option<&Text>
    ensures { option_copied result ≡ spec.first_unknown parent (names_of members.now) }
{
    let mut least = None;
    for (name, _) in members {
        if is_unknown(parent, members, name) {
            least = Some(lesser_name(name, least));
        }
    }
    least
}

fn lesser_name<'a>(name: &'a Text, least: Option<&'a Text>) -> &'a Text
    ensures { Some result.now ≡ lesser_text (option_copied least.entry) name.now }
{
    match least {
        None => name,
        Some(least) => if name.cmp(least).is_lt() { name } else { least },
    }
}

fn is_unknown(parent: Object, members: &[(Text, Tree)], name: &Text) -> bool
    ensures { result ≡ spec.is_unknown parent (names_of members.now) name.now }
{
    form_of(parent, name.as_str()).is_none() || is_second(parent, members, name)
}

// The second name of aggregations, beside the first.
fn is_second(parent: Object, members: &[(Text, Tree)], name: &Text) -> bool
    ensures { result ≡ spec.is_second parent (names_of members.now) name.now }
{
    match parent {
        Object::Pivot => name.as_str() == "aggs" && has(members, "aggregations"),
        _ => false,
    }
}

// Whether one of the members has a name.
fn has(members: &[(Text, Tree)], name: &str) -> bool
    ensures { result ≡ is_one_of (names_of members.now) name.now }
{
    for (member, _) in members {
        if member.as_str() == name {
            return true;
        }
    }
    false
}

// The needed members that are absent.
#[tactic(auto, using(crate::proofs::FormLaws::absents))]
fn note_absent(
    alloc: Global,
    members: &[(Text, Tree)],
    parent: Object,
    place: Option<&str>,
    found: &mut FormFaults,
) -> Result<(), OutOfMemory>
    ensures { OnOk result (found.new ≡ fold noted found.old (spec.missing_members parent (option_copied place.entry) (names_of members.now))) }
{
    note_required(alloc, members, required(parent), place, found)?;
    note_missing_aggs(alloc, members, parent, place, found)
}

fn note_required(
    alloc: Global,
    members: &[(Text, Tree)],
    needed: &[Member],
    place: Option<&str>,
    found: &mut FormFaults,
) -> Result<(), OutOfMemory>
    ensures { OnOk result (found.new ≡ fold noted found.old (missing_each (option_copied place.entry) (spec.absent_of (names_of members.now) (map seen needed.now)))) }
{
    for (name, _) in needed {
        if !has(members, name) {
            note_missing(alloc, name, place, found)?;
        }
    }
    Ok(())
}

fn note_missing(
    alloc: Global,
    name: &str,
    place: Option<&str>,
    found: &mut FormFaults,
) -> Result<(), OutOfMemory>
    ensures { OnOk result (found.new ≡ fold noted found.old (missing_each (option_copied place.entry) (name.now ∷ []))) }
{
    let path = member_path(alloc, place, name)?;
    found.note(alloc, FormFault::Missing, path.as_str())
}

// Aggregations stand under one of two names.
fn note_missing_aggs(
    alloc: Global,
    members: &[(Text, Tree)],
    parent: Object,
    place: Option<&str>,
    found: &mut FormFaults,
) -> Result<(), OutOfMemory>
    ensures { OnOk result (found.new ≡ fold noted found.old (missing_each (option_copied place.entry) (spec.missing_aggs parent (names_of members.now)))) }
{
    match parent {
        Object::Pivot => if has(members, "aggs") || has(members, "aggregations") {
            Ok(())
        } else {
            note_missing(alloc, "aggregations", place, found)
        },
        _ => Ok(()),
    }
}

// A pivot has some groups, and a group and an aggregation have one member.
fn note_miscounted(
    alloc: Global,
    members: &[(Text, Tree)],
    parent: Object,
    place: Option<&str>,
    found: &mut FormFaults,
) -> Result<(), OutOfMemory>
    ensures { OnOk result (found.new ≡ fold noted found.old (spec.miscounted parent (option_copied place.entry) (names_of members.now))) }
{
    match parent {
        Object::Groups => match members {
            [] => found.note(alloc, FormFault::Missing, path_of(place)),
            [_, ..] => Ok(()),
        },
        Object::Group | Object::Agg => match members {
            [_] => Ok(()),
            _ => found.note(alloc, FormFault::WrongKind, path_of(place)),
        },
        _ => Ok(()),
    }
}
