// The members of a query's tree that are outside the forms of queries.
ghost use Rattle.std.specs.Prelude.{◌≡◌, Some, IfOk, map, string_bytes};
ghost use Rattle.std.specs.Option.{option_copied, option_map, option_to_list};
ghost use Rattle.std.specs.Fmt.{decimal};
ghost use Rattle.std.specs.List.{fold};
ghost use Rattle.tf_query.specs.Unknown as spec;
ghost use Rattle.tf_query.specs.Unknown.{lesser_text, unknown_in};

use crate::forms::{Form, Member, member_in};
use crate::least::lesser;
use std::alloc::Global;
use tf_model::{OutOfMemory, Text, Tree};

/// The least path of an unknown member in bytes, where `least` is the least one before. The tree stands at `path`.
#[cycle(unknown)]
#[tactic(auto, using(crate::proofs::UnknownLaws::unknowns))]
pub(crate) fn least_unknown(
    alloc: Global,
    tree: &Tree,
    form: Form,
    path: &str,
    least: Option<Text>,
) -> Result<Option<Text>, OutOfMemory>
    ensures { IfOk result (λ found. found ≡ fold lesser_text least (unknown_in tree.now form path.now)) }
{
    match tree {
        Tree::Obj(members) => least_in_object(alloc, members.as_slice(), form, path, least),
        Tree::Arr(items) if form == Form::Queries => least_in_items(
            alloc,
            items.as_slice(),
            path,
            least,
        ),
        Tree::Null | Tree::Bool(_) | Tree::Num(_) | Tree::Str(_) | Tree::Arr(_) => Ok(least),
    }
}

#[cycle(unknown)]
fn least_in_object(
    alloc: Global,
    members: &[(Text, Tree)],
    form: Form,
    path: &str,
    least: Option<Text>,
) -> Result<Option<Text>, OutOfMemory>
    ensures { IfOk result (λ found. found ≡ fold lesser_text least (spec.unknown_object form path.now members.now)) }
{
    let first = first_unknown(members, form);
    let least = least_beside(alloc, first, path, least)?;
    least_in_members(alloc, members, form, path, least)
}

// The least name in bytes of an unknown member.
fn first_unknown(members: &[(Text, Tree)], form: Form) -> Option<&Text>
    ensures { option_copied result ≡ spec.first_unknown form (map (λ member. member.0) members.now) }
{
    let mut least = None;
    for (name, _) in members {
        if member_in(form, name.as_str()) == Member::Unknown {
            least = Some(lesser(name, least));
        }
    }
    least
}

// The lesser of the least path before and that of a member, where there is one.
fn least_beside(
    alloc: Global,
    name: Option<&Text>,
    path: &str,
    least: Option<Text>,
) -> Result<Option<Text>, OutOfMemory>
    ensures { IfOk result (λ found. found ≡ fold lesser_text least (option_to_list (option_map (spec.joined path.now) (option_copied name.entry)))) }
{
    match name {
        None => Ok(least),
        Some(name) => Ok(Some(lesser_path(least, joined(alloc, path, name.as_str())?))),
    }
}

#[cycle(unknown)]
fn least_in_members(
    alloc: Global,
    members: &[(Text, Tree)],
    form: Form,
    path: &str,
    least: Option<Text>,
) -> Result<Option<Text>, OutOfMemory>
    ensures { IfOk result (λ found. found ≡ fold lesser_text least (spec.unknown_members form path.now members.now)) }
{
    let mut least = least;
    for (name, tree) in members {
        least = least_in_member(alloc, name, tree, form, path, least)?;
    }
    Ok(least)
}

#[cycle(unknown)]
fn least_in_member(
    alloc: Global,
    name: &Text,
    tree: &Tree,
    form: Form,
    path: &str,
    least: Option<Text>,
) -> Result<Option<Text>, OutOfMemory>
    ensures { IfOk result (λ found. found ≡ fold lesser_text least (spec.unknown_member form path.now name.now tree.now)) }
{
    match member_in(form, name.as_str()) {
        Member::Unknown | Member::Value => Ok(least),
        Member::Part(part) => {
            let path = joined(alloc, path, name.as_str())?;
            least_unknown(alloc, tree, part, path.as_str(), least)
        }
    }
}

#[cycle(unknown)]
fn least_in_items(
    alloc: Global,
    items: &[Tree],
    path: &str,
    least: Option<Text>,
) -> Result<Option<Text>, OutOfMemory>
    ensures { IfOk result (λ found. found ≡ fold lesser_text least (spec.unknown_items 0 path.now items.now)) }
{
    let mut least = least;
    for (place, item) in items.iter().enumerate() {
        let path = at_place(alloc, path, place)?;
        least = least_unknown(alloc, item, Form::Query, path.as_str(), least)?;
    }
    Ok(least)
}

// The path of a member.
fn joined(alloc: Global, path: &str, name: &str) -> Result<String, OutOfMemory>
    ensures { IfOk result (λ text. string_bytes text ≡ spec.joined path.now name.now) }
{
    format!(in alloc; "{path}.{name}")
}

// The path of an item.
fn at_place(alloc: Global, path: &str, place: usize) -> Result<String, OutOfMemory>
    ensures { IfOk result (λ text. string_bytes text ≡ spec.joined path.now (decimal place)) }
{
    format!(in alloc; "{path}.{place}")
}

// The lesser of a path and the least before.
fn lesser_path(least: Option<Text>, path: String) -> Text
    ensures { Some result ≡ lesser_text least (string_bytes path) }
{
    let path = Text::from_string(path);
    match least {
        None => path,
        Some(least) => if path.cmp(&least).is_lt() {
            path
        } else {
            least
        },
    }
}
