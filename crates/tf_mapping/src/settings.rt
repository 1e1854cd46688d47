// The members of a mapping's tree that are outside the form of mappings.
ghost use Rattle.std.specs.Prelude.{◌≡◌, IfOk, OnOk, map, None};
ghost use Rattle.std.specs.List.{fold, flat_map};
ghost use Rattle.std.specs.String.{string_bytes};
ghost use Rattle.tf_mapping.specs.Least.{lesser_text};
ghost use Rattle.tf_mapping.specs.Settings as spec;
ghost use Rattle.tf_mapping.specs.Settings.{faults_of, faults_beside};

use crate::least::lesser;
use crate::paths::{go_in, go_out};
use std::alloc::Global;
use tf_model::{OutOfMemory, Text, Tree};

/// The least path in bytes of what is at fault in a mapping.
pub(crate) fn least_fault(alloc: Global, tree: &Tree) -> Result<Option<Text>, OutOfMemory>
    ensures { IfOk result (λ found. found ≡ fold lesser_text None (spec.faults_in tree.now)) }
{
    match tree.as_object() {
        None => lesser(alloc, None, "properties"),
        Some(members) => least_at_top(alloc, members.as_slice()),
    }
}

fn least_at_top(alloc: Global, members: &[(Text, Tree)]) -> Result<Option<Text>, OutOfMemory>
    ensures { IfOk result (λ found. found ≡ fold lesser_text None (spec.faults_from (Some members.now))) }
{
    let least = least_of_one(alloc, has(members, "properties"), "properties", None)?;
    least_in_top(alloc, members, least)
}

// The lesser of the least path before and this one, where it is at fault.
fn least_of_one(
    alloc: Global,
    is_good: bool,
    path: &str,
    least: Option<Text>,
) -> Result<Option<Text>, OutOfMemory>
    ensures { IfOk result (λ found. found ≡ fold lesser_text least (spec.fault_if_not is_good path.now)) }
{
    if is_good {
        Ok(least)
    } else {
        lesser(alloc, least, path)
    }
}

fn least_in_top(
    alloc: Global,
    members: &[(Text, Tree)],
    least: Option<Text>,
) -> Result<Option<Text>, OutOfMemory>
    ensures { IfOk result (λ found. found ≡ fold lesser_text least (flat_map spec.top_faults members.now)) }
{
    let mut least = least;
    for (name, tree) in members {
        least = least_in_top_member(alloc, name, tree, least)?;
    }
    Ok(least)
}

fn least_in_top_member(
    alloc: Global,
    name: &Text,
    tree: &Tree,
    least: Option<Text>,
) -> Result<Option<Text>, OutOfMemory>
    ensures { IfOk result (λ found. found ≡ fold lesser_text least (spec.top_faults (name.now, tree.now))) }
{
    if name.as_str() == "properties" {
        let mut path = String::from_str(alloc, name.as_str())?;
        least_in_properties(alloc, tree, &mut path, least)
    } else {
        lesser(alloc, least, name.as_str())
    }
}

// Whether one of the members has a name.
fn has(members: &[(Text, Tree)], name: &str) -> bool
    ensures { result ≡ spec.has name.now members.now }
{
    members.iter().any(|member| member.0.as_str() == name)
}

// Whether a property has one of `type` and `properties`, and not both.
fn has_one(members: &[(Text, Tree)]) -> bool
    ensures { result ≡ spec.has_one members.now }
{
    has(members, "type") != has(members, "properties")
}

// What is at fault in an object with a property beside each name.
#[cycle(faults)]
#[tactic(auto, using(crate::proofs::FaultLaws::faults))]
fn least_in_properties(
    alloc: Global,
    tree: &Tree,
    path: &mut String,
    least: Option<Text>,
) -> Result<Option<Text>, OutOfMemory>
    ensures kept { OnOk result (string_bytes path.new ≡ string_bytes path.old) }
    ensures found { IfOk result (λ found. found ≡ fold lesser_text least ((faults_of tree.now).as_properties (string_bytes path.old))) }
{
    match tree {
        Tree::Obj(members) => least_in_all(alloc, members.as_slice(), path, least),
        Tree::Null | Tree::Bool(_) | Tree::Num(_) | Tree::Str(_) | Tree::Arr(_) => lesser(
            alloc,
            least,
            path.as_str(),
        ),
    }
}

#[cycle(faults)]
fn least_in_all(
    alloc: Global,
    members: &[(Text, Tree)],
    path: &mut String,
    least: Option<Text>,
) -> Result<Option<Text>, OutOfMemory>
    ensures kept { OnOk result (string_bytes path.new ≡ string_bytes path.old) }
    ensures found { IfOk result (λ found. found ≡ fold lesser_text least (spec.properties_faults (faults_beside members.now) (string_bytes path.old))) }
{
    let mut least = least;
    for (name, tree) in members {
        least = least_beside(alloc, name, tree, path, least)?;
    }
    Ok(least)
}

// What is at fault in the property beside a name.
#[cycle(faults)]
#[tactic(auto, using(crate::proofs::CutLaws::cuts))]
fn least_beside(
    alloc: Global,
    name: &Text,
    tree: &Tree,
    path: &mut String,
    least: Option<Text>,
) -> Result<Option<Text>, OutOfMemory>
    ensures kept { OnOk result (string_bytes path.new ≡ string_bytes path.old) }
    ensures found { IfOk result (λ found. found ≡ fold lesser_text least ((faults_of tree.now).as_property (spec.joined (string_bytes path.old) name.now))) }
{
    let len = path.len();
    go_in(path, name.as_str())?;
    let found = least_in_property(alloc, tree, path, least)?;
    go_out(path, len);
    Ok(found)
}

// What is at fault in a property.
#[cycle(faults)]
#[tactic(auto, using(crate::proofs::FaultLaws::faults))]
fn least_in_property(
    alloc: Global,
    tree: &Tree,
    path: &mut String,
    least: Option<Text>,
) -> Result<Option<Text>, OutOfMemory>
    ensures kept { OnOk result (string_bytes path.new ≡ string_bytes path.old) }
    ensures found { IfOk result (λ found. found ≡ fold lesser_text least ((faults_of tree.now).as_property (string_bytes path.old))) }
{
    match tree {
        Tree::Obj(members) => least_in_settings(alloc, members.as_slice(), path, least),
        Tree::Null | Tree::Bool(_) | Tree::Num(_) | Tree::Str(_) | Tree::Arr(_) => lesser(
            alloc,
            least,
            path.as_str(),
        ),
    }
}

#[cycle(faults)]
#[tactic(auto, using(crate::proofs::FaultLaws::fold_both))]
fn least_in_settings(
    alloc: Global,
    members: &[(Text, Tree)],
    path: &mut String,
    least: Option<Text>,
) -> Result<Option<Text>, OutOfMemory>
    ensures kept { OnOk result (string_bytes path.new ≡ string_bytes path.old) }
    ensures found { IfOk result (λ found. found ≡ fold lesser_text least (spec.property_faults (faults_beside members.now) (string_bytes path.old))) }
{
    let least = least_of_one(alloc, has_one(members), path.as_str(), least)?;
    least_in_each(alloc, members, path, least)
}

#[cycle(faults)]
fn least_in_each(
    alloc: Global,
    members: &[(Text, Tree)],
    path: &mut String,
    least: Option<Text>,
) -> Result<Option<Text>, OutOfMemory>
    ensures kept { OnOk result (string_bytes path.new ≡ string_bytes path.old) }
    ensures found { IfOk result (λ found. found ≡ fold lesser_text least (flat_map (spec.setting_faults (string_bytes path.old)) (faults_beside members.now))) }
{
    let mut least = least;
    for (name, tree) in members {
        least = least_at(alloc, name, tree, path, least)?;
    }
    Ok(least)
}

// What is at fault in a member of a property.
#[cycle(faults)]
#[tactic(auto, using(crate::proofs::CutLaws::cuts))]
fn least_at(
    alloc: Global,
    name: &Text,
    tree: &Tree,
    path: &mut String,
    least: Option<Text>,
) -> Result<Option<Text>, OutOfMemory>
    ensures kept { OnOk result (string_bytes path.new ≡ string_bytes path.old) }
    ensures found { IfOk result (λ found. found ≡ fold lesser_text least (spec.setting_faults (string_bytes path.old) (name.now, faults_of tree.now))) }
{
    let len = path.len();
    go_in(path, name.as_str())?;
    let found = least_in_setting(alloc, name, tree, path, least)?;
    go_out(path, len);
    Ok(found)
}

// The same, where the path is that of the member.
#[cycle(faults)]
fn least_in_setting(
    alloc: Global,
    name: &Text,
    tree: &Tree,
    path: &mut String,
    least: Option<Text>,
) -> Result<Option<Text>, OutOfMemory>
    ensures kept { OnOk result (string_bytes path.new ≡ string_bytes path.old) }
    ensures found { IfOk result (λ found. found ≡ fold lesser_text least (spec.member_faults name.now (faults_of tree.now) (string_bytes path.old))) }
{
    if name.as_str() == "type" {
        least_of_type(alloc, tree, path.as_str(), least)
    } else if name.as_str() == "properties" {
        least_in_properties(alloc, tree, path, least)
    } else {
        lesser(alloc, least, path.as_str())
    }
}

// A type that is no text.
#[tactic(auto, using(crate::proofs::FaultLaws::faults))]
fn least_of_type(
    alloc: Global,
    tree: &Tree,
    path: &str,
    least: Option<Text>,
) -> Result<Option<Text>, OutOfMemory>
    ensures { IfOk result (λ found. found ≡ fold lesser_text least ((faults_of tree.now).as_type path.now)) }
{
    match tree {
        Tree::Str(_) => Ok(least),
        Tree::Null | Tree::Bool(_) | Tree::Num(_) | Tree::Arr(_) | Tree::Obj(_) => lesser(
            alloc, least, path,
        ),
    }
}
