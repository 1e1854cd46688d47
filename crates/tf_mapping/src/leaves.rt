// The fields that a mapping's tree names.
ghost use Rattle.std.specs.Prelude.{◌≡◌, OnOk, IfOk};
ghost use Rattle.std.specs.List.{fold, flat_map};
ghost use Rattle.std.specs.String.{string_bytes};
ghost use Rattle.tf_mapping.specs.Leaves as spec;
ghost use Rattle.tf_mapping.specs.Leaves.{leaves_of, leaves_beside};
ghost use Rattle.tf_mapping.specs.Settings.{joined};
ghost use Rattle.tf_mapping.specs.Gathering.{gather, nothing_gathered};

use crate::gathered::Gathered;
use crate::paths::{go_in, go_out};
use std::alloc::Global;
use tf_model::{FieldType, OutOfMemory, Text, Tree};

/// The fields of a mapping.
pub(crate) fn gather_fields(alloc: Global, tree: &Tree) -> Result<Gathered, OutOfMemory>
    ensures { IfOk result (λ gathered. gathered ≡ fold gather nothing_gathered (spec.leaves_in tree.now)) }
{
    let mut gathered = Gathered::new(alloc);
    if let Some(properties) = tree.get("properties") {
        gather_top(alloc, properties, &mut gathered)?;
    }
    Ok(gathered)
}

#[tactic(auto, using(crate::proofs::LeafLaws::leaves))]
fn gather_top(alloc: Global, tree: &Tree, gathered: &mut Gathered) -> Result<(), OutOfMemory>
    ensures { OnOk result (gathered.new ≡ fold gather gathered.old ((leaves_of tree.now).as_properties None)) }
{
    match tree {
        Tree::Obj(members) => gather_top_members(alloc, members.as_slice(), gathered),
        Tree::Null | Tree::Bool(_) | Tree::Num(_) | Tree::Str(_) | Tree::Arr(_) => Ok(()),
    }
}

fn gather_top_members(
    alloc: Global,
    members: &[(Text, Tree)],
    gathered: &mut Gathered,
) -> Result<(), OutOfMemory>
    ensures { OnOk result (gathered.new ≡ fold gather gathered.old (spec.properties_leaves (leaves_beside members.now) None)) }
{
    for (name, tree) in members {
        let mut path = String::from_str(alloc, name.as_str())?;
        gather_property(alloc, tree, &mut path, gathered)?;
    }
    Ok(())
}

// The fields of an object with a property beside each name.
#[cycle(leaves)]
#[tactic(auto, using(crate::proofs::LeafLaws::leaves))]
fn gather_properties(
    alloc: Global,
    tree: &Tree,
    path: &mut String,
    gathered: &mut Gathered,
) -> Result<(), OutOfMemory>
    ensures kept { OnOk result (string_bytes path.new ≡ string_bytes path.old) }
    ensures found { OnOk result (gathered.new ≡ fold gather gathered.old ((leaves_of tree.now).as_properties (Some (string_bytes path.old)))) }
{
    match tree {
        Tree::Obj(members) => gather_members(alloc, members.as_slice(), path, gathered),
        Tree::Null | Tree::Bool(_) | Tree::Num(_) | Tree::Str(_) | Tree::Arr(_) => Ok(()),
    }
}

#[cycle(leaves)]
fn gather_members(
    alloc: Global,
    members: &[(Text, Tree)],
    path: &mut String,
    gathered: &mut Gathered,
) -> Result<(), OutOfMemory>
    ensures kept { OnOk result (string_bytes path.new ≡ string_bytes path.old) }
    ensures found { OnOk result (gathered.new ≡ fold gather gathered.old (spec.properties_leaves (leaves_beside members.now) (Some (string_bytes path.old)))) }
{
    for (name, tree) in members {
        gather_beside(alloc, name, tree, path, gathered)?;
    }
    Ok(())
}

// The fields of the property beside a name.
#[cycle(leaves)]
#[tactic(auto, using(crate::proofs::CutLaws::cuts))]
fn gather_beside(
    alloc: Global,
    name: &Text,
    tree: &Tree,
    path: &mut String,
    gathered: &mut Gathered,
) -> Result<(), OutOfMemory>
    ensures kept { OnOk result (string_bytes path.new ≡ string_bytes path.old) }
    ensures found { OnOk result (gathered.new ≡ fold gather gathered.old ((leaves_of tree.now).as_property (joined (string_bytes path.old) name.now))) }
{
    let len = path.len();
    go_in(path, name.as_str())?;
    gather_property(alloc, tree, path, gathered)?;
    go_out(path, len);
    Ok(())
}

// The field that a property is, or those inside.
#[cycle(leaves)]
#[tactic(auto, using(crate::proofs::LeafLaws::leaves))]
fn gather_property(
    alloc: Global,
    tree: &Tree,
    path: &mut String,
    gathered: &mut Gathered,
) -> Result<(), OutOfMemory>
    ensures kept { OnOk result (string_bytes path.new ≡ string_bytes path.old) }
    ensures found { OnOk result (gathered.new ≡ fold gather gathered.old ((leaves_of tree.now).as_property (string_bytes path.old))) }
{
    match tree {
        Tree::Obj(members) => gather_settings(alloc, members.as_slice(), path, gathered),
        Tree::Null | Tree::Bool(_) | Tree::Num(_) | Tree::Str(_) | Tree::Arr(_) => Ok(()),
    }
}

#[cycle(leaves)]
fn gather_settings(
    alloc: Global,
    members: &[(Text, Tree)],
    path: &mut String,
    gathered: &mut Gathered,
) -> Result<(), OutOfMemory>
    ensures kept { OnOk result (string_bytes path.new ≡ string_bytes path.old) }
    ensures found { OnOk result (gathered.new ≡ fold gather gathered.old (flat_map (spec.setting_leaves (string_bytes path.old)) (leaves_beside members.now))) }
{
    for (name, tree) in members {
        gather_setting(alloc, name, tree, path, gathered)?;
    }
    Ok(())
}

#[cycle(leaves)]
#[tactic(auto, using(crate::proofs::LeafLaws::leaves))]
fn gather_setting(
    alloc: Global,
    name: &Text,
    tree: &Tree,
    path: &mut String,
    gathered: &mut Gathered,
) -> Result<(), OutOfMemory>
    ensures kept { OnOk result (string_bytes path.new ≡ string_bytes path.old) }
    ensures found { OnOk result (gathered.new ≡ fold gather gathered.old (spec.setting_leaves (string_bytes path.old) (name.now, leaves_of tree.now))) }
{
    if name.as_str() == "type" {
        gather_type(alloc, tree, path.as_str(), gathered)
    } else if name.as_str() == "properties" {
        gather_properties(alloc, tree, path, gathered)
    } else {
        Ok(())
    }
}

// The field of a type.
#[tactic(auto, using(crate::proofs::LeafLaws::leaves))]
fn gather_type(
    alloc: Global,
    tree: &Tree,
    path: &str,
    gathered: &mut Gathered,
) -> Result<(), OutOfMemory>
    ensures { OnOk result (gathered.new ≡ fold gather gathered.old ((leaves_of tree.now).as_type path.now)) }
{
    match tree {
        Tree::Str(text) => gathered.add(alloc, path, type_named(text.as_str())),
        Tree::Null | Tree::Bool(_) | Tree::Num(_) | Tree::Arr(_) | Tree::Obj(_) => Ok(()),
    }
}

// The type that a text names.
fn type_named(text: &str) -> Option<FieldType>
    ensures { result ≡ spec.type_named text.now }
{
    match text {
        "keyword" => Some(FieldType::Keyword),
        "long" => Some(FieldType::Long),
        "boolean" => Some(FieldType::Boolean),
        "date" => Some(FieldType::Date),
        _ => None,
    }
}
