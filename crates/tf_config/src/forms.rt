// What is at fault in the form of a configuration's tree.
ghost use Rattle.std.specs.Prelude.{◌≡◌, IfOk, OnOk, string_bytes};
ghost use Rattle.std.specs.Fmt.{decimal};
ghost use Rattle.std.specs.List.{fold};
ghost use Rattle.std.specs.Option.{option_copied};
ghost use Rattle.tf_mapping.specs.Scalars.{path_in};
ghost use Rattle.tf_config.specs.Forms as spec;
ghost use Rattle.tf_config.specs.Forms.{faults_beside, faults_each, faults_of, noted};
ghost use Rattle.tf_config.specs.Table.{form_of as form_in_table};

use crate::least::lesser_copy;
use crate::members::note_names;
use crate::table::{Form, Object, form_of};
use std::alloc::Global;
use tf_model::{OutOfMemory, Text, Tree};

/// What may be at fault in the form of a tree.
#[derive(Clone, Copy)]
pub(crate) enum FormFault {
    /// A member that may not stand there.
    Unknown,
    /// A needed member is absent, or a needed list is empty.
    Missing,
    /// A tree of another JSON form, or a group or an aggregation with none or two members.
    WrongKind,
}

/// The least path in bytes of what is at fault, for each way.
#[derive(Drop)]
pub(crate) struct FormFaults {
    pub(crate) unknown: Option<Text>,
    pub(crate) missing: Option<Text>,
    pub(crate) wrong_kind: Option<Text>,
}

impl FormFaults {
    fn none() -> FormFaults
        ensures { result ≡ spec.nothing_noted }
    {
        FormFaults {
            unknown: None,
            missing: None,
            wrong_kind: None,
        }
    }

    /// One fault more at a path.
    pub(crate) fn note(
        &mut self,
        alloc: Global,
        fault: FormFault,
        path: &str,
    ) -> Result<(), OutOfMemory>
        ensures { OnOk result (self.new ≡ noted self.old (fault, path.now)) }
    {
        match fault {
            FormFault::Unknown => {
                self.unknown = lesser_copy(alloc, self.unknown.take(), path)?;
            }
            FormFault::Missing => {
                self.missing = lesser_copy(alloc, self.missing.take(), path)?;
            }
            FormFault::WrongKind => {
                self.wrong_kind = lesser_copy(alloc, self.wrong_kind.take(), path)?;
            }
        }
        Ok(())
    }
}

/// What is at fault in the form of a configuration, with or without a destination.
pub(crate) fn form_faults(
    alloc: Global,
    tree: &Tree,
    need_dest: bool,
) -> Result<FormFaults, OutOfMemory>
    ensures { IfOk result (λ found. found ≡ fold noted spec.nothing_noted (spec.form_faults need_dest tree.now)) }
{
    let mut found = FormFaults::none();
    let top = if need_dest {
        Object::Config
    } else {
        Object::Preview
    };
    note_tree(alloc, tree, Form::Object(top), None, &mut found)?;
    Ok(found)
}

// What is at fault in a tree at a place where a form is to stand.
#[cycle(walk)]
#[tactic(auto, using(crate::proofs::FormLaws::faults))]
fn note_tree(
    alloc: Global,
    tree: &Tree,
    form: Form,
    place: Option<&str>,
    found: &mut FormFaults,
) -> Result<(), OutOfMemory>
    ensures { OnOk result (found.new ≡ fold noted found.old (faults_of tree.now form (option_copied place.entry))) }
{
    match tree {
        Tree::Obj(members) => note_object(alloc, members.as_slice(), form, place, found),
        Tree::Arr(items) => note_array(alloc, items.as_slice(), form, place, found),
        Tree::Null => note_unless(alloc, takes_null(form), place, found),
        Tree::Bool(_) => note_unless(alloc, takes_truth(form), place, found),
        Tree::Num(_) => note_unless(alloc, takes_number(form), place, found),
        Tree::Str(_) => note_unless(alloc, takes_text(form), place, found),
    }
}

// A tree of a wrong kind, unless it has the form.
fn note_unless(
    alloc: Global,
    fits: bool,
    place: Option<&str>,
    found: &mut FormFaults,
) -> Result<(), OutOfMemory>
    ensures { OnOk result (found.new ≡ fold noted found.old (spec.wrong_unless fits (option_copied place.entry))) }
{
    if fits {
        Ok(())
    } else {
        found.note(alloc, FormFault::WrongKind, path_of(place))
    }
}

/// The path of a place, which is empty at the top.
pub(crate) fn path_of<'a>(place: Option<&'a str>) -> &'a str
    ensures { result.now ≡ spec.path_of (option_copied place.entry) }
{
    match place {
        None => "",
        Some(path) => path,
    }
}

fn takes_null(form: Form) -> bool
    ensures { result ≡ spec.takes_null form }
{
    matches!(form, Form::Query)
}

fn takes_truth(form: Form) -> bool
    ensures { result ≡ spec.takes_truth form }
{
    matches!(form, Form::Truth | Form::Query)
}

fn takes_number(form: Form) -> bool
    ensures { result ≡ spec.takes_number form }
{
    matches!(form, Form::Number | Form::Query)
}

fn takes_text(form: Form) -> bool
    ensures { result ≡ spec.takes_text form }
{
    matches!(form, Form::Text | Form::Names | Form::Query)
}

#[cycle(walk)]
fn note_array(
    alloc: Global,
    items: &[Tree],
    form: Form,
    place: Option<&str>,
    found: &mut FormFaults,
) -> Result<(), OutOfMemory>
    ensures { OnOk result (found.new ≡ fold noted found.old (spec.of_array (faults_each items.now) form (option_copied place.entry))) }
{
    match form {
        Form::Texts | Form::Names => note_list(alloc, items, place, found),
        Form::Query => Ok(()),
        Form::Object(_) | Form::Free | Form::Text | Form::Number | Form::Truth => found.note(
            alloc,
            FormFault::WrongKind,
            path_of(place),
        ),
    }
}

// Some texts.
#[cycle(walk)]
#[tactic(auto, using(crate::proofs::FormLaws::folds))]
fn note_list(
    alloc: Global,
    items: &[Tree],
    place: Option<&str>,
    found: &mut FormFaults,
) -> Result<(), OutOfMemory>
    ensures { OnOk result (found.new ≡ fold noted found.old (spec.in_list (option_copied place.entry) (faults_each items.now))) }
{
    note_if_empty(alloc, items, place, found)?;
    note_items(alloc, items, place, found)
}

fn note_if_empty(
    alloc: Global,
    items: &[Tree],
    place: Option<&str>,
    found: &mut FormFaults,
) -> Result<(), OutOfMemory>
    ensures { OnOk result (found.new ≡ fold noted found.old (spec.if_empty (faults_each items.now) (option_copied place.entry))) }
{
    match items {
        [] => found.note(alloc, FormFault::Missing, path_of(place)),
        [_, ..] => Ok(()),
    }
}

#[cycle(walk)]
#[tactic(auto, using(crate::proofs::FormLaws::folds))]
fn note_items(
    alloc: Global,
    items: &[Tree],
    place: Option<&str>,
    found: &mut FormFaults,
) -> Result<(), OutOfMemory>
    ensures { OnOk result (found.new ≡ fold noted found.old (spec.in_items 0 (option_copied place.entry) (faults_each items.now))) }
{
    for (at, item) in items.iter().enumerate() {
        let path = item_path(alloc, place, at)?;
        note_tree(alloc, item, Form::Text, Some(path.as_str()), found)?;
    }
    Ok(())
}

#[cycle(walk)]
fn note_object(
    alloc: Global,
    members: &[(Text, Tree)],
    form: Form,
    place: Option<&str>,
    found: &mut FormFaults,
) -> Result<(), OutOfMemory>
    ensures { OnOk result (found.new ≡ fold noted found.old (spec.of_object (faults_beside members.now) form (option_copied place.entry))) }
{
    match form {
        Form::Object(parent) => note_members(alloc, members, parent, place, found),
        Form::Free | Form::Query => Ok(()),
        Form::Text | Form::Number | Form::Truth | Form::Texts | Form::Names => found.note(
            alloc,
            FormFault::WrongKind,
            path_of(place),
        ),
    }
}

#[cycle(walk)]
#[tactic(auto, using(crate::proofs::FormLaws::objects))]
fn note_members(
    alloc: Global,
    members: &[(Text, Tree)],
    parent: Object,
    place: Option<&str>,
    found: &mut FormFaults,
) -> Result<(), OutOfMemory>
    ensures { OnOk result (found.new ≡ fold noted found.old (spec.in_object parent (option_copied place.entry) (faults_beside members.now))) }
{
    note_names(alloc, members, parent, place, found)?;
    note_each(alloc, members, parent, place, found)
}

#[cycle(walk)]
#[tactic(auto, using(crate::proofs::FormLaws::folds))]
fn note_each(
    alloc: Global,
    members: &[(Text, Tree)],
    parent: Object,
    place: Option<&str>,
    found: &mut FormFaults,
) -> Result<(), OutOfMemory>
    ensures { OnOk result (found.new ≡ fold noted found.old (spec.in_members parent (option_copied place.entry) (faults_beside members.now))) }
{
    for (name, tree) in members {
        note_member(alloc, name, tree, parent, place, found)?;
    }
    Ok(())
}

#[cycle(walk)]
fn note_member(
    alloc: Global,
    name: &Text,
    tree: &Tree,
    parent: Object,
    place: Option<&str>,
    found: &mut FormFaults,
) -> Result<(), OutOfMemory>
    ensures { OnOk result (found.new ≡ fold noted found.old (spec.in_member (form_in_table parent name.now) (faults_of tree.now) (path_in (option_copied place.entry) name.now))) }
{
    match form_of(parent, name.as_str()) {
        None => Ok(()),
        Some(form) => {
            let path = member_path(alloc, place, name.as_str())?;
            note_tree(alloc, tree, form, Some(path.as_str()), found)
        }
    }
}

/// The path of a member.
pub(crate) fn member_path(
    alloc: Global,
    place: Option<&str>,
    name: &str,
) -> Result<String, OutOfMemory>
    ensures { IfOk result (λ path. string_bytes path ≡ path_in (option_copied place.entry) name.now) }
{
    match place {
        None => String::from_str(alloc, name),
        Some(path) => format!(in alloc; "{path}.{name}"),
    }
}

// The path of an item.
fn item_path(alloc: Global, place: Option<&str>, at: usize) -> Result<String, OutOfMemory>
    ensures { IfOk result (λ path. string_bytes path ≡ path_in (option_copied place.entry) (decimal at)) }
{
    match place {
        None => format!(in alloc; "{at}"),
        Some(path) => format!(in alloc; "{path}.{at}"),
    }
}
