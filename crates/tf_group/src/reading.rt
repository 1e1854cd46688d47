// The key that a tree stands for.
ghost use Rattle.std.specs.Prelude.{◌≡◌, IfOk, map};
ghost use Rattle.std.specs.Option.{option_map};
ghost use Rattle.tf_group.specs.Reading as spec;
ghost use Rattle.tf_model.specs.Trees.{text_in};
ghost use Rattle.tf_model.specs.Values.{type_of};

use std::alloc::Global;
use tf_model::{
    Config, FieldType, Group, GroupKind, Key, List, Mapping, OutOfMemory, Shape, Text, Tree, Value,
};

// The first moment of the year 0 and the last one of the year 9999, in milliseconds since 1970.
const FIRST_DATE: i128 = -62_167_219_200_000;

const LAST_DATE: i128 = 253_402_300_799_999;

/// The key by the configuration whose `id_text` reads as the tree, and `None` exactly where there is none. `fields`
/// gives the types of the sources' fields.
///
/// A key by the configuration has one part for each group, in the order of their names, or for each field of the
/// unique key. A part is `Null`, or a value of the type that its group or field gives: a number for a histogram or a
/// long, a truth value, a text, and a date of the years 0 to 9999 for a date_histogram or a date field. It need not be
/// a multiple of the group's interval, and `Null` is taken whatever `missing_bucket` is. The error is want of memory
/// alone.
pub fn read_key(
    alloc: Global,
    config: &Config,
    fields: &Mapping,
    tree: &Tree,
) -> Result<Option<Key>, OutOfMemory>
    ensures { IfOk result (spec.IsTheKey config.now fields.now tree.now) }
{
    find_key(alloc, config, fields, tree)
}

// The same by the definition that computes it.
fn find_key(
    alloc: Global,
    config: &Config,
    fields: &Mapping,
    tree: &Tree,
) -> Result<Option<Key>, OutOfMemory>
    ensures { IfOk result (λ key. key ≡ spec.key_in config.now fields.now tree.now) }
{
    let Some(items) = tree.as_array() else {
        return Ok(None);
    };
    let types = part_types(alloc, config, fields)?;
    match read_parts(alloc, types.as_slice(), items.as_slice())? {
        None => Ok(None),
        Some(parts) => Ok(Some(Key { parts })),
    }
}

// The types of a key's parts.
fn part_types(
    alloc: Global,
    config: &Config,
    fields: &Mapping,
) -> Result<List<Option<FieldType>>, OutOfMemory>
    ensures { IfOk result (λ types. types ≡ spec.part_types config.now fields.now) }
{
    match &config.shape {
        Shape::Pivot { groups, .. } => group_types(alloc, groups.as_slice(), fields),
        Shape::Latest { unique_key, .. } => field_types(alloc, unique_key.as_slice(), fields),
    }
}

fn group_types(
    alloc: Global,
    groups: &[Group],
    fields: &Mapping,
) -> Result<List<Option<FieldType>>, OutOfMemory>
    ensures { IfOk result (λ types. types ≡ map (spec.group_type fields.now) groups.now) }
{
    let mut types = List::new(alloc);
    for group in groups {
        types.push(group_type(group, fields))?;
    }
    Ok(types)
}

fn group_type(group: &Group, fields: &Mapping) -> Option<FieldType>
    ensures { result ≡ spec.group_type fields.now group.now }
{
    match group.kind {
        GroupKind::Terms => fields.type_of(&group.field),
        GroupKind::Histogram { .. } => Some(FieldType::Long),
        GroupKind::DateHistogram { .. } => Some(FieldType::Date),
    }
}

fn field_types(
    alloc: Global,
    names: &[Text],
    fields: &Mapping,
) -> Result<List<Option<FieldType>>, OutOfMemory>
    ensures { IfOk result (λ types. types ≡ map (type_of fields.now) names.now) }
{
    let mut types = List::new(alloc);
    for name in names {
        types.push(fields.type_of(name))?;
    }
    Ok(types)
}

// The parts that trees are, where there are as many as types.
#[tactic(auto, using(crate::proofs::KeyLaws::unlike_lengths))]
fn read_parts(
    alloc: Global,
    types: &[Option<FieldType>],
    items: &[Tree],
) -> Result<Option<List<Value>>, OutOfMemory>
    ensures { IfOk result (λ parts. parts ≡ spec.parts_in types.now items.now) }
{
    if types.len() != items.len() {
        return Ok(None);
    }
    let mut parts = List::new(alloc);
    for (place, item) in items.iter().enumerate() {
        match read_part(alloc, types[place], item)? {
            Some(part) => parts.push(part)?,
            None => return Ok(None),
        }
    }
    Ok(Some(parts))
}

fn read_part(
    alloc: Global,
    kind: Option<FieldType>,
    tree: &Tree,
) -> Result<Option<Value>, OutOfMemory>
    ensures { IfOk result (λ part. part ≡ spec.part_in kind tree.now) }
{
    if is_null(tree) {
        Ok(Some(Value::Null))
    } else {
        read_value(alloc, kind, tree)
    }
}

#[tactic(auto, unfolding(crate::specs::Reading::is_null))]
fn is_null(tree: &Tree) -> bool
    ensures { result ≡ spec.is_null tree.now }
{
    match tree {
        Tree::Null => true,
        _ => false,
    }
}

// The value of a type that a tree is.
fn read_value(
    alloc: Global,
    kind: Option<FieldType>,
    tree: &Tree,
) -> Result<Option<Value>, OutOfMemory>
    ensures { IfOk result (λ value. value ≡ spec.value_in kind tree.now) }
{
    match kind {
        None => Ok(None),
        Some(FieldType::Boolean) => Ok(tree.as_bool().map(Value::Bool)),
        Some(FieldType::Long) => Ok(tree.as_number().map(Value::Int)),
        Some(FieldType::Date) => Ok(date_in(tree).map(Value::Date)),
        Some(FieldType::Keyword) => read_text(alloc, tree),
    }
}

// A date as a number of milliseconds since 1970.
fn date_in(tree: &Tree) -> Option<i64>
    ensures { result ≡ spec.date_in tree.now }
{
    let number = tree.as_number()?;
    if FIRST_DATE <= number && number <= LAST_DATE {
        Some(number as i64)
    } else {
        None
    }
}

fn read_text(alloc: Global, tree: &Tree) -> Result<Option<Value>, OutOfMemory>
    ensures { IfOk result (λ value. value ≡ option_map Value.Str (text_in tree.now)) }
{
    match tree.as_text() {
        None => Ok(None),
        Some(text) => Ok(Some(Value::Str(text.copy(alloc)?))),
    }
}
