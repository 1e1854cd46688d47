// Reading of mappings.
ghost use Rattle.std.specs.Prelude.{◌≡◌, IfOk, OnOk, [], ◌++◌, filter, IfSome, length};
ghost use Rattle.std.specs.Fmt.{decimal};
ghost use Rattle.std.specs.List.{fold};
ghost use Rattle.std.specs.Option.{option_copied};
ghost use Rattle.std.specs.String.{string_bytes};
ghost use Rattle.tf_model.specs.Values.{type_of};
ghost use Rattle.tf_mapping.specs.Least.{lesser_text, least_text};
ghost use Rattle.tf_mapping.specs.Gathering.{reading_gathered, again_among, name_if};
ghost use Rattle.tf_mapping.specs.Mappings as spec;
ghost use Rattle.tf_mapping.specs.Mappings.{Answers, IsMapping, IsStampOf};
ghost use Rattle.tf_mapping.specs.Settings.{has};

use crate::error::MappingError;
use crate::gathered::Gathered;
use crate::least::lesser;
use crate::leaves::gather_fields;
use crate::settings::least_fault;
use std::alloc::Global;
use std::collections::BTreeMap;
use tf_model::{FieldType, List, Mapping, OutOfMemory, Text, Tree};

// How many fields a mapping may have.
const MOST_FIELDS: usize = 64;

/// The mapping that a tree is: Elasticsearch Reference, mapping, `properties`.
///
/// It is an object with the one member `properties`, an object with a property beside each name. A property is an
/// object with either `type`, one of the texts `keyword`, `long`, `boolean` and `date`, or `properties` of its own. A
/// field's path is the names that lead to it, joined by `.`; a name may itself have dots.
///
/// The refusals, in this order, each told at the least `what` in bytes: `UnknownSetting` for another form; `BadFieldName`
/// for a path that is not well formed; `UnknownType`; `TwicePath` for a path that comes twice; `TooManyFields` for more
/// than 64; `BadStamp` where the stamp, if there is one, is no date of the mapping. `Memory` may come at any place.
pub fn read_mapping(
    alloc: Global,
    tree: &Tree,
    stamp: Option<&Text>,
) -> Result<Mapping, MappingError>
    ensures answer { Answers (spec.reading (option_copied stamp.entry) tree.now) result }
    ensures good { IfOk result IsMapping }
    ensures stamped { IfOk result (λ mapping. IsStampOf mapping (option_copied stamp.entry)) }
{
    read_parts(alloc, tree, stamp)
}

#[tactic(auto, using(crate::proofs::GatheringLaws::gathered_reads), unfolding(crate::specs::Mappings::reading))]
fn read_parts(alloc: Global, tree: &Tree, stamp: Option<&Text>) -> Result<Mapping, MappingError>
    ensures { Answers (spec.reading (option_copied stamp.entry) tree.now) result }
{
    if let Some(what) = least_fault(alloc, tree)? {
        return Err(MappingError::UnknownSetting { what });
    }
    read_gathered(alloc, gather_fields(alloc, tree)?, stamp)
}

fn read_gathered(
    alloc: Global,
    gathered: Gathered,
    stamp: Option<&Text>,
) -> Result<Mapping, MappingError>
    ensures { Answers (reading_gathered (option_copied stamp.entry) gathered) result }
{
    let Gathered { ill_named, fields } = gathered;
    match ill_named {
        Some(what) => Err(MappingError::BadFieldName { what }),
        None => read_fields(alloc, fields, stamp),
    }
}

fn read_fields(
    alloc: Global,
    fields: List<(Text, Option<FieldType>)>,
    stamp: Option<&Text>,
) -> Result<Mapping, MappingError>
    ensures { Answers (spec.if_typed (option_copied stamp.entry) fields (least_text (spec.ill_typed fields))) result }
{
    match least_untyped(alloc, fields.as_slice())? {
        Some(what) => Err(MappingError::UnknownType { what }),
        None => read_typed(alloc, fields, stamp),
    }
}

// The least name in bytes of a field without a type.
fn least_untyped(
    alloc: Global,
    fields: &[(Text, Option<FieldType>)],
) -> Result<Option<Text>, OutOfMemory>
    ensures { IfOk result (λ least. least ≡ least_text (spec.ill_typed fields.now)) }
{
    let mut least = None;
    for (name, kind) in fields {
        if kind.is_none() {
            least = lesser(alloc, least, name.as_str())?;
        }
    }
    Ok(least)
}

#[tactic(auto, using(crate::proofs::GatheringLaws::again_reads))]
fn read_typed(
    alloc: Global,
    fields: List<(Text, Option<FieldType>)>,
    stamp: Option<&Text>,
) -> Result<Mapping, MappingError>
    ensures { Answers (spec.if_typed (option_copied stamp.entry) fields None) result }
{
    let (sorted, twice) = sort_fields(alloc, fields)?;
    match twice {
        Some(what) => Err(MappingError::TwicePath { what }),
        None => read_sorted(alloc, list_of(alloc, sorted)?, stamp),
    }
}

// The fields by name, and the least name in bytes that comes again.
fn sort_fields(
    alloc: Global,
    fields: List<(Text, Option<FieldType>)>,
) -> Result<(BTreeMap<Text, FieldType, Global>, Option<Text>), OutOfMemory>
    ensures { IfOk result (λ sorted. (sorted.0.entries ≡ fold spec.put [] (spec.fields_of fields)) × (sorted.1 ≡ least_text (again_among [] (spec.fields_of fields)))) }
{
    let mut sorted = BTreeMap::new(alloc);
    let mut twice = None;
    for (name, kind) in fields.into_vec() {
        if let Some(kind) = kind {
            twice = sort_field(alloc, &mut sorted, name, kind, twice)?;
        }
    }
    Ok((sorted, twice))
}

// One field more, and its name where it comes again and is less than the least one before.
fn sort_field(
    alloc: Global,
    sorted: &mut BTreeMap<Text, FieldType, Global>,
    name: Text,
    kind: FieldType,
    twice: Option<Text>,
) -> Result<Option<Text>, OutOfMemory>
    ensures sorted { OnOk result (sorted.new.entries ≡ spec.put sorted.old.entries (name, kind)) }
    ensures twice { IfOk result (λ least. least ≡ fold lesser_text twice (name_if (has name sorted.old.entries) name)) }
{
    let twice = lesser_if(alloc, is_in(sorted, &name), &name, twice)?;
    sorted.insert(name, kind)?;
    Ok(twice)
}

fn is_in(sorted: &BTreeMap<Text, FieldType, Global>, name: &Text) -> bool
    ensures { result ≡ has name.now sorted.now.entries }
{
    sorted.contains_key(name)
}

fn lesser_if(
    alloc: Global,
    is_again: bool,
    name: &Text,
    twice: Option<Text>,
) -> Result<Option<Text>, OutOfMemory>
    ensures { IfOk result (λ least. least ≡ fold lesser_text twice (name_if is_again name.now)) }
{
    if is_again {
        lesser(alloc, twice, name.as_str())
    } else {
        Ok(twice)
    }
}

fn list_of(
    alloc: Global,
    sorted: BTreeMap<Text, FieldType, Global>,
) -> Result<List<(Text, FieldType)>, OutOfMemory>
    ensures { IfOk result (λ list. list ≡ sorted.entries) }
{
    let mut list = List::new(alloc);
    for field in sorted {
        list.push(field)?;
    }
    Ok(list)
}

// The number of the fields and the stamp.
fn read_sorted(
    alloc: Global,
    fields: List<(Text, FieldType)>,
    stamp: Option<&Text>,
) -> Result<Mapping, MappingError>
    ensures { Answers (spec.if_few (option_copied stamp.entry) (spec.mapping_of fields)) result }
{
    if fields.len() > MOST_FIELDS {
        let what = decimal_text(alloc, fields.len())?;
        return Err(MappingError::TooManyFields { what });
    }
    read_stamped(alloc, Mapping { fields }, stamp)
}

fn decimal_text(alloc: Global, number: usize) -> Result<Text, OutOfMemory>
    ensures { IfOk result (λ text. text ≡ decimal number) }
{
    Ok(Text::from_string(format!(in alloc; "{number}")?))
}

fn read_stamped(
    alloc: Global,
    mapping: Mapping,
    stamp: Option<&Text>,
) -> Result<Mapping, MappingError>
    ensures { Answers (spec.if_stamped (option_copied stamp.entry) mapping) result }
{
    match stamp {
        Some(stamp) if mapping.type_of(stamp) != Some(FieldType::Date) => {
            let what = stamp.copy(alloc)?;
            Err(MappingError::BadStamp { what })
        }
        _ => Ok(mapping),
    }
}
