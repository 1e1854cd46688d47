// The indices that there are.
ghost use Rattle.std.specs.Prelude.{◌≡◌, [], ◌∷◌, ◌++◌, IfOk, OnOk, OnErr, None};
ghost use Rattle.std.specs.Arc.{arc_value};
ghost use Rattle.std.specs.List.{fold, flat_map};
ghost use Rattle.std.specs.Option.{option_copied, option_to_list};
ghost use Rattle.tf_mapping.specs.Settings.{has};
ghost use Rattle.tf_config.specs.Catalogue.{fields_of, mapping_named, put_new};

use indexmap::IndexMap;
use std::alloc::Global;
use std::collections::BTreeMap;
use std::marker::Model;
use std::sync::Arc;
use tf_model::{FieldType, List, Mapping, OutOfMemory, Text};

// Fields by name.
type Fields = BTreeMap<Text, FieldType, Global>;

/// The names of the indices with their mappings, in the order of creation. Mappings are shared and not copied.
///
/// Contracts see the list of names and mappings.
#[derive(Drop)]
pub struct Catalogue {
    indices: IndexMap<Text, Arc<Mapping, Global>>,
}

impl Model for Catalogue {
    ghost use Rattle.std.specs.Prelude.{List, ℕ, map};
    ghost use Rattle.std.specs.Arc.{arc_value};
    ghost use Rattle.std.specs.Coded.{codes};
    ghost use Rattle.tf_model.specs.contracts.query.Mapping as mapping;
    ghost use Rattle.tf_model.specs.declared.query.Mapping.{Mapping};

    ghost Value = { List (List ℕ × Mapping) };

    ghost coded = { Prim.hlevel (codes, mapping.the_row.coded) };

    ghost view = { λ c. map (λ index. (index.0, arc_value index.1)) c.indices.entries };
}

impl Catalogue {
    /// No index. Takes no memory.
    pub fn new(alloc: Global) -> Catalogue
        ensures { result ≡ [] }
    {
        Catalogue {
            indices: IndexMap::new(alloc),
        }
    }

    /// One index more, with a new name. After want of memory the catalogue is as before.
    pub fn add(&mut self, name: Text, mapping: Arc<Mapping, Global>) -> Result<(), OutOfMemory>
        requires { mapping_named self.old name ≡ None }
        ensures ok { OnOk result (self.new ≡ self.old ++ (name, arc_value mapping) ∷ []) }
        ensures err { OnErr result (self.new ≡ self.old) }
    {
        self.indices.insert(name, mapping)?;
        Ok(())
    }

    /// The mapping of the index with a name, and `None` where there is no such index. Takes no memory.
    pub fn mapping(&self, name: &Text) -> Option<&Mapping>
        ensures { option_copied result ≡ mapping_named self.now name.now }
    {
        match self.indices.get(name) {
            Some(mapping) => Some(mapping),
            None => None,
        }
    }

    /// Each field of the sources with its type in the first source that exists and maps it, ascending by name.
    #[tactic(auto, unfolding(crate::specs::Catalogue::fields_of))]
    pub fn fields(&self, alloc: Global, sources: &[Text]) -> Result<Mapping, OutOfMemory>
        ensures { IfOk result (λ fields. fields ≡ fields_of self.now sources.now) }
    {
        let mut fields = BTreeMap::new(alloc);
        for source in sources {
            put_source(alloc, self, source, &mut fields)?;
        }
        let fields = list_of(alloc, fields)?;
        Ok(Mapping { fields })
    }
}

// The fields of one source more, where it exists.
fn put_source(
    alloc: Global,
    catalogue: &Catalogue,
    source: &Text,
    fields: &mut Fields,
) -> Result<(), OutOfMemory>
    ensures { OnOk result (fields.new.entries ≡ fold put_new fields.old.entries (flat_map (λ mapping. mapping.fields) (option_to_list (mapping_named catalogue.now source.now)))) }
{
    match catalogue.mapping(source) {
        None => Ok(()),
        Some(mapping) => put_fields(alloc, mapping.fields.as_slice(), fields),
    }
}

fn put_fields(
    alloc: Global,
    more: &[(Text, FieldType)],
    fields: &mut Fields,
) -> Result<(), OutOfMemory>
    ensures { OnOk result (fields.new.entries ≡ fold put_new fields.old.entries more.now) }
{
    for (name, kind) in more {
        put_field(alloc, name, *kind, fields)?;
    }
    Ok(())
}

// One field more, where none has its name.
fn put_field(
    alloc: Global,
    name: &Text,
    kind: FieldType,
    fields: &mut Fields,
) -> Result<(), OutOfMemory>
    ensures { OnOk result (fields.new.entries ≡ put_new fields.old.entries (name.now, kind)) }
{
    if !is_in(fields, name) {
        fields.insert(name.copy(alloc)?, kind)?;
    }
    Ok(())
}

fn is_in(fields: &Fields, name: &Text) -> bool
    ensures { result ≡ has name.now fields.now.entries }
{
    fields.contains_key(name)
}

fn list_of(alloc: Global, fields: Fields) -> Result<List<(Text, FieldType)>, OutOfMemory>
    ensures { IfOk result (λ list. list ≡ fields.entries) }
{
    let mut list = List::new(alloc);
    for field in fields {
        list.push(field)?;
    }
    Ok(list)
}
