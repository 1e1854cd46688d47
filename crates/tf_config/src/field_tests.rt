// Tests of fields over sources.
ghost use Rattle.std.specs.Prelude.{◌≡◌};
ghost use Rattle.std.specs.List.{list_all};
ghost use Rattle.std.specs.Option.{option_and_then};
ghost use Rattle.tf_model.specs.Values.{type_of};
ghost use Rattle.tf_config.specs.Catalogue as spec;
ghost use Rattle.tf_config.specs.Catalogue.{mapping_named, mappings_of};
ghost use Rattle.tf_config.specs.Checks.{is_mixed, is_partly_unmapped, is_same_type};
ghost use Rattle.tf_config.specs.FieldTests.{has_fault};

use crate::catalogue::Catalogue;
use tf_model::{FieldType, Text};

/// What may be at fault with a field of sources.
#[derive(Clone, Copy)]
pub(crate) enum FieldFault {
    /// No source maps it.
    Unmapped,
    /// Some source does not map it.
    PartlyUnmapped,
    /// Sources map it with different types.
    Mixed,
    /// It holds no dates.
    Undated,
}

/// A test of fields over some sources.
#[derive(Clone, Copy)]
pub(crate) struct FieldTest<'a> {
    pub(crate) fault: FieldFault,
    pub(crate) catalogue: &'a Catalogue,
    pub(crate) sources: &'a [Text],
}

impl FieldTest<'_> {
    /// Whether a field has the fault.
    #[tactic(auto, using(crate::proofs::SourceLaws::sources))]
    pub(crate) fn fails(&self, field: &Text) -> bool
        ensures { result ≡ has_fault self.now.fault (mappings_of self.now.catalogue.now self.now.sources.now) field.now }
    {
        match self.fault {
            FieldFault::Unmapped => type_in(self.catalogue, self.sources, field).is_none(),
            FieldFault::PartlyUnmapped => is_partly_unmapped(self.catalogue, self.sources, field),
            FieldFault::Mixed => is_mixed(self.catalogue, self.sources, field),
            FieldFault::Undated => type_in(self.catalogue, self.sources, field)
                != Some(FieldType::Date),
        }
    }
}

/// The type of a field in the first source that exists and maps it.
pub(crate) fn type_in(catalogue: &Catalogue, sources: &[Text], field: &Text) -> Option<FieldType>
    ensures { result ≡ spec.type_in (mappings_of catalogue.now sources.now) field.now }
{
    for source in sources {
        if let Some(kind) = type_from(catalogue, source, field) {
            return Some(kind);
        }
    }
    None
}

// The type of a field in one source.
fn type_from(catalogue: &Catalogue, source: &Text, field: &Text) -> Option<FieldType>
    ensures { result ≡ option_and_then (λ mapping. type_of mapping field.now) (mapping_named catalogue.now source.now) }
{
    catalogue.mapping(source)?.type_of(field)
}

// Whether some source does not map a field.
fn is_partly_unmapped(catalogue: &Catalogue, sources: &[Text], field: &Text) -> bool
    ensures { result ≡ is_partly_unmapped (mappings_of catalogue.now sources.now) field.now }
{
    for source in sources {
        if let Some(mapping) = catalogue.mapping(source) {
            if mapping.type_of(field).is_none() {
                return true;
            }
        }
    }
    false
}

// Whether sources map a field with different types.
#[tactic(auto, using(crate::proofs::SourceLaws::sources))]
fn is_mixed(catalogue: &Catalogue, sources: &[Text], field: &Text) -> bool
    ensures { result ≡ is_mixed (mappings_of catalogue.now sources.now) field.now }
{
    match type_in(catalogue, sources, field) {
        None => false,
        Some(kind) => !all_have(catalogue, sources, field, kind),
    }
}

// Whether each source that maps a field gives it this type.
fn all_have(catalogue: &Catalogue, sources: &[Text], field: &Text, kind: FieldType) -> bool
    ensures { result ≡ list_all (is_same_type kind) (spec.types_in (mappings_of catalogue.now sources.now) field.now) }
{
    for source in sources {
        if let Some(other) = type_from(catalogue, source, field) {
            if !is_same(kind, other) {
                return false;
            }
        }
    }
    true
}

fn is_same(kind: FieldType, other: FieldType) -> bool
    ensures { result ≡ is_same_type kind other }
{
    match (kind, other) {
        (FieldType::Keyword, FieldType::Keyword) => true,
        (FieldType::Long, FieldType::Long) => true,
        (FieldType::Boolean, FieldType::Boolean) => true,
        (FieldType::Date, FieldType::Date) => true,
        _ => false,
    }
}
