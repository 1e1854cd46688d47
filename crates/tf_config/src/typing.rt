// The types of the fields that a configuration names.
ghost use Rattle.std.specs.Prelude.{◌≡◌, ◌++◌, not, filter, map};
ghost use Rattle.std.specs.List.{fold};
ghost use Rattle.std.specs.Option.{option_copied, option_to_list};
ghost use Rattle.tf_mapping.specs.Least.{lesser_text, least_text};
ghost use Rattle.tf_config.specs.Catalogue.{mappings_of};
ghost use Rattle.tf_config.specs.Checks as spec;

use crate::catalogue::Catalogue;
use crate::columns::{least_no_column, least_undated_column};
use crate::field_tests::{FieldFault, FieldTest, type_in};
use crate::least::{lesser_if, lesser_option};
use crate::named_fields::{least_dated, least_in_sync, least_named};
use tf_model::{Agg, AggKind, Config, FieldType, Group, GroupKind, Shape, Text};

fn test_of<'a>(fault: FieldFault, config: &'a Config, catalogue: &'a Catalogue) -> FieldTest<'a>
    ensures fault { result.fault ≡ fault }
    ensures catalogue { result.catalogue.now ≡ catalogue.now }
    ensures sources { result.sources.now ≡ config.now.sources }
{
    FieldTest {
        fault,
        catalogue,
        sources: config.sources.as_slice(),
    }
}

/// The least field that is not there, one of them of a query that is not kept.
#[tactic(auto, using(crate::proofs::LeastLaws::leasts))]
pub(crate) fn least_unmapped<'a>(
    config: &'a Config,
    catalogue: &Catalogue,
    unmapped: Option<&'a Text>,
) -> Option<&'a str>
    ensures { option_copied result ≡ least_text (spec.unmapped_fields (mappings_of catalogue.now config.now.sources) config.now ++ option_to_list (option_copied unmapped.entry)) }
{
    lesser_option(unmapped, least_unmapped_in(config, catalogue))
}

#[tactic(auto, using(crate::proofs::LeastLaws::leasts))]
fn least_unmapped_in<'a>(config: &'a Config, catalogue: &Catalogue) -> Option<&'a str>
    ensures { option_copied result ≡ least_text (spec.unmapped_fields (mappings_of catalogue.now config.now.sources) config.now) }
{
    let least = least_unmapped_named(config, catalogue);
    let least = least_partly_unmapped(config, catalogue, least);
    least_no_column(config, least)
}

// A field that no source maps.
fn least_unmapped_named<'a>(config: &'a Config, catalogue: &Catalogue) -> Option<&'a str>
    ensures { option_copied result ≡ least_text (filter (spec.is_unmapped (mappings_of catalogue.now config.now.sources)) (spec.named_fields config.now)) }
{
    least_named(config, &test_of(FieldFault::Unmapped, config, catalogue))
}

// The sync field, where some source does not map it.
fn least_partly_unmapped<'a>(
    config: &'a Config,
    catalogue: &Catalogue,
    least: Option<&'a str>,
) -> Option<&'a str>
    ensures { option_copied result ≡ fold lesser_text (option_copied least.entry) (filter (spec.is_partly_unmapped (mappings_of catalogue.now config.now.sources)) (spec.sync_fields config.now)) }
{
    let test = test_of(FieldFault::PartlyUnmapped, config, catalogue);
    least_in_sync(&config.sync, &test, least)
}

/// The least field that sources map with different types.
pub(crate) fn least_mixed<'a>(config: &'a Config, catalogue: &Catalogue) -> Option<&'a str>
    ensures { option_copied result ≡ least_text (spec.mixed_fields (mappings_of catalogue.now config.now.sources) config.now) }
{
    least_named(config, &test_of(FieldFault::Mixed, config, catalogue))
}

/// The least field that holds no dates and is to.
#[tactic(auto, using(crate::proofs::LeastLaws::leasts))]
pub(crate) fn least_undated<'a>(config: &'a Config, catalogue: &Catalogue) -> Option<&'a str>
    ensures { option_copied result ≡ least_text (spec.undated_fields (mappings_of catalogue.now config.now.sources) config.now) }
{
    let least = least_dated(config, &test_of(FieldFault::Undated, config, catalogue));
    least_undated_column(config, catalogue, least)
}

/// The least field that holds no numbers, nor dates where those serve, and is to.
pub(crate) fn least_unnumbered<'a>(config: &'a Config, catalogue: &Catalogue) -> Option<&'a str>
    ensures { option_copied result ≡ least_text (spec.unnumbered_fields (mappings_of catalogue.now config.now.sources) config.now) }
{
    least_unnumbered_in_shape(&config.shape, catalogue, config.sources.as_slice())
}

#[tactic(auto, using(crate::proofs::LeastLaws::leasts))]
fn least_unnumbered_in_shape<'a>(
    shape: &'a Shape,
    catalogue: &Catalogue,
    sources: &[Text],
) -> Option<&'a str>
    ensures { option_copied result ≡ least_text (spec.unnumbered_in_shape (mappings_of catalogue.now sources.now) shape.now) }
{
    match shape {
        Shape::Pivot { groups, aggs } => {
            let least = least_unnumbered_group(groups.as_slice(), catalogue, sources);
            least_unnumbered_agg(aggs.as_slice(), catalogue, sources, least)
        }
        Shape::Latest { .. } => None,
    }
}

fn least_unnumbered_group<'a>(
    groups: &'a [Group],
    catalogue: &Catalogue,
    sources: &[Text],
) -> Option<&'a str>
    ensures { option_copied result ≡ least_text (map (λ group. group.field) (filter (λ group. not (spec.groups_field (mappings_of catalogue.now sources.now) group)) groups.now)) }
{
    let mut least = None;
    for group in groups {
        let fits = groups_type(group.kind, type_in(catalogue, sources, &group.field));
        least = lesser_if(!fits, group.field.as_str(), least);
    }
    least
}

fn least_unnumbered_agg<'a>(
    aggs: &'a [Agg],
    catalogue: &Catalogue,
    sources: &[Text],
    least: Option<&'a str>,
) -> Option<&'a str>
    ensures { option_copied result ≡ fold lesser_text (option_copied least.entry) (map (λ agg. agg.field) (filter (λ agg. not (spec.aggregates_field (mappings_of catalogue.now sources.now) agg)) aggs.now)) }
{
    let mut least = least;
    for agg in aggs {
        let fits = aggregates_type(agg.kind, type_in(catalogue, sources, &agg.field));
        least = lesser_if(!fits, agg.field.as_str(), least);
    }
    least
}

// A histogram is over numbers.
fn groups_type(kind: GroupKind, found: Option<FieldType>) -> bool
    ensures { result ≡ spec.groups_type kind found }
{
    match kind {
        GroupKind::Histogram { .. } => found == Some(FieldType::Long),
        GroupKind::Terms | GroupKind::DateHistogram { .. } => true,
    }
}

// A sum is over numbers, the least and the greatest value over numbers or dates.
fn aggregates_type(kind: AggKind, found: Option<FieldType>) -> bool
    ensures { result ≡ spec.aggregates_type kind found }
{
    match (kind, found) {
        (AggKind::Sum, found) => found == Some(FieldType::Long),
        (AggKind::Min | AggKind::Max, Some(FieldType::Keyword | FieldType::Boolean)) => false,
        _ => true,
    }
}
