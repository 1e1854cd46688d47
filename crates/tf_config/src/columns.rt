// The columns of a pivot's rows, and the types of their values.
ghost use Rattle.std.specs.Prelude.{◌≡◌, find, filter};
ghost use Rattle.std.specs.List.{fold};
ghost use Rattle.std.specs.Option.{option_copied};
ghost use Rattle.std.specs.Str.{bytes_eq};
ghost use Rattle.tf_mapping.specs.Least.{lesser_text};
ghost use Rattle.tf_config.specs.Catalogue.{mappings_of};
ghost use Rattle.tf_config.specs.Checks as spec;

use crate::catalogue::Catalogue;
use crate::field_tests::type_in;
use crate::least::lesser_if;
use crate::naming::is_column;
use tf_model::{Agg, AggKind, Config, FieldType, Group, GroupKind, Shape, Text};

/// The lesser of the least field before and the field of a pivot's retention, where it is the name of no column.
pub(crate) fn least_no_column<'a>(config: &'a Config, least: Option<&'a str>) -> Option<&'a str>
    ensures { option_copied result ≡ fold lesser_text (option_copied least.entry) (filter (spec.is_no_column config.now.shape) (spec.retention_fields config.now)) }
{
    match &config.retention {
        None => least,
        Some(retention) => lesser_if(
            is_no_column(&config.shape, &retention.field),
            retention.field.as_str(),
            least,
        ),
    }
}

fn is_no_column(shape: &Shape, name: &Text) -> bool
    ensures { result ≡ spec.is_no_column shape.now name.now }
{
    match shape {
        Shape::Pivot { groups, aggs } => !is_column(groups.as_slice(), aggs.as_slice(), name),
        Shape::Latest { .. } => false,
    }
}

/// The lesser of the least field before and the field of a pivot's retention, where its column holds no dates.
pub(crate) fn least_undated_column<'a>(
    config: &'a Config,
    catalogue: &Catalogue,
    least: Option<&'a str>,
) -> Option<&'a str>
    ensures { option_copied result ≡ fold lesser_text (option_copied least.entry) (filter (spec.is_undated_column (mappings_of catalogue.now config.now.sources) config.now.shape) (spec.retention_fields config.now)) }
{
    match &config.retention {
        None => least,
        Some(retention) => lesser_if(
            is_undated_column(config, catalogue, &retention.field),
            retention.field.as_str(),
            least,
        ),
    }
}

fn is_undated_column(config: &Config, catalogue: &Catalogue, name: &Text) -> bool
    ensures { result ≡ spec.is_undated_column (mappings_of catalogue.now config.now.sources) config.now.shape name.now }
{
    match &config.shape {
        Shape::Pivot { groups, aggs } => {
            let sources = config.sources.as_slice();
            let kind = column_type(catalogue, sources, groups.as_slice(), aggs.as_slice(), name);
            kind != Some(FieldType::Date)
        }
        Shape::Latest { .. } => false,
    }
}

// The type of the values in a column.
fn column_type(
    catalogue: &Catalogue,
    sources: &[Text],
    groups: &[Group],
    aggs: &[Agg],
    name: &Text,
) -> Option<FieldType>
    ensures { result ≡ spec.column_type (mappings_of catalogue.now sources.now) groups.now aggs.now name.now }
{
    match group_named(groups, name) {
        Some(group) => grouped_type(group.kind, type_in(catalogue, sources, &group.field)),
        None => match agg_named(aggs, name) {
            Some(agg) => aggregated_type(agg.kind, type_in(catalogue, sources, &agg.field)),
            None => None,
        },
    }
}

fn group_named<'a>(groups: &'a [Group], name: &Text) -> Option<&'a Group>
    ensures { option_copied result ≡ find (λ group. bytes_eq group.name name.now) groups.now }
{
    for group in groups {
        if group.name == *name {
            return Some(group);
        }
    }
    None
}

fn agg_named<'a>(aggs: &'a [Agg], name: &Text) -> Option<&'a Agg>
    ensures { option_copied result ≡ find (λ agg. bytes_eq agg.name name.now) aggs.now }
{
    for agg in aggs {
        if agg.name == *name {
            return Some(agg);
        }
    }
    None
}

// The type of the values that a group makes of those of a field.
fn grouped_type(kind: GroupKind, found: Option<FieldType>) -> Option<FieldType>
    ensures { result ≡ spec.grouped_type kind found }
{
    match kind {
        GroupKind::Terms => found,
        GroupKind::Histogram { .. } => Some(FieldType::Long),
        GroupKind::DateHistogram { .. } => Some(FieldType::Date),
    }
}

// The type of the values that an aggregation makes of those of a field.
fn aggregated_type(kind: AggKind, found: Option<FieldType>) -> Option<FieldType>
    ensures { result ≡ spec.aggregated_type kind found }
{
    match kind {
        AggKind::Sum | AggKind::ValueCount => Some(FieldType::Long),
        AggKind::Min | AggKind::Max => found,
    }
}
