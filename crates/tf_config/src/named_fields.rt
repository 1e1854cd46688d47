// The fields that a configuration names, and which of them are at fault.
ghost use Rattle.std.specs.Prelude.{◌≡◌, [], ◌∷◌, filter, map};
ghost use Rattle.std.specs.List.{fold, flat_map};
ghost use Rattle.std.specs.Option.{option_copied, option_map, option_to_list};
ghost use Rattle.tf_mapping.specs.Least.{lesser_text, least_text};
ghost use Rattle.tf_query.specs.Reading.{fields_in};
ghost use Rattle.tf_config.specs.Checks as spec;
ghost use Rattle.tf_config.specs.FieldTests.{at_fault};

use crate::field_tests::FieldTest;
use crate::least::lesser_if;
use tf_model::{Agg, Config, Group, GroupKind, Query, Retention, Shape, SyncTime, Text};

/// The least of all named fields that is at fault.
#[tactic(auto, using(crate::proofs::LeastLaws::leasts))]
pub(crate) fn least_named<'a>(config: &'a Config, test: &FieldTest<'_>) -> Option<&'a str>
    ensures { option_copied result ≡ least_text (at_fault test.now (spec.named_fields config.now)) }
{
    let least = least_in_query(&config.query, test, None);
    let least = least_in_shape(&config.shape, test, least);
    let least = least_in_sync(&config.sync, test, least);
    least_in_retention(config, test, least)
}

/// The least of the fields that are to hold dates that is at fault.
#[tactic(auto, using(crate::proofs::LeastLaws::leasts))]
pub(crate) fn least_dated<'a>(config: &'a Config, test: &FieldTest<'_>) -> Option<&'a str>
    ensures { option_copied result ≡ least_text (at_fault test.now (spec.date_fields config.now)) }
{
    let least = least_dated_in_shape(&config.shape, test);
    let least = least_in_sync(&config.sync, test, least);
    least_in_retention(config, test, least)
}

/// The lesser of the least field before and the sync field, where it is at fault.
pub(crate) fn least_in_sync<'a>(
    sync: &'a Option<SyncTime>,
    test: &FieldTest<'_>,
    least: Option<&'a str>,
) -> Option<&'a str>
    ensures { option_copied result ≡ fold lesser_text (option_copied least.entry) (at_fault test.now (option_to_list (option_map (λ sync. sync.field) sync.now))) }
{
    match sync {
        None => least,
        Some(sync) => least_of_one(&sync.field, test, least),
    }
}

// The same of the retention of a latest.
fn least_in_retention<'a>(
    config: &'a Config,
    test: &FieldTest<'_>,
    least: Option<&'a str>,
) -> Option<&'a str>
    ensures { option_copied result ≡ fold lesser_text (option_copied least.entry) (at_fault test.now (spec.retained_from_sources config.now.shape (spec.retention_fields config.now))) }
{
    match &config.shape {
        Shape::Pivot { .. } => least,
        Shape::Latest { .. } => least_retained(&config.retention, test, least),
    }
}

fn least_retained<'a>(
    retention: &'a Option<Retention>,
    test: &FieldTest<'_>,
    least: Option<&'a str>,
) -> Option<&'a str>
    ensures { option_copied result ≡ fold lesser_text (option_copied least.entry) (at_fault test.now (option_to_list (option_map (λ retention. retention.field) retention.now))) }
{
    match retention {
        None => least,
        Some(retention) => least_of_one(&retention.field, test, least),
    }
}

fn least_of_one<'a>(
    field: &'a Text,
    test: &FieldTest<'_>,
    least: Option<&'a str>,
) -> Option<&'a str>
    ensures { option_copied result ≡ fold lesser_text (option_copied least.entry) (at_fault test.now (field.now ∷ [])) }
{
    lesser_if(test.fails(field), field.as_str(), least)
}

#[tactic(auto, using(crate::proofs::LeastLaws::leasts))]
fn least_in_shape<'a>(
    shape: &'a Shape,
    test: &FieldTest<'_>,
    least: Option<&'a str>,
) -> Option<&'a str>
    ensures { option_copied result ≡ fold lesser_text (option_copied least.entry) (at_fault test.now (spec.fields_of_shape shape.now)) }
{
    match shape {
        Shape::Pivot { groups, aggs } => {
            let least = least_in_groups(groups.as_slice(), test, least);
            least_in_aggs(aggs.as_slice(), test, least)
        }
        Shape::Latest { unique_key, sort } => {
            let least = least_in_texts(unique_key.as_slice(), test, least);
            least_of_one(sort, test, least)
        }
    }
}

fn least_in_groups<'a>(
    groups: &'a [Group],
    test: &FieldTest<'_>,
    least: Option<&'a str>,
) -> Option<&'a str>
    ensures { option_copied result ≡ fold lesser_text (option_copied least.entry) (at_fault test.now (map (λ group. group.field) groups.now)) }
{
    let mut least = least;
    for group in groups {
        least = least_of_one(&group.field, test, least);
    }
    least
}

fn least_in_aggs<'a>(
    aggs: &'a [Agg],
    test: &FieldTest<'_>,
    least: Option<&'a str>,
) -> Option<&'a str>
    ensures { option_copied result ≡ fold lesser_text (option_copied least.entry) (at_fault test.now (map (λ agg. agg.field) aggs.now)) }
{
    let mut least = least;
    for agg in aggs {
        least = least_of_one(&agg.field, test, least);
    }
    least
}

fn least_in_texts<'a>(
    fields: &'a [Text],
    test: &FieldTest<'_>,
    least: Option<&'a str>,
) -> Option<&'a str>
    ensures { option_copied result ≡ fold lesser_text (option_copied least.entry) (at_fault test.now fields.now) }
{
    let mut least = least;
    for field in fields {
        least = least_of_one(field, test, least);
    }
    least
}

fn least_dated_in_shape<'a>(shape: &'a Shape, test: &FieldTest<'_>) -> Option<&'a str>
    ensures { option_copied result ≡ least_text (at_fault test.now (spec.date_fields_of_shape shape.now)) }
{
    match shape {
        Shape::Pivot { groups, .. } => least_in_date_groups(groups.as_slice(), test),
        Shape::Latest { sort, .. } => least_of_one(sort, test, None),
    }
}

fn least_in_date_groups<'a>(groups: &'a [Group], test: &FieldTest<'_>) -> Option<&'a str>
    ensures { option_copied result ≡ least_text (at_fault test.now (map (λ group. group.field) (filter (λ group. spec.is_date_histogram group.kind) groups.now))) }
{
    let mut least = None;
    for group in groups {
        least = least_in_date_group(group, test, least);
    }
    least
}

fn least_in_date_group<'a>(
    group: &'a Group,
    test: &FieldTest<'_>,
    least: Option<&'a str>,
) -> Option<&'a str>
    ensures { option_copied result ≡ fold lesser_text (option_copied least.entry) (at_fault test.now (map (λ group. group.field) (filter (λ group. spec.is_date_histogram group.kind) (group.now ∷ [])))) }
{
    match group.kind {
        GroupKind::DateHistogram { .. } => least_of_one(&group.field, test, least),
        GroupKind::Terms | GroupKind::Histogram { .. } => least,
    }
}

#[cycle(query)]
#[tactic(auto, using(crate::proofs::LeastLaws::least_queries))]
fn least_in_query<'a>(
    query: &'a Query,
    test: &FieldTest<'_>,
    least: Option<&'a str>,
) -> Option<&'a str>
    ensures { option_copied result ≡ fold lesser_text (option_copied least.entry) (at_fault test.now (fields_in query.now)) }
{
    match query {
        Query::MatchAll => least,
        Query::Term { field, .. } => least_of_one(field, test, least),
        Query::Exists { field } => least_of_one(field, test, least),
        Query::Range { field, .. } => least_of_one(field, test, least),
        Query::Bool { filter, must_not } => {
            let least = least_in_queries(filter.as_slice(), test, least);
            least_in_queries(must_not.as_slice(), test, least)
        }
    }
}

#[cycle(query)]
#[tactic(auto, using(crate::proofs::LeastLaws::leasts))]
fn least_in_queries<'a>(
    queries: &'a [Query],
    test: &FieldTest<'_>,
    least: Option<&'a str>,
) -> Option<&'a str>
    ensures { option_copied result ≡ fold lesser_text (option_copied least.entry) (at_fault test.now (flat_map fields_in queries.now)) }
{
    let mut least = least;
    for query in queries {
        least = least_in_query(query, test, least);
    }
    least
}
