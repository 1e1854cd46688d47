// What is wrong with a configuration.
ghost use Rattle.std.specs.Prelude.{◌≡◌, true, OnOk};
ghost use Rattle.tf_config.specs.Catalogue.{mappings_of};
ghost use Rattle.tf_config.specs.Refusals as spec;
ghost use Rattle.tf_config.specs.Refusals.{Answers, first_refusal};

use crate::catalogue::Catalogue;
use crate::error::ConfigError;
use crate::lists::{least_empty, least_too_many};
use crate::naming::{least_absent, least_ill_named, least_twice_named};
use crate::numbers::{bad_frequency, bad_page_size, least_bad_interval, least_bad_span};
use crate::query::{QueryFaults, unfit_query};
use crate::typing::{least_mixed, least_undated, least_unmapped, least_unnumbered};
use std::alloc::Global;
use tf_model::{Config, Text};

/// That a configuration passes over the indices that there are, or its first refusal in the order of `ConfigError`, told
/// at the least `what` in bytes: Elasticsearch Reference, create transform. `Memory` may come at any place.
///
/// It has 1 to 8 sources, all of them indices, and a well formed destination. A pivot has 1 to 4 groups and at most 16
/// aggregations, a latest a unique key of 1 to 4 fields. No name stands twice among the sources, in the unique key, or
/// among groups and aggregations. Some source maps each field that it names, no two with different types, and every
/// source maps the sync field. Values of the query have the types of their fields in the first source that maps them, and
/// queries nest at most 16 deep. Sync, sort and date histograms are over dates, histograms and sums over numbers, the
/// least and the greatest value over numbers or dates. Retention is over a date of the sources for a latest, and for a
/// pivot over the name of a group or an aggregation whose values are dates. An interval is at least 1, delay and greatest
/// age are spans, the frequency lies from one second to one hour, and the page size from 10 to 65,536.
pub fn check_config(
    alloc: Global,
    config: &Config,
    catalogue: &Catalogue,
) -> Result<(), ConfigError>
    ensures answer { Answers (spec.refusal_of catalogue.now config.now) result }
    ensures passes { OnOk result (spec.passes catalogue.now config.now ≡ true) }
{
    check_beside(alloc, config, catalogue, true, &QueryFaults::none())
}

/// The same with or without a destination, beside what is at fault in a query that is not kept.
pub(crate) fn check_beside(
    alloc: Global,
    config: &Config,
    catalogue: &Catalogue,
    need_dest: bool,
    query: &QueryFaults,
) -> Result<(), ConfigError>
    ensures { Answers (spec.refusal_by catalogue.now need_dest query.now config.now) result }
{
    check_forms(alloc, config, catalogue, query)?;
    check_names(alloc, config, catalogue, need_dest)?;
    check_fields(alloc, config, catalogue, query)?;
    check_numbers(alloc, config)
}

fn check_forms(
    alloc: Global,
    config: &Config,
    catalogue: &Catalogue,
    query: &QueryFaults,
) -> Result<(), ConfigError>
    ensures { Answers (first_refusal (spec.faults_of_forms catalogue.now query.now config.now)) result }
{
    if let Some(what) = least_empty(config) {
        let what = Text::from_str(alloc, what)?;
        return Err(ConfigError::Missing { what });
    }
    if let Some(what) = unfit_query(alloc, config, catalogue)? {
        let what = Text::from_str(alloc, what)?;
        return Err(ConfigError::WrongKind { what });
    }
    if let Some(what) = least_too_many(config, query.too_deep.as_ref()) {
        let what = Text::from_str(alloc, what)?;
        return Err(ConfigError::TooMany { what });
    }
    Ok(())
}

fn check_names(
    alloc: Global,
    config: &Config,
    catalogue: &Catalogue,
    need_dest: bool,
) -> Result<(), ConfigError>
    ensures { Answers (first_refusal (spec.faults_of_names catalogue.now need_dest config.now)) result }
{
    if let Some(what) = least_ill_named(config, need_dest) {
        let what = Text::from_str(alloc, what)?;
        return Err(ConfigError::BadName { what });
    }
    if let Some(what) = least_absent(config, catalogue) {
        let what = Text::from_str(alloc, what)?;
        return Err(ConfigError::NoSuchIndex { what });
    }
    if let Some(what) = least_twice_named(config) {
        let what = Text::from_str(alloc, what)?;
        return Err(ConfigError::TwiceName { what });
    }
    Ok(())
}

fn check_fields(
    alloc: Global,
    config: &Config,
    catalogue: &Catalogue,
    query: &QueryFaults,
) -> Result<(), ConfigError>
    ensures { Answers (first_refusal (spec.faults_of_fields (mappings_of catalogue.now config.now.sources) query.now config.now)) result }
{
    if let Some(what) = least_unmapped(config, catalogue, query.unmapped.as_ref()) {
        let what = Text::from_str(alloc, what)?;
        return Err(ConfigError::NoSuchField { what });
    }
    if let Some(what) = least_mixed(config, catalogue) {
        let what = Text::from_str(alloc, what)?;
        return Err(ConfigError::FieldTypes { what });
    }
    if let Some(what) = least_undated(config, catalogue) {
        let what = Text::from_str(alloc, what)?;
        return Err(ConfigError::NotADate { what });
    }
    if let Some(what) = least_unnumbered(config, catalogue) {
        let what = Text::from_str(alloc, what)?;
        return Err(ConfigError::NotANumber { what });
    }
    Ok(())
}

fn check_numbers(alloc: Global, config: &Config) -> Result<(), ConfigError>
    ensures { Answers (first_refusal (spec.faults_of_numbers config.now)) result }
{
    if let Some(what) = least_bad_interval(config) {
        let what = Text::from_str(alloc, what)?;
        return Err(ConfigError::BadInterval { what });
    }
    if let Some(what) = least_bad_span(config) {
        let what = Text::from_str(alloc, what)?;
        return Err(ConfigError::BadSpan { what });
    }
    if let Some(what) = bad_page_size(config) {
        let what = Text::from_str(alloc, what)?;
        return Err(ConfigError::PageSizeRange { what });
    }
    if let Some(what) = bad_frequency(config) {
        let what = Text::from_str(alloc, what)?;
        return Err(ConfigError::FrequencyRange { what });
    }
    Ok(())
}
