// Reading of configurations.
ghost use Rattle.std.specs.Prelude.{◌≡◌, true, IfOk, IsTrue, codes};
ghost use Rattle.std.specs.List.{fold};
ghost use Rattle.std.specs.Option.{option_copied, option_map, option_to_list};
ghost use Rattle.tf_mapping.specs.Least.{lesser_text, least_text};
ghost use Rattle.tf_config.specs.Checks.{told_if};
ghost use Rattle.tf_config.specs.Reading as spec;
ghost use Rattle.tf_config.specs.Drafts.{sources as sources_in};
ghost use Rattle.tf_config.specs.Refusals.{Answers, first_refusal, passes};
ghost use Rattle.tf_config.specs.Walked.{first_noted, read_by};

use crate::catalogue::Catalogue;
use crate::check::check_beside;
use crate::drafts::{draft, sources};
use crate::error::ConfigError;
use crate::forms::{FormFaults, form_faults};
use crate::least::{lesser_copy, lesser_if};
use crate::query::{QueryFaults, read_kept};
use crate::values::beside;
use std::alloc::Global;
use tf_model::{Config, List, OutOfMemory, Query, Text, Tree};

/// The configuration that a tree is over the indices that there are, or its first refusal in the order of `ConfigError`,
/// told at the least `what` in bytes: Elasticsearch Reference, create transform.
///
/// It is an object with `source` (`index`, a name or a list of names, and `query`, by default `match_all`), `dest`
/// (`index`), one of `pivot` and `latest`, and, where wanted, `sync` (`time`: `field` and `delay`, by default `60s`),
/// `retention_policy` (`time`: `field` and `max_age`), `frequency`, by default `1m`, `settings` (`align_checkpoints`, by
/// default true, `max_page_search_size`, by default 500, and `dates_as_epoch_millis`, by default false), `description`,
/// and `_meta`, an object that is not kept. A pivot has `group_by`, with a group beside each name, and `aggregations` or
/// `aggs`, with an aggregation beside each name. A group is an object with one member, `terms`, `histogram` with an
/// `interval` or `date_histogram` with a `fixed_interval`, each with a `field` and, where wanted, `missing_bucket`. An
/// aggregation is an object with one member, `sum`, `min`, `max` or `value_count`, with a `field`. A latest has
/// `unique_key`, a list of fields, and `sort`, a field.
///
/// Where no destination is needed, as for a preview, `dest` may be absent, and the configuration has an empty text in its
/// place; one that is there is read whole. What is asked of a configuration beside its form is told at `check_config`.
/// `Memory` may come at any place.
pub fn read_config(
    alloc: Global,
    tree: &Tree,
    catalogue: &Catalogue,
    need_dest: bool,
) -> Result<Config, ConfigError>
    ensures answer { spec.Reads (spec.reading catalogue.now need_dest tree.now) result }
    ensures passes { IsTrue need_dest → IfOk result (λ config. passes catalogue.now config ≡ true) }
{
    read_whole(alloc, tree, catalogue, need_dest)
}

fn read_whole(
    alloc: Global,
    tree: &Tree,
    catalogue: &Catalogue,
    need_dest: bool,
) -> Result<Config, ConfigError>
    ensures { spec.Reads (spec.reading catalogue.now need_dest tree.now) result }
{
    let sources = sources(alloc, tree)?;
    let fields = catalogue.fields(alloc, sources.as_slice())?;
    let (query, faults) = read_kept(alloc, query_tree(tree), &fields)?;
    read_with(alloc, tree, catalogue, need_dest, sources, query, &faults)
}

// The configuration with its sources and its query, beside what is at fault in a query that is not kept.
fn read_with(
    alloc: Global,
    tree: &Tree,
    catalogue: &Catalogue,
    need_dest: bool,
    sources: List<Text>,
    query: Query,
    faults: &QueryFaults,
) -> Result<Config, ConfigError>
    requires { sources ≡ sources_in tree.now }
    ensures { spec.Reads (read_by catalogue.now need_dest tree.now query faults.now) result }
{
    check_tree(alloc, tree, need_dest, faults)?;
    let config = draft(alloc, tree, sources, query)?;
    check_beside(
        alloc,
        &config,
        catalogue,
        looks_at_dest(tree, need_dest),
        faults,
    )?;
    Ok(config)
}

fn looks_at_dest(tree: &Tree, need_dest: bool) -> bool
    ensures { result ≡ spec.looks_at_dest need_dest tree.now }
{
    need_dest || tree.get("dest").is_some()
}

// The first refusal of the tree's form and of the query's.
#[tactic(auto, using(crate::proofs::ReadLaws::walks))]
fn check_tree(
    alloc: Global,
    tree: &Tree,
    need_dest: bool,
    query: &QueryFaults,
) -> Result<(), ConfigError>
    ensures { Answers (first_refusal (spec.faults_of_tree need_dest tree.now query.now)) result }
{
    let form = form_faults(alloc, tree, need_dest)?;
    check_form(alloc, form, query, tree)
}

fn query_tree(tree: &Tree) -> Option<&Tree>
    ensures { option_copied result ≡ spec.query_tree tree.now }
{
    beside("query", tree.get("source"))
}

// The same by the least path of each fault of the form.
fn check_form(
    alloc: Global,
    form: FormFaults,
    query: &QueryFaults,
    tree: &Tree,
) -> Result<(), ConfigError>
    ensures { Answers (first_noted form query.now tree.now) result }
{
    let FormFaults {
        unknown,
        missing,
        wrong_kind,
    } = form;
    if let Some(what) = lesser_of_both(alloc, unknown, &query.unknown)? {
        return Err(ConfigError::UnknownSetting { what });
    }
    if let Some(what) = missing {
        return Err(ConfigError::Missing { what });
    }
    if let Some(what) = lesser_of_both(alloc, wrong_kind, &query.wrong_kind)? {
        return Err(ConfigError::WrongKind { what });
    }
    check_shapes(alloc, tree)
}

// The lesser of two texts, where there is one.
fn lesser_of_both(
    alloc: Global,
    least: Option<Text>,
    other: &Option<Text>,
) -> Result<Option<Text>, OutOfMemory>
    ensures { IfOk result (λ found. found ≡ fold lesser_text least (option_to_list other.now)) }
{
    match other {
        None => Ok(least),
        Some(text) => lesser_copy(alloc, least, text.as_str()),
    }
}

// One of `pivot` and `latest` stands, and not both.
fn check_shapes(alloc: Global, tree: &Tree) -> Result<(), ConfigError>
    ensures { Answers (option_map ConfigError.BothOrNeither (least_text (told_if (spec.has_both_or_neither tree.now) (codes "pivot")))) result }
{
    if tree.get("pivot").is_some() == tree.get("latest").is_some() {
        let what = Text::from_str(alloc, "pivot")?;
        return Err(ConfigError::BothOrNeither { what });
    }
    Ok(())
}
