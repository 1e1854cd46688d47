// The configuration that a tree stands for.
ghost use Rattle.std.specs.Prelude.{◌≡◌, IfOk};
ghost use Rattle.tf_config.specs.Drafts as spec;

use crate::shapes::shape;
use crate::values::{beside, names_or_none, page_size_or, span_or, text_or_none, truth_or};
use std::alloc::Global;
use tf_model::{Config, List, OutOfMemory, Query, Retention, SyncTime, Text, Tree};

// The delay and the frequency of a configuration that has none, in milliseconds.
const DEFAULT_DELAY: i64 = 60_000;

const DEFAULT_FREQUENCY: i64 = 60_000;

/// The names of the sources.
pub(crate) fn sources(alloc: Global, tree: &Tree) -> Result<List<Text>, OutOfMemory>
    ensures { IfOk result (λ names. names ≡ spec.sources tree.now) }
{
    names_or_none(alloc, beside("index", tree.get("source")))
}

/// The configuration that a tree stands for, with its sources and its query. What is absent has its default, and a number
/// or a span that is none stands as one that is out of range.
pub(crate) fn draft(
    alloc: Global,
    tree: &Tree,
    sources: List<Text>,
    query: Query,
) -> Result<Config, OutOfMemory>
    requires { sources ≡ spec.sources tree.now }
    ensures { IfOk result (λ config. config ≡ spec.drafted query tree.now) }
{
    Ok(Config {
        sources,
        query,
        dest: dest(alloc, tree)?,
        shape: shape(alloc, tree)?,
        sync: sync(alloc, tree)?,
        retention: retention(alloc, tree)?,
        frequency_ms: frequency(tree),
        page_size: page_size(tree),
        align: align(tree),
        epoch_millis: epoch_millis(tree),
        description: description(alloc, tree)?,
    })
}

fn dest(alloc: Global, tree: &Tree) -> Result<Text, OutOfMemory>
    ensures { IfOk result (λ name. name ≡ spec.dest tree.now) }
{
    text_or_none(alloc, beside("index", tree.get("dest")))
}

fn sync(alloc: Global, tree: &Tree) -> Result<Option<SyncTime>, OutOfMemory>
    ensures { IfOk result (λ sync. sync ≡ spec.sync tree.now) }
{
    match beside("time", tree.get("sync")) {
        None => Ok(None),
        Some(tree) => Ok(Some(SyncTime {
            field: text_or_none(alloc, tree.get("field"))?,
            delay_ms: span_or(DEFAULT_DELAY, tree.get("delay")),
        })),
    }
}

fn retention(alloc: Global, tree: &Tree) -> Result<Option<Retention>, OutOfMemory>
    ensures { IfOk result (λ retention. retention ≡ spec.retention tree.now) }
{
    match beside("time", tree.get("retention_policy")) {
        None => Ok(None),
        Some(tree) => Ok(Some(Retention {
            field: text_or_none(alloc, tree.get("field"))?,
            max_age_ms: span_or(-1, tree.get("max_age")),
        })),
    }
}

fn frequency(tree: &Tree) -> i64
    ensures { result ≡ spec.frequency tree.now }
{
    span_or(DEFAULT_FREQUENCY, tree.get("frequency"))
}

fn page_size(tree: &Tree) -> u32
    ensures { result ≡ spec.page_size tree.now }
{
    page_size_or(beside("max_page_search_size", tree.get("settings")))
}

fn align(tree: &Tree) -> bool
    ensures { result ≡ spec.align tree.now }
{
    truth_or(true, beside("align_checkpoints", tree.get("settings")))
}

fn epoch_millis(tree: &Tree) -> bool
    ensures { result ≡ spec.epoch_millis tree.now }
{
    truth_or(false, beside("dates_as_epoch_millis", tree.get("settings")))
}

fn description(alloc: Global, tree: &Tree) -> Result<Text, OutOfMemory>
    ensures { IfOk result (λ text. text ≡ spec.description tree.now) }
{
    text_or_none(alloc, tree.get("description"))
}
