// Which documents count at a checkpoint.
ghost use Rattle.std.specs.Prelude.{◌≡◌};
ghost use Rattle.tf_model.specs.Counted as spec;
ghost use Rattle.tf_model.specs.Counted.{is_before, is_since, sync_value};
ghost use Rattle.tf_model.specs.Query.{passes};

use crate::matching::matches;
use tf_model::{Config, Doc, Value};

// Whether a document matches the query and, where there is a bound, has a sync value below it. The bound is in
// milliseconds since 1970.
#[tactic(auto, unfolding(tf_model::specs::Counted::counts))]
fn counts(config: &Config, bound: Option<i64>, doc: &Doc) -> bool
    ensures { result ≡ spec.counts config.now bound doc.now }
{
    if !matches(&config.query, doc) {
        return false;
    }
    match bound {
        None => true,
        Some(bound) => is_synced_before(config, bound, doc),
    }
}

/// Whether a document counts below the high bound and, where there is a low one, has a sync value at or above it. The
/// bounds are in milliseconds since 1970. Takes no memory.
#[tactic(auto, unfolding(tf_model::specs::Counted::is_in_window))]
pub fn is_in_window(config: &Config, low: Option<i64>, high: Option<i64>, doc: &Doc) -> bool
    ensures { result ≡ spec.is_in_window config.now low high doc.now }
{
    counts(config, high, doc) && is_from(config, low, doc)
}

fn is_from(config: &Config, low: Option<i64>, doc: &Doc) -> bool
    ensures { result ≡ spec.is_from config.now low doc.now }
{
    match low {
        None => true,
        Some(low) => is_synced_since(config, low, doc),
    }
}

fn is_synced_before(config: &Config, bound: i64, doc: &Doc) -> bool
    ensures { result ≡ passes (is_before bound) (sync_value config.now doc.now) }
{
    match &config.sync {
        None => false,
        Some(sync) => match doc.value(&sync.field) {
            Some(Value::Date(ms)) => *ms < bound,
            _ => false,
        },
    }
}

fn is_synced_since(config: &Config, bound: i64, doc: &Doc) -> bool
    ensures { result ≡ passes (is_since bound) (sync_value config.now doc.now) }
{
    match &config.sync {
        None => false,
        Some(sync) => match doc.value(&sync.field) {
            Some(Value::Date(ms)) => *ms >= bound,
            _ => false,
        },
    }
}
