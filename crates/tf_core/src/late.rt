ghost use Rattle.std.specs.Prelude.{◌≡◌, ◌+◌, ◌<◌, ◌^◌, ◌&&◌, nat_eq, map, vec_capacity};
ghost use Rattle.std.specs.List.{AllByRecursion, list_any};
ghost use Rattle.std.specs.Option.{option_and_then};
ghost use Rattle.tf_model.specs.Counted.{sync_value};
ghost use Rattle.tf_model.specs.Retention.{date_of};
ghost use Rattle.tf_history.specs.Lives.{is_under};
ghost use Rattle.tf_core.specs.Late.{is_late_for, after_write};
ghost use Rattle.tf_core.specs.Steps.{IsSmall};

use crate::transform::Transform;
use tf_model::{Config, Doc, Value};
use tf_query::matches;

/// Counts a document that comes late, for each transform. Takes no memory.
pub fn count_late(transforms: &mut Vec<Transform>, doc: &Doc)
    requires { AllByRecursion IsSmall transforms.old.items }
    ensures items { transforms.new.items ≡ map (after_write doc.now) transforms.old.items }
    ensures capacity { vec_capacity transforms.new ≡ vec_capacity transforms.old }
{
    for transform in transforms.iter_mut() {
        count_late_in(transform, doc);
    }
}

fn count_late_in(transform: &mut Transform, doc: &Doc)
    requires { transform.old.late < 2 ^ 63 }
    ensures { transform.new ≡ after_write doc.now transform.old }
{
    if is_late(transform, doc) {
        transform.late += 1;
    }
}

/// Whether a document is of a source, matches, and has a sync value below the last bound.
fn is_late(transform: &Transform, doc: &Doc) -> bool
    ensures { result ≡ is_late_for transform.now doc.now }
{
    is_among(transform.sources.as_slice(), doc.index)
        && matches(&transform.config.query, doc)
        && is_below(&transform.config, transform.bound, doc)
}

/// Whether a number is one of these.
pub fn is_among(sources: &[u64], index: u32) -> bool
    ensures { result ≡ list_any (nat_eq index) sources.now }
{
    for source in sources {
        if u64::from(index) == *source {
            return true;
        }
    }
    false
}

fn is_below(config: &Config, bound: Option<i64>, doc: &Doc) -> bool
    ensures { result ≡ is_under bound (option_and_then date_of (sync_value config.now doc.now)) }
{
    match bound {
        None => false,
        Some(bound) => match synced(config, doc) {
            None => false,
            Some(ms) => ms < bound,
        },
    }
}

fn synced(config: &Config, doc: &Doc) -> Option<i64>
    ensures { result ≡ option_and_then date_of (sync_value config.now doc.now) }
{
    match &config.sync {
        None => None,
        Some(sync) => match doc.value(&sync.field) {
            Some(Value::Date(ms)) => Some(*ms),
            _ => None,
        },
    }
}
