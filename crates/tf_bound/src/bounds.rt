// Bounds, cutoffs, and when a checkpoint is due.
ghost use Rattle.std.specs.Prelude.{◌≡◌, ◌-ℤ◌, ◌^◌, IfSome, pos};
ghost use Rattle.tf_bound.specs.Moments.{IsWithin};
ghost use Rattle.tf_model.specs.Bounds as spec;
ghost use Rattle.tf_model.specs.Conditions.{IsInRange, IsSpan};

use crate::aligning::aligned;
use tf_model::Config;

/// The bound of a checkpoint that begins at the moment `now`, where `last` is the bound of the one before it. Both are milliseconds
/// since 1970. It is the moment less the delay of the sync, aligned, and never below the last bound; `None` exactly for a batch
/// transform. The moment is within plus and minus 2^59.
#[tactic(auto, unfolding(tf_model::specs::Bounds::next_bound))]
pub fn next_bound(config: &Config, last: Option<i64>, now: i64) -> Option<i64>
    requires config { IsInRange config.now }
    requires now { IsWithin (2 ^ 59) now }
    ensures { result ≡ spec.next_bound config.now last now }
{
    match &config.sync {
        Some(sync) => Some(risen(last, aligned(config, before(now, sync.delay_ms)))),
        None => None,
    }
}

/// The cutoff of a checkpoint that began at the moment `now`, where `last` is the cutoff of the one before it: rows whose retention
/// value is below it are taken out. It is the moment less the greatest age, and never below the last cutoff; the last one where there
/// is no retention policy. The moment is within plus and minus 2^59.
#[tactic(auto, unfolding(tf_model::specs::Bounds::cutoff))]
pub fn cutoff(config: &Config, last: Option<i64>, now: i64) -> Option<i64>
    requires config { IsInRange config.now }
    requires now { IsWithin (2 ^ 59) now }
    ensures { result ≡ spec.cutoff config.now last now }
{
    match &config.retention {
        Some(retention) => Some(risen(last, before(now, retention.max_age_ms))),
        None => last,
    }
}

/// Whether a checkpoint of a started transform with none running is due at the moment `now`. The first of a life always is, and a
/// further one of a batch transform never. A further one of a continuous transform is due exactly where its window has a document
/// and either a start or a schedule came since the last Begin (`prompted`), or that Begin, at `last_begin`, is at least the frequency
/// ago. That Begin is within plus and minus 2^59.
#[tactic(auto, unfolding(tf_model::specs::Bounds::due), using(std::proofs::lemmas::Int::ints))]
pub fn due(config: &Config, last_begin: Option<i64>, prompted: bool, window: bool, now: i64) -> bool
    requires config { IsInRange config.now }
    requires begun { IfSome last_begin (IsWithin (2 ^ 59)) }
    ensures { result ≡ spec.due config.now last_begin prompted window now }
{
    match last_begin {
        None => true,
        Some(begun) => {
            config.sync.is_some() && window && (prompted || begun + config.frequency_ms <= now)
        }
    }
}

// The moment a span before another.
#[tactic(auto, using(std::proofs::lemmas::Int::ints))]
fn before(now: i64, span: i64) -> i64
    requires now { IsWithin (2 ^ 59) now }
    requires span { IsSpan span }
    ensures value { result ≡ now -ℤ span }
    ensures within { IsWithin (2 ^ 60) result }
{
    now - span
}

fn risen(last: Option<i64>, ms: i64) -> i64
    ensures { result ≡ spec.risen last ms }
{
    match last {
        Some(last) => last.max(ms),
        None => ms,
    }
}
