// The numbers of a configuration.
ghost use Rattle.std.specs.Prelude.{◌≡◌, not, filter, map};
ghost use Rattle.std.specs.List.{fold};
ghost use Rattle.std.specs.Option.{option_copied};
ghost use Rattle.tf_mapping.specs.Least.{lesser_text, least_text};
ghost use Rattle.tf_config.specs.Checks as spec;

use crate::least::lesser_if;
use tf_model::{Config, Group, GroupKind, Retention, Shape, SyncTime};

// The longest span, in milliseconds.
const LONGEST: i64 = 253_402_300_799_999;

const SHORTEST_FREQUENCY: i64 = 1000;

const LONGEST_FREQUENCY: i64 = 3_600_000;

const SMALLEST_PAGE: u32 = 10;

const LARGEST_PAGE: u32 = 65_536;

/// The least name of a group whose interval is out of range.
pub(crate) fn least_bad_interval(config: &Config) -> Option<&str>
    ensures { option_copied result ≡ least_text (spec.bad_intervals config.now) }
{
    match &config.shape {
        Shape::Pivot { groups, .. } => least_bad_group(groups.as_slice()),
        Shape::Latest { .. } => None,
    }
}

fn least_bad_group(groups: &[Group]) -> Option<&str>
    ensures { option_copied result ≡ least_text (map (λ group. group.name) (filter (λ group. not (spec.has_interval group.kind)) groups.now)) }
{
    let mut least = None;
    for group in groups {
        least = lesser_if(!has_interval(group.kind), group.name.as_str(), least);
    }
    least
}

fn has_interval(kind: GroupKind) -> bool
    ensures { result ≡ spec.has_interval kind }
{
    match kind {
        GroupKind::Terms => true,
        GroupKind::Histogram { interval } => 0 < interval && interval < 1 << 63,
        GroupKind::DateHistogram { ms } => 1 <= ms && ms <= LONGEST,
    }
}

/// The least name of what is no span.
#[tactic(auto, using(crate::proofs::LeastLaws::leasts))]
pub(crate) fn least_bad_span(config: &Config) -> Option<&'static str>
    ensures { option_copied result ≡ least_text (spec.bad_spans config.now) }
{
    let least = least_bad_delay(&config.sync);
    let least = least_bad_max_age(&config.retention, least);
    lesser_if(!is_span(config.frequency_ms), "frequency", least)
}

fn least_bad_delay(sync: &Option<SyncTime>) -> Option<&'static str>
    ensures { option_copied result ≡ least_text (spec.bad_delay sync.now) }
{
    match sync {
        None => None,
        Some(sync) => lesser_if(!is_span(sync.delay_ms), "delay", None),
    }
}

fn least_bad_max_age<'a>(retention: &Option<Retention>, least: Option<&'a str>) -> Option<&'a str>
    ensures { option_copied result ≡ fold lesser_text (option_copied least.entry) (spec.bad_max_age retention.now) }
{
    match retention {
        None => least,
        Some(retention) => lesser_if(!is_span(retention.max_age_ms), "max_age", least),
    }
}

fn is_span(ms: i64) -> bool
    ensures { result ≡ spec.is_span ms }
{
    0 <= ms && ms <= LONGEST
}

/// `max_page_search_size`, where the page size is out of range.
pub(crate) fn bad_page_size(config: &Config) -> Option<&'static str>
    ensures { option_copied result ≡ least_text (spec.bad_page_size config.now) }
{
    let fits = SMALLEST_PAGE <= config.page_size && config.page_size <= LARGEST_PAGE;
    lesser_if(!fits, "max_page_search_size", None)
}

/// `frequency`, where it is out of range.
pub(crate) fn bad_frequency(config: &Config) -> Option<&'static str>
    ensures { option_copied result ≡ least_text (spec.bad_frequency config.now) }
{
    let ms = config.frequency_ms;
    let fits = SHORTEST_FREQUENCY <= ms && ms <= LONGEST_FREQUENCY;
    lesser_if(!fits, "frequency", None)
}
