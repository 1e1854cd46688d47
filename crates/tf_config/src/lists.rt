// The lists of a configuration, which have some items and not too many, and the nesting of its query.
ghost use Rattle.std.specs.Prelude.{◌≡◌, ◌++◌};
ghost use Rattle.std.specs.List.{fold};
ghost use Rattle.std.specs.Option.{option_copied, option_to_list};
ghost use Rattle.tf_mapping.specs.Least.{lesser_text, least_text};
ghost use Rattle.tf_config.specs.Checks as spec;

use crate::least::{lesser, lesser_if, lesser_option};
use crate::query::lesser_if_too_deep;
use tf_model::{Config, List, Shape, Text};

const MOST_SOURCES: usize = 8;

const MOST_GROUPS: usize = 4;

const MOST_AGGREGATIONS: usize = 16;

const MOST_KEY_FIELDS: usize = 4;

/// The least path of a list that is empty and may not be.
#[tactic(auto, using(crate::proofs::LeastLaws::leasts))]
pub(crate) fn least_empty(config: &Config) -> Option<&'static str>
    ensures { option_copied result ≡ least_text (spec.empty_lists config.now) }
{
    let least = lesser_if_empty(&config.sources, "source.index", None);
    least_empty_in_shape(&config.shape, least)
}

fn least_empty_in_shape<'a>(shape: &Shape, least: Option<&'a str>) -> Option<&'a str>
    ensures { option_copied result ≡ fold lesser_text (option_copied least.entry) (spec.empty_in_shape shape.now) }
{
    match shape {
        Shape::Pivot { groups, .. } => lesser_if_empty(groups, "pivot.group_by", least),
        Shape::Latest { unique_key, .. } => lesser_if_empty(unique_key, "latest.unique_key", least),
    }
}

// The lesser of the least path before and this one, where the list is empty.
fn lesser_if_empty<'a, T>(list: &List<T>, path: &'a str, least: Option<&'a str>) -> Option<&'a str>
    ensures { option_copied result ≡ fold lesser_text (option_copied least.entry) (spec.told_if (spec.is_empty list.now) path.now) }
{
    match list.as_slice() {
        [] => lesser(path, least),
        [_, ..] => least,
    }
}

/// The least name of a list that is too long, or of a query that nests too deep, where one that is not kept is told.
#[tactic(auto, using(crate::proofs::LeastLaws::leasts))]
pub(crate) fn least_too_many<'a>(config: &Config, too_deep: Option<&'a Text>) -> Option<&'a str>
    ensures { option_copied result ≡ least_text (spec.too_long config.now ++ spec.too_deep config.now ++ option_to_list (option_copied too_deep.entry)) }
{
    let least = lesser_if_too_deep(config, least_too_long(config));
    lesser_option(too_deep, least)
}

#[tactic(auto, using(crate::proofs::LeastLaws::leasts))]
fn least_too_long(config: &Config) -> Option<&'static str>
    ensures { option_copied result ≡ least_text (spec.too_long config.now) }
{
    let least = lesser_if(config.sources.len() > MOST_SOURCES, "index", None);
    match &config.shape {
        Shape::Pivot { groups, aggs } => {
            let least = lesser_if(groups.len() > MOST_GROUPS, "group_by", least);
            lesser_if(aggs.len() > MOST_AGGREGATIONS, "aggregations", least)
        }
        Shape::Latest { unique_key, .. } => lesser_if(
            unique_key.len() > MOST_KEY_FIELDS,
            "unique_key",
            least,
        ),
    }
}
