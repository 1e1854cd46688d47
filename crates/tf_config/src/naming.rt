// The names in a configuration.
ghost use Rattle.std.specs.Prelude.{◌≡◌, map};
ghost use Rattle.std.specs.List.{fold, list_any};
ghost use Rattle.std.specs.Option.{option_copied};
ghost use Rattle.std.specs.Str.{bytes_eq};
ghost use Rattle.tf_mapping.specs.Least.{lesser_text, least_text, is_one_of};
ghost use Rattle.tf_config.specs.Checks as spec;

use crate::catalogue::Catalogue;
use crate::least::lesser_if;
use tf_model::{Agg, Config, Group, Shape, Text, is_index_name};

/// The least name of a source, or of the destination where one is needed, that is not well formed.
#[tactic(auto, using(crate::proofs::LeastLaws::leasts))]
pub(crate) fn least_ill_named<'a>(config: &'a Config, need_dest: bool) -> Option<&'a str>
    ensures { option_copied result ≡ least_text (spec.ill_named need_dest config.now) }
{
    let least = least_ill_formed(config.sources.as_slice());
    let dest = config.dest.as_str();
    lesser_if(need_dest && !is_index_name(dest), dest, least)
}

fn least_ill_formed<'a>(names: &'a [Text]) -> Option<&'a str>
    ensures { option_copied result ≡ least_text (spec.ill_formed names.now) }
{
    let mut least = None;
    for name in names {
        least = lesser_if(!is_index_name(name.as_str()), name.as_str(), least);
    }
    least
}

/// The least name of a source that does not exist.
pub(crate) fn least_absent<'a>(config: &'a Config, catalogue: &Catalogue) -> Option<&'a str>
    ensures { option_copied result ≡ least_text (spec.absent_sources catalogue.now config.now) }
{
    let mut least = None;
    for name in config.sources.as_slice() {
        least = lesser_if(catalogue.mapping(name).is_none(), name.as_str(), least);
    }
    least
}

/// The least name that stands twice.
#[tactic(auto, using(crate::proofs::LeastLaws::leasts))]
pub(crate) fn least_twice_named<'a>(config: &'a Config) -> Option<&'a str>
    ensures { option_copied result ≡ least_text (spec.twice_named config.now) }
{
    let least = least_repeated(config.sources.as_slice(), None);
    match &config.shape {
        Shape::Pivot { groups, aggs } => least_repeated_column(
            groups.as_slice(),
            aggs.as_slice(),
            least,
        ),
        Shape::Latest { unique_key, .. } => least_repeated(unique_key.as_slice(), least),
    }
}

// The least of names that stand again among those after them, where `least` is the least name before.
fn least_repeated<'a>(names: &'a [Text], least: Option<&'a str>) -> Option<&'a str>
    ensures { option_copied result ≡ fold lesser_text (option_copied least.entry) (spec.repeated names.now) }
{
    let mut least = least;
    for (place, name) in names.iter().enumerate() {
        least = lesser_if(is_among(&names[place + 1..], name), name.as_str(), least);
    }
    least
}

fn is_among(names: &[Text], name: &Text) -> bool
    ensures { result ≡ is_one_of names.now name.now }
{
    names.iter().any(|other| other == name)
}

// The same of the names of groups and aggregations.
fn least_repeated_column<'a>(
    groups: &'a [Group],
    aggs: &'a [Agg],
    least: Option<&'a str>,
) -> Option<&'a str>
    ensures { option_copied result ≡ fold lesser_text (option_copied least.entry) (spec.repeated (spec.column_names groups.now aggs.now)) }
{
    let mut least = least;
    for (place, group) in groups.iter().enumerate() {
        let is_again = is_column(&groups[place + 1..], aggs, &group.name);
        least = lesser_if(is_again, group.name.as_str(), least);
    }
    least_repeated_agg(aggs, least)
}

fn least_repeated_agg<'a>(aggs: &'a [Agg], least: Option<&'a str>) -> Option<&'a str>
    ensures { option_copied result ≡ fold lesser_text (option_copied least.entry) (spec.repeated (map (λ agg. agg.name) aggs.now)) }
{
    let mut least = least;
    for (place, agg) in aggs.iter().enumerate() {
        let is_again = is_column(&[], &aggs[place + 1..], &agg.name);
        least = lesser_if(is_again, agg.name.as_str(), least);
    }
    least
}

/// Whether a name is that of a group or of an aggregation.
#[tactic(auto, using(crate::proofs::LeastLaws::among_columns))]
pub(crate) fn is_column(groups: &[Group], aggs: &[Agg], name: &Text) -> bool
    ensures { result ≡ is_one_of (spec.column_names groups.now aggs.now) name.now }
{
    is_group(groups, name) || is_agg(aggs, name)
}

fn is_group(groups: &[Group], name: &Text) -> bool
    ensures { result ≡ list_any (λ group. bytes_eq group.name name.now) groups.now }
{
    groups.iter().any(|group| group.name == *name)
}

fn is_agg(aggs: &[Agg], name: &Text) -> bool
    ensures { result ≡ list_any (λ agg. bytes_eq agg.name name.now) aggs.now }
{
    aggs.iter().any(|agg| agg.name == *name)
}
