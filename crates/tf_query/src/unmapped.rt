// The fields of a query that are not mapped.
ghost use Rattle.std.specs.Prelude.{◌≡◌, [], ◌∷◌, filter};
ghost use Rattle.std.specs.List.{fold, flat_map};
ghost use Rattle.std.specs.Option.{option_copied};
ghost use Rattle.tf_query.specs.Reading.{is_unmapped, fields_in};
ghost use Rattle.tf_query.specs.Unknown.{lesser_text};

use crate::least::lesser;
use tf_model::{Mapping, Query, Text};

/// The least field in bytes that is not mapped, where `least` is the least one before.
#[cycle(unmapped)]
#[tactic(auto, using(crate::proofs::FieldLaws::fields))]
pub(crate) fn least_unmapped<'a>(
    query: &'a Query,
    fields: &Mapping,
    least: Option<&'a Text>,
) -> Option<&'a Text>
    ensures { option_copied result ≡ fold lesser_text (option_copied least.entry) (filter (is_unmapped fields.now) (fields_in query.now)) }
{
    match query {
        Query::MatchAll => least,
        Query::Term { field, .. } => lesser_unmapped(field, fields, least),
        Query::Exists { field } => lesser_unmapped(field, fields, least),
        Query::Range { field, .. } => lesser_unmapped(field, fields, least),
        Query::Bool { filter, must_not } => {
            let least = least_in_all(filter.as_slice(), fields, least);
            least_in_all(must_not.as_slice(), fields, least)
        }
    }
}

#[cycle(unmapped)]
fn least_in_all<'a>(
    queries: &'a [Query],
    fields: &Mapping,
    least: Option<&'a Text>,
) -> Option<&'a Text>
    ensures { option_copied result ≡ fold lesser_text (option_copied least.entry) (filter (is_unmapped fields.now) (flat_map fields_in queries.now)) }
{
    let mut least = least;
    for query in queries {
        least = least_unmapped(query, fields, least);
    }
    least
}

fn lesser_unmapped<'a>(
    field: &'a Text,
    fields: &Mapping,
    least: Option<&'a Text>,
) -> Option<&'a Text>
    ensures { option_copied result ≡ fold lesser_text (option_copied least.entry) (filter (is_unmapped fields.now) (field.now ∷ [])) }
{
    if fields.type_of(field).is_some() {
        least
    } else {
        Some(lesser(field, least))
    }
}
