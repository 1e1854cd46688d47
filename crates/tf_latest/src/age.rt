// The order of documents in which a latest takes the greatest.
ghost use Rattle.std.specs.Prelude.{◌≡◌, Some, unwrap_or};
ghost use Rattle.std.specs.Option.{option_copied};
ghost use Rattle.tf_model.specs.declared.value.Value.TheVariants.{Null};
ghost use Rattle.tf_model.specs.Latest as spec;
ghost use Rattle.tf_model.specs.Order.{value_cmp};
ghost use Rattle.tf_model.specs.Rows.{of_both};
ghost use Rattle.tf_model.specs.Values.{value_of};

use std::cmp::Ordering;
use tf_model::{Doc, Text, Value};

/// The newer of two documents, where there are two, and the second where there is no first. Takes no memory.
///
/// The newer is the one with the greater value of the field `sort`, where a missing value is the lowest; then the one whose
/// index stands later in `sources`, the numbers of the source indices in the order of the configuration, where an index that
/// is none of them counts as the first; then the one of the greater shard; then the one of the greater number in its shard.
/// Where all are the same, it is the second.
pub fn newer_of<'a>(sources: &[u64], sort: &Text, found: Option<&'a Doc>, doc: &'a Doc) -> &'a Doc
    ensures { Some result.now ≡ of_both (spec.newer (spec.age_cmp sources.now sort.now)) (option_copied found.entry) (Some doc.now) }
{
    match found {
        Some(other) => newer(sources, sort, other, doc),
        None => doc,
    }
}

/// The newer of two documents, and the second where they compare as equal.
fn newer<'a>(sources: &[u64], sort: &Text, doc: &'a Doc, other: &'a Doc) -> &'a Doc
    ensures { result.now ≡ spec.newer (spec.age_cmp sources.now sort.now) doc.now other.now }
{
    match compare_age(sources, sort, doc, other) {
        Ordering::Greater => doc,
        _ => other,
    }
}

/// By the values of the sort field, then by the place of the document.
#[tactic(auto, unfolding(tf_model::specs::Latest::age_cmp))]
fn compare_age(sources: &[u64], sort: &Text, doc: &Doc, other: &Doc) -> Ordering
    ensures { result ≡ spec.age_cmp sources.now sort.now doc.now other.now }
{
    match compare_sort(sort, doc, other) {
        Ordering::Equal => compare_place(sources, doc, other),
        order => order,
    }
}

/// By the values of a field, where a missing value is the lowest.
#[tactic(auto, unfolding(tf_model::specs::Latest::sort_cmp))]
fn compare_sort(sort: &Text, doc: &Doc, other: &Doc) -> Ordering
    ensures { result ≡ spec.sort_cmp sort.now doc.now other.now }
{
    let missing = Value::Null;
    let value = doc.value(sort).unwrap_or(&missing);
    let other = other.value(sort).unwrap_or(&missing);
    value.cmp(other)
}

/// By the place of the index among the sources, then by shard, then by number in the shard.
#[tactic(auto, unfolding(tf_model::specs::Latest::place_cmp))]
fn compare_place(sources: &[u64], doc: &Doc, other: &Doc) -> Ordering
    ensures { result ≡ spec.place_cmp sources.now doc.now other.now }
{
    place_in(sources, doc.index)
        .cmp(&place_in(sources, other.index))
        .then(doc.shard.cmp(&other.shard))
        .then(doc.seq.cmp(&other.seq))
}

/// The place of an index among the sources, 0 where it is none of them.
fn place_in(sources: &[u64], index: u32) -> usize
    ensures { result ≡ spec.place_in sources.now index }
{
    for (place, source) in sources.iter().enumerate() {
        if *source == u64::from(index) {
            return place;
        }
    }
    0
}
