// The keys of documents against other keys.
ghost use Rattle.std.specs.Prelude.{◌≡◌, All, [], drop};
ghost use Rattle.std.specs.Cmp.Lexicographic.{slice_cmp};
ghost use Rattle.std.specs.Option.{option_copied, option_map};
ghost use Rattle.std.specs.Ordering.{ordering_then};
ghost use Rattle.tf_group.specs.Comparing.{part_cmp, part_value};
ghost use Rattle.tf_model.specs.Conditions.{FitsGroup, Fits, IsGroupInRange, IsInRange};
ghost use Rattle.tf_model.specs.Keys as spec;
ghost use Rattle.tf_model.specs.Order.{key_cmp, value_cmp};
ghost use Rattle.tf_model.specs.Values.{value_of};

use crate::parts::{Part, latest_part, pivot_part};
use std::cmp::Ordering;
use tf_model::{Config, Doc, Group, Key, Shape, Text, Value};

/// How the key of a document, by `key_of`, compares with another key, and `None` exactly where the document has no key.
/// Takes no memory, since the key is not made: each part is compared where it stands.
#[tactic(auto, unfolding(tf_model::specs::Keys::key_of, tf_model::specs::Order::key_cmp))]
pub fn compare_key(config: &Config, doc: &Doc, key: &Key) -> Option<Ordering>
    requires config { IsInRange config.now }
    requires doc { Fits config.now doc.now }
    ensures { result ≡ option_map (λ k. key_cmp k key.now) (spec.key_of config.now doc.now) }
{
    match &config.shape {
        Shape::Pivot { groups, .. } => compare_pivot(groups.as_slice(), doc, key.parts.as_slice()),
        Shape::Latest { unique_key, .. } => {
            Some(compare_latest(unique_key.as_slice(), doc, key.parts.as_slice()))
        }
    }
}

// The parts of a pivot's key against those of another key, `None` where a needed one is missing.
fn compare_pivot(groups: &[Group], doc: &Doc, others: &[Value]) -> Option<Ordering>
    requires groups { All (λ group. IsGroupInRange group.kind) groups.now }
    requires fits { All (λ group. FitsGroup group.kind (value_of doc.now group.field)) groups.now }
    ensures { result ≡ option_map (λ parts. slice_cmp value_cmp parts others.now) (spec.parts_of doc.now groups.now) }
{
    let mut so_far = Ordering::Equal;
    for (place, group) in groups.iter().enumerate() {
        match pivot_part(group, doc) {
            Some(part) => so_far = with_part(so_far, &part, others.get(place)),
            None => return None,
        }
    }
    Some(so_far.then(compare_rest(groups.len(), others)))
}

// The parts of a latest's key against those of another key.
fn compare_latest(fields: &[Text], doc: &Doc, others: &[Value]) -> Ordering
    ensures { result ≡ slice_cmp value_cmp (spec.latest_key doc.now fields.now).parts others.now }
{
    let mut so_far = Ordering::Equal;
    for (place, field) in fields.iter().enumerate() {
        so_far = with_part(so_far, &latest_part(field, doc), others.get(place));
    }
    so_far.then(compare_rest(fields.len(), others))
}

// What the parts so far and this one say of the order. The parts before decide where they differ.
fn with_part(so_far: Ordering, part: &Part, other: Option<&Value>) -> Ordering
    ensures { result ≡ ordering_then so_far (part_cmp (part_value part.now) (option_copied other.entry)) }
{
    so_far.then(compare_part(part.as_value(), other))
}

// A part against the part of another key at its place, where there is one.
fn compare_part(part: &Value, other: Option<&Value>) -> Ordering
    ensures { result ≡ part_cmp part.now (option_copied other.entry) }
{
    match other {
        Some(other) => part.cmp(other),
        None => Ordering::Greater,
    }
}

// What the number of the parts says of the order where they are as those of another key: whether that goes on.
#[tactic(auto, using(crate::proofs::CompareLaws::more_left))]
fn compare_rest(count: usize, others: &[Value]) -> Ordering
    ensures { result ≡ slice_cmp value_cmp [] (drop count others.now) }
{
    if count < others.len() {
        Ordering::Less
    } else {
        Ordering::Equal
    }
}
