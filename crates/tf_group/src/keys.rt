// The keys of documents.
ghost use Rattle.std.specs.Prelude.{◌≡◌, All, IfOk};
ghost use Rattle.std.specs.Option.{option_map};
ghost use Rattle.tf_model.specs.Conditions.{FitsGroup, Fits, IsGroupInRange, IsInRange};
ghost use Rattle.tf_model.specs.Keys as spec;
ghost use Rattle.tf_model.specs.Values.{value_of};

use crate::parts::{latest_part, pivot_part};
use std::alloc::Global;
use tf_model::{Config, Doc, Group, Key, List, OutOfMemory, Shape, Text};

/// The key of a document, and `None` exactly where a needed part is missing: Elasticsearch Reference, create
/// transform, `pivot.group_by` and `latest.unique_key`.
///
/// A pivot's key has one part for each group, in the order of their names: the value, the greatest multiple of a
/// histogram's interval that is at most it, or the same of a date, but the least date where that would be later. A
/// missing value gives `Null` where the group has `missing_bucket`, and otherwise no key. A latest's key has the
/// values of the unique key's fields in their given order, `Null` where one is missing. The error is want of memory
/// alone.
#[tactic(auto, unfolding(tf_model::specs::Keys::key_of))]
pub fn key_of(alloc: Global, config: &Config, doc: &Doc) -> Result<Option<Key>, OutOfMemory>
    requires config { IsInRange config.now }
    requires doc { Fits config.now doc.now }
    ensures { IfOk result (λ key. key ≡ spec.key_of config.now doc.now) }
{
    match &config.shape {
        Shape::Pivot { groups, .. } => pivot_key(alloc, groups, doc),
        Shape::Latest { unique_key, .. } => Ok(Some(latest_key(alloc, unique_key, doc)?)),
    }
}

// The key of a document of a latest transform.
fn latest_key(alloc: Global, unique_key: &List<Text>, doc: &Doc) -> Result<Key, OutOfMemory>
    ensures { IfOk result (λ key. key ≡ spec.latest_key doc.now unique_key.now) }
{
    let mut parts = List::new(alloc);
    for field in unique_key.as_slice() {
        parts.push(latest_part(field, doc).into_value(alloc)?)?;
    }
    Ok(Key { parts })
}

// The key of a document of a pivot.
fn pivot_key(alloc: Global, groups: &List<Group>, doc: &Doc) -> Result<Option<Key>, OutOfMemory>
    requires groups { All (λ group. IsGroupInRange group.kind) groups.now }
    requires fits { All (λ group. FitsGroup group.kind (value_of doc.now group.field)) groups.now }
    ensures { IfOk result (λ key. key ≡ option_map spec.key_from (spec.parts_of doc.now groups.now)) }
{
    let mut parts = List::new(alloc);
    for group in groups.as_slice() {
        match pivot_part(group, doc) {
            Some(part) => parts.push(part.into_value(alloc)?)?,
            None => return Ok(None),
        }
    }
    Ok(Some(Key { parts }))
}
