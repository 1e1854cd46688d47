// A fold for each key.
ghost use Rattle.std.specs.Prelude.{◌≡◌, IfOk, IfSome, IsSome, IsTrue, OnOk, Some, []};
ghost use Rattle.std.specs.BTreeMap.{get};
ghost use Rattle.tf_model.specs.declared.value.Key.{Key as K};
ghost use Rattle.tf_model.specs.Conditions.{Fits, IsInRange};
ghost use Rattle.tf_model.specs.Keys.{key_of};
ghost use Rattle.tf_model.specs.Order.{key_cmp};
ghost use Rattle.tf_pivot.specs.Bounds as bounds;
ghost use Rattle.tf_pivot.specs.Folds.{AreFolds, GrowsAt, GrowsWith, IsReady};

use std::alloc::Global;
use std::collections::BTreeMap;
use tf_fold::{Acc, start};
use tf_group::{compare_key, key_of};
use tf_model::{Config, Doc, Key, List, OutOfMemory, copy_key};

/// A fold over no documents for each key.
pub fn empty_folds(
    alloc: Global,
    config: &Config,
    keys: &List<Key>,
) -> Result<BTreeMap<Key, Acc, Global>, OutOfMemory>
    ensures { IfOk result (AreFolds config.now keys.now []) }
{
    let mut folds = BTreeMap::new(alloc);
    for key in keys.as_slice() {
        folds.insert(copy_key(alloc, key)?, start(alloc, config)?)?;
    }
    Ok(folds)
}

/// One document more for the fold at its key, where there is one. The key is made only where it is not below the first of
/// the folds' keys and not above the last.
pub fn add_doc(
    alloc: Global,
    folds: &mut BTreeMap<Key, Acc, Global>,
    config: &Config,
    doc: &Doc,
) -> Result<(), OutOfMemory>
    requires config { IsInRange config.now }
    requires ready { (k : K) → IfSome (get key_cmp folds.old k) (IsReady config.now) }
    requires fits { Fits config.now doc.now }
    ensures { OnOk result (GrowsWith config.now doc.now (key_of config.now doc.now) folds.old folds.new) }
{
    if is_within(folds, config, doc) {
        add_key_of(alloc, folds, config, doc)?;
    }
    Ok(())
}

/// The same, where the key is made in any case.
fn add_key_of(
    alloc: Global,
    folds: &mut BTreeMap<Key, Acc, Global>,
    config: &Config,
    doc: &Doc,
) -> Result<(), OutOfMemory>
    requires config { IsInRange config.now }
    requires ready { (k : K) → IfSome (get key_cmp folds.old k) (IsReady config.now) }
    requires fits { Fits config.now doc.now }
    ensures { OnOk result (GrowsWith config.now doc.now (key_of config.now doc.now) folds.old folds.new) }
{
    let key = key_of(alloc, config, doc)?;
    add_with(folds, config, key, doc);
    Ok(())
}

/// Whether the key of a document is not below the first of the folds' keys and not above the last. It is so wherever the
/// key has a fold. Takes no memory.
fn is_within(folds: &BTreeMap<Key, Acc, Global>, config: &Config, doc: &Doc) -> bool
    requires config { IsInRange config.now }
    requires fits { Fits config.now doc.now }
    ensures { (k : K) → key_of config.now doc.now ≡ Some k → IsSome (get key_cmp folds.now k) → IsTrue result }
{
    is_from_first(folds, config, doc) && is_up_to_last(folds, config, doc)
}

fn is_from_first(folds: &BTreeMap<Key, Acc, Global>, config: &Config, doc: &Doc) -> bool
    requires config { IsInRange config.now }
    requires fits { Fits config.now doc.now }
    ensures { (k : K) → key_of config.now doc.now ≡ Some k → IsSome (get key_cmp folds.now k) → IsTrue result }
{
    match folds.first_key_value() {
        Some((first, _)) => is_from(config, doc, first),
        None => false,
    }
}

fn is_up_to_last(folds: &BTreeMap<Key, Acc, Global>, config: &Config, doc: &Doc) -> bool
    requires config { IsInRange config.now }
    requires fits { Fits config.now doc.now }
    ensures { (k : K) → key_of config.now doc.now ≡ Some k → IsSome (get key_cmp folds.now k) → IsTrue result }
{
    match folds.last_key_value() {
        Some((last, _)) => is_up_to(config, doc, last),
        None => false,
    }
}

/// Whether a document has a key that is not below a bound.
fn is_from(config: &Config, doc: &Doc, bound: &Key) -> bool
    requires config { IsInRange config.now }
    requires fits { Fits config.now doc.now }
    ensures { result ≡ bounds.is_from (key_of config.now doc.now) bound.now }
{
    match compare_key(config, doc, bound) {
        Some(order) => order.is_ge(),
        None => false,
    }
}

/// Whether a document has a key that is not above a bound.
fn is_up_to(config: &Config, doc: &Doc, bound: &Key) -> bool
    requires config { IsInRange config.now }
    requires fits { Fits config.now doc.now }
    ensures { result ≡ bounds.is_up_to (key_of config.now doc.now) bound.now }
{
    match compare_key(config, doc, bound) {
        Some(order) => order.is_le(),
        None => false,
    }
}

/// One document more for the fold at a key, where there is one. Takes no memory.
pub fn add_at(folds: &mut BTreeMap<Key, Acc, Global>, config: &Config, key: &Key, doc: &Doc)
    requires ready { IfSome (get key_cmp folds.old key.now) (IsReady config.now) }
    requires fits { Fits config.now doc.now }
    ensures { GrowsAt config.now doc.now key.now folds.old folds.new }
{
    if let Some(fold) = folds.get_mut(key) {
        fold.add(config, doc);
    }
}

/// One document more for the fold at the document's key, where it has one. Takes no memory.
pub fn add_with(
    folds: &mut BTreeMap<Key, Acc, Global>,
    config: &Config,
    key: Option<Key>,
    doc: &Doc,
)
    requires ready { (k : K) → IfSome (get key_cmp folds.old k) (IsReady config.now) }
    requires fits { Fits config.now doc.now }
    ensures { GrowsWith config.now doc.now key folds.old folds.new }
{
    if let Some(key) = key {
        add_at(folds, config, &key, doc);
    }
}
