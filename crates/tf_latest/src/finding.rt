// The key of a document among other keys.
ghost use Rattle.std.specs.List.Sorted.{IsStrictlySortedBy};
ghost use Rattle.tf_model.specs.Conditions.{Fits, IsInRange};
ghost use Rattle.tf_model.specs.Order.{key_cmp};
ghost use Rattle.tf_latest.specs.Newest.{IsPlaceAmong};

use std::cmp::Ordering;
use tf_group::compare_key;
use tf_model::{Config, Doc, Key};

/// The place of the key of a document among ascending keys, `None` where it is none of them. Takes no memory, since the key
/// is not made.
pub fn place_among(config: &Config, doc: &Doc, keys: &[Key]) -> Option<usize>
    requires config { IsInRange config.now }
    requires fits { Fits config.now doc.now }
    requires ascend { IsStrictlySortedBy key_cmp keys.now }
    ensures { IsPlaceAmong config.now doc.now keys.now result }
{
    let mut low = 0;
    let mut high = keys.len();
    while low < high {
        let middle = low + (high - low) / 2;
        match compare_key(config, doc, &keys[middle])? {
            Ordering::Less => high = middle,
            Ordering::Equal => return Some(middle),
            Ordering::Greater => low = middle + 1,
        }
    }
    None
}
