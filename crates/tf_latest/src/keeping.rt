// The newest document of each of some keys.
ghost use Rattle.std.specs.Prelude.{◌≡◌, ◌<◌, ◌++◌, ◌∷◌, [], IfOk, List, None, length, map};
ghost use Rattle.std.specs.List.Sorted.{IsStrictlySortedBy};
ghost use Rattle.std.specs.Option.{option_copied};
ghost use Rattle.tf_model.specs.declared.doc.Doc.{Doc as D};
ghost use Rattle.tf_model.specs.Conditions.{Fits, IsInRange};
ghost use Rattle.tf_model.specs.Order.{key_cmp};
ghost use Rattle.tf_latest.specs.Newest.{AreNewest};

use crate::age::newer_of;
use crate::finding::place_among;
use std::alloc::Global;
use tf_model::{Config, Doc, Key, OutOfMemory, Text};

/// No document for each of these keys.
pub fn none_yet<'a>(alloc: Global, keys: &[Key]) -> Result<Vec<Option<&'a Doc>>, OutOfMemory>
    ensures { IfOk result (λ found. map option_copied found.items ≡ map (λ _. None) keys.now) }
{
    let mut found = Vec::new(alloc);
    for _ in keys {
        found.push(None)?;
    }
    Ok(found)
}

/// One document more for its key, where that is one of the keys. Takes no memory.
pub fn add_doc<'a>(
    found: &mut Vec<Option<&'a Doc>>,
    sources: &[u64],
    config: &Config,
    sort: &Text,
    keys: &[Key],
    doc: &'a Doc,
)
    requires config { IsInRange config.now }
    requires fits { Fits config.now doc.now }
    requires ascend { IsStrictlySortedBy key_cmp keys.now }
    requires many { length found.old.items ≡ length keys.now }
    ensures { (docs : List D) → AreNewest sources.now sort.now config.now docs keys.now (map option_copied found.old.items) → AreNewest sources.now sort.now config.now (docs ++ doc.now ∷ []) keys.now (map option_copied found.new.items) }
{
    if let Some(at) = place_among(config, doc, keys) {
        found[at] = Some(newer_of(sources, sort, found[at], doc));
    }
}
