// The newest document of each key above a position.
ghost use Rattle.std.specs.Prelude.{◌≡◌, OnOk, Some};
ghost use Rattle.std.specs.Option.{option_copied};
ghost use Rattle.tf_model.specs.Conditions.{Fits, IsInRange};
ghost use Rattle.tf_model.specs.Keys.{key_of};
ghost use Rattle.tf_model.specs.Latest.{age_cmp};
ghost use Rattle.tf_plan.specs.Folds.{key_above as spec_key_above};
ghost use Rattle.tf_plan.specs.Newest.{Changes, added, grown, newest_at, opened};

use crate::above::key_above;
use crate::hashed::Hashed;
use std::alloc::Global;
use std::collections::HashMap;
use tf_latest::newer_of;
use tf_model::{Config, Doc, Key, OutOfMemory, Text};

/// The newest documents of keys so far, `None` for a key that is to have a row and of which no document came yet.
pub type Newest<'a> = HashMap<Hashed, Option<&'a Doc>>;

/// The key of a document is there, where it is above the position.
pub fn open_for<'a>(
    alloc: Global,
    newest: &mut Newest<'a>,
    config: &Config,
    after: Option<&Key>,
    doc: &Doc,
) -> Result<(), OutOfMemory>
    requires config { IsInRange config.now }
    requires fits { Fits config.now doc.now }
    ensures { OnOk result (Changes opened (spec_key_above (option_copied after.entry) (key_of config.now doc.now)) (newest_at newest.old.entries) (newest_at newest.new.entries)) }
{
    match key_above(alloc, config, after, doc)? {
        Some(key) => open_at(newest, key),
        None => Ok(()),
    }
}

fn open_at<'a>(newest: &mut Newest<'a>, key: Hashed) -> Result<(), OutOfMemory>
    ensures { OnOk result (Changes opened (Some key) (newest_at newest.old.entries) (newest_at newest.new.entries)) }
{
    if !newest.contains_key(&key) {
        newest.insert(key, None)?;
    }
    Ok(())
}

/// One document more for its key, where that is there and above the position.
pub fn add_doc<'a>(
    alloc: Global,
    newest: &mut Newest<'a>,
    sources: &[u64],
    config: &Config,
    sort: &Text,
    after: Option<&Key>,
    doc: &'a Doc,
) -> Result<(), OutOfMemory>
    requires config { IsInRange config.now }
    requires fits { Fits config.now doc.now }
    ensures { OnOk result (Changes (added (age_cmp sources.now sort.now) doc.now) (spec_key_above (option_copied after.entry) (key_of config.now doc.now)) (newest_at newest.old.entries) (newest_at newest.new.entries)) }
{
    match key_above(alloc, config, after, doc)? {
        Some(key) => {
            add_at(newest, sources, sort, &key, doc);
            Ok(())
        }
        None => Ok(()),
    }
}

fn add_at<'a>(newest: &mut Newest<'a>, sources: &[u64], sort: &Text, key: &Hashed, doc: &'a Doc)
    ensures { Changes (added (age_cmp sources.now sort.now) doc.now) (Some key.now) (newest_at newest.old.entries) (newest_at newest.new.entries) }
{
    if let Some(found) = newest.get_mut(key) {
        *found = Some(newer_of(sources, sort, *found, doc));
    }
}

/// One document more for its key, which may be a new one, where the key is above the position.
pub fn grow_with<'a>(
    alloc: Global,
    newest: &mut Newest<'a>,
    sources: &[u64],
    config: &Config,
    sort: &Text,
    after: Option<&Key>,
    doc: &'a Doc,
) -> Result<(), OutOfMemory>
    requires config { IsInRange config.now }
    requires fits { Fits config.now doc.now }
    ensures { OnOk result (Changes (grown (age_cmp sources.now sort.now) doc.now) (spec_key_above (option_copied after.entry) (key_of config.now doc.now)) (newest_at newest.old.entries) (newest_at newest.new.entries)) }
{
    match key_above(alloc, config, after, doc)? {
        Some(key) => grow_at(newest, sources, sort, key, doc),
        None => Ok(()),
    }
}

fn grow_at<'a>(
    newest: &mut Newest<'a>,
    sources: &[u64],
    sort: &Text,
    key: Hashed,
    doc: &'a Doc,
) -> Result<(), OutOfMemory>
    ensures { OnOk result (Changes (grown (age_cmp sources.now sort.now) doc.now) (Some key) (newest_at newest.old.entries) (newest_at newest.new.entries)) }
{
    match newest.get_mut(&key) {
        Some(found) => {
            *found = Some(newer_of(sources, sort, *found, doc));
            Ok(())
        }
        None => {
            newest.insert(key, Some(doc))?;
            Ok(())
        }
    }
}
