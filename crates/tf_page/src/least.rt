// The least of the keys that are offered.
ghost use Rattle.std.specs.Prelude.{◌≡◌, ◌+◌, ◌-◌, ◌++◌, ◌&&◌, not, ◌<◌, ◌≤◌, ◌↔◌, IfOk, IsTrue, List, [], None, OnOk, Some, if◌then◌else◌, length, nat_eq, slice_get, take};
ghost use Rattle.std.specs.BTreeSet.{insert_key};
ghost use Rattle.std.specs.Option.{option_copied};
ghost use Rattle.std.specs.List.Sorted.{IsStrictlySortedBy};
ghost use Rattle.tf_model.specs.declared.value.Key.{Key as K};
ghost use Rattle.tf_model.specs.Changed as spec;
ghost use Rattle.tf_model.specs.Conditions.{Fits, IsInRange};
ghost use Rattle.tf_model.specs.Keys.{keys_of, listed};
ghost use Rattle.tf_model.specs.Order.{key_cmp};
ghost use Rattle.tf_page.specs.Least.{IsLeastOf, above, greatest_of, left_out};

use crate::fates::{Fate, fate_of};
use std::alloc::Global;
use std::collections::BTreeSet;
use std::marker::Model;
use tf_group::key_of;
use tf_model::{Config, Doc, Key, List, OutOfMemory};

/// The least of the keys that were offered, each once: as many as `size`, or all.
#[derive(Drop)]
pub struct Least {
    keys: BTreeSet<Key, Global>,
    size: usize,
    /// Whether no key was left out.
    is_whole: bool,
}

impl Model for Least {
    ghost use Rattle.std.specs.Prelude.{◌≤◌, length};
    ghost use Rattle.tf_page.specs.Least.{Kept};

    ghost Value = { Kept };

    ghost view = { λ least. record { keys = least.keys.keys; size = least.size; is_whole = least.is_whole } };

    ghost invariant = { λ least. length least.keys.keys ≤ least.size };
}

impl Least {
    /// No key yet. Takes no memory.
    pub fn new(alloc: Global, size: usize) -> Least
        ensures none { IsLeastOf [] result }
        ensures size { result.size ≡ size }
    {
        Least {
            keys: BTreeSet::new(alloc),
            size,
            is_whole: true,
        }
    }

    /// One key more. It has no effect where the key is there.
    fn put(&mut self, key: Key) -> Result<(), OutOfMemory>
        ensures more { OnOk result ((ks : List K) → IsLeastOf ks self.old → IsLeastOf (insert_key key_cmp ks key) self.new) }
        ensures size { self.new.size ≡ self.old.size }
    {
        self.keys.insert(key)?;
        let is_over = keep_least(&mut self.keys, self.size);
        self.is_whole = is_still_whole(self.is_whole, is_over);
        Ok(())
    }

    /// The key of one document more, where it has one and that is above the position. The key is made only where it may
    /// have to be kept.
    pub fn offer_of(
        &mut self,
        alloc: Global,
        config: &Config,
        after: Option<&Key>,
        doc: &Doc,
    ) -> Result<(), OutOfMemory>
        requires config { IsInRange config.now }
        requires doc { Fits config.now doc.now }
        ensures more { OnOk result ((ks : List K) → IsLeastOf (above (option_copied after.entry) ks) self.old
            → IsLeastOf (above (option_copied after.entry) (ks ++ keys_of config.now doc.now)) self.new) }
        ensures size { self.new.size ≡ self.old.size }
    {
        match fate_of(config, doc, after, self.greatest()) {
            Fate::Passed => Ok(()),
            Fate::LeftOut => {
                self.leave_out();
                Ok(())
            }
            Fate::Wanted => {
                self.offer(after, key_of(alloc, config, doc)?)?;
                Ok(())
            }
        }
    }

    /// The greatest key, where there is no room for another. Takes no memory.
    fn greatest(&self) -> Option<&Key>
        ensures key { option_copied result ≡ greatest_of self.now }
        ensures ordered { IsStrictlySortedBy key_cmp self.now.keys }
    {
        greatest_if_full(&self.keys, self.size)
    }

    /// Keeps that a key was left out. Takes no memory.
    fn leave_out(&mut self)
        ensures { self.new ≡ left_out self.old }
    {
        self.is_whole = false;
    }

    /// One key more, where there is one and it is above the position.
    fn offer(&mut self, after: Option<&Key>, key: Option<Key>) -> Result<(), OutOfMemory>
        ensures more { OnOk result ((ks : List K) → IsLeastOf (above (option_copied after.entry) ks) self.old
            → IsLeastOf (above (option_copied after.entry) (ks ++ listed key)) self.new) }
        ensures size { self.new.size ≡ self.old.size }
    {
        match key {
            Some(key) => {
                self.offer_one(after, key)?;
                Ok(())
            }
            None => Ok(()),
        }
    }

    /// One key more, where it is above the position.
    fn offer_one(&mut self, after: Option<&Key>, key: Key) -> Result<(), OutOfMemory>
        ensures more { OnOk result ((ks : List K) → IsLeastOf (above (option_copied after.entry) ks) self.old
            → IsLeastOf (above (option_copied after.entry) (ks ++ listed (Some key))) self.new) }
        ensures size { self.new.size ≡ self.old.size }
    {
        if is_after(after, &key) {
            self.put(key)?;
            Ok(())
        } else {
            Ok(())
        }
    }

    /// Whether no key was left out. Takes no memory.
    pub fn is_whole(&self) -> bool
        ensures { result ≡ self.now.is_whole }
    {
        self.is_whole
    }

    /// The keys that are left, ascending.
    pub fn into_keys(self, alloc: Global) -> Result<List<Key>, OutOfMemory>
        ensures { IfOk result (λ keys. keys ≡ self.keys) }
    {
        let Least { keys, .. } = self;
        listed_keys(alloc, keys)
    }
}

/// Whether no key was left out, before and now.
fn is_still_whole(was_whole: bool, is_over: bool) -> bool
    ensures { result ≡ (was_whole && not is_over) }
{
    was_whole && !is_over
}

/// The greatest key, where there are as many as `size`.
fn greatest_if_full(keys: &BTreeSet<Key, Global>, size: usize) -> Option<&Key>
    ensures key { option_copied result ≡ (if nat_eq (length keys.now.keys) size then slice_get keys.now.keys (length keys.now.keys - 1) else None) }
    ensures ordered { IsStrictlySortedBy key_cmp keys.now.keys }
{
    if keys.len() == size {
        keys.last()
    } else {
        None
    }
}

/// Whether there is one key too many. The greatest is then taken out.
fn keep_least(keys: &mut BTreeSet<Key, Global>, size: usize) -> bool
    requires { length keys.old.keys ≤ size + 1 }
    ensures least { keys.new.keys ≡ take size keys.old.keys }
    ensures over { IsTrue result ↔ (size < length keys.old.keys) }
{
    let is_over = keys.len() > size;
    if is_over {
        remove_last(keys);
    }
    is_over
}

/// Takes the greatest key out, where there is one.
fn remove_last(keys: &mut BTreeSet<Key, Global>)
    ensures { keys.new.keys ≡ take (length keys.old.keys - 1) keys.old.keys }
{
    let _last = keys.pop_last();
}

/// The keys as a list, ascending.
fn listed_keys(alloc: Global, keys: BTreeSet<Key, Global>) -> Result<List<Key>, OutOfMemory>
    ensures { IfOk result (λ list. list ≡ keys.keys) }
{
    let mut list = List::new(alloc);
    for key in keys {
        list.push(key)?;
    }
    Ok(list)
}

/// Whether a key is above the position.
fn is_after(after: Option<&Key>, key: &Key) -> bool
    ensures { result ≡ spec.is_after (option_copied after.entry) key.now }
{
    match after {
        None => true,
        Some(position) => position < key,
    }
}
