// The rows in the order of their retention values.
ghost use Rattle.std.specs.Prelude.{◌≡◌, ◌+◌, ◌<◌, ◌^◌, ◌&&◌, ◌∷◌, ⊤, ℤ, Some, false, true, if◌then◌else◌, int_lt, IsTrue, OnOk, IfOk, count_by, filter, length, is_some};
ghost use Rattle.std.specs.BTreeMap.{keys, btree_map_len};
ghost use Rattle.std.specs.Ordering.{is_eq};
ghost use Rattle.tf_model.specs.declared.value.Key.{Key};
ghost use Rattle.tf_model.specs.Order.{key_cmp};
ghost use Rattle.tf_dest.specs.Dues as spec;
ghost use Rattle.tf_dest.specs.Dues.{AreListed, IsListed, first_due, moment_at, moment_in};
ghost use Rattle.tf_dest.specs.Slots.{held_in};
ghost use Rattle.tf_dest.specs.Tables.{KeepsPlaces, has_place, is_gone, key_of, put, stays};

use crate::due::Due;
use crate::held::{Held, Slot, split};
use crate::slots::{blank, fill, make_slot, moment_of, take_past};
use std::alloc::Global;
use std::collections::BTreeMap;
use tf_model::{Key, OutOfMemory, copy_key};

/// Lists a key at a moment.
fn list(
    alloc: Global,
    dues: &mut BTreeMap<Due, (), Global>,
    key: &Key,
    moment: Option<i64>,
) -> Result<(), OutOfMemory>
    ensures { (m : ℤ) (k : Key) → IsListed dues.old.entries m k → IsListed dues.new.entries m k }
{
    let Some(moment) = moment else {
        return Ok(());
    };
    let key = copy_key(alloc, key)?;
    dues.insert(Due { moment, key }, ())?;
    Ok(())
}

/// Takes a key off the list at a moment.
fn unlist(dues: &mut BTreeMap<Due, (), Global>, key: Key, moment: i64) -> Key
    ensures key { result ≡ key }
    ensures others { (m : ℤ) (k : Key) → is_eq (key_cmp key k) ≡ false → IsListed dues.old.entries m k → IsListed dues.new.entries m k }
{
    let due = Due { moment, key };
    let _was = dues.remove(&due);
    let Due { key, .. } = due;
    key
}

/// Whether a key is listed at a moment, where there is one.
fn has(dues: &BTreeMap<Due, (), Global>, key: Key, moment: Option<i64>) -> (Key, bool)
    ensures key { result.0 ≡ key }
    ensures there { IsTrue result.1 → (m : ℤ) → moment ≡ Some m → IsListed dues.now.entries m key }
{
    let Some(moment) = moment else {
        return (key, true);
    };
    let due = Due { moment, key };
    let there = dues.contains_key(&due);
    let Due { key, .. } = due;
    (key, there)
}

/// Takes a key off the list where the moment of its row is to be another, and tells whether it is listed there.
fn relist(
    slots: &BTreeMap<Key, Option<Slot>, Global>,
    dues: &mut BTreeMap<Due, (), Global>,
    key: Key,
    moment: Option<i64>,
) -> (Key, bool)
    ensures key { result.0 ≡ key }
    ensures others { (m : ℤ) (k : Key) → is_eq (key_cmp key k) ≡ false → IsListed dues.old.entries m k → IsListed dues.new.entries m k }
    ensures there { IsTrue result.1 → (m : ℤ) → moment ≡ Some m → IsListed dues.new.entries m key }
{
    if moment.is_none() && dues.is_empty() {
        return (key, true);
    }
    let before = moment_of(slots.get(&key));
    if before == moment {
        return has(dues, key, moment);
    }
    let key = unlist_if(dues, key, before);
    has(dues, key, moment)
}

fn unlist_if(dues: &mut BTreeMap<Due, (), Global>, key: Key, moment: Option<i64>) -> Key
    ensures key { result ≡ key }
    ensures others { (m : ℤ) (k : Key) → is_eq (key_cmp key k) ≡ false → IsListed dues.old.entries m k → IsListed dues.new.entries m k }
{
    match moment {
        Some(moment) => unlist(dues, key, moment),
        None => key,
    }
}

/// Makes a slot for a key, and lists it at a moment.
pub(crate) fn enter(
    alloc: Global,
    slots: &mut BTreeMap<Key, Option<Slot>, Global>,
    dues: &mut BTreeMap<Due, (), Global>,
    key: &Key,
    moment: Option<i64>,
) -> Result<(), OutOfMemory>
    ensures held { held_in slots.new.entries ≡ held_in slots.old.entries }
    ensures kept { KeepsPlaces (keys slots.old) (keys slots.new) }
    ensures there { OnOk result (IsTrue (has_place (keys slots.new) key.now)) }
    ensures listed { AreListed slots.old.entries dues.old.entries → AreListed slots.new.entries dues.new.entries }
{
    make_slot(alloc, slots, key)?;
    list(alloc, dues, key, moment)
}

/// Whether the first is due before a cutoff.
fn is_due(dues: &BTreeMap<Due, (), Global>, cutoff: i64) -> bool
    ensures first { result ≡ first_due cutoff dues.now.entries }
    ensures none { result ≡ false → (m : ℤ) (k : Key) → IsListed dues.now.entries m k → int_lt m cutoff ≡ false }
{
    match dues.first_key_value() {
        Some((due, _)) => due.moment < cutoff,
        None => false,
    }
}

/// Takes out the row that is first due, where it is past a cutoff, and tells whether it is.
fn take_first(
    slots: &mut BTreeMap<Key, Option<Slot>, Global>,
    dues: &mut BTreeMap<Due, (), Global>,
    cutoff: i64,
) -> bool
    requires due { first_due cutoff dues.old.entries ≡ true }
    requires listed { AreListed slots.old.entries dues.old.entries }
    ensures held { filter (stays cutoff) (held_in slots.new.entries) ≡ filter (stays cutoff) (held_in slots.old.entries) }
    ensures gone { count_by (is_gone cutoff) (held_in slots.old.entries) ≡ (if result then 1 else 0) + count_by (is_gone cutoff) (held_in slots.new.entries) }
    ensures keys { keys slots.new ≡ keys slots.old }
    ensures listed { AreListed slots.new.entries dues.new.entries }
    ensures less { btree_map_len dues.new < btree_map_len dues.old }
{
    match dues.pop_first() {
        Some((due, _)) => {
            let Due { key, .. } = due;
            blank(slots, key, cutoff)
        }
        None => false,
    }
}

/// Takes out so many of the rows that are first due, those that retention takes out, and tells how many.
fn take_some(
    slots: &mut BTreeMap<Key, Option<Slot>, Global>,
    dues: &mut BTreeMap<Due, (), Global>,
    cutoff: i64,
    most: usize,
) -> usize
    requires listed { AreListed slots.old.entries dues.old.entries }
    ensures held { filter (stays cutoff) (held_in slots.new.entries) ≡ filter (stays cutoff) (held_in slots.old.entries) }
    ensures gone { result + count_by (is_gone cutoff) (held_in slots.new.entries) ≡ count_by (is_gone cutoff) (held_in slots.old.entries) }
    ensures keys { keys slots.new ≡ keys slots.old }
    ensures listed { AreListed slots.new.entries dues.new.entries }
    ensures few { count_by (is_gone cutoff) (held_in slots.old.entries) < 2 ^ 63 }
{
    let _most = slots.len();
    let mut gone = 0;
    for _ in 0..most {
        if !is_due(dues, cutoff) {
            break;
        }
        if take_first(slots, dues, cutoff) {
            gone += 1;
        }
    }
    gone
}

/// Takes out the rows that retention takes out, looking at every slot, and tells how many.
fn take_rest(
    slots: &mut BTreeMap<Key, Option<Slot>, Global>,
    dues: &mut BTreeMap<Due, (), Global>,
    cutoff: i64,
) -> usize
    requires listed { AreListed slots.old.entries dues.old.entries }
    ensures held { held_in slots.new.entries ≡ filter (stays cutoff) (held_in slots.old.entries) }
    ensures gone { result ≡ count_by (is_gone cutoff) (held_in slots.old.entries) }
    ensures keys { keys slots.new ≡ keys slots.old }
    ensures listed { AreListed slots.new.entries dues.new.entries }
{
    let gone = take_past(slots, cutoff);
    dues.retain(|due, _| is_later(due, cutoff));
    gone
}

fn is_later(due: &Due, cutoff: i64) -> bool
    ensures { result ≡ spec.is_later cutoff due.now }
{
    let is_past = due.moment < cutoff;
    !is_past
}

/// Takes out the rows that retention takes out, and tells how many: each as it is found due, or, where more are due
/// than one in 64 of all slots, looking at every slot. Takes no memory.
fn take_due(
    slots: &mut BTreeMap<Key, Option<Slot>, Global>,
    dues: &mut BTreeMap<Due, (), Global>,
    cutoff: i64,
) -> usize
    requires listed { AreListed slots.old.entries dues.old.entries }
    ensures held { held_in slots.new.entries ≡ filter (stays cutoff) (held_in slots.old.entries) }
    ensures gone { result ≡ count_by (is_gone cutoff) (held_in slots.old.entries) }
    ensures keys { keys slots.new ≡ keys slots.old }
    ensures listed { AreListed slots.new.entries dues.new.entries }
{
    let most = slots.len() / 64;
    let gone = take_some(slots, dues, cutoff, most);
    if is_due(dues, cutoff) {
        gone + take_rest(slots, dues, cutoff)
    } else {
        gone
    }
}

/// Puts a row into its slot and lists it, and tells whether the slot had none, and whether each row is listed, where
/// each was if `exact`. Takes no memory.
pub(crate) fn store(
    slots: &mut BTreeMap<Key, Option<Slot>, Global>,
    dues: &mut BTreeMap<Due, (), Global>,
    exact: bool,
    held: Held,
) -> (bool, bool)
    requires place { IsTrue (has_place (keys slots.old) (key_of held)) }
    ensures held { held_in slots.new.entries ≡ put held (held_in slots.old.entries) }
    ensures keys { keys slots.new ≡ keys slots.old }
    ensures len { length (held_in slots.new.entries) ≡ length (held_in slots.old.entries) + (if result.0 then 1 else 0) }
    ensures few { length (held_in slots.old.entries) < 2 ^ 63 }
    ensures listed { (exact ≡ true → AreListed slots.old.entries dues.old.entries) → result.1 ≡ true → AreListed slots.new.entries dues.new.entries }
{
    let Held { row, moment } = held;
    let (key, shown) = split(row);
    let (key, is_listed) = relist(slots, dues, key, moment);
    let is_new = fill(slots, key, Slot { shown, moment });
    (is_new, both(exact, is_listed))
}

fn both(a: bool, b: bool) -> bool
    ensures { result ≡ (a && b) }
{
    a && b
}

/// Takes out the rows that retention takes out, and tells how many. Looks at every slot, unless each row is listed.
/// Takes no memory.
pub(crate) fn take(
    slots: &mut BTreeMap<Key, Option<Slot>, Global>,
    dues: &mut BTreeMap<Due, (), Global>,
    exact: bool,
    cutoff: i64,
) -> usize
    requires listed { exact ≡ true → AreListed slots.old.entries dues.old.entries }
    ensures held { held_in slots.new.entries ≡ filter (stays cutoff) (held_in slots.old.entries) }
    ensures gone { result ≡ count_by (is_gone cutoff) (held_in slots.old.entries) }
    ensures keys { keys slots.new ≡ keys slots.old }
    ensures listed { exact ≡ true → AreListed slots.new.entries dues.new.entries }
{
    if exact {
        take_due(slots, dues, cutoff)
    } else {
        take_past(slots, cutoff)
    }
}
