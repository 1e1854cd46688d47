// A destination.
ghost use Rattle.std.specs.Prelude.{◌≡◌, [], OnOk, IfOk, IsTrue, count_by, filter, length, take};
ghost use Rattle.std.specs.List.Sorted.{IsStrictlySortedBy};
ghost use Rattle.std.specs.Option.{option_copied};
ghost use Rattle.tf_history.specs.Grouping.{row_at};
ghost use Rattle.tf_model.specs.Order.{key_cmp};
ghost use Rattle.tf_dest.specs.Tables.{HavePlaces, KeepsPlaces, has_place, held_keys, is_above, is_gone, key_of, put, put_page, rows_in, stays};

use crate::due::Due;
use crate::dues::{enter, store, take};
use crate::held::{Held, Slot, key_of_row};
use crate::slots::{copy_above, drop_room, find, take_all};
use std::alloc::Global;
use std::collections::BTreeMap;
use std::marker::Model;
use tf_model::{Key, List, OutOfMemory, Row};

/// The rows of a destination, ascending by key, each key once, and the keys that have a place.
///
/// A place is made with memory. A row is then put there without. A row that is taken out leaves its place, until
/// `tidy` takes the places without a row. Contracts see the rows and the keys that have a place.
#[derive(Drop)]
pub struct Dest {
    slots: BTreeMap<Key, Option<Slot>, Global>,
    /// The keys in the order of their rows' retention values, some of them of rows that were or will be. A retention
    /// policy takes out those that are first due, and looks at no other row.
    dues: BTreeMap<Due, (), Global>,
    /// Whether each row that has a retention value is among them.
    exact: bool,
    len: usize,
}

impl Model for Dest {
    ghost use Rattle.std.specs.Prelude.{◌≡◌, length, true};
    ghost use Rattle.std.specs.BTreeMap.{keys};
    ghost use Rattle.std.specs.Coded.{codes};
    ghost use Rattle.tf_dest.specs.Dues.{AreListed};
    ghost use Rattle.tf_dest.specs.Slots.{held_in};
    ghost use Rattle.tf_history.specs.Grouping.{row_at};
    ghost use Rattle.tf_model.specs.Order.{key_cmp};
    ghost use Rattle.tf_dest.specs.Tables.{Table};

    ghost Value = { Table };

    ghost coded = { Prim.hlevel codes };

    ghost view = { λ d. record { held = held_in d.slots.entries; places = keys d.slots } };

    ghost invariant = { λ d. (d.len ≡ length (held_in d.slots.entries)) × (d.exact ≡ true → AreListed d.slots.entries d.dues.entries) };
}

impl Dest {
    /// No rows. Takes no memory.
    pub fn new(alloc: Global) -> Dest
        ensures held { result.held ≡ [] }
        ensures places { result.places ≡ [] }
    {
        Dest {
            slots: BTreeMap::new(alloc),
            dues: BTreeMap::new(alloc),
            exact: true,
            len: 0,
        }
    }

    /// How many rows there are. They ascend by key, each key once. Takes no memory.
    pub fn len(&self) -> usize
        ensures len { result ≡ length self.now.held }
        ensures ascending { IsStrictlySortedBy key_cmp (held_keys self.now.held) }
    {
        let _slots = self.slots.len();
        self.len
    }

    /// Makes a place for the key of each row. Where memory is wanting, what was made stays.
    pub fn reserve(&mut self, alloc: Global, page: &[Held]) -> Result<(), OutOfMemory>
        ensures held { self.new.held ≡ self.old.held }
        ensures kept { KeepsPlaces self.old.places self.new.places }
        ensures there { OnOk result (HavePlaces self.new.places (held_keys page.now)) }
    {
        for held in page {
            self.make_place(alloc, key_of_row(&held.row), held.moment)?;
        }
        Ok(())
    }

    /// Makes a place for a key. A row with this retention value is then found by retention as soon as it is due.
    pub fn make_place(
        &mut self,
        alloc: Global,
        key: &Key,
        moment: Option<i64>,
    ) -> Result<(), OutOfMemory>
        ensures held { self.new.held ≡ self.old.held }
        ensures kept { KeepsPlaces self.old.places self.new.places }
        ensures there { OnOk result (IsTrue (has_place self.new.places key.now)) }
    {
        enter(alloc, &mut self.slots, &mut self.dues, key, moment)
    }

    /// Puts each row of a page in its place, in the place of a row of the same key. Takes no memory.
    pub fn upsert_page(&mut self, page: Vec<Held>)
        requires { HavePlaces self.old.places (held_keys page.items) }
        ensures held { self.new.held ≡ put_page page.items self.old.held }
        ensures places { self.new.places ≡ self.old.places }
    {
        for held in page {
            self.upsert(held);
        }
    }

    /// Puts a row in its place, in the place of a row of the same key. Takes no memory.
    pub fn upsert(&mut self, held: Held)
        requires { IsTrue (has_place self.old.places (key_of held)) }
        ensures held { self.new.held ≡ put held self.old.held }
        ensures places { self.new.places ≡ self.old.places }
    {
        let exact = self.exact;
        let (is_new, exact) = store(&mut self.slots, &mut self.dues, exact, held);
        self.exact = exact;
        if is_new {
            self.len += 1;
        }
    }

    /// Takes out the rows whose retention value is below a cutoff, and tells how many. Takes no memory.
    pub fn retain_from(&mut self, cutoff: i64) -> usize
        ensures gone { result ≡ count_by (is_gone cutoff) self.old.held }
        ensures held { self.new.held ≡ filter (stays cutoff) self.old.held }
        ensures places { self.new.places ≡ self.old.places }
    {
        let exact = self.exact;
        let gone = take(&mut self.slots, &mut self.dues, exact, cutoff);
        self.len -= gone;
        gone
    }

    /// Takes out all rows. Takes no memory.
    pub fn clear(&mut self)
        ensures held { self.new.held ≡ [] }
        ensures places { self.new.places ≡ self.old.places }
    {
        take_all(&mut self.slots);
        self.dues.clear();
        self.exact = true;
        self.len = 0;
    }

    /// Drops the places without a row, where they are more than the rows. Takes no memory.
    pub fn tidy(&mut self)
        ensures { self.new.held ≡ self.old.held }
    {
        if self.len < self.slots.len() / 2 {
            drop_room(&mut self.slots);
        }
    }

    /// A copy of the row of a key.
    pub fn get(&self, alloc: Global, key: &Key) -> Result<Option<Row>, OutOfMemory>
        ensures { IfOk result (λ row. row ≡ row_at key.now (rows_in self.now)) }
    {
        find(alloc, &self.slots, key)
    }

    /// Copies of the first rows above a key, or of the first of all, as many as are asked for or there are. Looks at no
    /// other row.
    pub fn rows_after(
        &self,
        alloc: Global,
        after: Option<&Key>,
        size: usize,
    ) -> Result<List<Row>, OutOfMemory>
        ensures { IfOk result (λ rows. rows ≡ take size (filter (is_above (option_copied after.entry)) (rows_in self.now))) }
    {
        copy_above(alloc, &self.slots, after, size)
    }
}
