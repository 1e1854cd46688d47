// The table with its value.
ghost use Rattle.std.specs.Prelude.{◌≡◌};

use crate::view::{Law, Stands, Start, View};
use atomic_table::Table;
use std::alloc::Global;

/// A value that the seats take in turns. It has to be closed with all its seats: then the value comes back.
pub struct Turn<T: Stands> {
    pub(crate) table: Table<Option<T>, View<T::Item>, Start<T>, Law<T>, Global>,
    ghost sized: { (table.shared.table_id.words ≡ 2) × (table.shared.table_id.slots ≡ 1) },
}

/// Another seat held the turn.
#[derive(Drop, Debug)]
pub struct Busy;
