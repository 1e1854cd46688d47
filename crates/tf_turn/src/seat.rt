// A seat at the table.
ghost use Rattle.tf_turn.specs.Rule.{given};
ghost use Rattle.std.specs.Prelude.{◌≡◌, drop, ◌+◌, ◌<◌, ◌^◌};
ghost use Rattle.tf_turn.specs.Hands.{IsResting, HasNumber, IsBased};

use crate::view::{Stands, View};

/// What one thread takes the turn with. Contracts see what it knows, a [`crate::View`].
#[derive(Drop)]
pub struct Seat<T: Stands> {
    pub(crate) place: atomic_table::Seat<Option<T>, View<T::Item>>,
    pub(crate) number: u64,
    ghost numbered: { HasNumber place.me number × (number + 1 < 2 ^ 64) },
    ghost resting: { IsResting place.me },
    // Its own items are those that it has seen of its number, past the first list.
    ghost inside: { given T.giver place.me.0.number (drop place.me.0.base place.me.0.seen) ≡ place.me.0.own },
    ghost based: { IsBased place.me.0 },
}

impl<T: Stands> Seat<T> {
    ghost use Rattle.std.specs.Prelude.{◌≡◌};

    /// The seat's number, which never changes.
    pub fn number(&self) -> u64
        ensures { result ≡ self.now.place.me.0.number }
    {
        self.number
    }
}
