// What a value stands for, what a seat knows, and the rule.
ghost use Rattle.std.specs.Prelude.{◌≡◌, ℕ, List, length};

use atomic_table::TableRule;
use std::collections::LinkedList;
use std::marker::PhantomData;
use std::snapshot::Snapshot;

/// A value that stands for one list of items. Its name, a list of numbers, is the same of each value that one turn ever has.
pub trait Stands {
    type Item;

    ghost items: { Self → List Self.Item };

    // The number of the seat that gave the item.
    ghost giver: { Self.Item → ℕ };

    ghost name: { Self → List ℕ };

    /// The length of the list.
    fn count(&self) -> u64
        ensures { result ≡ length (items self.now) };
}

/// What a seat knows, for contracts alone: no value of it is made.
pub struct View<I> {
    /// Whether it has a number. A note and a spent view have none.
    pub sits: bool,
    /// Whether another seat took it in.
    pub spent: bool,
    pub number: u64,
    /// At the seat 0, how many seats were made.
    pub made: u64,
    /// How many items the turn began with.
    pub base: u64,
    /// The name of the value.
    pub name: LinkedList<u64>,
    /// The published list, as far as the seat has seen it.
    pub seen: LinkedList<I>,
    /// What another seat had seen when it was met.
    pub told: LinkedList<I>,
    /// The items that it gave.
    pub own: LinkedList<I>,
    /// How often `try_take` saw the turn taken by another seat.
    pub misses: u64,
    /// Whether it holds the turn.
    pub holds: bool,
    /// While it holds the turn, the list that it took.
    pub taken: LinkedList<I>,
    /// At the seat 0, what the seats that were taken in knew.
    pub gone: LinkedList<Gone<I>>,
}

/// What a seat knew that another one took in at the end.
pub struct Gone<I> {
    pub number: u64,
    pub seen: LinkedList<I>,
    pub own: LinkedList<I>,
}

/// What the table is told once: the value that the turn begins with, and how many seats it gets.
#[derive(Drop)]
pub struct Start<T> {
    pub(crate) value: Snapshot<T>,
    pub(crate) seats: u64,
}

/// The rule of the table of a turn, for contracts alone.
pub struct Law<T> {
    of: PhantomData<T>,
}

impl<T: Stands> TableRule<Option<T>, View<T::Item>, Start<T>> for Law<T> {
    ghost use Rattle.tf_turn.specs.Rule.{Kept, opened};

    ghost holds = { λ key. Kept T.items T.giver T.name key.value.value key.seats };

    ghost first = { λ key. opened (T.items key.value.value) (T.name key.value.value) };
}
