// The calls of a turn.
ghost use Rattle.std.specs.Prelude.{◌≡◌, ℕ, ◌+◌, ◌-◌, ◌<◌, ◌≤◌, ◌^◌, ◌++◌, IfOk, IfErr, MatchResult, OnOk, All, length, [], drop, true, false, slice_get, Some};
ghost use mathlib.Core.List.{IsPrefix};
ghost use Rattle.tf_turn.specs.Plays.{taking, missing, showing, leaving, seeing, informed, noted, making, hired, gathering};
ghost use Rattle.tf_turn.specs.Turns.{IsOf, view, turn_of, seats_of};

use crate::plays::{Free, Gather, Hire, Look, Note, Show, Try};
use crate::seat::Seat;
use crate::turn::{Busy, Turn};
use crate::view::Stands;
use std::sync::Wait;
use std::thread::yield_now;

impl<T: Stands> Turn<T> {
    /// Takes the turn, where no other seat holds it, and gives the value: its list begins with all that the seat has seen.
    ///
    /// `Busy` comes only where the one exchange of this call saw the turn taken by another seat: the seat's misses are then one
    /// more. It waits for nobody and takes no memory.
    pub fn try_take(&self, seat: &mut Seat<T>) -> Result<T, Busy>
        requires turn { IsOf self.now seat.old }
        requires idle { (view seat.old).holds ≡ false }
        ensures turn { turn_of seat.new ≡ turn_of seat.old }
        ensures ok { IfOk result (λ x. IsPrefix (view seat.old).seen (T.items x) × (T.name x ≡ (view seat.old).name) × (view seat.new ≡ taking (view seat.old) (T.items x))) }
        ensures busy { IfErr result (λ _. view seat.new ≡ missing (view seat.old)) }
    {
        let shared = &self.table.shared;
        let found = shared.compare_exchange::<Try>(&mut seat.place, 0, 0, seat.number + 1);
        if found != 0 {
            return Err(Busy);
        }
        match shared.exchange(&mut seat.place, 0, None) {
            Some(value) => Ok(value),
            None => unreachable!(),
        }
    }

    /// Takes the turn as `try_take` does, and waits until no other seat holds it: it tries again and again, and lets other threads run
    /// in between. Takes no memory.
    pub fn take<R: Wait>(&self, rt: &R, seat: &mut Seat<T>) -> T
        requires turn { IsOf self.now seat.old }
        requires idle { (view seat.old).holds ≡ false }
        ensures turn { turn_of seat.new ≡ turn_of seat.old }
        ensures value { IsPrefix (view seat.old).seen (T.items result) × (T.name result ≡ (view seat.old).name) }
        ensures seat { (missed : ℕ) × ((view seat.old).misses ≤ missed) × (view seat.new ≡ record (taking (view seat.old) (T.items result)) { misses = missed }) }
    {
        for _ in rt.forever() {
            match self.try_take(seat) {
                Ok(value) => return value,
                Err(Busy) => yield_now(),
            }
        }
        unreachable!()
    }

    /// Puts the value back, publishes its list and lets the turn go. The items behind those that were taken name this seat, and
    /// become its own. Takes no memory.
    pub fn give_back(&self, seat: &mut Seat<T>, value: T)
        requires turn { IsOf self.now seat.old }
        requires holds { (view seat.old).holds ≡ true }
        requires name { T.name value ≡ (view seat.old).name }
        requires longer { IsPrefix (view seat.old).taken (T.items value) }
        requires own { All (λ x. T.giver x ≡ (view seat.old).number) (drop (length (view seat.old).taken) (T.items value)) }
        ensures turn { turn_of seat.new ≡ turn_of seat.old }
        ensures seat { view seat.new ≡ leaving (showing (view seat.old) (T.items value)) }
    {
        let count = value.count();
        let shared = &self.table.shared;
        let empty = shared.exchange(&mut seat.place, 0, Some(value));
        let None = empty else { unreachable!() };
        shared.store::<Show>(&mut seat.place, 1, count);
        shared.store::<Free>(&mut seat.place, 0, 0);
    }

    /// How many items were published: this list the seat has then seen, and it begins with all that it had seen before. It waits for
    /// nobody and takes no memory.
    pub fn count(&self, seat: &mut Seat<T>) -> u64
        requires turn { IsOf self.now seat.old }
        ensures turn { turn_of seat.new ≡ turn_of seat.old }
        ensures seat { view seat.new ≡ seeing (view seat.old) (view seat.new).seen }
        ensures longer { IsPrefix (view seat.old).seen (view seat.new).seen }
        ensures count { result ≡ length (view seat.new).seen }
    {
        self.table.shared.load::<Look>(&mut seat.place, 1)
    }

    /// A seat in place of `other`, with its number, all that it had seen and its own items. What `seat` has then seen begins with what
    /// each of the two had seen: so two threads that met know an order of their items. Takes no memory.
    pub fn meet(&self, seat: &mut Seat<T>, mut other: Seat<T>) -> Seat<T>
        requires turn { IsOf self.now seat.old × IsOf self.now other }
        ensures turn { (turn_of seat.new ≡ turn_of seat.old) × (turn_of result ≡ turn_of other) }
        ensures other { view result ≡ view other }
        ensures seat { view seat.new ≡ seeing (informed (view seat.old) (noted (view other))) (view seat.new).seen }
        ensures longer { IsPrefix (view seat.old).seen (view seat.new).seen × IsPrefix (view other).seen (view seat.new).seen }
    {
        let shared = &self.table.shared;
        let note = shared.split_seat::<Note>(&mut other.place);
        shared.join_seat::<Note>(&mut seat.place, note);
        shared.load::<Look>(&mut seat.place, 1);
        other
    }

    // The seat `number`, which the seat 0 makes.
    pub(crate) fn hire(&self, first: &mut Seat<T>, number: u64) -> Seat<T>
        requires turn { IsOf self.now first.old }
        requires first { ((view first.old).number ≡ 0) × ((view first.old).made ≡ number) × (number < seats_of self.now) }
        requires few { number + 1 < 2 ^ 64 }
        requires early { drop (view first.old).base (view first.old).seen ≡ [] }
        ensures turn { (turn_of first.new ≡ turn_of first.old) × (turn_of result ≡ turn_of first.old) }
        ensures first { view first.new ≡ making (view first.old) }
        ensures new { view result ≡ hired (view first.old) }
    {
        let place = self.table.shared.split_seat::<Hire>(&mut first.place);
        Seat { place, number }
    }

    // The seat 0 takes in another.
    pub(crate) fn gather(&self, first: &mut Seat<T>, other: Seat<T>)
        requires turn { IsOf self.now first.old × IsOf self.now other }
        requires idle { (view other).holds ≡ false }
        ensures turn { turn_of first.new ≡ turn_of first.old }
        ensures first { view first.new ≡ gathering (view first.old) (view other) }
    {
        let Seat { place, number: _ } = other;
        self.table
            .shared
            .join_seat::<Gather>(&mut first.place, place);
    }
}
