// How a turn begins and ends.
ghost use Rattle.std.specs.Prelude.{◌≡◌, ◌<◌, ◌≤◌, ◌+◌, ◌^◌, ℕ, false, IfOk, IfErr, length, List, [], slice_get, Some};
ghost use mathlib.Core.List.{IsPrefix};
ghost use Rattle.tf_turn.specs.Rule.{opened, Ended, Everyone};
ghost use Rattle.tf_turn.specs.Turns.{view, turn_of, id_of, start_of, seats_of, AreNew, AreAll, Gathers};

use crate::seat::Seat;
use crate::turn::Turn;
use crate::view::{Stands, Start};
use atomic_table::{Refused, Table};
use std::alloc::{AllocError, Global};
use std::snapshot::Snapshot;

impl<T: Stands> Turn<T> {
    /// A turn over a value with so many seats: seat n stands at place n of the list and has seen the value's list. Without memory the
    /// value comes back.
    pub fn new(
        alloc: Global,
        value: T,
        seats: u64,
    ) -> Result<(Turn<T>, Vec<Seat<T>>), (T, AllocError)>
        requires { 0 < seats }
        ensures ok { IfOk result (λ made. (start_of made.0 ≡ value) × (seats_of made.0 ≡ seats) × (length made.1.items ≡ seats) × AreNew (id_of made.0) (T.items value) (T.name value) made.1.items) }
        ensures err { IfErr result (λ back. back.0 ≡ value) }
    {
        let Ok(mut others) = Vec::with_capacity(alloc, seats as usize) else {
            return Err((value, AllocError));
        };
        let (turn, mut first) = Turn::lay(alloc, value, seats)?;
        for number in 1..seats {
            let seat = turn.hire(&mut first, number);
            others.push_reserved(seat);
        }
        let put = others.insert(0, first);
        let Ok(()) = put else { unreachable!() };
        Ok((turn, others))
    }

    // The table, and the seat 0.
    fn lay(alloc: Global, value: T, seats: u64) -> Result<(Turn<T>, Seat<T>), (T, AllocError)>
        requires { 0 < seats }
        ensures ok { IfOk result (λ made. (start_of made.0 ≡ value) × (seats_of made.0 ≡ seats) × (turn_of made.1 ≡ id_of made.0) × (view made.1 ≡ opened (T.items value) (T.name value))) }
        ensures err { IfErr result (λ back. back.0 ≡ value) }
    {
        let Ok(mut slots) = Vec::with_capacity(alloc, 1) else {
            return Err((value, AllocError));
        };
        let about = Start {
            value: Snapshot::of(&value),
            seats,
        };
        let count = value.count();
        slots.push_reserved(Some(value));
        match Table::new(alloc, &[0, count], slots, &about) {
            Ok((table, place)) => Ok((Turn { table }, Seat { place, number: 0 })),
            Err(Refused { slots: mut back }) => {
                let slot = back.pop();
                let Some(Some(value)) = slot else {
                    unreachable!()
                };
                back.destroy_empty();
                Err((value, AllocError))
            }
        }
    }

    /// Ends the turn, and gives the value back. All its seats are given, in order, and none of them holds the turn. The list begins with
    /// what each had seen, and behind the first list the items that name a seat are its own, in order. Takes no memory.
    pub fn close(self, seats: Vec<Seat<T>>) -> T
        requires { AreAll self seats.items }
        ensures list { IsPrefix (T.items (start_of self)) (T.items result) }
        ensures name { T.name result ≡ T.name (start_of self) }
        ensures seats { Gathers T.giver (T.items (start_of self)) (T.items result) seats.items }
    {
        let mut others = seats;
        let mut first = others.remove(0);
        while let Some(other) = others.pop() {
            self.gather(&mut first, other);
        }
        self.finish(first)
    }

    // The seat 0 has taken in all others.
    fn finish(self, first: Seat<T>) -> T
        requires turn { turn_of first ≡ id_of self }
        requires first { ((view first).number ≡ 0) × ((view first).holds ≡ false) × Everyone (seats_of self) (view first) }
        ensures { Ended T.items T.giver T.name (start_of self) (view first) result }
    {
        let Turn { table } = self;
        let Seat { place, number: _ } = first;
        let mut closed = table.close_with(place);
        let slot = closed.take(0);
        closed.free();
        let Some(value) = slot else { unreachable!() };
        value
    }
}
