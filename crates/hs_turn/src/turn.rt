//! The turn, its seats' splits and joins.

ghost use Rattle.std.specs.Prelude.{◌≡◌, ℕ, ◌<◌, ◌^◌, ◌+◌, false, [], ◌∷◌, List, IfOk, IfErr, All, Some};
ghost use mathlib.Core.List.{IsPrefix};
ghost use Rattle.hs_turn.specs.Story.{told_by};
ghost use Rattle.hs_turn.specs.Views.{first_seat, having_split, split_off, having_joined};

use crate::known::Known;
use crate::seat::Seat;
use crate::steps::{Both, Halves, Look};
use crate::storied::Storied;
use atomic_table::{Refused, Table, TableRule};
use std::alloc::Global;
use std::marker::{Model, PhantomData};
use std::snapshot::Snapshot;
use std::sync::atomic::AtomicU64;

/// The lock word: 0 where the lock is free, 1 where it is held.
pub(crate) const LOCK: usize = 0;

/// The word that counts the story.
pub(crate) const COUNT: usize = 1;

/// The one slot, which holds the state.
pub(crate) const SLOT: usize = 0;

/// The rule that every atomic step keeps.
pub struct TurnRule<T> {
    of: PhantomData<T>,
}

impl<T: Storied> TableRule<Option<T>, Known<T::Base, T::Event>, Snapshot<T>> for TurnRule<T> {
    ghost use Rattle.hs_turn.specs.Rule.{IsTurn};
    ghost use Rattle.hs_turn.specs.Views.{first_seat};

    ghost holds = { λ key. IsTurn T.base T.story T.number (T.base key.value) };

    ghost first = { λ key. first_seat (T.base key.value) };
}

/// A lock with a state under it. A seat enters, finds the state, may change it and tell of it, and
/// leaves.
///
/// Contracts see which turn it is.
#[derive(Drop)]
pub struct Turn<T: Storied> {
    pub(crate) table: Table<Option<T>, Known<T::Base, T::Event>, Snapshot<T>, TurnRule<T>, Global>,
    // How many may sleep until the lock is free. The rule doesn't speak of it.
    pub(crate) sleepers: AtomicU64,
}

impl<T: Storied> Model for Turn<T> {
    ghost use Rattle.std.specs.Prelude.{◌≡◌};
    ghost use Rattle.atomic_table.specs.Seated.{TableId};

    ghost Value = { TableId };

    ghost view = { λ t. t.table.shared.table_id };

    ghost invariant = { λ t. (t.table.shared.table_id.words ≡ 2) × (t.table.shared.table_id.slots ≡ 1) };
}

impl<T: Storied> Turn<T> {
    /// A turn over the value, whose story is empty, and its first seat, which has number 0. `Err`
    /// hands the value back: memory was refused.
    pub fn new(alloc: Global, value: T) -> Result<(Turn<T>, Seat<T>), T>
        requires { T.story value ≡ [] }
        ensures turn { IfOk result (λ made. made.1.turn ≡ made.0) }
        ensures seat { IfOk result (λ made. made.1.known ≡ first_seat (T.base value)) }
        ensures err { IfErr result (λ refused. refused ≡ value) }
    {
        let key = Snapshot::of(&value);
        let Ok(mut slots) = Vec::with_capacity(alloc, 1) else {
            return Err(value);
        };
        slots.push_reserved(Some(value));
        match Table::new(alloc, &[0, 0], slots, &key) {
            Ok((table, inner)) => Ok((
                Turn {
                    table,
                    sleepers: AtomicU64::new(0),
                },
                Seat {
                    inner,
                    number: 0,
                    splits: 0,
                },
            )),
            Err(Refused { mut slots }) => {
                let value = slots.pop().unwrap().unwrap();
                slots.destroy_empty();
                Err(value)
            }
        }
    }

    /// A new seat. It knows the base, has seen what seat 0 has seen, and has no events of its own;
    /// its number is one more than the splits before. Takes no memory.
    pub fn split(&self, seat: &mut Seat<T>) -> Seat<T>
        requires turn { seat.old.turn ≡ self.now }
        requires free { seat.old.known.holds ≡ false }
        requires first { seat.old.known.number ≡ 0 }
        requires room { seat.old.known.splits + 1 < 2 ^ 32 }
        ensures turn { seat.new.turn ≡ seat.old.turn }
        ensures seat { seat.new.known ≡ having_split seat.old.known }
        ensures new_turn { result.turn ≡ seat.old.turn }
        ensures new_seat { result.known ≡ split_off seat.old.known }
    {
        let shared = &self.table.shared;
        let inner = shared.split_seat::<Halves>(&mut seat.inner);
        seat.splits += 1;
        Seat {
            inner,
            number: seat.splits,
            splits: 0,
        }
    }

    /// Ends the other seat. Seat 0 has then seen the longer of both lists, which begins with both,
    /// and has the other's own events beside its own. Takes no memory.
    pub fn join(&self, seat: &mut Seat<T>, other: Seat<T>)
        requires turn { seat.old.turn ≡ self.now }
        requires other_turn { other.turn ≡ self.now }
        requires free { seat.old.known.holds ≡ false }
        requires other_free { other.known.holds ≡ false }
        requires first { seat.old.known.number ≡ 0 }
        ensures turn { seat.new.turn ≡ seat.old.turn }
        ensures seat { seat.new.known ≡ having_joined seat.old.known other.known }
        ensures begins { IsPrefix seat.old.known.seen seat.new.known.seen }
        ensures other_begins { IsPrefix other.known.seen seat.new.known.seen }
    {
        let Seat {
            inner,
            number: _,
            splits: _,
        } = other;
        let shared = &self.table.shared;
        shared.join_seat::<Both>(&mut seat.inner, inner);
        shared.load::<Look>(&mut seat.inner, COUNT);
    }

    /// Ends the turn and gives the state. Seat 0 has joined as many seats as it split, so nobody
    /// holds the lock. Takes no memory.
    pub fn close(self, seat: Seat<T>) -> T
        requires turn { seat.turn ≡ self }
        requires free { seat.known.holds ≡ false }
        requires first { seat.known.number ≡ 0 }
        requires all_joined { seat.known.joins ≡ seat.known.splits }
        ensures base { seat.known.base ≡ Some (T.base result) }
        ensures begins { IsPrefix seat.known.seen (T.story result) }
        ensures own { told_by T.number 0 (T.story result) ≡ seat.known.own }
        ensures joined { All (λ (p : ℕ
            × List T.Event). told_by T.number p.0 (T.story result) ≡ p.1) seat.known.joined }
        ensures no_others { (n : ℕ) → seat.known.splits < n → told_by T.number n (T.story result) ≡ [] }
    {
        let Turn { table, sleepers: _ } = self;
        let Seat {
            inner,
            number: _,
            splits: _,
        } = seat;
        let mut closed = table.close_with(inner);
        let state = closed.take(SLOT).unwrap();
        closed.free();
        state
    }
}
