//! Entering a turn, telling of events, and leaving.

ghost use Rattle.std.specs.Prelude.{◌≡◌, ◌+◌, ◌<◌, ◌≤◌, ◌^◌, false, true, List, [], ◌∷◌, ◌++◌, length, All, Some, IfSome, IfNone};
ghost use mathlib.Core.List.{IsPrefix};
ghost use Rattle.hs_turn.specs.Story.{told_by};
ghost use Rattle.hs_turn.specs.AtomicSteps.{Finds};
ghost use Rattle.hs_turn.specs.Views.{entered, having_told, having_left};

use crate::seat::Seat;
use crate::steps::{Enter, Leave, Tell, Telling};
use crate::storied::Storied;
use crate::turn::{COUNT, LOCK, SLOT, Turn};
use std::marker::Brand;
use std::sync::Wait;

/// The state of a turn that was entered. It has no `Drop`: it ends in `leave`.
pub struct Guard<'a, T: Storied> {
    /// The turn that was entered.
    pub turn: &'a Turn<T>,
    /// The state.
    pub state: T,
}

impl<T: Storied> Turn<T> {
    /// Takes the state, unless the lock is held.
    fn try_take(&self, seat: &mut Seat<T>) -> Option<T>
        requires turn { seat.old.turn ≡ self.now }
        requires free { seat.old.known.holds ≡ false }
        ensures turn { seat.new.turn ≡ seat.old.turn }
        ensures none { IfNone result (seat.new ≡ seat.old) }
        ensures finds { IfSome result (Finds T.base T.story T.number seat.old.known) }
        ensures seat { IfSome result (λ state. seat.new.known ≡ entered seat.old.known (T.story state)) }
    {
        let shared = &self.table.shared;
        if shared.compare_exchange::<Enter>(&mut seat.inner, LOCK, 0, 1) != 0 {
            return None;
        }
        shared.exchange(&mut seat.inner, SLOT, None)
    }

    /// Waits until no seat has the state, and takes it.
    ///
    /// The state found has the seat's base, its story begins with all that the seat had seen, and
    /// the events in it under the seat's number are the seat's own, in their order, all of which the
    /// seat had seen. The seat has then seen the whole story.
    pub fn enter<R: Wait>(&self, rt: &R, seat: &mut Seat<T>) -> Guard<'_, T>
        requires turn { seat.old.turn ≡ self.now }
        requires free { seat.old.known.holds ≡ false }
        ensures guard { result.turn.now ≡ self.now }
        ensures turn { seat.new.turn ≡ seat.old.turn }
        ensures base { seat.old.known.base ≡ Some (T.base result.state) }
        ensures begins { IsPrefix seat.old.known.seen (T.story result.state) }
        ensures own { told_by T.number seat.old.known.number (T.story result.state) ≡ seat.old.known.own }
        ensures seen_own { told_by T.number seat.old.known.number seat.old.known.seen ≡ seat.old.known.own }
        ensures seat { seat.new.known ≡ entered seat.old.known (T.story result.state) }
    {
        for _ in rt.forever() {
            if let Some(state) = self.try_take(seat) {
                return Guard { turn: self, state };
            }
            self.wait(rt);
        }
        unreachable!()
    }
}

impl<'a, T: Storied> Guard<'a, T> {
    /// Counts the event by which the state's story has just grown; it becomes the seat's own. The
    /// story has at most 2^63 events.
    pub fn tell(&mut self, seat: &mut Seat<T>)
        requires turn { seat.old.turn ≡ self.old.turn.now }
        requires holds { seat.old.known.holds ≡ true }
        requires grown { (event : T.Event) × (T.story self.old.state ≡ seat.old.known.seen ++ event ∷ [])
            × (T.number event ≡ seat.old.known.number) }
        requires room { length seat.old.known.seen < 2 ^ 63 }
        ensures guard { self.new ≡ self.old }
        ensures turn { seat.new.turn ≡ seat.old.turn }
        ensures seat { (event : T.Event) × (T.story self.old.state ≡ seat.old.known.seen ++ event ∷ [])
            × (seat.new.known ≡ having_told seat.old.known (event ∷ [])) }
    {
        count::<T, Brand>(self.turn, &self.state, seat, 1);
    }

    /// Counts the events, so many, by which the state's story has just grown; they become the seat's
    /// own. The story has at most 2^63 events. The cost is that of one event.
    pub fn tell_all(&mut self, seat: &mut Seat<T>, events: u64)
        requires turn { seat.old.turn ≡ self.old.turn.now }
        requires holds { seat.old.known.holds ≡ true }
        requires grown { (more : List T.Event) × (T.story self.old.state ≡ seat.old.known.seen ++ more)
            × (length more ≡ events) × All (λ e. T.number e ≡ seat.old.known.number) more }
        requires room { length seat.old.known.seen + events ≤ 2 ^ 63 }
        ensures guard { self.new ≡ self.old }
        ensures turn { seat.new.turn ≡ seat.old.turn }
        ensures seat { (more : List T.Event) × (T.story self.old.state ≡ seat.old.known.seen ++ more)
            × (seat.new.known ≡ having_told seat.old.known more) }
    {
        count::<T, Brand>(self.turn, &self.state, seat, events);
    }

    /// Puts the state back and frees the lock. The base is as it was found, and the story has grown
    /// by the told events alone.
    pub fn leave(self, seat: &mut Seat<T>)
        requires turn { seat.old.turn ≡ self.turn.now }
        requires holds { seat.old.known.holds ≡ true }
        requires base { seat.old.known.base ≡ Some (T.base self.state) }
        requires told { T.story self.state ≡ seat.old.known.seen }
        ensures turn { seat.new.turn ≡ seat.old.turn }
        ensures seat { seat.new.known ≡ having_left seat.old.known }
    {
        let Guard { turn, state } = self;
        let shared = &turn.table.shared;
        let out = shared.exchange(&mut seat.inner, SLOT, Some(state));
        let None = out else { unreachable!() };
        shared.store::<Leave>(&mut seat.inner, LOCK, 0);
        turn.wake();
    }
}

/// Counts the events that `J` names, which are so many. The state is there for the proof alone: the
/// caller names the events by it.
fn count<T: Storied, J: Telling<T::Event>>(
    turn: &Turn<T>,
    state: &T,
    seat: &mut Seat<T>,
    events: u64,
)
    requires turn { seat.old.turn ≡ turn.now }
    requires holds { seat.old.known.holds ≡ true }
    requires many { length J.events ≡ events }
    requires bear { All (λ e. T.number e ≡ seat.old.known.number) J.events }
    requires room { length seat.old.known.seen + events ≤ 2 ^ 63 }
    ensures turn { seat.new.turn ≡ seat.old.turn }
    ensures seat { seat.new.known ≡ having_told seat.old.known J.events }
{
    let _ = state;
    let shared = &turn.table.shared;
    shared.fetch_add::<Tell<J>>(&mut seat.inner, COUNT, events);
}
