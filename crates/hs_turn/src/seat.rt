//! The seats of a turn.

ghost use Rattle.std.specs.Prelude.{◌≡◌, false, [], ◌∷◌};

use crate::known::Known;
use crate::rested::Rested;
use crate::storied::Storied;
use std::marker::Model;

/// The right to enter a turn, with what its owner knows of the story. One seat belongs to one
/// thread at a time; it may be handed to another.
///
/// Contracts see the turn that made it and what it knows (`Known`).
#[derive(Drop)]
pub struct Seat<T: Storied> {
    pub(crate) inner: atomic_table::Seat<Option<T>, Known<T::Base, T::Event>>,
    pub(crate) number: u32,
    pub(crate) splits: u32,
}

impl<T: Storied> Model for Seat<T> {
    ghost use Rattle.hs_turn.specs.Seats.{SeatView, seat_view, IsSeat};

    ghost Value = { SeatView T.Base T.Event };

    ghost view = { λ s. seat_view s.inner.table_id s.inner.me.0 };

    ghost invariant = { λ s. IsSeat s.number s.splits s.inner.me };
}

impl<T: Storied> Seat<T> {
    /// The seat's number; the first seat of a turn has number 0. Takes no memory.
    pub fn number(&self) -> u32
        ensures { result ≡ self.now.known.number }
    {
        self.number
    }

    /// The same seat in a type that doesn't name the state, so that it can lie where a lifetime in
    /// the state's type may not. Takes no memory.
    pub fn into_rested(self) -> Rested<T::Base, T::Event>
        requires { self.known.holds ≡ false }
        ensures { result ≡ self ∷ [] }
    {
        let Seat {
            inner,
            number,
            splits,
        } = self;
        Rested {
            badge: inner.into_badge(),
            number,
            splits,
        }
    }
}
