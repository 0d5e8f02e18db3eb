//! Seats that rest.

ghost use Rattle.std.specs.Prelude.{◌≡◌, false, [], ◌∷◌};
ghost use Rattle.hs_turn.specs.Seats.{SeatView};

use crate::known::Known;
use crate::seat::Seat;
use crate::storied::Storied;
use atomic_table::Badge;
use std::marker::Model;

/// A seat that holds no guard, in a type without the state's, or the place of one that was taken out.
///
/// Contracts see a list: the seat, or nothing.
#[derive(Drop)]
pub struct Rested<B, E> {
    pub(crate) badge: Badge<Known<B, E>>,
    pub(crate) number: u32,
    pub(crate) splits: u32,
}

impl<B, E> Model for Rested<B, E> {
    ghost use Rattle.std.specs.Prelude.{List};
    ghost use Rattle.hs_turn.specs.Seats.{SeatView, resting, IsResting};

    ghost Value = { List (SeatView B E) };

    ghost view = { λ r. resting r.badge.table_id r.badge.views };

    ghost invariant = { λ r. IsResting r.number r.splits r.badge.views };
}

impl<B, E> Rested<B, E> {
    /// A place without a seat. Takes no memory.
    pub fn blank() -> Rested<B, E>
        ensures { result ≡ [] }
    {
        Rested {
            badge: Badge::blank(),
            number: 0,
            splits: 0,
        }
    }

    /// The seat that rests here. Takes no memory.
    pub fn into_seat<T: Storied<Base = B, Event = E>>(self) -> Seat<T>
        requires { (seat : SeatView B E) × (self ≡ seat ∷ []) }
        ensures seat { self ≡ result ∷ [] }
        ensures free { result.known.holds ≡ false }
    {
        let Rested {
            badge,
            number,
            splits,
        } = self;
        Seat {
            inner: badge.into_seat(),
            number,
            splits,
        }
    }
}
