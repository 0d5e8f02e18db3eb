//! The kinds of atomic steps, and what each tells the seat that makes it.

ghost use Rattle.std.specs.Prelude.{List, []};
ghost use Rattle.hs_turn.specs.Views.{having_split, split_off, having_joined, spent};
ghost use Rattle.hs_turn.specs.AtomicSteps.{Enters, Leaves, Tells, Looks};

use crate::known::Known;
use crate::storied::Storied;
use atomic_table::{Join, Play, Split};
use std::marker::{Brand, PhantomData};

/// A compare-exchange that takes the slot where the lock word is 0, and learns nothing where it is 1.
pub(crate) struct Enter;

impl<T: Storied> Play<Option<T>, Known<T::Base, T::Event>> for Enter {
    ghost then = { Enters T.base T.story T.number };
}

/// A store of 0 in the lock word, which gives the slot back.
pub(crate) struct Leave;

impl<T: Storied> Play<Option<T>, Known<T::Base, T::Event>> for Leave {
    ghost then = { Leaves };
}

/// The events that one addition counts. The step carries numbers alone, so the call names them.
pub(crate) trait Telling<E> {
    ghost events: { List E };
}

impl<E> Telling<E> for Brand {
    ghost events = { [] };
}

/// An addition to the count of the story.
pub(crate) struct Tell<J> {
    of: PhantomData<J>,
}

impl<T: Storied, J: Telling<T::Event>> Play<Option<T>, Known<T::Base, T::Event>> for Tell<J> {
    ghost then = { Tells J.events };
}

/// A load of the count of the story.
pub(crate) struct Look;

impl<T: Storied> Play<Option<T>, Known<T::Base, T::Event>> for Look {
    ghost then = { Looks };
}

/// What seat 0 and the new seat know after a split.
pub(crate) struct Halves;

impl<B, E> Split<Known<B, E>> for Halves {
    ghost left = { having_split };

    ghost right = { split_off };
}

/// What seat 0 knows after a join, and what is left of the other.
pub(crate) struct Both;

impl<B, E> Join<Known<B, E>> for Both {
    ghost both = { having_joined };

    ghost spent = { spent };
}
