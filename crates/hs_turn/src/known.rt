//! What a seat knows.

ghost use Rattle.std.specs.Prelude.{ℕ, List, Option};
ghost use Rattle.std.specs.Coded.{coded_list, coded_option, coded×, coded_ℕ};
ghost use base.Fml.{ftrue};

use std::marker::{Model, PhantomData};

/// What a seat knows of a story with events `E` upon a base `B`. No value of it is made: it is what
/// contracts say of a seat.
pub struct Known<B, E> {
    marker: PhantomData<(B, E)>,
    /// Whether the seat has entered and not left.
    pub holds: bool,
    /// Whether there is a seat that knows this, which ends when it is joined.
    pub live: bool,
    /// The seat's number, from 0.
    pub number: u64,
    /// How many seats this one has split off.
    pub splits: u64,
    /// How many seats this one has joined.
    pub joins: u64,
    /// The base of the state; none where there is no seat.
    pub ghost base: { Option B } by { coded_option B.code },
    /// The part of the story that the seat has seen, from its beginning.
    pub ghost seen: { List E } by { coded_list E.code },
    /// The seat's own events, in their order.
    pub ghost own: { List E } by { coded_list E.code },
    /// The shorter of the two lists at the last join.
    pub ghost kept: { List E } by { coded_list E.code },
    /// The number and the own events of each seat that this one has joined, in the order of the joins.
    pub ghost joined: { List (ℕ × List E) } by { coded_list (coded× coded_ℕ (coded_list E.code)) },
}

impl<B, E> Model for Known<B, E> {
    ghost also_owns = { λ _. ftrue };
}
