//! Values with a story.

ghost use Rattle.std.specs.Prelude.{ℕ, List};

/// A value that has gone through a story of events, upon a base that stays the same.
///
/// The trait has no functions: its members are meanings, for contracts alone.
pub trait Storied {
    /// What stays the same, as plain data.
    type Base;

    /// What may happen to the value, as plain data.
    type Event;

    /// The base of a value.
    ghost base: { Self → Self.Base };

    /// What the value has gone through, the first event first.
    ghost story: { Self → List Self.Event };

    /// The number of the seat that tells an event.
    ghost number: { Self.Event → ℕ };
}
