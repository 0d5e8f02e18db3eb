//! Numbers of types, sets and environments.

ghost use Rattle.std.specs.Prelude.{◌≡◌};

use std::marker::Model;

/// The number of a type in an interner, counted from 0.
#[derive(Clone, Copy, Debug, Default, PartialEq, Eq, Hash)]
pub struct TyId(u32);

impl Model for TyId {
    ghost use Rattle.std.specs.Prelude.{ℕ};

    ghost Value = { ℕ };

    ghost view = { λ a. a.0 };

    ghost inverse = { λ n. record { 0 = n } };
}

impl TyId {
    pub(crate) fn at(place: u32) -> TyId
        ensures { result ≡ place }
    {
        TyId(place)
    }

    /// The number, in the 4 bytes that it is kept in.
    pub(crate) fn stored(self) -> u32
        ensures { result ≡ self }
    {
        self.0
    }

    /// The number itself.
    pub fn number(self) -> usize
        ensures { result ≡ self }
    {
        self.0 as usize
    }
}

/// The number of a set of types in an interner, counted from 0.
#[derive(Clone, Copy, Debug, Default, PartialEq, Eq, Hash)]
pub struct SetId(u32);

impl Model for SetId {
    ghost use Rattle.std.specs.Prelude.{ℕ};

    ghost Value = { ℕ };

    ghost view = { λ a. a.0 };

    ghost inverse = { λ n. record { 0 = n } };
}

impl SetId {
    pub(crate) fn at(place: u32) -> SetId
        ensures { result ≡ place }
    {
        SetId(place)
    }

    /// The number, in the 4 bytes that it is kept in.
    pub(crate) fn stored(self) -> u32
        ensures { result ≡ self }
    {
        self.0
    }

    /// The number itself.
    pub fn number(self) -> usize
        ensures { result ≡ self }
    {
        self.0 as usize
    }
}

/// The number of an environment in an interner, counted from 0.
#[derive(Clone, Copy, Debug, Default, PartialEq, Eq, Hash)]
pub struct EnvId(u32);

impl Model for EnvId {
    ghost use Rattle.std.specs.Prelude.{ℕ};

    ghost Value = { ℕ };

    ghost view = { λ a. a.0 };

    ghost inverse = { λ n. record { 0 = n } };
}

impl EnvId {
    pub(crate) fn at(place: u32) -> EnvId
        ensures { result ≡ place }
    {
        EnvId(place)
    }

    /// The number, in the 4 bytes that it is kept in.
    pub(crate) fn stored(self) -> u32
        ensures { result ≡ self }
    {
        self.0
    }

    /// The number itself.
    pub fn number(self) -> usize
        ensures { result ≡ self }
    {
        self.0 as usize
    }
}

/// What a type is: a state, counted from 0, or a set of types with a result.
#[derive(Clone, Copy, Debug, PartialEq, Eq, Hash)]
pub enum View {
    State(u32),
    Arrow(SetId, TyId),
}

/// An entry, read in an interner.
#[derive(Clone, Copy, Debug, PartialEq, Eq, Hash)]
pub struct Row {
    /// A point of the scheme, counted from 0.
    pub point: u32,
    pub env: EnvId,
    pub ty: TyId,
}
