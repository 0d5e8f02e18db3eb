//! What places are listed by.

use hs_types::TyId;

/// What the entries of a list have in common.
#[derive(Clone, Copy, Debug, PartialEq, Eq, Hash)]
pub(crate) enum Key {
    /// Their point.
    At(u32),
    /// Their point and their type.
    Typed(u32, TyId),
    /// Their point, and a type that their environments have at this parameter, counted from 0.
    Asking(u32, u32, TyId),
    /// Their point, and a type that their types take as this argument, counted from 0.
    Taking(u32, u32, TyId),
}
