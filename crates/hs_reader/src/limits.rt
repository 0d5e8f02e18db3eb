//! The limits on a file, beside those on the parts of a scheme.

/// The most bytes of a file.
pub const MAX_BYTES: usize = 16_777_216;

/// The most bytes of a name.
pub(crate) const MAX_NAME: usize = 200;

/// The most parentheses that are open at a place.
pub(crate) const MAX_DEPTH: usize = 200;

/// The most transitions.
pub(crate) const MAX_TRANSITIONS: usize = 200_000;

/// The most states on the right of one transition.
pub(crate) const MAX_CHILDREN: usize = 64;
