//! The limits of the calls.

/// The most steps of a reduction along a path, and the most children of the path.
pub const MAX_STEPS: u64 = 4_000_000;

/// The most steps on each branch of a cut whose errors are searched for.
pub const MAX_CUT: u32 = 30;
