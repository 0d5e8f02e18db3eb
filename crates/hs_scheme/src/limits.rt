//! The limits on the parts of a scheme.

/// The most rules of a scheme.
pub const MAX_RULES: usize = 20_000;

/// The most parameters of a rule.
pub const MAX_PARAMETERS: usize = 64;

/// The most arguments of one application.
pub const MAX_ARGUMENTS: usize = 64;
