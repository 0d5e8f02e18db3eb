//! Void pairs by number.

use hs_types::EnvId;

/// A pair of a nonterminal and an environment for its parameters, read in an interner.
#[derive(Clone, Copy, Debug, PartialEq, Eq, Hash)]
pub struct VoidRow {
    /// The rule of the nonterminal, counted from 0.
    pub rule: u32,
    pub env: EnvId,
}
