//! Why the names of a file are refused.

ghost use Rattle.std.specs.Prelude.{◌≡◌};
ghost use Rattle.hs_resolve.specs.declared.fault.NameFault.TheVariants.{OutOfMemory};

use std::alloc::{AllocError, AllocFailed};
use thiserror::Error;

/// The most states of an automaton.
pub const MAX_STATES: usize = 10_000;

/// Why the names of a file were refused. Lines are counted from 1.
#[derive(Debug, PartialEq, Eq, Drop, Error)]
pub enum NameFault {
    /// An earlier rule has the same left name. It stands on the line of the left name.
    #[error("a second rule for a name on line {line}")]
    DuplicateRule { line: u32 },
    /// An earlier parameter of the rule has the same name. It stands on the line of the parameter.
    #[error("a second parameter of a name on line {line}")]
    DuplicateParam { line: u32 },
    /// No rule has the upper name in a body on its left. It stands on the line of the name.
    #[error("a nonterminal without a rule on line {line}")]
    Undefined { line: u32 },
    /// The first rule has a parameter. It stands on the line of the rule's left name.
    #[error("parameters of the start on line {line}")]
    StartHasParams { line: u32 },
    /// An earlier transition has the same state and terminal. It stands on the line of the state.
    #[error("a second transition for a state and a terminal on line {line}")]
    DuplicateTransition { line: u32 },
    /// The first transition of the terminal has another length. It stands on the line of the state.
    #[error("a transition of another length on line {line}")]
    RankClash { line: u32 },
    /// There are more than `MAX_STATES` states.
    #[error("too many states")]
    TooManyStates,
    /// Memory was refused.
    #[error("memory was refused")]
    OutOfMemory,
}

impl From<AllocError> for NameFault {
    ghost from_gives = { λ _ e. e ≡ OutOfMemory };

    fn from(_refused: AllocError) -> NameFault {
        NameFault::OutOfMemory
    }
}

impl<T: Drop> From<AllocFailed<T>> for NameFault {
    ghost from_gives = { λ _ e. e ≡ OutOfMemory };

    fn from(_refused: AllocFailed<T>) -> NameFault {
        NameFault::OutOfMemory
    }
}

impl From<hs_scheme::OutOfMemory> for NameFault {
    ghost from_gives = { λ _ e. e ≡ OutOfMemory };

    fn from(_refused: hs_scheme::OutOfMemory) -> NameFault {
        NameFault::OutOfMemory
    }
}
