//! Why a file could not be read.

ghost use Rattle.std.specs.Prelude.{◌≡◌};
ghost use Rattle.hs_reader.specs.declared.fault.ReadFault.TheVariants.{OutOfMemory};

use std::alloc::{AllocError, AllocFailed};
use thiserror::Error;

/// A limit of a file.
#[derive(Clone, Copy, Debug, PartialEq, Eq)]
pub enum Which {
    /// A name has at most 200 bytes.
    Name,
    /// There are at most 20,000 rules.
    Rules,
    /// A rule has at most 64 parameters.
    Parameters,
    /// At most 200 parentheses are open at a place.
    Depth,
    /// A name is applied to at most 64 arguments.
    Arguments,
    /// There are at most 200,000 transitions.
    Transitions,
    /// A transition has at most 64 states on its right.
    Children,
}

/// Why a file was refused.
#[derive(Debug, Drop, Error)]
pub enum ReadFault {
    /// No file begins with the tokens up to one on this line, counted from 1.
    #[error("not of the grammar on line {line}")]
    Syntax { line: u32 },
    /// The file passes this limit.
    #[error("the limit {which:?} is passed")]
    Limit { which: Which },
    /// Memory was refused.
    #[error("memory was refused")]
    OutOfMemory,
}

impl From<AllocError> for ReadFault {
    ghost from_gives = { λ _ e. e ≡ OutOfMemory };

    fn from(_refused: AllocError) -> ReadFault {
        ReadFault::OutOfMemory
    }
}

impl<T: Drop> From<AllocFailed<T>> for ReadFault {
    ghost from_gives = { λ _ e. e ≡ OutOfMemory };

    fn from(_refused: AllocFailed<T>) -> ReadFault {
        ReadFault::OutOfMemory
    }
}

impl From<hs_scheme::OutOfMemory> for ReadFault {
    ghost from_gives = { λ _ e. e ≡ OutOfMemory };

    fn from(_refused: hs_scheme::OutOfMemory) -> ReadFault {
        ReadFault::OutOfMemory
    }
}
