//! Why a search ends early.

ghost use Rattle.std.specs.Prelude.{◌≡◌};
ghost use Rattle.hs_reads.specs.declared.stop.Stop.TheVariants.{OutOfMemory as Refused};

use hs_scheme::OutOfMemory;
use std::alloc::{AllocError, AllocFailed};

/// Why not all was found.
#[derive(Clone, Copy, Debug, PartialEq, Eq)]
pub(crate) enum Stop {
    /// There is too much of it.
    Limit,
    /// Memory was refused.
    OutOfMemory,
}

impl From<AllocError> for Stop {
    ghost from_gives = { λ _ e. e ≡ Refused };

    fn from(_refused: AllocError) -> Stop {
        Stop::OutOfMemory
    }
}

impl<T: Drop> From<AllocFailed<T>> for Stop {
    ghost from_gives = { λ _ e. e ≡ Refused };

    fn from(_refused: AllocFailed<T>) -> Stop {
        Stop::OutOfMemory
    }
}

impl From<OutOfMemory> for Stop {
    ghost from_gives = { λ _ e. e ≡ Refused };

    fn from(_refused: OutOfMemory) -> Stop {
        Stop::OutOfMemory
    }
}
