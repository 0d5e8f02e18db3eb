//! Why an analysis has no answer.

ghost use Rattle.std.specs.Prelude.{◌≡◌};
ghost use Rattle.hs_flow.specs.declared.fault.FlowFault.TheVariants.{OutOfMemory};

use std::alloc::{AllocError, AllocFailed};
use std::error::Error;
use std::fmt;

/// Why a scheme's flow was not computed.
#[derive(Clone, Copy, Debug, PartialEq, Eq)]
pub enum FlowFault {
    /// The flow has more pairs than the limit.
    FlowLimit,
    /// Memory was refused.
    OutOfMemory,
}

impl fmt::Display for FlowFault {
    fn fmt<W: fmt::Write>(&self, f: &mut fmt::Formatter<W>) -> fmt::Result {
        match self {
            FlowFault::FlowLimit => write!(f, "too many flow pairs"),
            FlowFault::OutOfMemory => write!(f, "out of memory"),
        }
    }
}

impl Error for FlowFault {}

impl From<AllocError> for FlowFault {
    ghost from_gives = { λ _ e. e ≡ OutOfMemory };

    fn from(_refused: AllocError) -> FlowFault {
        FlowFault::OutOfMemory
    }
}

impl<T: Drop> From<AllocFailed<T>> for FlowFault {
    ghost from_gives = { λ _ e. e ≡ OutOfMemory };

    fn from(_refused: AllocFailed<T>) -> FlowFault {
        FlowFault::OutOfMemory
    }
}

impl From<hs_scheme::OutOfMemory> for FlowFault {
    ghost from_gives = { λ _ e. e ≡ OutOfMemory };

    fn from(_refused: hs_scheme::OutOfMemory) -> FlowFault {
        FlowFault::OutOfMemory
    }
}
