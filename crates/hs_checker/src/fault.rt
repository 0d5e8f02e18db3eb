//! What a table or its flow lacks.

ghost use Rattle.std.specs.Prelude.{◌≡◌};
ghost use Rattle.hs_checker.specs.declared.fault.CheckFault.TheVariants.{OutOfMemory};

use hs_table::Entry;
use std::alloc::{AllocError, AllocFailed};
use std::error::Error;
use std::fmt;

/// Why a table doesn't show that its scheme is accepted.
#[derive(Debug, Drop)]
pub enum CheckFault {
    /// The flow lacks this pair, which is demanded: the point may stand for the parameter, counted
    /// from 0.
    FlowOpen { rule: u32, param: u32, point: u32 },
    /// The flow lacks this pair, which is demanded: the point may become the nonterminal of the rule
    /// with `given` arguments.
    HeadOpen { point: u32, rule: u32, given: u32 },
    /// The table lacks this entry, which follows from it.
    Missing { entry: Entry },
    /// The table has the start entry.
    HasStart,
    /// Memory was refused.
    OutOfMemory,
}

impl fmt::Display for CheckFault {
    fn fmt<W: fmt::Write>(&self, f: &mut fmt::Formatter<W>) -> fmt::Result {
        match self {
            CheckFault::FlowOpen { rule, param, point } => {
                write!(
                    f,
                    "point {point} is not in the flow of parameter {param} of rule {rule}"
                )
            }
            CheckFault::HeadOpen { point, rule, given } => {
                write!(
                    f,
                    "rule {rule} with {given} arguments is not a head of point {point}"
                )
            }
            CheckFault::Missing { entry } => {
                let point = entry.point;
                write!(f, "an entry at point {point} is missing")
            }
            CheckFault::HasStart => write!(f, "the table has the start entry"),
            CheckFault::OutOfMemory => write!(f, "out of memory"),
        }
    }
}

impl Error for CheckFault {}

impl From<AllocError> for CheckFault {
    ghost from_gives = { λ _ e. e ≡ OutOfMemory };

    fn from(_refused: AllocError) -> CheckFault {
        CheckFault::OutOfMemory
    }
}

impl<T: Drop> From<AllocFailed<T>> for CheckFault {
    ghost from_gives = { λ _ e. e ≡ OutOfMemory };

    fn from(_refused: AllocFailed<T>) -> CheckFault {
        CheckFault::OutOfMemory
    }
}

impl From<hs_scheme::OutOfMemory> for CheckFault {
    ghost from_gives = { λ _ e. e ≡ OutOfMemory };

    fn from(_refused: hs_scheme::OutOfMemory) -> CheckFault {
        CheckFault::OutOfMemory
    }
}
