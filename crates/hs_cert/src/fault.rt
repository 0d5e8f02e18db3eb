//! Why a table was refused.

ghost use Rattle.std.specs.Prelude.{◌≡◌};
ghost use Rattle.hs_cert.specs.Misreading.{fault_on};

use std::alloc::{AllocError, AllocFailed};
use thiserror::Error;

/// Why a table was refused.
#[derive(Clone, Copy, Debug, PartialEq, Eq, Drop, Error)]
pub enum TableFault {
    /// The line of this number, counted from 1, is faulty or missing, and none before it is.
    #[error("a faulty line {line}")]
    Line { line: u32 },
    /// Memory was refused.
    #[error("memory was refused")]
    OutOfMemory,
}

/// Why a line was not read.
#[derive(Clone, Copy, Debug, PartialEq, Eq, Drop)]
pub(crate) enum Misread {
    /// What is looked for doesn't stand there.
    Faulty,
    /// Memory was refused.
    OutOfMemory,
}

impl Misread {
    /// What it comes to on this line.
    pub(crate) fn on_line(self, line: u32) -> TableFault
        ensures { result ≡ fault_on self line }
    {
        match self {
            Misread::Faulty => TableFault::Line { line },
            Misread::OutOfMemory => TableFault::OutOfMemory,
        }
    }
}

impl From<AllocError> for Misread {
    ghost use Rattle.hs_cert.specs.declared.fault.Misread.TheVariants as misread;

    ghost from_gives = { λ _ e. e ≡ misread.OutOfMemory };

    fn from(_refused: AllocError) -> Misread {
        Misread::OutOfMemory
    }
}

impl<T: Drop> From<AllocFailed<T>> for Misread {
    ghost use Rattle.hs_cert.specs.declared.fault.Misread.TheVariants as misread;

    ghost from_gives = { λ _ e. e ≡ misread.OutOfMemory };

    fn from(_refused: AllocFailed<T>) -> Misread {
        Misread::OutOfMemory
    }
}

impl From<hs_scheme::OutOfMemory> for Misread {
    ghost use Rattle.hs_cert.specs.declared.fault.Misread.TheVariants as misread;

    ghost from_gives = { λ _ e. e ≡ misread.OutOfMemory };

    fn from(_refused: hs_scheme::OutOfMemory) -> Misread {
        Misread::OutOfMemory
    }
}

impl From<AllocError> for TableFault {
    ghost use Rattle.hs_cert.specs.declared.fault.TableFault.TheVariants as fault;

    ghost from_gives = { λ _ e. e ≡ fault.OutOfMemory };

    fn from(_refused: AllocError) -> TableFault {
        TableFault::OutOfMemory
    }
}

impl<T: Drop> From<AllocFailed<T>> for TableFault {
    ghost use Rattle.hs_cert.specs.declared.fault.TableFault.TheVariants as fault;

    ghost from_gives = { λ _ e. e ≡ fault.OutOfMemory };

    fn from(_refused: AllocFailed<T>) -> TableFault {
        TableFault::OutOfMemory
    }
}

impl From<hs_scheme::OutOfMemory> for TableFault {
    ghost use Rattle.hs_cert.specs.declared.fault.TableFault.TheVariants as fault;

    ghost from_gives = { λ _ e. e ≡ fault.OutOfMemory };

    fn from(_refused: hs_scheme::OutOfMemory) -> TableFault {
        TableFault::OutOfMemory
    }
}
