//! Why words aren't read.

use std::alloc::AllocError;
use std::error::Error;
use std::fmt;

/// Why words aren't read.
#[derive(Clone, Copy, Debug, PartialEq, Eq)]
pub enum WordsFault {
    /// The words have another form, or a number in them is out of range.
    Usage,
    /// Memory was refused.
    OutOfMemory,
}

impl fmt::Display for WordsFault {
    fn fmt<W: fmt::Write>(&self, f: &mut fmt::Formatter<W>) -> fmt::Result {
        match self {
            WordsFault::Usage => write!(f, "words of another form"),
            WordsFault::OutOfMemory => write!(f, "out of memory"),
        }
    }
}

impl Error for WordsFault {}

impl From<AllocError> for WordsFault {
    ghost use Rattle.std.specs.Prelude.{◌≡◌};
    ghost use Rattle.hs_words.specs.declared.fault.WordsFault.TheVariants as words;

    ghost from_gives = { λ _ fault. fault ≡ words.OutOfMemory };

    fn from(_refused: AllocError) -> WordsFault {
        WordsFault::OutOfMemory
    }
}

impl From<clap::Error> for WordsFault {
    ghost use Rattle.std.specs.Prelude.{◌≡◌};
    ghost use Rattle.hs_words.specs.Fault.{fault_of_kind};
    ghost use Rattle.clap.specs.Values.{kind_of};

    ghost from_gives = { λ error fault. fault ≡ fault_of_kind (kind_of error) };

    fn from(error: clap::Error) -> WordsFault {
        match error.kind() {
            clap::error::ErrorKind::OutOfMemory => WordsFault::OutOfMemory,
            _ => WordsFault::Usage,
        }
    }
}
