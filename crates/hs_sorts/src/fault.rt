//! Why a scheme has no sorts.

use hs_scheme::OutOfMemory as WantOfMemory;
use thiserror::Error;

/// Why sort inference refuses a scheme. Where several hold, the first of these is answered.
#[derive(Clone, Copy, Debug, PartialEq, Eq, Drop, Error)]
pub enum SortFault {
    /// No sorting exists. The rules up to `rule`, counted from 0, have none, and those before it
    /// have one.
    #[error("rule {} counted from 0: ill-sorted", rule)]
    IllSorted { rule: u32 },
    /// A sorting exists, but this terminal's least sort has an argument other than `o`. It is the
    /// least such terminal, counted from 0.
    #[error("terminal {} counted from 0: not first order", terminal)]
    TerminalNotFirstOrder { terminal: u32 },
    /// The least sort of this rule's nonterminal has a size above 1,000. It is the first such
    /// rule, counted from 0.
    #[error("rule {} counted from 0: sort too large", rule)]
    SortTooLarge { rule: u32 },
    /// The rule has fewer parameters than its nonterminal's least sort has arguments, and with the
    /// missing ones it would have more than 64, or its body's head more than 64 arguments. It is the
    /// first such rule, counted from 0.
    #[error("rule {} counted from 0: too long", rule)]
    RuleTooLong { rule: u32 },
    /// Memory was refused.
    #[error("out of memory")]
    OutOfMemory,
}

impl From<WantOfMemory> for SortFault {
    ghost use Rattle.std.specs.Prelude.{◌≡◌};
    ghost use Rattle.hs_sorts.specs.declared.fault.SortFault.TheVariants.{OutOfMemory};

    ghost from_gives = { λ _ fault. fault ≡ OutOfMemory };

    fn from(_refused: WantOfMemory) -> SortFault {
        SortFault::OutOfMemory
    }
}
