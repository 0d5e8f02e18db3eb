//! Why something is no certificate.

ghost use Rattle.std.specs.Prelude.{◌≡◌};
ghost use Rattle.hs_certificate_checker.specs.declared.fault.CertificateFault.TheVariants.{OutOfMemory};

use hs_table::Entry;
use std::error::Error;
use std::fmt;

/// Why a table, void pairs and read pairs are no certificate of acceptance, in the order in which it is
/// looked for.
#[derive(Debug, Drop)]
pub enum CertificateFault {
    /// The flow lacks this pair, which is demanded: the point may stand for the parameter, counted
    /// from 0.
    FlowOpen { rule: u32, param: u32, point: u32 },
    /// The flow lacks this pair, which is demanded: the point may become the nonterminal of the rule
    /// with `given` arguments.
    HeadOpen { point: u32, rule: u32, given: u32 },
    /// The table has the start entry.
    HasStart,
    /// The void pair at this place of the list, counted from 0, is the first that is out of shape; or,
    /// where none is, the first with a chain none of whose sites is blocked.
    NotVoid { place: usize },
    /// This entry weakly follows from the table, its last state is read at its point, and it is neither
    /// covered by an entry of the table nor void.
    Missing { entry: Entry },
    /// Memory was refused.
    OutOfMemory,
}

impl fmt::Display for CertificateFault {
    fn fmt<W: fmt::Write>(&self, f: &mut fmt::Formatter<W>) -> fmt::Result {
        match self {
            CertificateFault::FlowOpen { rule, param, point } => {
                write!(
                    f,
                    "point {point} is not in the flow of parameter {param} of rule {rule}"
                )
            }
            CertificateFault::HeadOpen { point, rule, given } => {
                write!(
                    f,
                    "rule {rule} with {given} arguments is not a head of point {point}"
                )
            }
            CertificateFault::HasStart => write!(f, "the table has the start entry"),
            CertificateFault::NotVoid { place } => write!(
                f,
                "the pair at place {place} is not void"
            ),
            CertificateFault::Missing { entry } => {
                let point = entry.point;
                write!(f, "an entry at point {point} is missing")
            }
            CertificateFault::OutOfMemory => write!(f, "out of memory"),
        }
    }
}

impl Error for CertificateFault {}

impl From<hs_scheme::OutOfMemory> for CertificateFault {
    ghost from_gives = { λ _ e. e ≡ OutOfMemory };

    fn from(_refused: hs_scheme::OutOfMemory) -> CertificateFault {
        CertificateFault::OutOfMemory
    }
}
