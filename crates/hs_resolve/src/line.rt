//! Lines of a file, and the first of the line faults.

ghost use Rattle.std.specs.Prelude.{◌≡◌, IfNone, IfSome};
ghost use Rattle.hs_reader.specs.Raw.{File};
ghost use Rattle.hs_resolve.specs.Least as least;
ghost use Rattle.hs_resolve.specs.Answer.{HasNoLineFault, IsAnswered};
ghost use Rattle.hs_resolve.specs.Tables.{AreLines};
ghost use Rattle.hs_resolve.specs.Choice.{is_at, least_line, fault_on};

use crate::fault::NameFault;

/// The lesser of two lines, where there is one.
pub(crate) fn earliest(a: Option<u32>, b: Option<u32>) -> Option<u32>
    ensures { result ≡ least.earliest a b }
{
    match (a, b) {
        (Some(a), Some(b)) => Some(a.min(b)),
        (Some(a), None) => Some(a),
        (None, b) => b,
    }
}

/// Whether it stands on this line.
fn stands(at: Option<u32>, line: u32) -> bool
    ensures { result ≡ is_at at line }
{
    match at {
        Some(at) => at == line,
        None => false,
    }
}

/// The least line of each line fault, where it stands.
#[derive(Clone, Copy)]
pub(crate) struct FaultLines {
    pub(crate) duplicate_rule: Option<u32>,
    pub(crate) duplicate_param: Option<u32>,
    pub(crate) undefined: Option<u32>,
    pub(crate) start_has_params: Option<u32>,
    pub(crate) duplicate_transition: Option<u32>,
    pub(crate) rank_clash: Option<u32>,
}

impl FaultLines {
    /// No fault stands anywhere.
    pub(crate) fn none() -> FaultLines {
        FaultLines {
            duplicate_rule: None,
            duplicate_param: None,
            undefined: None,
            start_has_params: None,
            duplicate_transition: None,
            rank_clash: None,
        }
    }

    /// The least of the lines.
    fn least(&self) -> Option<u32>
        ensures { result ≡ least_line self.now }
    {
        let transitions = earliest(self.duplicate_transition, self.rank_clash);
        let bodies = earliest(self.undefined, earliest(self.start_has_params, transitions));
        earliest(self.duplicate_rule, earliest(self.duplicate_param, bodies))
    }

    /// The first fault that stands on the least line.
    fn on(&self, line: u32) -> NameFault
        ensures { result ≡ fault_on self.now line }
    {
        if stands(self.duplicate_rule, line) {
            NameFault::DuplicateRule { line }
        } else if stands(self.duplicate_param, line) {
            NameFault::DuplicateParam { line }
        } else if stands(self.undefined, line) {
            NameFault::Undefined { line }
        } else if stands(self.start_has_params, line) {
            NameFault::StartHasParams { line }
        } else if stands(self.duplicate_transition, line) {
            NameFault::DuplicateTransition { line }
        } else {
            NameFault::RankClash { line }
        }
    }

    /// The fault on the least line, and there the first in the order of the fields.
    pub(crate) fn first(&self) -> Option<NameFault>
        ensures fault { (raw : File) → AreLines raw self.now → IfSome result (λ e. IsAnswered raw e) }
        ensures none { (raw : File) → AreLines raw self.now → IfNone result (HasNoLineFault raw) }
    {
        let line = self.least()?;
        Some(self.on(line))
    }
}
