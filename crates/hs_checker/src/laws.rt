//! Laws of checks.

ghost use Rattle.std.specs.Prelude.{◌≡◌, List};
ghost use Rattle.hs_scheme.specs.Problem.{ProblemData};
ghost use Rattle.hs_table.specs.Entries.{EntryData};
ghost use Rattle.hs_table.specs.Tables.{IsClosedTable, HasStart};
ghost use Rattle.hs_verdict.specs.Premises.{HasClosedFlow};
ghost use Rattle.hs_checker.specs.declared.fault.CheckFault.{CheckFault as AnyFault};
ghost use Rattle.hs_checker.specs.declared.fault.CheckFault.TheVariants.{OutOfMemory};
ghost use Rattle.hs_checker.specs.Checked.{IsFault};

/// Over a closed flow, `check` has no fault but want of memory for a closed table that lacks the start
/// entry, as a least table of a scheme that is accepted.
pub fn closed_tables_have_no_fault()
    ensures { (p : ProblemData) (T : List EntryData) (fault : AnyFault) →
        HasClosedFlow p → IsClosedTable p T → (HasStart p T → ⊥) → IsFault p T fault → fault ≡ OutOfMemory }
{}
