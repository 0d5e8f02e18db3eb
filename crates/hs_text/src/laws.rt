//! Laws of the report.

ghost use Rattle.std.specs.Prelude.{◌≡◌, ℕ, List, Option};
ghost use Rattle.hs_scheme.specs.Problem.{ProblemData};
ghost use Rattle.hs_table.specs.Entries.{EntryData};
ghost use Rattle.hs_text.specs.Report.{IsTableText, IsReport};
ghost use Rattle.hs_text.specs.declared.minimal.Minimal.{Minimal};
ghost use Rattle.hs_text.specs.declared.verdict.Verdict.{Verdict};

/// The report and the text of a table are unique.
pub fn report_is_unique()
    ensures table { (p : ProblemData) (table : List EntryData) (one other : List ℕ) →
        IsTableText p table one → IsTableText p table other → one ≡ other }
    ensures report { (p : ProblemData) (verdict : Verdict) (table : Option (List EntryData))
        (removed : Option ℕ) (minimal : Option Minimal)
        (one other : List ℕ) → IsReport p verdict table removed minimal one →
        IsReport p verdict table removed minimal other → one ≡ other }
{}
