//! Laws of the second program, each the contract of a function that does nothing.

ghost use Rattle.std.specs.Prelude.{◌≢◌, ◌≤◌, ◌<◌, ◌^◌, ℕ, List, true, Ok, Some, None, length, All, AllPairs};
ghost use Rattle.hs_scheme.specs.acceptance.Automaton.{IsAutomaton};
ghost use Rattle.hs_scheme.specs.Problem.{ProblemData};
ghost use Rattle.hs_table.specs.Entries.{EntryData, InShape};
ghost use Rattle.hs_table.specs.Tables.{IsLeastTable, HasStart};
ghost use Rattle.hs_weak.specs.Void.{VoidData};
ghost use Rattle.hs_weak.specs.Certificate.{IsAcceptanceCertificate};
ghost use Rattle.hs_reads.specs.Own.{AreReadsOf};
ghost use Rattle.hs_text.specs.Report.{IsReport, IsCertificateReport};
ghost use Rattle.hs_text.specs.declared.verdict.Verdict.TheVariants.{Accepted};
ghost use Rattle.hs_checker.specs.Checked.{IsCount};
ghost use Rattle.hs_cert.specs.Certificate.{HasNamesInLines, AreNested, IsNested};
ghost use Rattle.hs_front.specs.Yields.{Yields};
ghost use Rattle.hs_check.specs.declared.verified.Shown.TheVariants.{Full, Compact};
ghost use Rattle.hs_check.specs.Evidence.{max_table, ComesTo};

/// What `horsat --table` reports of an accepted scheme is verified: the report of its least table that
/// lacks the start entry, with the number of its instances, within the limits, where its types are
/// nested at most 1,000 deep and no name has an LF.
pub fn reported_tables_are_verified()
    ensures { (bytes : List ℕ) (p : ProblemData) (table : List EntryData) (checked : ℕ) (text : List ℕ) →
        Yields bytes (Ok p) → IsAutomaton p.sorted.automaton → HasNamesInLines p →
        IsLeastTable p table → (HasStart p table → ⊥) → IsCount p table checked →
        length table ≤ 1000000 → checked < 2 ^ 64 → All IsNested table →
        IsReport p (Accepted (length table) checked) (Some table) None None text → length text ≤ max_table →
        ComesTo bytes text (Ok (Full checked)) }
{}

/// So is what it reports of a certificate of acceptance with its entries and void environments, where
/// that is one with the read pairs of the problem.
pub fn reported_certificates_are_verified()
    ensures { (bytes : List ℕ) (p : ProblemData) (table : List EntryData) (void : List VoidData)
        (reads : List (ℕ × ℕ)) (text : List ℕ) → Yields bytes (Ok p) → HasNamesInLines p →
        AreReadsOf p reads → IsAcceptanceCertificate p table void reads →
        AllPairs (λ a b. a ≢ b) table → AllPairs (λ a b. a ≢ b) void →
        length table ≤ 1000000 → length void ≤ 1000000 →
        All (InShape p) table → All IsNested table → All (λ v. AreNested v.env) void →
        IsCertificateReport p table void true None text → length text ≤ max_table →
        ComesTo bytes text (Ok (Compact (length table) (length void))) }
{}
