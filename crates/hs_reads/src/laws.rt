//! Laws of the reads of a problem. Each law is the contract of a function that does nothing.

ghost use Rattle.std.specs.Prelude.{◌↔◌, ℕ, List, Contains};
ghost use Rattle.hs_scheme.specs.Problem.{ProblemData};
ghost use Rattle.hs_reads.specs.Own.{AreReadsOf};

/// Two lists that are the reads of one problem have the same pairs.
pub fn own_reads_are_one()
    ensures { (p : ProblemData) (R S : List (ℕ × ℕ)) → AreReadsOf p R → AreReadsOf p S → (x : ℕ × ℕ) →
        Contains R x ↔ Contains S x }
{}
