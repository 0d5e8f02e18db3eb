//! Laws of certificates, of compact tables and of void environments.

ghost use Rattle.std.specs.Prelude.{◌≡◌, ◌↔◌, ℕ, List};
ghost use Rattle.hs_scheme.specs.Problem.{ProblemData};
ghost use Rattle.hs_scheme.specs.acceptance.Run.{start, Accepts};
ghost use Rattle.hs_scheme.specs.acceptance.Steps.{Path, Fails};
ghost use Rattle.hs_table.specs.Entries.{Env, EntryData};
ghost use Rattle.hs_table.specs.Follows.{Follows};
ghost use Rattle.hs_table.specs.Tables.{IsClosedTable, HasStart};
ghost use Rattle.hs_verdict.specs.Closures.{Closure};
ghost use Rattle.hs_verdict.specs.Premises.{IsSortedProblem, HasClosedFlow};
ghost use Rattle.hs_weak.specs.Strength.{AsStrongAs};
ghost use Rattle.hs_weak.specs.Weak.{WeaklyFollows, IsCompact};
ghost use Rattle.hs_weak.specs.Void.{VoidData, IsVoid, IsVoidList};
ghost use Rattle.hs_weak.specs.Certificate.{IsAcceptanceCertificate};
ghost use Rattle.hs_weak_laws.specs.WeaklyTyped.{HasEnv};
ghost use Rattle.hs_weak_laws.specs.Built.{IsBuilt, IsBuiltFront, ComesInFront};

/// Over a flow that is closed, a certificate means that the automaton accepts the value tree of the
/// start.
pub fn certificates_accept()
    ensures { (p : ProblemData) (C : List EntryData) (V : List VoidData) (R : List (ℕ × ℕ)) →
        IsSortedProblem p → HasClosedFlow p → IsAcceptanceCertificate p C V R →
        Accepts p.sorted.scheme.rules p.sorted.automaton.transitions }
{}

/// Over a flow that is closed, a compact list has the start entry wherever some path from the start
/// fails.
pub fn compact_tables_have_the_start()
    ensures { (p : ProblemData) (C : List EntryData) →
        IsSortedProblem p → HasClosedFlow p → IsCompact p C → (n : ℕ) (path : Path) →
        Fails p.sorted.scheme.rules p.sorted.automaton.transitions n 0 start path → HasStart p C }
{}

/// Along each reduction from the start, in front, the closure and those of its stack are built, and the
/// stack is made of the arguments of sites, for each nonterminal that the closure's point may become.
pub fn reductions_are_built()
    ensures { (p : ProblemData) → IsSortedProblem p → HasClosedFlow p → (c : Closure) (ds : List Closure) →
        ComesInFront p c ds → IsBuiltFront p c ds }
{}

/// No closures that calls build for the parameters of a nonterminal have what a void environment
/// asks of them.
pub fn built_tuples_are_never_void()
    ensures { (p : ProblemData) (C : List EntryData) (V : List VoidData) → IsVoidList p C V →
        (f : ℕ) (cs : List Closure) → IsBuilt p f cs → (env : Env) →
        HasEnv AsStrongAs p C cs env → IsVoid p C V f env → ⊥ }
{}

/// With equality in place of strength, what weakly follows is what follows. So the law of closed
/// tables, that of `hs_verdict::complete_tables_have_the_start`, is a case of the induction that
/// proves the laws above.
pub fn closed_tables_are_a_case()
    ensures follows { (p : ProblemData) (T : List EntryData) (e : EntryData) →
        WeaklyFollows (λ t u. t ≡ u) p T e ↔ Follows p T e }
    ensures start { (p : ProblemData) (T : List EntryData) →
        IsSortedProblem p → HasClosedFlow p → IsClosedTable p T → (n : ℕ) (path : Path) →
        Fails p.sorted.scheme.rules p.sorted.automaton.transitions n 0 start path → HasStart p T }
{}
