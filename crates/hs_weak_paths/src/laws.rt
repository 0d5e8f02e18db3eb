//! Laws of weak supports and of compact lists.

ghost use Rattle.std.specs.Prelude.{◌↔◌, ℕ, List};
ghost use Rattle.hs_scheme.specs.Problem.{ProblemData};
ghost use Rattle.hs_scheme.specs.acceptance.Run.{start, Accepts};
ghost use Rattle.hs_scheme.specs.acceptance.Steps.{Path, Fails};
ghost use Rattle.hs_table.specs.Entries.{EntryData};
ghost use Rattle.hs_table.specs.Tables.{HasStart};
ghost use Rattle.hs_verdict.specs.Premises.{IsSortedProblem, HasClosedFlow};
ghost use Rattle.hs_weak.specs.Strength.{AsStrongAs};
ghost use Rattle.hs_weak.specs.Weak.{EachWeaklyFollows, IsCompact};

/// Where each entry of a list weakly follows from those before it, and the start entry is among them,
/// some path from the start fails: it leads in some number of steps to a terminal that has no
/// transition. So the automaton doesn't accept the value tree of the start. Nothing is asked of the
/// flow: what it allows at a parameter becomes a demand on the parameter.
pub fn weak_supports_reject()
    ensures fails { (p : ProblemData) (E : List EntryData) →
        IsSortedProblem p → EachWeaklyFollows AsStrongAs p E → HasStart p E →
        (n : ℕ) × (path : Path) × Fails p.sorted.scheme.rules p.sorted.automaton.transitions n 0 start path }
    ensures rejects { (p : ProblemData) (E : List EntryData) →
        IsSortedProblem p → EachWeaklyFollows AsStrongAs p E → HasStart p E →
        Accepts p.sorted.scheme.rules p.sorted.automaton.transitions → ⊥ }
{}

/// Over a closed flow, a compact list decides: the automaton accepts the value tree of the start
/// exactly where the list lacks the start entry, and the list has it exactly where the automaton
/// doesn't accept.
pub fn compact_lists_decide()
    ensures accepts { (p : ProblemData) (C : List EntryData) →
        IsSortedProblem p → HasClosedFlow p → IsCompact p C →
        Accepts p.sorted.scheme.rules p.sorted.automaton.transitions ↔ (HasStart p C → ⊥) }
    ensures has_start { (p : ProblemData) (C : List EntryData) →
        IsSortedProblem p → HasClosedFlow p → IsCompact p C →
        HasStart p C ↔ (Accepts p.sorted.scheme.rules p.sorted.automaton.transitions → ⊥) }
{}
