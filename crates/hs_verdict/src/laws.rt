//! Laws of closed tables, of failing paths and of supports.

ghost use Rattle.std.specs.Prelude.{◌↔◌, ℕ, List};
ghost use Rattle.hs_scheme.specs.Problem.{ProblemData};
ghost use Rattle.hs_scheme.specs.acceptance.Run.{start, Accepts};
ghost use Rattle.hs_scheme.specs.acceptance.Steps.{Path, Fails};
ghost use Rattle.hs_table.specs.Entries.{EntryData};
ghost use Rattle.hs_table.specs.Follows.{Support};
ghost use Rattle.hs_table.specs.Tables.{IsSupportedTable, IsClosedTable, HasSupports, HasStart};
ghost use Rattle.hs_verdict.specs.Premises.{IsSortedProblem, HasClosedFlow};

/// Over a flow that is closed, a closed table has the start entry wherever some path from the start
/// fails, that is, leads in some number of steps to a terminal that has no transition.
pub fn complete_tables_have_the_start()
    ensures { (p : ProblemData) (T : List EntryData) →
        IsSortedProblem p → HasClosedFlow p → IsClosedTable p T → (n : ℕ) (path : Path) →
        Fails p.sorted.scheme.rules p.sorted.automaton.transitions n 0 start path → HasStart p T }
{}

/// The automaton accepts the value tree of the start exactly where no path from the start fails.
pub fn acceptance_is_no_failing_path()
    ensures { (p : ProblemData) → IsSortedProblem p →
        Accepts p.sorted.scheme.rules p.sorted.automaton.transitions
        ↔ ((n : ℕ) (path : Path) → Fails p.sorted.scheme.rules p.sorted.automaton.transitions n 0 start path
        → ⊥) }
{}

/// So where a closed table over a closed flow lacks the start entry, the automaton accepts the value
/// tree of the start.
pub fn closed_tables_without_start_accept()
    ensures { (p : ProblemData) (T : List EntryData) →
        IsSortedProblem p → HasClosedFlow p → IsClosedTable p T →
        (HasStart p T → ⊥) → Accepts p.sorted.scheme.rules p.sorted.automaton.transitions }
{}

/// A supported table has a list of supports, one for each of its entries.
pub fn supported_tables_have_supports()
    ensures { (p : ProblemData) (T : List EntryData) → IsSupportedTable p T →
        (supports : List Support) × HasSupports p T supports }
{}
