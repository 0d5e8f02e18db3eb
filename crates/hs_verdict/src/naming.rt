//! Laws of namings, and of what least tables decide.

ghost use Rattle.std.specs.Prelude.{◌≡◌, ◌<◌, ◌↔◌, ℕ, List};
ghost use Rattle.hs_scheme.specs.Problem.{ProblemData};
ghost use Rattle.hs_scheme.specs.acceptance.Run.{start, Accepts};
ghost use Rattle.hs_scheme.specs.acceptance.Steps.{Path, Fails};
ghost use Rattle.hs_table.specs.Entries.{EntryData};
ghost use Rattle.hs_table.specs.Follows.{Support};
ghost use Rattle.hs_table.specs.Tables.{IsSupportedTable, IsLeastTable, HasSupports, HasStart};
ghost use Rattle.hs_verdict.specs.Premises.{IsSortedProblem, HasClosedFlow};
ghost use Rattle.hs_verdict.specs.Naming.{NamesPath, IsLong};
ghost use Rattle.hs_verdict.specs.Leading.{StartLeads};

/// A log names one path at most, and needs one number of steps for it.
pub fn namings_are_unique()
    ensures { (p : ProblemData) (T : List EntryData) (supports : List Support) (m n : ℕ) (one other : Path) →
        NamesPath p T supports m one → NamesPath p T supports n other → (m ≡ n) × (one ≡ other) }
{}

/// In a log whose entries follow from earlier ones by their supports, and which has the start entry,
/// the naming ends. The path that it names fails: in as many steps as the naming needs it leads from
/// the start to a terminal that has no transition. Where some least log needs more steps than a limit,
/// some path fails after more steps than that.
pub fn namings_end_and_fail()
    ensures ends { (p : ProblemData) (T : List EntryData) (supports : List Support) →
        IsSortedProblem p → HasSupports p T supports → HasStart p T →
        (need : ℕ) × (path : Path) × NamesPath p T supports need path }
    ensures fails { (p : ProblemData) (T : List EntryData) (supports : List Support) →
        IsSortedProblem p → HasSupports p T supports →
        (need : ℕ) (path : Path) → NamesPath p T supports need path →
        Fails p.sorted.scheme.rules p.sorted.automaton.transitions need 0 start path }
    ensures long { (p : ProblemData) (limit : ℕ) → IsSortedProblem p → IsLong p limit →
        (need : ℕ) × (path : Path) × (limit < need)
        × Fails p.sorted.scheme.rules p.sorted.automaton.transitions need 0 start path }
{}

/// From the first place of the start entry on, the naming leads the body of the start: each of its
/// steps is a step of the term, and at the end the place's terminal is in front, without transition in
/// the state that the support has.
pub fn namings_lead_the_start()
    ensures { (p : ProblemData) (T : List EntryData) (supports : List Support) →
        IsSortedProblem p → HasSupports p T supports → HasStart p T → StartLeads p T supports }
{}

/// So where a supported table has the start entry, the automaton doesn't accept the value tree of
/// the start.
pub fn supported_tables_with_start_reject()
    ensures { (p : ProblemData) (T : List EntryData) →
        IsSortedProblem p → IsSupportedTable p T → HasStart p T →
        Accepts p.sorted.scheme.rules p.sorted.automaton.transitions → ⊥ }
{}

/// Over a closed flow, the least table decides: the automaton accepts the value tree of the start
/// exactly where the table lacks the start entry.
pub fn least_tables_decide()
    ensures { (p : ProblemData) (T : List EntryData) →
        IsSortedProblem p → HasClosedFlow p → IsLeastTable p T →
        Accepts p.sorted.scheme.rules p.sorted.automaton.transitions ↔ (HasStart p T → ⊥) }
{}
