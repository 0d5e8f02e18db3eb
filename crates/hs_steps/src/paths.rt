//! Laws of steps along a path, in any rules.

ghost use Rattle.std.specs.Prelude.{◌≡◌, ◌+◌, ◌∷◌, ◌++◌, ◌↔◌, ℕ, List, Some, slice_get};
ghost use Rattle.hs_scheme.specs.declared.term.Head.{Head};
ghost use Rattle.hs_scheme.specs.declared.term.Head.TheVariants.{Nt, Tm};
ghost use Rattle.hs_scheme.specs.declared.term.Rule.{Rule};
ghost use Rattle.hs_scheme.specs.acceptance.Transition.{TransitionData};
ghost use Rattle.hs_scheme.specs.Tree.{Tree, Trees, node, children};
ghost use Rattle.hs_scheme.specs.acceptance.Automaton.{next};
ghost use Rattle.hs_scheme.specs.acceptance.Cut.{unfolded};
ghost use Rattle.hs_scheme.specs.acceptance.Steps.{Path, StepsTo, Reaches, HasNoTransition, Fails, child_numbers};

/// Child numbers determine the path and where it leads: after equal numbers of steps to the same
/// state and term, and only after one number of steps to a terminal without transition.
pub fn steps_are_determined()
    ensures reaching { (rules : List Rule) (ts : List TransitionData) (n q p r : ℕ) (t u v : Tree Head)
        (path other : Path) →
        child_numbers path ≡ child_numbers other → Reaches rules ts n q t path p u
        → Reaches rules ts n q t other r v →
        (path ≡ other) × (p ≡ r) × (u ≡ v) }
    ensures failing { (rules : List Rule) (ts : List TransitionData) (m n q : ℕ) (t : Tree Head)
        (path other : Path) →
        child_numbers path ≡ child_numbers other → Fails rules ts m q t path → Fails rules ts n q t other →
        (m ≡ n) × (path ≡ other) }
{}

/// A path fails exactly where it reaches a terminal without transition. What fails after a first
/// step fails with that step in front; and a path that reaches a term reaches what one more step
/// leads to, with the step's label at its end.
pub fn paths_go_on()
    ensures end { (rules : List Rule) (ts : List TransitionData) (n q : ℕ) (t : Tree Head) (path : Path) →
        Fails rules ts n q t path ↔
        ((p : ℕ) × (u : Tree Head) × Reaches rules ts n q t path p u × HasNoTransition ts p u) }
    ensures replacement { (rules : List Rule) (ts : List TransitionData) (n q f : ℕ) (us : Trees Head)
        (u : Tree Head) (path : Path) →
        unfolded rules f (children us) ≡ Some u → Fails rules ts n q u path
        → Fails rules ts (n + 1) q (node (Nt f) us) path }
    ensures descent { (rules : List Rule) (ts : List TransitionData) (n q p a i : ℕ) (qs : List ℕ)
        (us : Trees Head) (u : Tree Head) (path : Path) →
        next ts q a ≡ Some qs → slice_get qs i ≡ Some p → slice_get (children us) i ≡ Some u →
        Fails rules ts n p u path → Fails rules ts (n + 1) q (node (Tm a) us) ((a, i + 1) ∷ path) }
    ensures reaching { (rules : List Rule) (ts : List TransitionData) (n q p r : ℕ) (t u v : Tree Head)
        (path label : Path) →
        Reaches rules ts n q t path p u → StepsTo rules ts p u label r v
        → Reaches rules ts (n + 1) q t (path ++ label) r v }
{}
