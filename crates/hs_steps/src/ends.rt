//! The law that rules of the same tree end alike.

ghost use Rattle.std.specs.Prelude.{◌≡◌, ℕ, List, None, length};
ghost use Rattle.hs_scheme.specs.declared.term.Head.{Head};
ghost use Rattle.hs_scheme.specs.declared.term.Head.TheVariants.{Tm};
ghost use Rattle.hs_scheme.specs.declared.term.Rule.{Rule};
ghost use Rattle.hs_scheme.specs.acceptance.Transition.{TransitionData};
ghost use Rattle.hs_scheme.specs.Tree.{Trees, node};
ghost use Rattle.hs_scheme.specs.acceptance.Automaton.{next};
ghost use Rattle.hs_scheme.specs.acceptance.Run.{start};
ghost use Rattle.hs_scheme.specs.Scheme.{AreRules};
ghost use Rattle.hs_scheme.specs.sorting.Unsorted.{AgreesWithRanks};
ghost use Rattle.hs_scheme.specs.sorting.Sorted.{known};
ghost use Rattle.hs_scheme.specs.acceptance.Steps.{Path, Reaches};
ghost use Rattle.hs_scheme.specs.SameTree.{HaveSameTree};

/// Where a path from the start leads to a terminal without transition, it leads along other rules of
/// the same tree, after some number of steps, to the same terminal in the same state.
pub fn same_trees_end_alike()
    ensures { (ranks : List ℕ) (rules others : List Rule) (ts : List TransitionData) →
        AreRules rules (length ranks) → HaveSameTree ranks rules others → AgreesWithRanks (known ranks) ts →
        (n p a : ℕ) (us : Trees Head) (path : Path) →
        Reaches rules ts n 0 start path p (node (Tm a) us) → next ts p a ≡ None →
        (m : ℕ) × (vs : Trees Head) × Reaches others ts m 0 start path p (node (Tm a) vs) }
{}
