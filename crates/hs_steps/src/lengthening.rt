//! The law that joins rules shorter than their sorts with the full rules that they are lengthened to.

ghost use Rattle.std.specs.Prelude.{◌≡◌, ◌↔◌, ℕ, List, Option, length, false};
ghost use Rattle.hs_scheme.specs.declared.term.Head.{Head};
ghost use Rattle.hs_scheme.specs.declared.term.Rule.{Rule};
ghost use Rattle.hs_scheme.specs.acceptance.Transition.{TransitionData};
ghost use Rattle.hs_scheme.specs.Tree.{Tree};
ghost use Rattle.hs_scheme.specs.acceptance.Cut.{cut};
ghost use Rattle.hs_scheme.specs.acceptance.Run.{run, start, Accepts};
ghost use Rattle.hs_scheme.specs.Scheme.{AreRules};
ghost use Rattle.hs_scheme.specs.sorting.Sorting.{SortTree, Sorts, IsSorting};
ghost use Rattle.hs_scheme.specs.sorting.Unsorted.{UnsortedData, IsUnsorted};
ghost use Rattle.hs_scheme.specs.sorting.Sorted.{SortedData, IsSorted, known};
ghost use Rattle.hs_scheme.specs.acceptance.Steps.{Path, Reaches, Fails};
ghost use Rattle.hs_scheme.specs.SameTree.{HaveSameTree};
ghost use Rattle.hs_scheme.specs.sorting.Lengthening.{lengthening, AreSortsOf};
ghost use Rattle.hs_scheme.specs.TreeTerms.{IsTreeTerm, AreSortedBy};
ghost use Rattle.hs_steps.specs.Lengthened.{IsLengthened};

/// From a term of sort `o` the lengthened rules make the same steps along the same paths to the same
/// terms as the rules themselves. So both come after the same numbers of steps to terminals without
/// transition, have the same tree, and are accepted both or neither.
pub fn lengthening_keeps_the_tree()
    ensures steps { (rules : List Rule) (terminals : ℕ) (ranks : List (Option ℕ)) (ts : List TransitionData)
        (s : Sorts) →
        AreSortedBy rules terminals ranks ts s → (ks : List SortTree) → AreSortsOf ks rules s →
        (n q p : ℕ) (t u : Tree Head) (path : Path) → IsTreeTerm s t →
        Reaches rules ts n q t path p u ↔ Reaches (lengthening rules ks) ts n q t path p u }
    ensures failures { (rules : List Rule) (terminals : ℕ) (ranks : List (Option ℕ))
        (ts : List TransitionData) (s : Sorts) →
        AreSortedBy rules terminals ranks ts s → (ks : List SortTree) → AreSortsOf ks rules s →
        (n q : ℕ) (t : Tree Head) (path : Path) → IsTreeTerm s t →
        Fails rules ts n q t path ↔ Fails (lengthening rules ks) ts n q t path }
    ensures acceptance { (rules : List Rule) (terminals : ℕ) (ranks : List (Option ℕ))
        (ts : List TransitionData) (s : Sorts) →
        AreSortedBy rules terminals ranks ts s → (ks : List SortTree) → AreSortsOf ks rules s →
        Accepts rules ts ↔ Accepts (lengthening rules ks) ts }
    ensures tree { (rules : List Rule) (terminals : ℕ) (ranks : List ℕ) (s : Sorts) (ks : List SortTree) →
        AreRules rules terminals → IsSorting rules (known ranks) (length rules) s → AreSortsOf ks rules s →
        HaveSameTree ranks rules (lengthening rules ks) }
{}

/// A sorted scheme and the unsorted one that it was made of by lengthening have the same tree, come
/// along the same paths to the same terms, and so to terminals without transition, after the same
/// numbers of steps, and have the same cuts refused.
pub fn lengthened_schemes_have_the_same_tree()
    ensures tree { (u : UnsortedData) (s : SortedData) → IsUnsorted u → IsSorted s → IsLengthened u s →
        HaveSameTree s.scheme.ranks u.rules s.scheme.rules }
    ensures reaching { (u : UnsortedData) (s : SortedData) → IsUnsorted u → IsSorted s → IsLengthened u s →
        (n : ℕ) (path : Path) (q : ℕ) (t : Tree Head) →
        Reaches u.rules u.automaton.transitions n 0 start path q t
        ↔ Reaches s.scheme.rules s.automaton.transitions n 0 start path q t }
    ensures failures { (u : UnsortedData) (s : SortedData) → IsUnsorted u → IsSorted s → IsLengthened u s →
        (n : ℕ) (path : Path) →
        Fails u.rules u.automaton.transitions n 0 start path
        ↔ Fails s.scheme.rules s.automaton.transitions n 0 start path }
    ensures refusals { (u : UnsortedData) (s : SortedData) → IsUnsorted u → IsSorted s → IsLengthened u s →
        (n : ℕ) →
        (run u.automaton.transitions 0 (cut u.rules n start) ≡ false)
        ↔ (run s.automaton.transitions 0 (cut s.scheme.rules n start) ≡ false) }
    ensures acceptance { (u : UnsortedData) (s : SortedData) → IsUnsorted u → IsSorted s → IsLengthened u s →
        Accepts u.rules u.automaton.transitions ↔ Accepts s.scheme.rules s.automaton.transitions }
{}
