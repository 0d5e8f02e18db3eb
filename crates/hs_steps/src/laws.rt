//! Laws of the definitions, each the contract of a function that does nothing.

ghost use Rattle.std.specs.Prelude.{◌≡◌, ◌+◌, ◌⊎◌, ◌↔◌, ℕ, List, Option, Some, false, length, slice_get};
ghost use Rattle.hs_scheme.specs.declared.term.Head.{Head};
ghost use Rattle.hs_scheme.specs.declared.term.Head.TheVariants.{Nt, Tm};
ghost use Rattle.hs_scheme.specs.declared.term.Rule.{Rule};
ghost use Rattle.hs_scheme.specs.acceptance.Transition.{TransitionData};
ghost use Rattle.hs_scheme.specs.Tree.{Tree, Trees, node, children};
ghost use Rattle.hs_scheme.specs.acceptance.Cut.{cut, unfolded};
ghost use Rattle.hs_scheme.specs.acceptance.Replacement.{subst};
ghost use Rattle.hs_scheme.specs.acceptance.Run.{run, start, Accepts};
ghost use Rattle.hs_scheme.specs.sorting.Sorting.{Sorts, arguments};
ghost use Rattle.hs_scheme.specs.acceptance.Steps.{Path, StepsTo, IsStuck, LeadsTo, Fails};
ghost use Rattle.hs_scheme.specs.TreeTerms.{IsTreeTerm, AreSortedBy};
ghost use Rattle.hs_steps.specs.Failing.{FailsWithin};

/// A longer cut is refused where a shorter one is: cuts only grow.
pub fn cuts_grow()
    ensures { (rules : List Rule) (ts : List TransitionData) (n q : ℕ) (t : Tree Head) →
        run ts q (cut rules n t) ≡ false → run ts q (cut rules (n + 1) t) ≡ false }
{}

/// A cut at one step or more is refused exactly where its term is stuck, or leads to one whose cut
/// at one step less is refused. A cut at no step never is.
pub fn refusals_have_a_first_step()
    ensures stuck { (rules : List Rule) (ts : List TransitionData) (n q : ℕ) (t : Tree Head) →
        IsStuck ts q t → run ts q (cut rules (n + 1) t) ≡ false }
    ensures step { (rules : List Rule) (ts : List TransitionData) (n q p : ℕ) (t u : Tree Head)
        (label : Path) →
        StepsTo rules ts q t label p u → run ts p (cut rules n u) ≡ false
        → run ts q (cut rules (n + 1) t) ≡ false }
    ensures only { (rules : List Rule) (ts : List TransitionData) (n q : ℕ) (t : Tree Head) →
        run ts q (cut rules (n + 1) t) ≡ false →
        IsStuck ts q t ⊎ ((path : Path)
        × LeadsTo rules ts (λ p u rest. run ts p (cut rules n u) ≡ false) q t path) }
{}

/// A step leads from a term of sort `o` to a term of sort `o`.
pub fn steps_keep_the_sort()
    ensures { (rules : List Rule) (terminals : ℕ) (ranks : List (Option ℕ)) (ts : List TransitionData)
        (s : Sorts) →
        AreSortedBy rules terminals ranks ts s →
        (q p : ℕ) (t u : Tree Head) (label : Path) → StepsTo rules ts q t label p u → IsTreeTerm s t
        → IsTreeTerm s u }
{}

/// A cut at n + 1 of a term of sort `o` is refused exactly where some path leads in at most n steps
/// to a terminal that has no transition. So the rules are accepted exactly where no path from the
/// start does.
pub fn refusals_are_failing_paths()
    ensures refusal { (rules : List Rule) (terminals : ℕ) (ranks : List (Option ℕ)) (ts : List TransitionData)
        (s : Sorts) →
        AreSortedBy rules terminals ranks ts s →
        (n q : ℕ) (t : Tree Head) → IsTreeTerm s t →
        (run ts q (cut rules (n + 1) t) ≡ false) ↔ FailsWithin rules ts n q t }
    ensures acceptance { (rules : List Rule) (terminals : ℕ) (ranks : List (Option ℕ))
        (ts : List TransitionData) (s : Sorts) →
        AreSortedBy rules terminals ranks ts s →
        Accepts rules ts ↔ ((n : ℕ) (path : Path) → Fails rules ts n 0 start path → ⊥) }
{}

/// A term of sort `o` has as many arguments as the sort of its head.
pub fn terms_have_all_arguments()
    ensures nonterminal { (s : Sorts) (f : ℕ) (us : Trees Head) →
        IsTreeTerm s (node (Nt f) us) → length (children us) ≡ length (arguments (s.nonterminal f)) }
    ensures terminal { (s : Sorts) (a : ℕ) (us : Trees Head) →
        IsTreeTerm s (node (Tm a) us) → length (children us) ≡ length (arguments (s.terminal a)) }
{}

/// A full rule replaces its nonterminal in a term of sort `o` by its body with the arguments for its
/// parameters, and none is left over.
pub fn full_rules_take_all_arguments()
    ensures { (rules : List Rule) (s : Sorts) (f : ℕ) (rule : Rule) (us : Trees Head) →
        slice_get rules f ≡ Some rule → length (arguments (s.nonterminal f)) ≡ rule.params →
        IsTreeTerm s (node (Nt f) us) → unfolded rules f (children us) ≡ Some
        (subst rule.body (children us)) }
{}
