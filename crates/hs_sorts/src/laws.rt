//! Laws of the answers, each the contract of a function that does nothing.

ghost use Rattle.std.specs.Prelude.{◌≡◌, ◌⊎◌, ℕ, List, Option};
ghost use Rattle.hs_scheme.specs.declared.term.Rule.{Rule};
ghost use Rattle.hs_scheme.specs.sorting.Unsorted.{UnsortedData};
ghost use Rattle.hs_scheme.specs.sorting.Sorted.{SortedData, IsSorted, sorts_of};
ghost use Rattle.hs_scheme.specs.sorting.Sorting.{IsLeastSorting};
ghost use Rattle.hs_sorts.specs.declared.fault.SortFault.{SortFault};
ghost use Rattle.hs_sorts.specs.declared.fault.SortFault.TheVariants as sorts;
ghost use Rattle.hs_sorts.specs.Inference.{IsInferable, IsInferred, IsSortFault};

/// A scheme has at most one fault of its sorts, want of memory aside, and none where inference
/// answers its sorts.
pub fn one_fault()
    ensures one { (rules : List Rule) (ranks : List (Option ℕ)) (a b : SortFault) → IsSortFault rules ranks a
        → IsSortFault rules ranks b
        → (a ≡ sorts.OutOfMemory) ⊎ ((b ≡ sorts.OutOfMemory) ⊎ (a ≡ b)) }
    ensures inferred { (u : UnsortedData) (s : SortedData) → IsInferred u s → IsInferable u.rules u.ranks }
    ensures none { (rules : List Rule) (ranks : List (Option ℕ)) (fault : SortFault) → IsInferable rules ranks
        → IsSortFault rules ranks fault
        → fault ≡ sorts.OutOfMemory }
{}

/// The sorts that inference answers are the least ones of the rules that it answers, too: a sorting of
/// lengthened rules is one of the rules as they were.
pub fn sorts_are_least_for_lengthened_rules()
    ensures { (u : UnsortedData) (s : SortedData) → IsSorted s → IsInferred u s
        → IsLeastSorting s.scheme.rules u.ranks (sorts_of s.sorts s.scheme.ranks) }
{}
