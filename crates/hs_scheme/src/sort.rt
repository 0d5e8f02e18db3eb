//! Sorts, the simple types of a scheme's terms.

ghost use Rattle.std.specs.Prelude.{◌≡◌, ℕ, List, Option, IfOk};
ghost use Rattle.hs_scheme.specs.declared.term.Rule.{Rule};
ghost use Rattle.hs_scheme.specs.sorting.Sorting.{Sorts, IsLeastSorting, IsWellSorted, AreEqual, AreFirstOrder};

use crate::memory::OutOfMemory;
use std::alloc::Global;
use std::marker::Model;

/// A sort, as its arguments; its result is `o`, the sort of trees. So the sort without arguments
/// is `o` itself, and the one with the arguments `o` and `o` is `o -> o -> o`.
///
/// Its size is 1 plus, for each argument, 1 plus that argument's size. Contracts see a sort as a
/// finite tree with nothing at its nodes.
#[derive(Debug, Drop)]
pub struct Sort {
    pub args: Vec<Sort>,
}

impl Model for Sort {
    ghost use Rattle.hs_scheme.specs.Tree.{node, forest, height, most_le-heights};
    ghost use Rattle.hs_scheme.specs.sorting.Sorting.{SortTree, coded_sort};

    ghost Value = { SortTree };

    ghost coded = { coded_sort };

    ghost view = { λ a. node tt (forest a.args.items) };

    ghost size = { height };

    ghost use Rattle.std.proofs.Common.{arith};

    ghost size_decreases = { λ a h. omega (arith, most_le-heights a.args.items) };
}

impl Sort {
    /// An equal sort. Recurses as deep as the sort.
    pub fn copy(&self, alloc: Global) -> Result<Sort, OutOfMemory>
        ensures { IfOk result (λ copy. copy ≡ self.now) }
    {
        let mut args = Vec::with_capacity(alloc, self.args.len())?;
        for arg in &self.args {
            args.push_reserved(arg.copy(alloc)?);
        }
        Ok(Sort { args })
    }
}

/// The least sorting of a scheme is unique: two of them give each nonterminal, each parameter and
/// each terminal the same sort.
pub fn least_sortings_are_equal()
    ensures { (rules : List Rule) (ranks : List (Option ℕ)) (s t : Sorts) →
        IsLeastSorting rules ranks s → IsLeastSorting rules ranks t → AreEqual rules ranks s t }
{}

/// The least sorting of a well-sorted scheme gives each terminal a sort with only arguments `o`.
pub fn least_sorting_is_first_order()
    ensures { (rules : List Rule) (ranks : List (Option ℕ)) (s : Sorts) →
        IsLeastSorting rules ranks s → IsWellSorted rules ranks → AreFirstOrder ranks s }
{}
