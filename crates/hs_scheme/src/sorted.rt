//! Schemes whose sorts are known.

ghost use Rattle.std.specs.Prelude.{◌≡◌, IfOk};

use crate::automaton::Automaton;
use crate::copying::copied;
use crate::memory::OutOfMemory;
use crate::scheme::{Names, Scheme};
use crate::sort::Sort;
use std::alloc::Global;
use std::marker::Model;

/// A scheme with its automaton, its names and the sorts of its nonterminals.
///
/// The scheme is well-sorted by `sorts`, where a terminal has the sort of its rank, and each rule
/// has as many parameters as its nonterminal's sort has arguments. The transitions agree with the
/// ranks, there is one name for each rule, parameter, terminal and state, and all that holds of a
/// `Scheme` holds of `scheme`.
#[derive(Drop)]
pub struct Sorted {
    pub scheme: Scheme,
    pub automaton: Automaton,
    pub names: Names,
    /// The sort of each nonterminal, by the number of its rule. Its arguments are the sorts of the
    /// rule's parameters.
    pub sorts: Vec<Sort>,
}

impl Model for Sorted {
    ghost use Rattle.hs_scheme.specs.sorting.Sorted.{SortedData, coded_sorted, IsSorted};

    ghost Value = { SortedData };

    ghost coded = { coded_sorted };

    ghost view = { λ a. record {
      scheme = a.scheme;
      automaton = a.automaton;
      names = a.names;
      sorts = a.sorts.items;
    } };

    ghost invariant = { λ a. IsSorted
        (record { scheme = a.scheme; automaton = a.automaton; names = a.names; sorts = a.sorts.items }) };
}

impl Sorted {
    /// An equal value, in time and memory in proportion to the size of this one.
    pub fn copy(&self, alloc: Global) -> Result<Sorted, OutOfMemory>
        ensures { IfOk result (λ copy. copy ≡ self.now) }
    {
        let sorts = copied(alloc, self.sorts.as_slice(), |sort| sort.copy(alloc))?;
        Ok(Sorted {
            scheme: self.scheme.copy(alloc)?,
            names: self.names.copy(alloc)?,
            automaton: self.automaton.copy(alloc)?,
            sorts,
        })
    }
}
