//! Schemes.

ghost use Rattle.std.specs.Prelude.{◌≡◌, IfOk};

use crate::automaton::Automaton;
use crate::copying::copied;
use crate::memory::OutOfMemory;
use crate::name::Name;
use crate::term::Rule;
use std::alloc::Global;
use std::marker::Model;

/// A recursion scheme: a rule for each nonterminal, of which rule 0 is that of the start, and the
/// rank of each terminal.
///
/// Rule 0 exists and has no parameters, every head is in range for its rule, and rules, parameters
/// and arguments are within their limits.
#[derive(Debug, Drop)]
pub struct Scheme {
    /// The rules, by the number of their nonterminal.
    pub rules: Vec<Rule>,
    /// The ranks, by the number of the terminal.
    pub ranks: Vec<u32>,
}

impl Model for Scheme {
    ghost use Rattle.hs_scheme.specs.Scheme.{SchemeData, coded_scheme, IsScheme};

    ghost Value = { SchemeData };

    ghost coded = { coded_scheme };

    ghost view = { λ a. record { rules = a.rules.items; ranks = a.ranks.items } };

    ghost invariant = { λ a. IsScheme (record { rules = a.rules.items; ranks = a.ranks.items }) };
}

impl Scheme {
    /// An equal scheme, in time and memory in proportion to its size.
    pub fn copy(&self, alloc: Global) -> Result<Scheme, OutOfMemory>
        ensures { IfOk result (λ copy. copy ≡ self.now) }
    {
        let rules = copied(alloc, self.rules.as_slice(), |rule| rule.copy(alloc))?;
        let ranks = self.ranks.to_vec(alloc)?;
        Ok(Scheme { rules, ranks })
    }
}

/// The names of the parts of a scheme, by their numbers.
#[derive(Debug, Drop)]
pub struct Names {
    pub rules: Vec<Name>,
    /// The names of each rule's parameters.
    pub params: Vec<Vec<Name>>,
    pub terminals: Vec<Name>,
    pub states: Vec<Name>,
}

impl Model for Names {
    ghost use Rattle.std.specs.Prelude.{map};
    ghost use Rattle.hs_scheme.specs.Names.{NamesData, coded_names};

    ghost Value = { NamesData };

    ghost coded = { coded_names };

    ghost view = { λ a. record {
      rules = a.rules.items;
      params = map (λ names. names.items) a.params.items;
      terminals = a.terminals.items;
      states = a.states.items;
    } };
}

impl Names {
    /// Equal names, in time and memory in proportion to their bytes.
    pub fn copy(&self, alloc: Global) -> Result<Names, OutOfMemory>
        ensures { IfOk result (λ copy. copy ≡ self.now) }
    {
        let mut params = Vec::with_capacity(alloc, self.params.len())?;
        for names in &self.params {
            params.push_reserved(Name::copy_all(alloc, names.as_slice())?);
        }
        Ok(Names {
            rules: Name::copy_all(alloc, self.rules.as_slice())?,
            params,
            terminals: Name::copy_all(alloc, self.terminals.as_slice())?,
            states: Name::copy_all(alloc, self.states.as_slice())?,
        })
    }
}

/// A scheme with its automaton and its names, before its sorts are known.
///
/// Rule 0 exists and has no parameters, every head is in range for its rule, and rules, parameters
/// and arguments are within their limits. The transitions agree with the ranks, and there is one
/// name for each rule, parameter, terminal and state.
#[derive(Drop)]
pub struct Unsorted {
    /// The rules, by the number of their nonterminal.
    pub rules: Vec<Rule>,
    /// The ranks, by the number of the terminal: `Some` where the rank is known, as it is of every
    /// terminal that has transitions.
    pub ranks: Vec<Option<u32>>,
    pub automaton: Automaton,
    pub names: Names,
}

impl Model for Unsorted {
    ghost use Rattle.hs_scheme.specs.sorting.Unsorted.{UnsortedData, coded_unsorted, IsUnsorted};

    ghost Value = { UnsortedData };

    ghost coded = { coded_unsorted };

    ghost view = { λ a. record {
      rules = a.rules.items;
      ranks = a.ranks.items;
      automaton = a.automaton;
      names = a.names;
    } };

    ghost invariant = { λ a. IsUnsorted
        (record { rules = a.rules.items; ranks = a.ranks.items; automaton = a.automaton; names = a.names }) };
}
