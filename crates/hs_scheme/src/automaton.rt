//! Deterministic trivial automata.

ghost use Rattle.std.specs.Prelude.{◌≡◌, ◌↔◌, ℕ, Contains, IfOk, option_copied};
ghost use Rattle.hs_scheme.specs.acceptance.Automaton.{AutomatonData, IsAutomaton, next};
ghost use Rattle.hs_scheme.specs.acceptance.Transitions.{IsPlaceOf, Reads};

use crate::copying::copied;
use crate::memory::OutOfMemory;
use crate::transitions::{ByChild, ByTerminal, by_child, by_terminal, places_at, states_at};
use std::alloc::Global;
use std::collections::HashMap;
use std::marker::Model;

/// A transition: in state `from`, at a node with this terminal, the children are read in the
/// states `to`, in order.
#[derive(Debug, Drop)]
pub struct Transition {
    pub from: u32,
    pub terminal: u32,
    pub to: Vec<u32>,
}

impl Model for Transition {
    ghost use Rattle.hs_scheme.specs.acceptance.Transition.{TransitionData, coded_transition};

    ghost Value = { TransitionData };

    ghost coded = { coded_transition };

    ghost view = { λ a. record { from = a.from; terminal = a.terminal; to = a.to.items } };
}

impl Transition {
    /// An equal transition.
    pub fn copy(&self, alloc: Global) -> Result<Transition, OutOfMemory>
        ensures { IfOk result (λ copy. copy ≡ self.now) }
    {
        Ok(Transition {
            from: self.from,
            terminal: self.terminal,
            to: self.to.to_vec(alloc)?,
        })
    }
}

/// A deterministic trivial automaton. State 0 is initial, and no state with a terminal has two
/// transitions. It rejects a tree where it comes to a node for which it has no transition.
#[derive(Drop)]
pub struct Automaton {
    states: u32,
    transitions: Vec<Transition>,
    /// The place of the transition of each state and terminal that have one.
    index: HashMap<(u32, u32), usize>,
    by_terminal: ByTerminal,
    by_child: ByChild,
}

impl Model for Automaton {
    ghost use Rattle.hs_scheme.specs.acceptance.Automaton.{AutomatonData, coded_automaton, IsAutomaton, IsTransitionIndex};
    ghost use Rattle.std.specs.HashMap.{get};
    ghost use Rattle.std.specs.Prelude.{length, nat_eq};
    ghost use Rattle.hs_scheme.specs.Key.{key_eq, triple_eq};
    ghost use Rattle.hs_scheme.specs.acceptance.Transitions.{items_of, IsByTerminal, IsByChild};

    ghost Value = { AutomatonData };

    ghost coded = { coded_automaton };

    ghost view = { λ a. record { states = a.states; transitions = a.transitions.items } };

    ghost invariant = { λ a. IsAutomaton (record { states = a.states; transitions = a.transitions.items })
        × IsTransitionIndex (λ q t. get key_eq a.index (q, t)) a.transitions.items
        (length a.transitions.items)
        × IsByTerminal a.transitions.items (length a.transitions.items)
        (λ t. items_of (get nat_eq a.by_terminal t))
        × IsByChild a.transitions.items (length a.transitions.items)
        (λ t child s. items_of (get triple_eq a.by_child (t, child, s))) };
}

impl Automaton {
    /// The automaton with these states and transitions, where there is at least one state, the states
    /// in the transitions are in range, and no two transitions are of one state and terminal.
    ///
    /// Time and memory are in proportion to the transitions and their children, on average over the
    /// hashes of their states and terminals.
    pub fn of(
        alloc: Global,
        states: u32,
        transitions: Vec<Transition>,
    ) -> Result<Automaton, OutOfMemory>
        requires { IsAutomaton (record { states = states; transitions = transitions.items }) }
        ensures { IfOk result (λ automaton. automaton ≡ record {
          states = states;
          transitions = transitions.items;
        }) }
    {
        let mut index = HashMap::new(alloc);
        for (place, transition) in transitions.iter().enumerate() {
            index.insert((transition.from, transition.terminal), place)?;
        }
        let by_terminal = by_terminal(alloc, transitions.as_slice())?;
        let by_child = by_child(alloc, transitions.as_slice())?;
        Ok(Automaton {
            states,
            transitions,
            index,
            by_terminal,
            by_child,
        })
    }

    /// The states in which the children of a node with this terminal are read in this state, or
    /// `None` where there is no transition. Takes no memory, and constant time on average.
    pub fn next(&self, state: u32, terminal: u32) -> Option<&[u32]>
        ensures { option_copied result ≡ next self.now.transitions state terminal }
    {
        let place = *self.index.get(&(state, terminal))?;
        Some(self.transitions[place].to.as_slice())
    }

    /// The places in `transitions` of those with this terminal. Takes no memory, and constant time
    /// on average.
    pub fn with_terminal(&self, terminal: u32) -> &[usize]
        ensures { (place : ℕ) → Contains result.now place ↔ IsPlaceOf self.now.transitions terminal place }
    {
        places_at(&self.by_terminal, terminal)
    }

    /// The states in which this child, counted from 0, of a node with this terminal is read in the
    /// given state. Takes no memory, and constant time on average.
    pub fn reading(&self, terminal: u32, child: usize, state: u32) -> &[u32]
        ensures { (from : ℕ) → Contains result.now from
            ↔ Reads self.now.transitions terminal child state from }
    {
        states_at(&self.by_child, terminal, child, state)
    }

    /// What holds of each automaton. Takes no memory and no time.
    pub fn know_automaton(&self)
        ensures { IsAutomaton self.now }
    {
        let _ = &self.states;
    }

    /// The number of states.
    pub fn states(&self) -> u32
        ensures { result ≡ self.now.states }
    {
        self.states
    }

    /// The transitions, in the order in which they were given.
    pub fn transitions(&self) -> &[Transition]
        ensures { result.now ≡ self.now.transitions }
    {
        self.transitions.as_slice()
    }

    /// An equal automaton, in time and memory in proportion to the transitions, on average.
    pub fn copy(&self, alloc: Global) -> Result<Automaton, OutOfMemory>
        ensures { IfOk result (λ copy. copy ≡ self.now) }
    {
        let transitions = copied(
            alloc,
            self.transitions(),
            |transition| transition.copy(alloc),
        )?;
        Automaton::of(alloc, self.states, transitions)
    }
}
