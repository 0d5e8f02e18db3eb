//! Heads of which nothing comes without entries.

ghost use Rattle.std.specs.Prelude.{◌≡◌, ◌<◌, [], ℕ, IsTrue};
ghost use Rattle.hs_scheme.specs.acceptance.Transitions.{IsPlaceOf};
ghost use Rattle.hs_types.specs.Interned.{InternerData};
ghost use Rattle.hs_table.specs.Follows.{HasMove};
ghost use Rattle.hs_rules.specs.Heads.{AreHeads, AsksNothing};

use hs_scheme::{Automaton, Head, Problem};

/// Whether the transition at this place is of the state, with no more than so many children.
fn moves_by(automaton: &Automaton, terminal: u32, place: usize, q: u32, count: usize) -> bool
    requires { IsPlaceOf automaton.now.transitions terminal place }
    ensures { IsTrue result → HasMove automaton.now.transitions terminal count q }
{
    automaton.know_automaton();
    match automaton.transitions().get(place) {
        None => false,
        Some(transition) => transition.from == q && transition.to.as_slice().len() <= count,
    }
}

/// Whether the terminal has a transition in each state, with no more than so many children. That is
/// found where its transitions are in the order of their states.
fn moves_everywhere(automaton: &Automaton, terminal: u32, count: usize) -> bool
    ensures { IsTrue result → (q : ℕ) → q < automaton.now.states
        → HasMove automaton.now.transitions terminal count q }
{
    let places = automaton.with_terminal(terminal);
    if places.len() < automaton.states() as usize {
        return false;
    }
    for q in 0..automaton.states() {
        if !moves_by(automaton, terminal, places[q as usize], q, count) {
            return false;
        }
    }
    true
}

/// Whether the head of a point with these arguments has no type without entries that asks for none
/// of them.
pub(crate) fn starts_nothing(problem: &Problem, head: Head, args: &[u32]) -> bool
    ensures { (rule : ℕ) (ids : InternerData) → IsTrue result →
        AreHeads problem.now [] (record { rule = rule; head = head; args = args.now }) ids AsksNothing [] }
{
    match head {
        Head::Tm(terminal) => {
            let sorted = &problem.sorted;
            moves_everywhere(&sorted.automaton, terminal, args.len())
        }
        Head::Nt(_) => true,
        Head::Var(_) => true,
    }
}
