//! The transitions of an automaton by terminal, and by what they read at a child.

ghost use Rattle.std.specs.Prelude.{◌≡◌, ◌++◌, ◌∷◌, [], ℕ, length, IfOk, OnOk, if◌then◌else◌, nat_eq};
ghost use Rattle.std.specs.HashMap.{get};
ghost use Rattle.hs_scheme.specs.Key.{triple_eq};
ghost use Rattle.hs_scheme.specs.acceptance.Transitions.{items_of, IsByTerminal, IsByChild, GainsReads};

use crate::automaton::Transition;
use crate::memory::OutOfMemory;
use std::alloc::Global;
use std::collections::HashMap;

/// The places of the transitions of each terminal that has some.
pub(crate) type ByTerminal = HashMap<u32, Vec<usize>>;

/// The states whose transition for a terminal has a state at a child, by the terminal, the child and
/// the child's state.
pub(crate) type ByChild = HashMap<(u32, usize, u32), Vec<u32>>;

/// Adds a place to the row of this terminal. After a refusal of memory the map may have lost the row.
fn add_place(
    alloc: Global,
    rows: &mut ByTerminal,
    terminal: u32,
    place: usize,
) -> Result<(), OutOfMemory>
    ensures { OnOk result ((a : ℕ) →
        items_of (get nat_eq rows.new a) ≡
        (if nat_eq terminal a then items_of (get nat_eq rows.old a) ++ place ∷ [] else items_of
        (get nat_eq rows.old a))) }
{
    let mut row = rows.remove(&terminal).unwrap_or(Vec::new(alloc));
    row.push(place)?;
    rows.insert(terminal, row)?;
    Ok(())
}

/// Adds a state to the row of this key. After a refusal of memory the map may have lost the row.
fn add_state(
    alloc: Global,
    rows: &mut ByChild,
    key: (u32, usize, u32),
    state: u32,
) -> Result<(), OutOfMemory>
    ensures { OnOk result ((k : ℕ × ℕ × ℕ) →
        items_of (get triple_eq rows.new k) ≡
        (if triple_eq key k then items_of (get triple_eq rows.old k) ++ state ∷ [] else items_of
        (get triple_eq rows.old k))) }
{
    let mut row = rows.remove(&key).unwrap_or(Vec::new(alloc));
    row.push(state)?;
    rows.insert(key, row)?;
    Ok(())
}

/// The places of the transitions by terminal.
pub(crate) fn by_terminal(
    alloc: Global,
    transitions: &[Transition],
) -> Result<ByTerminal, OutOfMemory>
    ensures { IfOk result (λ rows. IsByTerminal transitions.now (length transitions.now)
        (λ a. items_of (get nat_eq rows a))) }
{
    let mut rows = HashMap::new(alloc);
    for (place, transition) in transitions.iter().enumerate() {
        add_place(alloc, &mut rows, transition.terminal, place)?;
    }
    Ok(rows)
}

/// Adds what the transition reads at each child.
fn add_children(
    alloc: Global,
    rows: &mut ByChild,
    transition: &Transition,
) -> Result<(), OutOfMemory>
    ensures { OnOk result (GainsReads transition.now (length transition.now.to)
        (λ a child s. items_of (get triple_eq rows.old (a, child, s)))
        (λ a child s. items_of (get triple_eq rows.new (a, child, s)))) }
{
    for (child, state) in transition.to.iter().enumerate() {
        add_state(
            alloc,
            rows,
            (transition.terminal, child, *state),
            transition.from,
        )?;
    }
    Ok(())
}

/// The states of the transitions by what they read at a child.
pub(crate) fn by_child(alloc: Global, transitions: &[Transition]) -> Result<ByChild, OutOfMemory>
    ensures { IfOk result (λ rows. IsByChild transitions.now (length transitions.now)
        (λ a child s. items_of (get triple_eq rows (a, child, s)))) }
{
    let mut rows = HashMap::new(alloc);
    for transition in transitions {
        add_children(alloc, &mut rows, transition)?;
    }
    Ok(rows)
}

/// The places of the transitions with this terminal.
pub(crate) fn places_at(rows: &ByTerminal, terminal: u32) -> &[usize]
    ensures { result.now ≡ items_of (get nat_eq rows.now terminal) }
{
    match rows.get(&terminal) {
        Some(places) => places.as_slice(),
        None => &[],
    }
}

/// The states in which this child of a node with this terminal is read in the given state.
pub(crate) fn states_at(rows: &ByChild, terminal: u32, child: usize, state: u32) -> &[u32]
    ensures { result.now ≡ items_of (get triple_eq rows.now (terminal, child, state)) }
{
    match rows.get(&(terminal, child, state)) {
        Some(states) => states.as_slice(),
        None => &[],
    }
}
