//! The types of a terminal whose sets have entries, by number.

ghost use Rattle.std.specs.Prelude.{◌≡◌, ◌<◌, ◌≤◌, ◌↔◌, ◌⊎◌, ◌∷◌, [], ℕ, List, IsTrue, length, set, slice_get, Some, true, Contains, IfOk, OnOk, option_copied, replicate};
ghost use Rattle.hs_scheme.specs.acceptance.Automaton as automaton;
ghost use Rattle.hs_table.specs.Types as trees;
ghost use Rattle.hs_table.specs.Types.{TypeTree};
ghost use Rattle.hs_table.specs.Follows.{HasMove, rank_of};
ghost use Rattle.hs_types.specs.Interned.{InternerData, type_of_id, Grows};
ghost use Rattle.hs_checker.specs.Slots.{HasTypeAt, FitsSets, AreBare, IsComplete, AreComplete};
ghost use Rattle.hs_checker.specs.Numbers.{entries_of, trees_of, AreRows, AreTypes, GainsTypes};
ghost use Rattle.hs_table_plain.specs.Enumeration as plain;

use crate::arrows::arrows_over;
use crate::fits::add_fitting;
use crate::index::RowIndex;
use crate::shape::states;
use hs_flow_checker::is_marked;
use hs_scheme::{Automaton, OutOfMemory, Problem, Transition};
use hs_table::rank;
use hs_types::{Interner, TyId};
use std::alloc::Global;

/// The type of a terminal of this rank without transition in state q.
fn bare_type(types: &mut Interner, rank: u32, q: u32) -> Result<TyId, OutOfMemory>
    ensures range { IfOk result (λ id. id < length types.new.types) }
    ensures is { IfOk result (λ id. type_of_id types.new id
        ≡ trees.arrows (replicate rank []) (trees.state q)) }
    ensures grows { OnOk result (Grows types.old types.new) }
{
    let env = types.empty_env(rank as usize)?;
    let last = types.base(q)?;
    arrows_over(types, env, last)
}

/// The type of a terminal in state q whose child at this place is rejected by this type.
fn child_type(
    types: &mut Interner,
    count: usize,
    place: u32,
    child: TyId,
    q: u32,
) -> Result<TyId, OutOfMemory>
    requires place { place < count }
    requires child { child < length types.old.types }
    ensures range { IfOk result (λ id. id < length types.new.types) }
    ensures is { IfOk result (λ id. type_of_id types.new id
        ≡ trees.arrows (set (replicate count []) place (type_of_id types.old child ∷ [])) (trees.state q)) }
    ensures grows { OnOk result (Grows types.old types.new) }
{
    let env = types.single_env(count, place, child)?;
    let last = types.base(q)?;
    arrows_over(types, env, last)
}

/// The states in which the children of a node with the terminal are read, if there is a transition.
fn transition(problem: &Problem, q: u32, terminal: u32) -> Option<&[u32]>
    ensures moves { option_copied result
        ≡ automaton.next problem.now.sorted.automaton.transitions q terminal }
    ensures ranks { (to : List ℕ) → automaton.next problem.now.sorted.automaton.transitions q terminal
        ≡ Some to → length to ≡ rank_of problem.now terminal }
{
    let sorted = &problem.sorted;
    sorted.automaton.next(q, terminal)
}

/// Whether no row stands at one of the arguments.
fn are_bare(index: &RowIndex, args: &[u32]) -> bool
    ensures { (I : InternerData) → IsTrue result → AreBare (entries_of I index.now) args.now }
{
    for arg in args {
        if !index.at_point(*arg).is_empty() {
            return false;
        }
    }
    true
}

/// Whether there is an argument at this place, and no entry there has the type.
fn asks_in_vain(types: &Interner, index: &RowIndex, args: &[u32], place: u32, ty: TyId) -> bool
    requires rows { AreRows types.now index.now }
    requires ty { ty < length types.now.types }
    ensures { IsTrue result → (u : ℕ) × ((slice_get args.now place ≡ Some u)
        × (HasTypeAt (entries_of types.now index.now) u (type_of_id types.now ty) → ⊥)) }
{
    types.know_numbers();
    match args.get(place as usize) {
        None => false,
        Some(arg) => !index.has(*arg, ty),
    }
}

/// Adds the type by which the child at this place is rejected, where its sets have entries.
fn add_child_type(
    types: &mut Interner,
    index: &RowIndex,
    args: &[u32],
    to: &[u32],
    q: u32,
    place: u32,
    found: &mut Vec<TyId>,
) -> Result<(), OutOfMemory>
    requires place { place < length to.now }
    requires rows { AreRows types.old index.now }
    requires found { AreTypes types.old found.old.items }
    ensures { OnOk result (GainsTypes types.old types.new found.old.items found.new.items
        (λ t. (t ≡ plain.child_type to.now q place)
        × FitsSets (entries_of types.old index.now) args.now t)) }
{
    let child = types.base(to[place as usize])?;
    if asks_in_vain(types, index, args, place, child) {
        return Ok(());
    }
    let ty = child_type(types, to.len(), place, child, q)?;
    add_fitting(types, index, args, ty, found)
}

/// Adds those for all children, so many.
fn add_child_types(
    types: &mut Interner,
    index: &RowIndex,
    args: &[u32],
    to: &[u32],
    rank: u32,
    q: u32,
    found: &mut Vec<TyId>,
) -> Result<(), OutOfMemory>
    requires rank { length to.now ≡ rank }
    requires rows { AreRows types.old index.now }
    requires found { AreTypes types.old found.old.items }
    ensures { OnOk result (GainsTypes types.old types.new found.old.items found.new.items
        (λ t. Contains (plain.child_types to.now q (length to.now)) t
        × FitsSets (entries_of types.old index.now) args.now t)) }
{
    for place in 0..rank {
        add_child_type(types, index, args, to, q, place, found)?;
    }
    Ok(())
}

/// Adds the types of the terminal in one state whose sets have entries: without a transition the type
/// with empty sets, with one a type for each child.
fn add_types_in(
    types: &mut Interner,
    problem: &Problem,
    index: &RowIndex,
    args: &[u32],
    terminal: u32,
    q: u32,
    found: &mut Vec<TyId>,
) -> Result<(), OutOfMemory>
    requires rows { AreRows types.old index.now }
    requires found { AreTypes types.old found.old.items }
    ensures { OnOk result (GainsTypes types.old types.new found.old.items found.new.items
        (λ t. Contains (plain.types_in problem.now terminal q
        (automaton.next problem.now.sorted.automaton.transitions q terminal)) t
        × FitsSets (entries_of types.old index.now) args.now t)) }
{
    let rank = rank(problem, terminal);
    match transition(problem, q, terminal) {
        None => {
            let ty = bare_type(types, rank, q)?;
            add_fitting(types, index, args, ty, found)
        }
        Some(to) => add_child_types(types, index, args, to, rank, q, found),
    }
}

/// Marks the state of the transition, where it has no more than so many children.
fn mark(marks: &mut Vec<bool>, transition: &Transition, most: usize)
    requires { transition.now.from < length marks.old.items }
    ensures long { length marks.new.items ≡ length marks.old.items }
    ensures marked { (q : ℕ) → slice_get marks.new.items q ≡ Some true
        → slice_get marks.old.items q ≡ Some true
        ⊎ ((transition.now.from ≡ q) × (length transition.now.to ≤ most)) }
{
    if transition.to.len() <= most {
        marks[transition.from as usize] = true;
    }
}

/// For each state whether it has a transition for the terminal, with no more than so many children.
fn moving(
    alloc: Global,
    automaton: &Automaton,
    terminal: u32,
    most: usize,
) -> Result<Vec<bool>, OutOfMemory>
    ensures { IfOk result (λ marks. (q : ℕ) → slice_get marks.items q ≡ Some true
        → HasMove automaton.now.transitions terminal most q) }
{
    automaton.know_automaton();
    let mut marks = vec![in alloc; false; automaton.states() as usize]?;
    let transitions = automaton.transitions();
    for place in automaton.with_terminal(terminal) {
        match transitions.get(*place) {
            Some(transition) => mark(&mut marks, transition, most),
            None => {}
        }
    }
    Ok(marks)
}

/// The automaton of the problem.
fn automaton_of(problem: &Problem) -> &Automaton
    ensures { result.now ≡ problem.now.sorted.automaton }
{
    &problem.sorted.automaton
}

/// Whether each state has a transition for the terminal, with no more children than its rank.
fn is_complete(alloc: Global, problem: &Problem, terminal: u32) -> Result<bool, OutOfMemory>
    ensures { IfOk result (λ found. IsTrue found → IsComplete problem.now terminal) }
{
    let automaton = automaton_of(problem);
    if automaton.with_terminal(terminal).len() < automaton.states() as usize {
        return Ok(false);
    }
    let marks = moving(alloc, automaton, terminal, rank(problem, terminal) as usize)?;
    for q in 0..states(problem) {
        if !is_marked(marks.as_slice(), q) {
            return Ok(false);
        }
    }
    Ok(true)
}

/// Marks the terminal, where it is complete.
fn mark_terminal(marks: &mut Vec<bool>, terminal: u32, complete: bool)
    ensures { (a : ℕ) → slice_get marks.new.items a ≡ Some true
        → slice_get marks.old.items a ≡ Some true ⊎ ((terminal ≡ a) × IsTrue complete) }
{
    if complete && (terminal as usize) < marks.len() {
        marks[terminal as usize] = true;
    }
}

/// Marks the terminal of the transition, where it is complete. Those of other states than the initial
/// one are passed over.
fn mark_complete(
    alloc: Global,
    problem: &Problem,
    marks: &mut Vec<bool>,
    transition: &Transition,
) -> Result<(), OutOfMemory>
    requires { AreComplete problem.now marks.old.items }
    ensures { OnOk result (AreComplete problem.now marks.new.items) }
{
    if transition.from != 0 {
        return Ok(());
    }
    let complete = is_complete(alloc, problem, transition.terminal)?;
    mark_terminal(marks, transition.terminal, complete);
    Ok(())
}

/// The number of terminals.
fn terminal_count(problem: &Problem) -> usize
    ensures { result ≡ length problem.now.sorted.scheme.ranks }
{
    problem.sorted.scheme.ranks.len()
}

/// For each terminal whether it is complete: whether each state has a transition for it, with no more
/// children than its rank.
///
/// Time is in the number of terminals and of transitions, and memory in that of terminals and states.
pub(crate) fn complete_terminals(alloc: Global, problem: &Problem) -> Result<Vec<bool>, OutOfMemory>
    ensures { IfOk result (λ marks. AreComplete problem.now marks.items) }
{
    let mut marks = vec![in alloc; false; terminal_count(problem)]?;
    for transition in automaton_of(problem).transitions() {
        mark_complete(alloc, problem, &mut marks, transition)?;
    }
    Ok(marks)
}

/// Whether nothing comes of the terminal over so many bare arguments, in any state.
fn is_barren(problem: &Problem, complete: &[bool], bare: bool, terminal: u32, count: usize) -> bool
    requires { AreComplete problem.now complete.now }
    ensures { IsTrue result → IsTrue bare × ((q : ℕ) → q < problem.now.sorted.automaton.states
        → HasMove problem.now.sorted.automaton.transitions terminal count q) }
{
    if !bare {
        return false;
    }
    if !is_marked(complete, terminal) {
        return false;
    }
    let least = rank(problem, terminal) as usize;
    if count < least {
        return false;
    }
    true
}

/// The states in which nothing comes of the terminal over bare arguments: those that have a transition
/// for no more children than there are arguments. None are marked where the arguments aren't bare.
fn barren(
    alloc: Global,
    problem: &Problem,
    args: &[u32],
    bare: bool,
    terminal: u32,
) -> Result<Vec<bool>, OutOfMemory>
    ensures { IfOk result (λ marks. (q : ℕ) → slice_get marks.items q ≡ Some true
        → IsTrue bare × HasMove problem.now.sorted.automaton.transitions terminal (length args.now) q) }
{
    if !bare {
        return Ok(Vec::new(alloc));
    }
    moving(alloc, &problem.sorted.automaton, terminal, args.len())
}

/// The types of the terminal whose sets have entries at the arguments. A type is formed only where its
/// child has an entry, so that a state costs little more than the look-up of its transition; where the
/// arguments are bare, the states with one are passed over, and where all have one, all at once.
pub(crate) fn terminal_instances(
    alloc: Global,
    types: &mut Interner,
    problem: &Problem,
    complete: &[bool],
    index: &RowIndex,
    args: &[u32],
    terminal: u32,
) -> Result<Vec<TyId>, OutOfMemory>
    requires complete { AreComplete problem.now complete.now }
    requires rows { AreRows types.old index.now }
    ensures range { IfOk result (λ found. AreTypes types.new found.items) }
    ensures each { IfOk result (λ found. (t : TypeTree) → Contains (trees_of types.new found.items) t
        ↔ (Contains (plain.terminal_types problem.now terminal problem.now.sorted.automaton.states) t
        × FitsSets (entries_of types.old index.now) args.now t)) }
    ensures grows { OnOk result (Grows types.old types.new) }
{
    let bare = are_bare(index, args);
    if is_barren(problem, complete, bare, terminal, args.len()) {
        return Ok(Vec::new(alloc));
    }
    let barren = barren(alloc, problem, args, bare, terminal)?;
    let mut found = Vec::new(alloc);
    for q in 0..states(problem) {
        if !is_marked(barren.as_slice(), q) {
            add_types_in(types, problem, index, args, terminal, q, &mut found)?;
        }
    }
    Ok(found)
}
