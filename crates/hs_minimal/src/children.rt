//! What weakly follows at a terminal that has all its arguments.

ghost use Rattle.std.specs.Prelude.{◌≡◌, ◌↔◌, ◌<◌, ℕ, Contains, IfOk, IsTrue, None, OnOk, Some, false, length, slice_get};
ghost use Rattle.hs_scheme.specs.declared.term.Head.TheVariants.{Tm};
ghost use Rattle.hs_scheme.specs.acceptance.Automaton.{next};
ghost use Rattle.hs_scheme.specs.acceptance.Transitions.{Reads};
ghost use Rattle.hs_scheme.specs.flow.Points.{point_at};
ghost use Rattle.hs_table.specs.Follows.{rank_of};
ghost use Rattle.hs_types.specs.Interned.{RowData, Grows};
ghost use Rattle.hs_minimal.specs.Growing.{IsGrowing};
ghost use Rattle.hs_minimal.specs.Following.{AreFollowingAt, AreLeastFollowing, KeepsEntries, HasByRow, HasLacking};

use crate::gathering::{args_at, rule_at};
use crate::growing::Growing;
use hs_choices::Compared;
use hs_scheme::{OutOfMemory, Problem};
use hs_table::{parameters, rank};
use hs_types::{Row, View};
use hs_verdict::know_sorted_problem;

/// The states in which this child of a node with the terminal is read in the given state.
fn reading(problem: &Problem, terminal: u32, place: usize, state: u32) -> &[u32]
    ensures { (from : ℕ) → Contains result.now from
        ↔ Reads problem.now.sorted.automaton.transitions terminal place state from }
{
    let sorted = &problem.sorted;
    sorted.automaton.reading(terminal, place, state)
}

/// Adds what follows at the point, where the terminal has all its arguments, from an entry at the one at
/// this place, counted from 0.
fn add_by_child(
    types: &mut Compared,
    growing: &Growing,
    point: u32,
    terminal: u32,
    place: usize,
    row: &Row,
    found: &mut Vec<Row>,
) -> Result<(), OutOfMemory>
    requires point { point < length growing.now.problem.points.points }
    requires growing { IsGrowing types.old growing.now }
    requires head { (point_at growing.now.problem.points point).head ≡ Tm terminal }
    requires full { length (point_at growing.now.problem.points point).args
        ≡ rank_of growing.now.problem terminal }
    requires place { slice_get (point_at growing.now.problem.points point).args place ≡ Some row.now.point }
    requires row { Contains growing.now.history row.now }
    requires found { AreFollowingAt types.old growing.now point found.old.items }
    ensures found { OnOk result (AreFollowingAt types.new growing.now point found.new.items) }
    ensures grows { OnOk result (Grows types.old types.new) }
    ensures keeps { OnOk result (KeepsEntries types.old types.new found.old.items found.new.items) }
    ensures told { OnOk result (HasByRow growing.now.problem types.old types.new found.new.items point
        terminal place row.now) }
{
    know_sorted_problem(growing.problem());
    let View::State(state) = types.interner().view(row.ty) else {
        return Ok(());
    };
    let states = reading(growing.problem(), terminal, place, state);
    for from in states {
        let ty = types.base(*from)?;
        found.push(Row {
            point,
            env: row.env,
            ty,
        })?;
    }
    Ok(())
}

/// What follows at the point, which has the terminal at its head with all its arguments, from an entry at
/// some of them: it is rejected in the states whose transition reads such an argument in the entry's state.
pub(crate) fn by_child(
    types: &mut Compared,
    growing: &Growing,
    point: u32,
    terminal: u32,
    row: &Row,
) -> Result<Vec<Row>, OutOfMemory>
    requires point { point < length growing.now.problem.points.points }
    requires growing { IsGrowing types.old growing.now }
    requires head { (point_at growing.now.problem.points point).head ≡ Tm terminal }
    requires full { length (point_at growing.now.problem.points point).args
        ≡ rank_of growing.now.problem terminal }
    requires row { Contains growing.now.history row.now }
    ensures found { IfOk result (λ found. AreFollowingAt types.new growing.now point found.items) }
    ensures grows { OnOk result (Grows types.old types.new) }
{
    let args = args_at(growing.problem(), point);
    let mut found = Vec::new(growing.alloc);
    for (place, arg) in args.iter().enumerate() {
        if *arg != row.point {
            continue;
        }
        add_by_child(types, growing, point, terminal, place, row, &mut found)?;
    }
    Ok(found)
}

/// Adds what follows so from each of these entries, which are at the argument at this place.
fn add_by_children(
    types: &mut Compared,
    growing: &Growing,
    point: u32,
    terminal: u32,
    place: usize,
    rows: &[Row],
    found: &mut Vec<Row>,
) -> Result<(), OutOfMemory>
    requires point { point < length growing.now.problem.points.points }
    requires growing { IsGrowing types.old growing.now }
    requires head { (point_at growing.now.problem.points point).head ≡ Tm terminal }
    requires full { length (point_at growing.now.problem.points point).args
        ≡ rank_of growing.now.problem terminal }
    requires rows { (r : RowData) → Contains rows.now r → Contains growing.now.history r
        × (slice_get (point_at growing.now.problem.points point).args place ≡ Some r.point) }
    requires found { AreFollowingAt types.old growing.now point found.old.items }
    ensures found { OnOk result (AreFollowingAt types.new growing.now point found.new.items) }
    ensures grows { OnOk result (Grows types.old types.new) }
    ensures keeps { OnOk result (KeepsEntries types.old types.new found.old.items found.new.items) }
    ensures told { OnOk result ((r : RowData) → Contains rows.now r → HasByRow growing.now.problem types.old
        types.new found.new.items point terminal place r) }
{
    for row in rows {
        add_by_child(types, growing, point, terminal, place, row, found)?;
    }
    Ok(())
}

/// Whether the state has a transition for the terminal.
fn has_transition(problem: &Problem, state: u32, terminal: u32) -> bool
    ensures some { IsTrue result → next problem.now.sorted.automaton.transitions state terminal ≡ None → ⊥ }
    ensures none { result ≡ false → next problem.now.sorted.automaton.transitions state terminal ≡ None }
{
    let sorted = &problem.sorted;
    match sorted.automaton.next(state, terminal) {
        Some(_) => true,
        None => false,
    }
}

/// The number of states.
fn states(problem: &Problem) -> u32
    ensures { result ≡ problem.now.sorted.automaton.states }
{
    problem.sorted.automaton.states()
}

/// What follows at the point, which has the terminal at its head with all its arguments, whatever these are:
/// it is rejected in the states without a transition.
fn without_transition(
    types: &mut Compared,
    growing: &Growing,
    point: u32,
    terminal: u32,
) -> Result<Vec<Row>, OutOfMemory>
    requires point { point < length growing.now.problem.points.points }
    requires growing { IsGrowing types.old growing.now }
    requires head { (point_at growing.now.problem.points point).head ≡ Tm terminal }
    requires full { length (point_at growing.now.problem.points point).args
        ≡ rank_of growing.now.problem terminal }
    ensures found { IfOk result (λ found. AreFollowingAt types.new growing.now point found.items) }
    ensures grows { OnOk result (Grows types.old types.new) }
    ensures told { IfOk result (λ found. (q : ℕ) → q < growing.now.problem.sorted.automaton.states
        → HasLacking growing.now.problem types.new found.items point terminal q) }
{
    let problem = growing.problem();
    know_sorted_problem(problem);
    let mut found = Vec::new(growing.alloc);
    let env = types.empty_env(parameters(problem, rule_at(problem, point)) as usize)?;
    for state in 0..states(problem) {
        if has_transition(problem, state, terminal) {
            continue;
        }
        let ty = types.base(state)?;
        found.push(Row { point, env, ty })?;
    }
    Ok(found)
}

/// What weakly follows at the point, which has the terminal at its head with all its arguments, from the
/// entries that are kept: looks at the transitions and at each entry at an argument.
pub(crate) fn by_children(
    types: &mut Compared,
    growing: &Growing,
    point: u32,
    terminal: u32,
) -> Result<Vec<Row>, OutOfMemory>
    requires point { point < length growing.now.problem.points.points }
    requires growing { IsGrowing types.old growing.now }
    requires head { (point_at growing.now.problem.points point).head ≡ Tm terminal }
    requires full { length (point_at growing.now.problem.points point).args
        ≡ rank_of growing.now.problem terminal }
    ensures found { IfOk result (λ found. AreLeastFollowing types.new growing.now point found.items) }
    ensures grows { OnOk result (Grows types.old types.new) }
{
    know_sorted_problem(growing.problem());
    let mut found = without_transition(types, growing, point, terminal)?;
    let args = args_at(growing.problem(), point);
    for (place, arg) in args.iter().enumerate() {
        let rows = growing.rows_at(*arg);
        add_by_children(types, growing, point, terminal, place, rows, &mut found)?;
    }
    Ok(found)
}

/// Whether the terminal has all its arguments at the point.
pub(crate) fn has_all_arguments(problem: &Problem, point: u32, terminal: u32) -> bool
    requires { point < length problem.now.points.points }
    ensures { IsTrue result → length (point_at problem.now.points point).args ≡ rank_of problem.now terminal }
{
    args_at(problem, point).len() == rank(problem, terminal) as usize
}
