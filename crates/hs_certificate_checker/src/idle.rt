//! Points of which nothing comes, as a look at their arguments tells. These are most points with a terminal
//! at the head where little is rejected; a type of the head for each state and child needn't be formed there.

ghost use Rattle.std.specs.Prelude.{◌≡◌, ◌<◌, ℕ, length, option_copied, Contains, IsTrue};
ghost use Rattle.std.specs.List.Sorted.{IsNonDecreasingBy};
ghost use Rattle.hs_scheme.specs.acceptance.Automaton.{next};
ghost use Rattle.hs_table.specs.Follows.{HasMove};
ghost use Rattle.hs_types.specs.Interned.{RowData};
ghost use Rattle.hs_certificate_checker.specs.Idle.{HaveNoRows, IsIdle};

use hs_choices::rows_at;
use hs_reads::Reads;
use hs_scheme::{Head, Problem};
use hs_types::Row;

/// Whether none of the rows is at one of these points.
fn have_no_rows(table: &[Row], points: &[u32]) -> bool
    requires { IsNonDecreasingBy (λ (r : RowData). r.point) table.now }
    ensures { IsTrue result → HaveNoRows table.now points.now }
{
    for point in points {
        if !rows_at(table, *point).is_empty() {
            return false;
        }
    }
    true
}

/// The states in which the children of a node with this terminal are read in this state.
fn next_of(problem: &Problem, q: u32, terminal: u32) -> Option<&[u32]>
    ensures { option_copied result ≡ next problem.now.sorted.automaton.transitions q terminal }
{
    let sorted = &problem.sorted;
    sorted.automaton.next(q, terminal)
}

/// Whether the terminal has a transition in the state, with no more than so many children.
fn moves(problem: &Problem, terminal: u32, count: usize, q: u32) -> bool
    ensures { IsTrue result → HasMove problem.now.sorted.automaton.transitions terminal count q }
{
    match next_of(problem, q, terminal) {
        None => false,
        Some(to) => to.len() <= count,
    }
}

/// So in each of the states.
fn moves_in_each(problem: &Problem, terminal: u32, count: usize, states: &[u32]) -> bool
    ensures { IsTrue result → (q : ℕ) → Contains states.now q
        → HasMove problem.now.sorted.automaton.transitions terminal count q }
{
    for q in states {
        if !moves(problem, terminal, count, *q) {
            return false;
        }
    }
    true
}

/// Whether the point, counted from 0, has a terminal with enough arguments at its head, none of which has a
/// row, and the terminal has a transition in each state in which the point is read.
///
/// Time is in the number of these states, each of which is looked up, on average in constant time, and of
/// the arguments times the logarithm of the table's length. Takes no memory.
pub(crate) fn is_idle(problem: &Problem, reads: &Reads, table: &[Row], point: u32) -> bool
    requires point { point < length problem.now.points.points }
    requires order { IsNonDecreasingBy (λ (r : RowData). r.point) table.now }
    ensures { IsTrue result → IsIdle problem.now reads.now table.now point }
{
    let Head::Tm(terminal) = problem.points.head_of(point) else {
        return false;
    };
    let args = problem.points.args_of(point);
    have_no_rows(table, args)
        && moves_in_each(problem, terminal, args.len(), reads.states_at(point))
}
