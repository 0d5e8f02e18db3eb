//! The plain program at the edge of its budget, and from an empty log.

use crate::making::table_within;
use crate::seeing::see;
use hs_fixtures::{BRANCHING, BRANCHING_REJECTED, TWICE, TWICE_TRANSITIONS, problem_of};
use hs_scheme::{OutOfMemory, Problem};
use hs_table::{Entry, Shape};
use hs_table_plain::conclusions;
use std::alloc::Global;
use std::mem::forget;
use std::test::Fail;

/// What is counted.
#[derive(Clone, Copy)]
enum Counted {
    /// The entries of the least table within this budget.
    Within(u32),
    /// The entries that follow at this point from nothing.
    Seeds(u32),
}

/// The number of entries of the least table, or `None` past the budget.
fn entries_of(alloc: Global, problem: &Problem, budget: u32) -> Result<Option<usize>, OutOfMemory> {
    match table_within(alloc, problem, budget)? {
        None => Ok(None),
        Some(table) => Ok(Some(table.len())),
    }
}

/// Whether the entry has this state as its type and asks for nothing.
fn is_plain(entry: &Entry, point: u32, q: u32) -> bool {
    let asks = entry.env.iter().any(|set| !set.types.is_empty());
    match entry.ty.shape {
        Shape::State(state) => entry.point == point && state == q && !asks,
        Shape::Arrow(..) => false,
    }
}

/// How many entries follow at the point from nothing, where each has state 1 and asks for nothing.
fn seeds_at(alloc: Global, problem: &Problem, point: u32) -> Result<Option<usize>, OutOfMemory> {
    if point >= problem.points.count() {
        return Ok(None);
    }
    let found = conclusions(alloc, problem, &[], point)?;
    if !found.iter().all(|entry| is_plain(entry, point, 1)) {
        return Ok(None);
    }
    Ok(Some(found.len()))
}

/// How many there are.
fn count(alloc: Global, problem: &Problem, counted: Counted) -> Result<Option<usize>, OutOfMemory> {
    match counted {
        Counted::Within(budget) => entries_of(alloc, problem, budget),
        Counted::Seeds(point) => seeds_at(alloc, problem, point),
    }
}

/// The same of a file with these rules and transitions.
fn count_of_file(
    alloc: Global,
    rules: &str,
    transitions: &str,
    counted: Counted,
) -> Result<Option<usize>, Fail> {
    let problem = problem_of(alloc, rules, transitions)?;
    let count = count(alloc, &problem, counted);
    forget(problem);
    Ok(count?)
}

/// Rules, transitions and what is counted, with its number.
const COUNTS: &[(&str, &str, Counted, Option<usize>)] = &[
    ("S -> c.", "q0 c -> .", Counted::Within(0), Some(0)),
    ("S -> c.", "q0 d -> .", Counted::Within(0), None),
    ("S -> c.", "q0 d -> .", Counted::Within(1), Some(1)),
    (TWICE, TWICE_TRANSITIONS, Counted::Within(13), Some(13)),
    (TWICE, TWICE_TRANSITIONS, Counted::Within(12), None),
    (
        "S -> F c. F -> a.",
        "q0 a -> q0.",
        Counted::Within(4),
        Some(4),
    ),
    (
        "S -> F c. F x -> a x.",
        "q0 a -> q0.",
        Counted::Within(4),
        Some(4),
    ),
    (BRANCHING, BRANCHING_REJECTED, Counted::Seeds(0), Some(0)),
    (BRANCHING, BRANCHING_REJECTED, Counted::Seeds(2), Some(1)),
    (BRANCHING, BRANCHING_REJECTED, Counted::Seeds(4), Some(1)),
    (BRANCHING, BRANCHING_REJECTED, Counted::Seeds(6), Some(1)),
];

#[test]
fn tables_within_the_budget_and_what_follows_from_nothing(rt: HostRuntime) -> Result<(), Fail> {
    for (rules, transitions, counted, expected) in COUNTS {
        let count = count_of_file(rt.alloc(), rules, transitions, *counted)?;
        see(&rt, count, *expected, rules);
    }
    Ok(())
}
