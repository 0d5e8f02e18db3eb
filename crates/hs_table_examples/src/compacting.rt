//! Compact tables, and the edge of their budget.

use crate::seeing::see;
use hs_fixtures::{BRANCHING, BRANCHING_REJECTED, TWICE, TWICE_TRANSITIONS, problem_of};
use hs_minimal::{Compact, compact};
use hs_scheme::{OutOfMemory, Problem};
use hs_table::Entry;
use std::alloc::Global;
use std::mem::forget;
use std::test::Fail;

/// What is answered, in short: `compact` or `over`, the number of entries, and the points of the first
/// two.
type Said = (&'static str, usize, Option<u32>, Option<u32>);

/// The point of the entry at this place.
fn point_at(entries: &[Entry], place: usize) -> Option<u32> {
    match entries.get(place) {
        Some(entry) => Some(entry.point),
        None => None,
    }
}

/// What is said of these entries.
fn of_entries(name: &'static str, entries: &[Entry]) -> Said {
    (
        name,
        entries.len(),
        point_at(entries, 0),
        point_at(entries, 1),
    )
}

/// What the search answers.
fn of_answer(answer: &Compact) -> Said {
    match answer {
        Compact::Table(entries) => of_entries("compact", entries.as_slice()),
        Compact::Over(entries) => of_entries("over", entries.as_slice()),
    }
}

/// The answer of the search, where the budget is 1 to 1,000,000; else none.
fn answered(alloc: Global, problem: &Problem, budget: u32) -> Result<Option<Said>, OutOfMemory> {
    if budget < 1 || budget > 1_000_000 {
        return Ok(None);
    }
    let answer = compact(alloc, problem, budget)?;
    let said = of_answer(&answer);
    forget(answer);
    Ok(Some(said))
}

/// The same of a file with these rules and transitions.
fn answered_on(
    alloc: Global,
    rules: &str,
    transitions: &str,
    budget: u32,
) -> Result<Option<Said>, Fail> {
    let problem = problem_of(alloc, rules, transitions)?;
    let said = answered(alloc, &problem, budget);
    forget(problem);
    Ok(said?)
}

/// Rules, transitions and a budget, with what is answered.
const ANSWERS: &[(&str, &str, u32, Said)] = &[
    (
        "S -> a b.",
        "q0 a -> q0.",
        2,
        ("compact", 2, Some(0), Some(1)),
    ),
    ("S -> a b.", "q0 a -> q0.", 1, ("over", 2, Some(1), Some(0))),
    ("S -> S.", "q0 a -> .", 1, ("compact", 0, None, None)),
    (
        BRANCHING,
        BRANCHING_REJECTED,
        1_000,
        ("compact", 14, Some(0), Some(0)),
    ),
    (
        TWICE,
        TWICE_TRANSITIONS,
        13,
        ("compact", 13, Some(0), Some(0)),
    ),
];

#[test]
fn compact_tables_within_their_budget(rt: HostRuntime) -> Result<(), Fail> {
    for (rules, transitions, budget, expected) in ANSWERS {
        let said = answered_on(rt.alloc(), rules, transitions, *budget)?;
        see(&rt, said, Some(*expected), rules);
    }
    Ok(())
}
