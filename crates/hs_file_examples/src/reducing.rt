//! Reduction of small files, along paths and up to a number of steps, each worked out by hand.

use crate::told::{Asked, see_told};
use hs_fixtures::{BRANCHING, BRANCHING_ACCEPTED, BRANCHING_REJECTED};
use hs_reduce::{MAX_CUT, MAX_STEPS, bounded, failure_along, replay};
use hs_scheme::Sorted;
use std::alloc::Global;
use std::mem::forget;
use std::test::Fail;

/// Adds the answers of `replay` and of `failure_along` along the path.
pub(crate) fn push_replayed(
    out: &mut String,
    alloc: Global,
    sorted: &Sorted,
    path: &[u32],
    steps: u64,
) -> Result<(), Fail> {
    if path.len() > 100 || steps > MAX_STEPS {
        return Err("a longer path")?;
    }
    let answer = replay(alloc, sorted, path, steps)?;
    let failing = failure_along(alloc, sorted, path, steps)?;
    let pushed = write!(out, "{answer:?}, {failing:?}");
    forget(failing);
    Ok(pushed?)
}

/// Adds the answer of `bounded`.
pub(crate) fn push_first_error(
    out: &mut String,
    alloc: Global,
    sorted: &Sorted,
    n: u32,
) -> Result<(), Fail> {
    if n > MAX_CUT {
        return Err("more steps")?;
    }
    let answer = bounded(alloc, sorted, n)?;
    let pushed = write!(out, "{answer:?}");
    forget(answer);
    Ok(pushed?)
}

/// A path in the branching scheme, whose terminals are c, br, a and b.
const FAILING: [u32; 6] = [2, 1, 2, 1, 1, 1];

#[test]
fn replays_along_paths_that_fail_and_end(rt: HostRuntime) -> Result<(), Fail> {
    let alloc = rt.alloc();
    let (rules, failing) = (BRANCHING, BRANCHING_REJECTED);
    let stuck = "Stuck { terminal: 3, state: 1, at: 6, used: 10 }, Some(FailingPath { steps: \
                 [(1, 2), (2, 1), (1, 2), (2, 1), (1, 1), (3, 1)], last: 3, state: 1, used: 10 })";
    see_told(
        &rt,
        alloc,
        rules,
        failing,
        Asked::Along(&FAILING, 10),
        stuck,
    )?;
    see_told(
        &rt,
        alloc,
        rules,
        failing,
        Asked::Along(&FAILING, 9),
        "Runs, None",
    )?;
    let ending = BRANCHING_ACCEPTED;
    see_told(
        &rt,
        alloc,
        rules,
        ending,
        Asked::Along(&[], 5),
        "Ended { used: 2 }, None",
    )?;
    see_told(
        &rt,
        alloc,
        rules,
        ending,
        Asked::Along(&[3], 5),
        "NoChild { at: 0 }, None",
    )
}

/// The terms of the second reduction are as deep as it is long.
#[test]
fn replays_that_run_on(rt: HostRuntime) -> Result<(), Fail> {
    let alloc = rt.alloc();
    see_told(
        &rt,
        alloc,
        "S -> S.",
        "q0 a -> .",
        Asked::Along(&[], 5),
        "Runs, None",
    )?;
    let growing = "S -> F c. F x -> F (a x).";
    let asked = Asked::Along(&[], 400_000);
    see_told(&rt, alloc, growing, "q0 a -> q0.", asked, "Runs, None")
}

/// Rules, transitions, a number of steps, and the first error of the cut after them.
const CUTS: [(&str, &str, u32, &str); 4] = [
    ("S -> a b.", "q0 a -> q0.", 2, "NoError"),
    (
        "S -> a b.",
        "q0 a -> q0.",
        3,
        "Error(FailingPath { steps: [(0, 1)], last: 1, state: 0, used: 2 })",
    ),
    (BRANCHING, BRANCHING_REJECTED, 10, "NoError"),
    (
        BRANCHING,
        BRANCHING_REJECTED,
        11,
        "Error(FailingPath { steps: [(1, 2), (2, 1), (1, 2), (2, 1), (1, 1), (3, 1)], last: 3, state: 1, used: 10 })",
    ),
];

#[test]
fn finds_the_first_error_of_a_cut(rt: HostRuntime) -> Result<(), Fail> {
    for (rules, transitions, n, expected) in &CUTS {
        let asked = Asked::Within(*n);
        see_told(&rt, rt.alloc(), rules, transitions, asked, expected)?;
    }
    Ok(())
}
