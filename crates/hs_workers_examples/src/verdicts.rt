//! The verdict of the table beside that of plain reduction, and the table of one worker beside that of
//! four.

ghost use Rattle.hs_flow.specs.Dependents.{HasDependents};

use crate::random::random_file;
use crate::saturating::{BUDGET, Least, saturated};
use crate::seeing::see;
use hs_core::{Done, saturate_alone};
use hs_fixtures::{
    BRANCHING, BRANCHING_ACCEPTED, BRANCHING_REJECTED, RESOURCE, RESOURCE_TRANSITIONS, TWICE,
    TWICE_TRANSITIONS, problem_of, problem_of_text,
};
use hs_flow::Dependents;
use hs_reduce::{Bounded, bounded};
use hs_scheme::{OutOfMemory, Problem, Sorted};
use std::alloc::Global;
use std::mem::forget;
use std::process::Abort;
use std::sync::Wait;
use std::test::Fail;
use std::thread::Threads;

/// So many steps on each branch are made by plain reduction.
const STEPS: u32 = 12;

/// Whether plain reduction meets an error.
fn has_error(alloc: Global, sorted: &Sorted) -> Result<bool, OutOfMemory> {
    match bounded(alloc, sorted, STEPS)? {
        Bounded::NoError => Ok(false),
        Bounded::Error(_path) => Ok(true),
    }
}

/// Whether the least table, formed by one worker alone, has the start entry.
fn has_start(done: &Done) -> Option<bool> {
    match done {
        Done::Least(core) => Some(core.start().is_some()),
        _ => None,
    }
}

/// Whether the table that one worker alone forms rejects.
fn rejects_with(alloc: Global, problem: &Problem, dependents: &Dependents) -> Option<bool>
    requires { HasDependents problem.now.points problem.now.flow.pairs dependents.now }
{
    let Ok(done) = saturate_alone(alloc, problem, dependents, BUDGET, false) else {
        return None;
    };
    let answer = has_start(&done);
    forget(done);
    answer
}

/// The same.
fn rejects_alone(alloc: Global, problem: &Problem) -> Result<Option<bool>, OutOfMemory> {
    let dependents = Dependents::of(alloc, problem)?;
    Ok(rejects_with(alloc, problem, &dependents))
}

/// Whether the table of four workers rejects, and whether it is this one.
fn beside(four: &Option<Least>, one: &Option<Least>) -> (Option<bool>, bool) {
    match (four, one) {
        (Some(four), Some(one)) => {
            let same = four.lines.as_slice() == one.lines.as_slice();
            (Some(four.start), same)
        }
        _ => (None, false),
    }
}

/// Whether the table that four workers form rejects, and whether it is this one, which one worker
/// formed.
fn rejects_beside<R: Threads + Wait + Sync>(
    rt: &R,
    alloc: Global,
    problem: &Problem,
    one: &Option<Least>,
) -> Result<(Option<bool>, bool), OutOfMemory> {
    let four = saturated(rt, alloc, problem, 4)?;
    Ok(beside(&four, one))
}

/// Whether the table that four workers form rejects, and whether it is that of one.
fn rejects<R: Threads + Wait + Sync>(
    rt: &R,
    alloc: Global,
    problem: &Problem,
) -> Result<(Option<bool>, bool), OutOfMemory> {
    let one = saturated(rt, alloc, problem, 1)?;
    rejects_beside(rt, alloc, problem, &one)
}

/// Whether the scheme is rejected: by reduction, by one worker and by four; and whether the tables of
/// one and of four are the same.
#[derive(Clone, Copy)]
struct Verdicts {
    reduction: bool,
    alone: Option<bool>,
    four: Option<bool>,
    same: bool,
}

/// The verdicts on a problem.
fn compare<R: Threads + Wait + Sync>(
    rt: &R,
    alloc: Global,
    problem: &Problem,
) -> Result<Verdicts, OutOfMemory> {
    let reduction = has_error(alloc, &problem.sorted)?;
    let alone = rejects_alone(alloc, problem)?;
    let (four, same) = rejects(rt, alloc, problem)?;
    Ok(Verdicts {
        reduction,
        alone,
        four,
        same,
    })
}

/// The verdicts on the problem of a file.
fn verdicts_on<R: Threads + Wait + Sync>(
    rt: &R,
    alloc: Global,
    file: &str,
) -> Result<Verdicts, Fail> {
    let problem = problem_of_text(alloc, file.as_bytes())?;
    let verdicts = compare(rt, alloc, &problem);
    forget(problem);
    Ok(verdicts?)
}

/// Rules, transitions, and whether the scheme is rejected.
const WORKED: &[(&str, &str, bool)] = &[
    ("S -> a S.", "q0 a -> q0.", false),
    ("S -> a b.", "q0 a -> q0.", true),
    ("S -> S.", "q0 a -> .", false),
    (BRANCHING, BRANCHING_ACCEPTED, false),
    (BRANCHING, BRANCHING_REJECTED, true),
    (TWICE, TWICE_TRANSITIONS, true),
    (RESOURCE, RESOURCE_TRANSITIONS, false),
];

/// Sees that all verdicts on the rules and the transitions are this one.
fn see_verdict<R: Abort + Threads + Wait + Sync>(
    rt: &R,
    alloc: Global,
    rules: &str,
    transitions: &str,
    rejected: bool,
) -> Result<(), Fail> {
    let problem = problem_of(alloc, rules, transitions)?;
    let found = compare(rt, alloc, &problem);
    forget(problem);
    let found = found?;
    see(
        rt,
        (found.reduction, found.alone, found.four, found.same),
        (rejected, Some(rejected), Some(rejected), true),
        transitions,
    );
    Ok(())
}

#[test]
fn worked_verdicts_are_those_of_reduction(rt: HostRuntime) -> Result<(), Fail> {
    for (rules, transitions, rejected) in WORKED {
        see_verdict(&rt, rt.alloc(), rules, transitions, *rejected)?;
    }
    Ok(())
}

/// The verdicts on the file, which agree, as do the tables. Where reduction finds no error in so few
/// steps and the table rejects, the path is longer.
fn agreeing_on<R: Abort + Threads + Wait + Sync>(
    rt: &R,
    alloc: Global,
    file: &str,
) -> Result<Verdicts, Fail> {
    let found = verdicts_on(rt, alloc, file)?;
    see(
        rt,
        (found.alone.is_some(), found.four, found.same),
        (true, found.alone, true),
        file,
    );
    if found.reduction {
        see(rt, found.alone, Some(true), file);
    }
    Ok(found)
}

/// The verdicts on the random file of this number, which agree, as do the tables.
fn agreeing<R: Abort + Threads + Wait + Sync>(
    rt: &R,
    alloc: Global,
    number: u32,
) -> Result<Verdicts, Fail> {
    let file = random_file(alloc, number)?;
    agreeing_on(rt, alloc, file.as_str())
}

#[test]
fn tables_of_random_schemes_by_one_worker_and_by_four(rt: HostRuntime) -> Result<(), Fail> {
    for number in 0..100 {
        let _agreed = agreeing(&rt, rt.alloc(), number)?;
    }
    Ok(())
}

#[test]
fn verdicts_on_random_schemes_agree_with_reduction(rt: HostRuntime) -> Result<(), Fail> {
    let mut accepted: u32 = 0;
    let mut rejected: u32 = 0;
    for number in 1_000..1_200 {
        let found = agreeing(&rt, rt.alloc(), number)?;
        if found.reduction {
            rejected = rejected.wrapping_add(1);
        }
        if found.alone == Some(false) {
            accepted = accepted.wrapping_add(1);
        }
    }
    see(
        &rt,
        (accepted >= 50, rejected >= 50),
        (true, true),
        "some of both",
    );
    Ok(())
}
