//! Saturation by one worker: least tables, the edge of the budget, the start entry alone, and generated
//! files.

ghost use Rattle.std.specs.Prelude.{◌≤◌};
ghost use Rattle.hs_flow.specs.Dependents.{HasDependents};

use crate::comparing::least_entries;
use crate::seeing::see;
use hs_core::{Core, Done, Drained, drain, saturate_alone};
use hs_fixtures::{BRANCHING, BRANCHING_ACCEPTED, TWICE, TWICE_TRANSITIONS, cycle, problem_of};
use hs_flow::Dependents;
use hs_scheme::{OutOfMemory, Problem};
use std::alloc::Global;
use std::mem::forget;
use std::test::Fail;

/// The number of the core's entries where they are those of the least table by the plain program.
fn entries_in(alloc: Global, problem: &Problem, core: &Core) -> Result<Option<u32>, OutOfMemory> {
    let table = core.table(alloc)?;
    let entries = least_entries(alloc, problem, table.as_slice());
    drop(table);
    match entries? {
        None => Ok(None),
        Some(_) => Ok(Some(core.len())),
    }
}

/// The same of an answer with the least table.
fn entries_done(alloc: Global, problem: &Problem, done: &Done) -> Result<Option<u32>, OutOfMemory> {
    match done {
        Done::Least(core) => entries_in(alloc, problem, core),
        _ => Ok(None),
    }
}

/// The same of the answer of `saturate_alone`.
fn entries_saturated(
    alloc: Global,
    problem: &Problem,
    dependents: &Dependents,
) -> Result<Option<u32>, OutOfMemory>
    requires { HasDependents problem.now.points problem.now.flow.pairs dependents.now }
{
    let done = saturate_alone(alloc, problem, dependents, 1_000, false)?;
    let entries = entries_done(alloc, problem, &done);
    forget(done);
    entries
}

/// The number of entries of the least table by one worker, or `None` where the plain program finds
/// another one.
pub(crate) fn entries_alone(alloc: Global, problem: &Problem) -> Result<Option<u32>, OutOfMemory> {
    let dependents = Dependents::of(alloc, problem)?;
    let entries = entries_saturated(alloc, problem, &dependents);
    drop(dependents);
    entries
}

/// What is answered, in short: `least`, `over` or `first`, the number of entries, and whether one is
/// kept past the budget.
type Said = (&'static str, u32, bool);

/// What an answer says of its core.
fn of_core(name: &'static str, core: &Core) -> Said {
    (name, core.len(), core.past().is_some())
}

/// What saturation answers.
fn of_done(done: &Done) -> Said {
    match done {
        Done::Least(core) => of_core("least", core),
        Done::Over(core) => of_core("over", core),
        Done::First(core) => of_core("first", core),
    }
}

/// What draining answers.
fn of_drained(answer: Drained) -> &'static str {
    match answer {
        Drained::Quiet => "least",
        Drained::Over => "over",
        Drained::Found { .. } => "first",
    }
}

/// How many entries at most, and whether only the start entry is sought.
#[derive(Clone, Copy)]
struct Asked {
    budget: u32,
    first: bool,
}

/// The answer of `saturate_alone`.
fn saturated(
    alloc: Global,
    problem: &Problem,
    dependents: &Dependents,
    asked: Asked,
) -> Result<Said, OutOfMemory>
    requires least { 1 ≤ asked.budget }
    requires greatest { asked.budget ≤ 1000000 }
    requires dependents { HasDependents problem.now.points problem.now.flow.pairs dependents.now }
{
    let done = saturate_alone(alloc, problem, dependents, asked.budget, asked.first)?;
    let said = of_done(&done);
    forget(done);
    Ok(said)
}

/// The answer of `drain`.
fn drained_core(
    alloc: Global,
    core: &mut Core,
    dependents: &Dependents,
) -> Result<Said, OutOfMemory>
    requires { HasDependents core.old.base.problem.points core.old.base.problem.flow.pairs dependents.now }
{
    let answer = drain(alloc, core, dependents)?;
    Ok(of_core(of_drained(answer), core))
}

/// The answer of `drain` on a new core.
fn drained(
    alloc: Global,
    problem: &Problem,
    dependents: &Dependents,
    asked: Asked,
) -> Result<Said, OutOfMemory>
    requires least { 1 ≤ asked.budget }
    requires greatest { asked.budget ≤ 1000000 }
    requires dependents { HasDependents problem.now.points problem.now.flow.pairs dependents.now }
{
    let mut core = Core::new(alloc, problem, asked.budget, asked.first)?;
    let said = drained_core(alloc, &mut core, dependents);
    forget(core);
    said
}

/// Both answers, where the budget is 1 to 1,000,000; else none.
fn both(
    alloc: Global,
    problem: &Problem,
    dependents: &Dependents,
    asked: Asked,
) -> Result<Option<(Said, Said)>, OutOfMemory>
    requires { HasDependents problem.now.points problem.now.flow.pairs dependents.now }
{
    if asked.budget < 1 || asked.budget > 1_000_000 {
        return Ok(None);
    }
    let saturated = saturated(alloc, problem, dependents, asked)?;
    let drained = drained(alloc, problem, dependents, asked)?;
    Ok(Some((saturated, drained)))
}

/// The same, of the problem.
fn answered(
    alloc: Global,
    problem: &Problem,
    asked: Asked,
) -> Result<Option<(Said, Said)>, OutOfMemory> {
    let dependents = Dependents::of(alloc, problem)?;
    let both = both(alloc, problem, &dependents, asked);
    drop(dependents);
    both
}

/// Where a problem comes from.
#[derive(Clone, Copy)]
enum Source {
    /// From rules and transitions.
    File(&'static str, &'static str),
    /// From the generated file of this number.
    Generated(u32),
}

/// The problem of the source.
fn problem_from(alloc: Global, source: Source) -> Result<Problem, Fail> {
    match source {
        Source::File(rules, transitions) => problem_of(alloc, rules, transitions),
        Source::Generated(k) => cycle(alloc, k),
    }
}

/// The same, of the source.
fn of_source(
    alloc: Global,
    source: Source,
    budget: u32,
    first: bool,
) -> Result<Option<(Said, Said)>, Fail> {
    let problem = problem_from(alloc, source)?;
    let said = answered(alloc, &problem, Asked { budget, first });
    forget(problem);
    Ok(said?)
}

/// A function that is applied twice.
const APPLIED_TWICE: Source = Source::File(TWICE, TWICE_TRANSITIONS);

/// The branching scheme that is accepted.
const ACCEPTED: Source = Source::File(BRANCHING, BRANCHING_ACCEPTED);

/// The scheme whose table has two entries.
const TWO_POINTS: Source = Source::File("S -> a b.", "q0 a -> q0.");

/// Sources, what is asked, and what is answered.
const ANSWERS: &[(Source, u32, bool, Said)] = &[
    (APPLIED_TWICE, 13, false, ("least", 13, false)),
    (APPLIED_TWICE, 12, false, ("over", 12, true)),
    (ACCEPTED, 4, true, ("least", 4, false)),
    (TWO_POINTS, 2, true, ("first", 2, false)),
    (Source::Generated(1), 1_000_000, false, ("least", 7, false)),
    (Source::Generated(2), 1_000_000, false, ("least", 17, false)),
    (
        Source::Generated(20),
        1_000_000,
        false,
        ("least", 881, false),
    ),
    (
        Source::Generated(100),
        1_000_000,
        false,
        ("least", 20_401, false),
    ),
];

#[test]
fn both_calls_answer_the_same(rt: HostRuntime) -> Result<(), Fail> {
    for (source, budget, first, expected) in ANSWERS {
        let said = of_source(rt.alloc(), *source, *budget, *first)?;
        see(&rt, said, Some((*expected, *expected)), "both calls");
    }
    Ok(())
}
