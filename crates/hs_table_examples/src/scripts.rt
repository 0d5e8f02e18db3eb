//! Scripts of workers on the core of `S -> a b.`, in whose table the entry at point 1 comes first and
//! that at point 0 follows with it.

use crate::seeing::see;
use crate::telling::{Line, has_log, past_line};
use crate::working::{finished, given_back, published, taken};
use hs_core::{Core, Published, Taken, Work};
use hs_scheme::{OutOfMemory, Problem};
use std::alloc::Global;
use std::mem::forget;
use std::process::Abort;

/// What is done. But for taking it is done in the name of the worker who holds the work.
#[derive(Clone, Copy)]
enum Command {
    /// This worker takes a work.
    Take(u32),
    /// Publishes the first entry that follows at the point by the work.
    Publish(Work, u32),
    Finish(Work),
    GiveBack(Work),
}

/// What comes of it.
#[derive(Clone, Copy, PartialEq, Eq)]
enum Answer {
    /// A seed was taken. Which of them comes first is left open.
    Seed,
    /// This place was taken.
    Place(u32),
    Quiet,
    Idle,
    Found(u32),
    Known(u32),
    Added(u32),
    Over,
    Done,
    /// Nothing follows, nobody holds the work, or something that follows by it isn't in the log.
    Refused,
}

/// The answer of `take`.
fn of_taken(taken: Taken) -> Answer {
    match taken {
        Taken::Item { work, .. } => match work {
            Work::Seed(_) => Answer::Seed,
            Work::Place(place) => Answer::Place(place),
        },
        Taken::Quiet => Answer::Quiet,
        Taken::Idle => Answer::Idle,
        Taken::Over => Answer::Over,
        Taken::Found { place } => Answer::Found(place),
    }
}

/// The answer of `publish`, where something was published.
fn of_published(published: Option<Published>) -> Answer {
    match published {
        None => Answer::Refused,
        Some(Published::Known { place }) => Answer::Known(place),
        Some(Published::Added { place }) => Answer::Added(place),
        Some(Published::Over) => Answer::Over,
    }
}

/// Whether it was done.
fn of_done(done: bool) -> Answer {
    if done { Answer::Done } else { Answer::Refused }
}

/// Carries the command out, and answers what comes of it.
fn carry_out(alloc: Global, core: &mut Core, command: Command) -> Result<Answer, OutOfMemory> {
    match command {
        Command::Take(worker) => Ok(of_taken(taken(core, worker)?)),
        Command::Publish(work, point) => Ok(of_published(published(alloc, core, work, point)?)),
        Command::Finish(work) => Ok(of_done(finished(alloc, core, work)?)),
        Command::GiveBack(work) => Ok(of_done(given_back(core, work))),
    }
}

/// Carries the commands out in turn until something else comes of one, and answers how many were as
/// expected.
fn agreeing(
    alloc: Global,
    core: &mut Core,
    rows: &[(Command, Answer)],
) -> Result<usize, OutOfMemory> {
    for (number, (command, expected)) in rows.iter().enumerate() {
        if carry_out(alloc, core, *command)? != *expected {
            return Ok(number);
        }
    }
    Ok(rows.len())
}

/// The two seeds are taken, one entry follows from nothing, and its place is taken. A work by which
/// something follows that isn't in the log can't be finished.
const BEGINNING: &[(Command, Answer)] = &[
    (Command::Take(1), Answer::Seed),
    (Command::Take(2), Answer::Seed),
    (Command::Take(3), Answer::Idle),
    (Command::Finish(Work::Seed(1)), Answer::Refused),
    (Command::Publish(Work::Seed(1), 1), Answer::Added(0)),
    (Command::Publish(Work::Seed(1), 1), Answer::Known(0)),
    (Command::Finish(Work::Seed(1)), Answer::Done),
    (Command::Publish(Work::Seed(0), 0), Answer::Refused),
    (Command::Finish(Work::Seed(0)), Answer::Done),
    (Command::Take(3), Answer::Place(0)),
    (Command::Finish(Work::Place(0)), Answer::Refused),
];

/// The other entry follows with it.
const GOING_ON: &[(Command, Answer)] = &[
    (Command::Publish(Work::Place(0), 0), Answer::Added(1)),
    (Command::Finish(Work::Place(0)), Answer::Done),
    (Command::Take(1), Answer::Place(1)),
    (Command::GiveBack(Work::Place(1)), Answer::Done),
    (Command::Take(2), Answer::Place(1)),
    (Command::Finish(Work::Place(1)), Answer::Done),
    (Command::Take(1), Answer::Quiet),
];

/// There is no room for it.
const PAST_THE_BUDGET: &[(Command, Answer)] = &[
    (Command::Publish(Work::Place(0), 0), Answer::Over),
    (Command::Publish(Work::Place(0), 0), Answer::Over),
    (Command::Take(1), Answer::Over),
    (Command::Finish(Work::Place(0)), Answer::Refused),
    (Command::GiveBack(Work::Place(0)), Answer::Done),
    (Command::Take(2), Answer::Over),
];

/// It is the start entry, and no other is sought.
const FOUND: &[(Command, Answer)] = &[
    (Command::Publish(Work::Place(0), 0), Answer::Added(1)),
    (Command::Take(1), Answer::Found(1)),
    (Command::Finish(Work::Place(0)), Answer::Done),
    (Command::Take(1), Answer::Found(1)),
];

/// The entries of the table.
const BOTH: &[Line] = &[(1, 0, Some(0)), (0, 0, Some(0))];

/// Just the first of them.
const ONE: &[Line] = &[(1, 0, Some(0))];

/// A budget, whether only the start entry is sought, commands after the beginning, and then the entries
/// and the one past the budget.
type Script = (
    u32,
    bool,
    &'static [(Command, Answer)],
    &'static [Line],
    Option<Line>,
);

/// The scripts.
const SCRIPTS: &[Script] = &[
    (2, false, GOING_ON, BOTH, None),
    (1, false, PAST_THE_BUDGET, ONE, Some((0, 0, Some(0)))),
    (2, true, FOUND, BOTH, None),
];

/// How many commands of the beginning and of the rest were as expected, whether the core's entries are
/// then, and the one past the budget.
type Outcome = (usize, usize, bool, Option<Line>);

/// Carries the beginning out and then the commands of the script.
fn play(alloc: Global, core: &mut Core, script: &Script) -> Result<Outcome, OutOfMemory> {
    let begun = agreeing(alloc, core, BEGINNING)?;
    let ended = agreeing(alloc, core, script.2)?;
    let has_entries = has_log(alloc, core, script.3)?;
    let past = past_line(alloc, core)?;
    Ok((begun, ended, has_entries, past))
}

/// The same on a new core, for a budget of 1 to 1,000,000; else nothing.
fn played(
    alloc: Global,
    problem: &Problem,
    script: &Script,
) -> Result<Option<Outcome>, OutOfMemory> {
    if script.0 < 1 || script.0 > 1_000_000 {
        return Ok(None);
    }
    let mut core = Core::new(alloc, problem, script.0, script.1)?;
    let outcome = play(alloc, &mut core, script);
    forget(core);
    Ok(Some(outcome?))
}

/// Sees that all commands were as expected, and so are the entries.
pub(crate) fn see_scripts(
    rt: &impl Abort,
    alloc: Global,
    problem: &Problem,
) -> Result<(), OutOfMemory> {
    for script in SCRIPTS {
        let outcome = played(alloc, problem, script)?;
        let expected = (BEGINNING.len(), script.2.len(), true, script.4);
        see(rt, outcome, Some(expected), "three workers");
    }
    Ok(())
}
