//! Three workers at the shared table of a small scheme, and one that holds it, step by step.

ghost use Rattle.std.specs.Prelude.{◌≤◌};

use crate::calls::{Answer, Call, make_calls, make_held_calls, taken};
use crate::opening::{close, seat_of, see_log, share, three_workers, worker_at};
use crate::seeing::see;
use crate::worker::{catch_up, take};
use hs_fixtures::problem_of;
use hs_scheme::Problem;
use hs_shared::Work;
use std::alloc::Global;
use std::mem::forget;
use std::process::Abort;
use std::sync::Wait;
use std::test::Fail;

/// Three workers make the calls at a new table. The log then has entries at these points, in the
/// replica of worker 0 as in the core.
fn play<R: Abort + Wait>(
    rt: &R,
    alloc: Global,
    problem: &Problem,
    budget: u32,
    rows: &[(u32, Call, Answer)],
    points: &[u32],
)
    requires least { 1 ≤ budget }
    requires greatest { budget ≤ 1000000 }
{
    let (table, first) = share(rt, alloc, problem, budget);
    let (mut zero, mut one, mut two) = three_workers(alloc, &table, problem, first);
    make_calls(
        rt, alloc, &table, problem, &mut zero, &mut one, &mut two, rows,
    );
    catch_up(rt, &table, problem, &mut zero);
    see_log(rt, alloc, &zero.replica, points);
    let core = close(table, seat_of(zero), seat_of(one), seat_of(two));
    see_log(rt, alloc, core.replica(), points);
    forget(core);
}

/// A worker makes the calls while its seat holds a new table, and leaves it.
fn play_held<R: Abort + Wait>(
    rt: &R,
    alloc: Global,
    problem: &Problem,
    rows: &[(Call, Answer, usize)],
    points: &[u32],
) {
    let (table, first) = share(rt, alloc, problem, 2);
    let mut worker = worker_at(alloc, &table, problem, first);
    let mut hold = table.enter(rt, &mut worker.seat);
    see(rt, hold.pending(), 2, "pending works");
    make_held_calls(rt, alloc, &table, problem, &mut hold, &mut worker, rows);
    hold.leave(&mut worker.seat);
    see_log(rt, alloc, &worker.replica, points);
    let last = taken(take(rt, &table, problem, &mut worker));
    forget(worker);
    forget(table);
    see(rt, last, Answer::Quiet, "the last call");
}

/// Seats 1 and 2 take the two seeds, one entry follows from nothing, and its place is taken. The other
/// entry follows with it.
const TO_THE_END: &[(u32, Call, Answer)] = &[
    (1, Call::Take, Answer::Took(Work::Seed(0))),
    (2, Call::Take, Answer::Took(Work::Seed(1))),
    (0, Call::Take, Answer::Idle),
    (2, Call::Publish(1), Answer::Added(0)),
    (2, Call::Publish(1), Answer::Known(0)),
    (2, Call::Finish, Answer::Done),
    (1, Call::Finish, Answer::Done),
    (0, Call::Take, Answer::Took(Work::Place(0))),
    (0, Call::Publish(0), Answer::Added(1)),
    (0, Call::Finish, Answer::Done),
    (1, Call::Take, Answer::Took(Work::Place(1))),
    (1, Call::GiveBack, Answer::Done),
    (2, Call::Take, Answer::Took(Work::Place(1))),
    (2, Call::Finish, Answer::Done),
    (0, Call::Take, Answer::Quiet),
];

/// There is no room for the other entry.
const PAST_THE_BUDGET: &[(u32, Call, Answer)] = &[
    (1, Call::Take, Answer::Took(Work::Seed(0))),
    (2, Call::Take, Answer::Took(Work::Seed(1))),
    (2, Call::Publish(1), Answer::Added(0)),
    (2, Call::Finish, Answer::Done),
    (1, Call::Finish, Answer::Done),
    (0, Call::Take, Answer::Took(Work::Place(0))),
    (0, Call::Publish(0), Answer::Over),
    (1, Call::Take, Answer::Over),
    (2, Call::Take, Answer::Over),
    (0, Call::GiveBack, Answer::Done),
    (0, Call::Take, Answer::Over),
];

/// The same by one worker, with the number of works that are pending after each call. A work that is
/// given back is taken after the others.
const IN_ONE_HOLD: &[(Call, Answer, usize)] = &[
    (Call::Take, Answer::Took(Work::Seed(0)), 1),
    (Call::GiveBack, Answer::Done, 2),
    (Call::Take, Answer::Took(Work::Seed(1)), 1),
    (Call::Publish(1), Answer::Added(0), 2),
    (Call::Publish(1), Answer::Known(0), 2),
    (Call::Finish, Answer::Done, 2),
    (Call::Take, Answer::Took(Work::Seed(0)), 1),
    (Call::Finish, Answer::Done, 1),
    (Call::Take, Answer::Took(Work::Place(0)), 0),
    (Call::Publish(0), Answer::Added(1), 1),
    (Call::Finish, Answer::Done, 1),
    (Call::Take, Answer::Took(Work::Place(1)), 0),
    (Call::Finish, Answer::Done, 0),
    (Call::Take, Answer::Quiet, 0),
];

#[test]
fn three_workers_step_by_step(rt: HostRuntime) -> Result<(), Fail> {
    let rejected = problem_of(rt.alloc(), "S -> a b.", "q0 a -> q0.")?;
    play(&rt, rt.alloc(), &rejected, 2, TO_THE_END, &[1, 0]);
    play(&rt, rt.alloc(), &rejected, 1, PAST_THE_BUDGET, &[1]);
    forget(rejected);
    Ok(())
}

#[test]
fn a_hold_makes_the_same_calls(rt: HostRuntime) -> Result<(), Fail> {
    let rejected = problem_of(rt.alloc(), "S -> a b.", "q0 a -> q0.")?;
    play_held(&rt, rt.alloc(), &rejected, IN_ONE_HOLD, &[1, 0]);
    forget(rejected);
    Ok(())
}
