//! Seats that rest between threads, under a turn over a problem that is borrowed.

ghost use Rattle.std.specs.Prelude.{◌≡◌, ◌+◌, ◌<◌, ◌^◌, ℕ, false, length, slice_index_or, All};
ghost use Rattle.hs_turn.specs.Seats.{RestsIn};

use crate::recording::{Event, MANY, Problem, see_steps};
use crate::seeing::see;
use hs_turn::{Rested, Seat, Storied, Turn};
use std::alloc::Global;
use std::mem::{forget, replace};
use std::process::Abort;
use std::sync::Wait;
use std::thread::{Threads, for_each_mut};

/// A list of events, upon a problem that is borrowed and a budget.
#[derive(Drop)]
struct Work<'p> {
    problem: &'p Problem,
    budget: u32,
    events: Vec<Event>,
}

impl<'p> Storied for Work<'p> {
    type Base = (Problem, u32);

    type Event = Event;

    ghost base = { λ work. (work.problem.now, work.budget) };

    ghost story = { λ work. work.events.items };

    ghost number = { λ event. event.number };
}

/// Where a worker keeps its seat.
type Resting = Rested<(Problem, u32), Event>;

/// Adds an event of this seat, where there is room for it.
fn record<'p, R: Wait>(rt: &R, turn: &Turn<Work<'p>>, seat: &mut Seat<Work<'p>>)
    requires turn { seat.old.turn ≡ turn.now }
    requires free { seat.old.known.holds ≡ false }
    ensures turn { seat.new.turn ≡ turn.now }
    ensures free { seat.new.known.holds ≡ false }
{
    let number = seat.number();
    let mut guard = turn.enter(rt, seat);
    if guard.state.events.len() < MANY {
        if guard.state.events.push(Event { number, step: 0 }).is_ok() {
            guard.tell(seat);
        }
    }
    guard.leave(seat);
}

/// Adds an event of the seat that rests here.
fn record_rested<'p, R: Wait>(rt: &R, turn: &Turn<Work<'p>>, rested: &mut Resting)
    requires { RestsIn turn.now rested.old }
    ensures { RestsIn turn.now rested.new }
{
    let mut seat = replace(rested, Rested::blank()).into_seat::<Work<'p>>();
    record(rt, turn, &mut seat);
    *rested = seat.into_rested();
}

/// Each seat adds an event, in threads of their own.
fn record_each<'p, R: Threads + Wait + Sync>(rt: &R, turn: &Turn<Work<'p>>, rested: &mut [Resting])
    requires { All (RestsIn turn.now) rested.old }
    ensures { (i : ℕ) (d : _) → i < length rested.old → RestsIn turn.now (slice_index_or rested.new i d) }
{
    for_each_mut(
        rt,
        rested,
        4,
        &|_, seat: &mut Resting|
            requires { RestsIn turn.now seat.old }
            ensures { RestsIn turn.entry.now seat.new }
        { record_rested(rt, turn, seat) },
    );
}

/// Three seats that rest, split off the first one.
fn three_rested<'p>(turn: &Turn<Work<'p>>, first: &mut Seat<Work<'p>>) -> [Resting; 3]
    requires turn { first.old.turn ≡ turn.now }
    requires free { (first.old.known.holds ≡ false) × (first.old.known.number ≡ 0) }
    requires room { first.old.known.splits + 3 < 2 ^ 32 }
    ensures turn { first.new.turn ≡ turn.now }
    ensures free { first.new.known.holds ≡ false }
    ensures all { All (RestsIn turn.now) result }
{
    let a = turn.split(first).into_rested();
    let b = turn.split(first).into_rested();
    let c = turn.split(first).into_rested();
    [a, b, c]
}

/// Three seats are split off the first one, rest, and add an event each, in threads of their own.
fn record_by_three<'p, R: Threads + Wait + Sync>(
    rt: &R,
    turn: &Turn<Work<'p>>,
    first: &mut Seat<Work<'p>>,
)
    requires turn { first.old.turn ≡ turn.now }
    requires free { (first.old.known.holds ≡ false) × (first.old.known.number ≡ 0) }
    requires room { first.old.known.splits + 3 < 2 ^ 32 }
    ensures turn { first.new.turn ≡ turn.now }
    ensures free { first.new.known.holds ≡ false }
{
    let mut rested = three_rested(turn, first);
    record_each(rt, turn, &mut rested);
}

/// Looks at work upon a budget of 9, with an event of each of the three.
fn see_work(rt: &impl Abort, work: &Work<'_>) {
    see(rt, work.events.len(), 3, "events");
    see(rt, work.budget, 9, "budget");
    see_steps(rt, work.events.as_slice(), 1, 1);
    see_steps(rt, work.events.as_slice(), 3, 1);
}

/// A turn over such work, and its first seat.
fn begun<'p, R: Abort>(
    rt: &R,
    alloc: Global,
    problem: &'p Problem,
    budget: u32,
) -> (Turn<Work<'p>>, Seat<Work<'p>>)
    ensures turn { result.1.turn ≡ result.0 }
    ensures free { (result.1.known.holds ≡ false) × (result.1.known.number ≡ 0) }
    ensures splits { result.1.known.splits ≡ 0 }
{
    let work = Work {
        problem,
        budget,
        events: Vec::new(alloc),
    };
    let Ok(made) = Turn::new(alloc, work) else {
        panic!(rt; "memory");
    };
    made
}

#[test]
fn seats_rest_between_threads(rt: HostRuntime) {
    let problem = Problem { numbers: [4, 2] };
    let (turn, mut first) = begun(&rt, rt.alloc(), &problem, 9);
    record_by_three(&rt, &turn, &mut first);
    let guard = turn.enter(&rt, &mut first);
    see_work(&rt, &guard.state);
    guard.leave(&mut first);
    forget(first);
    forget(turn);
}
