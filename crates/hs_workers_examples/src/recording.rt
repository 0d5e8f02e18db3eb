//! Seats that add events to a list, side by side and one after another.

ghost use Rattle.std.specs.Prelude.{◌≡◌, ◌+◌, ◌<◌, ◌^◌, false};

use crate::seeing::see;
use hs_turn::{Seat, Storied, Turn};
use std::alloc::Global;
use std::marker::Model;
use std::mem::forget;
use std::process::Abort;
use std::sync::Wait;
use std::thread::{Threads, join};

/// What a seat did, and when.
#[derive(Clone, Copy, Debug, PartialEq)]
pub(crate) struct Event {
    pub(crate) number: u32,
    pub(crate) step: u32,
}

/// A problem, which contracts see as its numbers.
#[derive(Drop)]
pub(crate) struct Problem {
    pub(crate) numbers: [u32; 2],
}

impl Model for Problem {
    ghost use Rattle.std.specs.Prelude.{List, ℕ};

    ghost Value = { List ℕ };

    ghost view = { λ p. p.numbers };
}

/// A list of events, upon a problem and a budget that stay.
#[derive(Drop)]
struct Log {
    problem: Problem,
    budget: u32,
    events: Vec<Event>,
}

impl Storied for Log {
    type Base = (Problem, u32);

    type Event = Event;

    ghost base = { λ log. (log.problem, log.budget) };

    ghost story = { λ log. log.events.items };

    ghost number = { λ event. event.number };
}

/// The most events of a log.
pub(crate) const MANY: usize = 1 << 20;

/// A turn over a log without events, and its first seat.
fn begun<R: Abort>(rt: &R, alloc: Global, budget: u32) -> (Turn<Log>, Seat<Log>)
    ensures turn { result.1.turn ≡ result.0 }
    ensures free { (result.1.known.holds ≡ false) × (result.1.known.number ≡ 0) }
    ensures counts { (result.1.known.splits ≡ 0) × (result.1.known.joins ≡ 0) }
{
    let log = Log {
        problem: Problem { numbers: [4, 2] },
        budget,
        events: Vec::new(alloc),
    };
    let Ok(made) = Turn::new(alloc, log) else {
        panic!(rt; "memory");
    };
    made
}

/// Looks at the problem.
fn see_problem(rt: &impl Abort, problem: &Problem) {
    see(rt, problem.numbers.as_slice(), [4, 2].as_slice(), "problem");
}

/// Looks at the problem, the budget and the events of a log.
fn see_log(rt: &impl Abort, log: &Log, budget: u32, events: &[Event]) {
    see_problem(rt, &log.problem);
    see(rt, log.budget, budget, "budget");
    see(rt, log.events.as_slice(), events, "events");
}

/// Adds an event of this seat, and says whether it went in.
fn record<R: Wait>(rt: &R, turn: &Turn<Log>, seat: &mut Seat<Log>, step: u32) -> bool
    requires turn { seat.old.turn ≡ turn.now }
    requires free { seat.old.known.holds ≡ false }
    ensures turn { seat.new.turn ≡ turn.now }
    ensures free { seat.new.known.holds ≡ false }
    ensures number { seat.new.known.number ≡ seat.old.known.number }
    ensures counts { (seat.new.known.splits ≡ seat.old.known.splits)
        × (seat.new.known.joins ≡ seat.old.known.joins) }
{
    let number = seat.number();
    let mut guard = turn.enter(rt, seat);
    let mut recorded = false;
    if guard.state.events.len() < MANY {
        if guard.state.events.push(Event { number, step }).is_ok() {
            guard.tell(seat);
            recorded = true;
        }
    }
    guard.leave(seat);
    recorded
}

/// Adds two events of this seat and tells of them at once, and says whether they went in.
fn record_both<R: Wait>(
    rt: &R,
    turn: &Turn<Log>,
    seat: &mut Seat<Log>,
    step: u32,
    next: u32,
) -> bool
    requires turn { seat.old.turn ≡ turn.now }
    requires free { seat.old.known.holds ≡ false }
    ensures turn { seat.new.turn ≡ turn.now }
    ensures free { seat.new.known.holds ≡ false }
    ensures number { seat.new.known.number ≡ seat.old.known.number }
    ensures counts { (seat.new.known.splits ≡ seat.old.known.splits)
        × (seat.new.known.joins ≡ seat.old.known.joins) }
{
    let number = seat.number();
    let mut guard = turn.enter(rt, seat);
    let mut recorded = false;
    if guard.state.events.len() < MANY {
        if guard.state.events.reserve(2).is_ok() {
            guard.state.events.push_reserved(Event { number, step });
            guard
                .state
                .events
                .push_reserved(Event { number, step: next });
            guard.tell_all(seat, 2);
            recorded = true;
        }
    }
    guard.leave(seat);
    recorded
}

/// What a seat tells at once, and then.
const TOLD_AT_ONCE: [Event; 3] = [
    Event { number: 0, step: 7 },
    Event { number: 0, step: 8 },
    Event { number: 0, step: 9 },
];

#[test]
fn two_events_are_told_at_once(rt: HostRuntime) {
    let (turn, mut seat) = begun(&rt, rt.alloc(), 0);
    let first = record_both(&rt, &turn, &mut seat, 7, 8);
    let last = record(&rt, &turn, &mut seat, 9);
    let log = turn.close(seat);
    see_log(&rt, &log, 0, &TOLD_AT_ONCE);
    forget(log);
    see(&rt, (first, last), (true, true), "recorded");
}

/// How many events there are.
fn count_of<R: Wait>(rt: &R, turn: &Turn<Log>, seat: &mut Seat<Log>) -> usize
    requires turn { seat.old.turn ≡ turn.now }
    requires free { seat.old.known.holds ≡ false }
    ensures turn { seat.new.turn ≡ turn.now }
    ensures free { seat.new.known.holds ≡ false }
    ensures number { seat.new.known.number ≡ seat.old.known.number }
    ensures counts { (seat.new.known.splits ≡ seat.old.known.splits)
        × (seat.new.known.joins ≡ seat.old.known.joins) }
{
    let guard = turn.enter(rt, seat);
    let found = guard.state.events.len();
    guard.leave(seat);
    found
}

#[test]
fn a_state_is_found_as_it_was_left(rt: HostRuntime) {
    let (turn, mut seat) = begun(&rt, rt.alloc(), 9);
    let recorded = record(&rt, &turn, &mut seat, 7);
    let found = count_of(&rt, &turn, &mut seat);
    let log = turn.close(seat);
    see_log(&rt, &log, 9, &TOLD_AT_ONCE[..1]);
    forget(log);
    see(&rt, (recorded, found), (true, 1), "recorded");
}

/// Adds these many events of this seat, step by step, and says whether all went in.
fn record_many<R: Wait>(
    rt: &R,
    turn: &Turn<Log>,
    mut seat: Seat<Log>,
    count: u32,
) -> (Seat<Log>, bool)
    requires turn { seat.turn ≡ turn.now }
    requires free { seat.known.holds ≡ false }
    ensures turn { result.0.turn ≡ turn.now }
    ensures free { result.0.known.holds ≡ false }
{
    let mut all = true;
    for step in 0..count {
        all = record(rt, turn, &mut seat, step) && all;
    }
    (seat, all)
}

/// The same by two threads.
fn record_by_two<R: Threads + Wait + Sync>(
    rt: &R,
    turn: &Turn<Log>,
    a: Seat<Log>,
    b: Seat<Log>,
    count: u32,
) -> (Seat<Log>, Seat<Log>, bool)
    requires a { (a.turn ≡ turn.now) × (a.known.holds ≡ false) }
    requires b { (b.turn ≡ turn.now) × (b.known.holds ≡ false) }
    ensures a { (result.0.turn ≡ turn.now) × (result.0.known.holds ≡ false) }
    ensures b { (result.1.turn ≡ turn.now) × (result.1.known.holds ≡ false) }
{
    let ((a, all_a), (b, all_b)) = join(
        rt,
        || -> (Seat<Log>, bool)
            requires { (a.turn ≡ turn.now) × (a.known.holds ≡ false) }
            ensures { (result.0.turn ≡ turn.entry.now) × (result.0.known.holds ≡ false) }
        { record_many(rt, turn, a, count) },
        || -> (Seat<Log>, bool)
            requires { (b.turn ≡ turn.now) × (b.known.holds ≡ false) }
            ensures { (result.0.turn ≡ turn.entry.now) × (result.0.known.holds ≡ false) }
        { record_many(rt, turn, b, count) },
    );
    (a, b, all_a && all_b)
}

/// How many events this seat has, and whether they are its steps from 0 on, in order.
fn steps_of(events: &[Event], number: u32) -> (u32, bool) {
    let mut next = 0u32;
    let mut in_order = true;
    for event in events {
        if event.number == number {
            in_order = in_order && event.step == next;
            next = next.wrapping_add(1);
        }
    }
    (next, in_order)
}

/// Looks at the events of this seat: so many, its steps from 0 on, in order.
pub(crate) fn see_steps(rt: &impl Abort, events: &[Event], number: u32, wanted: u32) {
    let (found, in_order) = steps_of(events, number);
    see(
        rt,
        (number, found, in_order),
        (number, wanted, true),
        "a seat's steps",
    );
}

/// The same by four threads.
fn record_by_four<R: Threads + Wait + Sync>(
    rt: &R,
    turn: &Turn<Log>,
    seats: (Seat<Log>, Seat<Log>, Seat<Log>, Seat<Log>),
    count: u32,
) -> (Seat<Log>, Seat<Log>, Seat<Log>, Seat<Log>, bool)
    requires first_two { (seats.0.turn ≡ turn.now) × (seats.0.known.holds ≡ false) × (seats.1.turn ≡ turn.now)
        × (seats.1.known.holds ≡ false) }
    requires last_two { (seats.2.turn ≡ turn.now) × (seats.2.known.holds ≡ false) × (seats.3.turn ≡ turn.now)
        × (seats.3.known.holds ≡ false) }
    ensures first_two { (result.0.turn ≡ turn.now) × (result.0.known.holds ≡ false)
        × (result.1.turn ≡ turn.now) × (result.1.known.holds ≡ false) }
    ensures last_two { (result.2.turn ≡ turn.now) × (result.2.known.holds ≡ false)
        × (result.3.turn ≡ turn.now) × (result.3.known.holds ≡ false) }
{
    let (a, b, c, d) = seats;
    let ((a, b, all_ab), (c, d, all_cd)) = join(
        rt,
        || -> (Seat<Log>, Seat<Log>, bool)
            requires { (a.turn ≡ turn.now) × (a.known.holds ≡ false) × (b.turn ≡ turn.now)
                × (b.known.holds ≡ false) }
            ensures { (result.0.turn ≡ turn.entry.now) × (result.0.known.holds ≡ false)
                × (result.1.turn ≡ turn.entry.now) × (result.1.known.holds ≡ false) }
        { record_by_two(rt, turn, a, b, count) },
        || -> (Seat<Log>, Seat<Log>, bool)
            requires { (c.turn ≡ turn.now) × (c.known.holds ≡ false) × (d.turn ≡ turn.now)
                × (d.known.holds ≡ false) }
            ensures { (result.0.turn ≡ turn.entry.now) × (result.0.known.holds ≡ false)
                × (result.1.turn ≡ turn.entry.now) × (result.1.known.holds ≡ false) }
        { record_by_two(rt, turn, c, d, count) },
    );
    (a, b, c, d, all_ab && all_cd)
}

/// Two seats that are split off the first one.
fn split_two(turn: &Turn<Log>, first: &mut Seat<Log>) -> (Seat<Log>, Seat<Log>)
    requires turn { first.old.turn ≡ turn.now }
    requires free { (first.old.known.holds ≡ false) × (first.old.known.number ≡ 0) }
    requires room { first.old.known.splits + 2 < 2 ^ 32 }
    ensures turn { first.new.turn ≡ turn.now }
    ensures free { (first.new.known.holds ≡ false) × (first.new.known.number ≡ 0) }
    ensures counts { (first.new.known.splits ≡ first.old.known.splits + 2)
        × (first.new.known.joins ≡ first.old.known.joins) }
    ensures a { (result.0.turn ≡ turn.now) × (result.0.known.holds ≡ false) }
    ensures b { (result.1.turn ≡ turn.now) × (result.1.known.holds ≡ false) }
{
    let a = turn.split(first);
    let b = turn.split(first);
    (a, b)
}

/// Joins them.
fn join_two(turn: &Turn<Log>, first: &mut Seat<Log>, a: Seat<Log>, b: Seat<Log>)
    requires turn { first.old.turn ≡ turn.now }
    requires free { (first.old.known.holds ≡ false) × (first.old.known.number ≡ 0) }
    requires a { (a.turn ≡ turn.now) × (a.known.holds ≡ false) }
    requires b { (b.turn ≡ turn.now) × (b.known.holds ≡ false) }
    ensures turn { first.new.turn ≡ turn.now }
    ensures free { (first.new.known.holds ≡ false) × (first.new.known.number ≡ 0) }
    ensures counts { (first.new.known.splits ≡ first.old.known.splits)
        × (first.new.known.joins ≡ first.old.known.joins + 2) }
{
    turn.join(first, a);
    turn.join(first, b);
}

/// Looks at the events of four seats, each with a thousand, and of the first one, with none.
fn see_thousands(rt: &impl Abort, events: &[Event]) {
    see(rt, events.len(), 4000, "events");
    see_steps(rt, events, 0, 0);
    for number in 1..5 {
        see_steps(rt, events, number, 1000);
    }
}

#[test]
fn four_threads_tell_each_event_once_and_in_order(rt: HostRuntime) {
    let (turn, mut first) = begun(&rt, rt.alloc(), 0);
    let (a, b) = split_two(&turn, &mut first);
    let (c, d) = split_two(&turn, &mut first);
    let (a, b, c, d, all) = record_by_four(&rt, &turn, (a, b, c, d), 1000);
    join_two(&turn, &mut first, a, b);
    join_two(&turn, &mut first, c, d);
    let log = turn.close(first);
    see_thousands(&rt, log.events.as_slice());
    forget(log);
    see(&rt, all, true, "recorded");
}

/// Two seats add three events; the second one is joined, and one that is idle is left. Gives it, their
/// numbers, and whether all went in.
fn record_by_a_second<R: Wait>(
    rt: &R,
    turn: &Turn<Log>,
    first: &mut Seat<Log>,
) -> (Seat<Log>, (u32, u32, u32), bool)
    requires turn { first.old.turn ≡ turn.now }
    requires free { (first.old.known.holds ≡ false) × (first.old.known.number ≡ 0) }
    requires room { first.old.known.splits + 2 < 2 ^ 32 }
    ensures turn { first.new.turn ≡ turn.now }
    ensures free { (first.new.known.holds ≡ false) × (first.new.known.number ≡ 0) }
    ensures counts { (first.new.known.splits ≡ first.old.known.splits + 2)
        × (first.new.known.joins ≡ first.old.known.joins + 1) }
    ensures idle { (result.0.turn ≡ turn.now) × (result.0.known.holds ≡ false) }
{
    let zero = record(rt, turn, first, 0);
    let mut second = turn.split(first);
    let one = record(rt, turn, &mut second, 1);
    let two = record(rt, turn, first, 2);
    let idle = turn.split(first);
    let numbers = (first.number(), second.number(), idle.number());
    turn.join(first, second);
    (idle, numbers, zero && one && two)
}

/// The first seat and a new one add two events, and the new one and the idle one are joined. Gives
/// the number of the new one, and whether all went in.
fn record_by_a_last<R: Wait>(
    rt: &R,
    turn: &Turn<Log>,
    first: &mut Seat<Log>,
    idle: Seat<Log>,
) -> (u32, bool)
    requires turn { first.old.turn ≡ turn.now }
    requires free { (first.old.known.holds ≡ false) × (first.old.known.number ≡ 0) }
    requires room { first.old.known.splits + 1 < 2 ^ 32 }
    requires idle { (idle.turn ≡ turn.now) × (idle.known.holds ≡ false) }
    ensures turn { first.new.turn ≡ turn.now }
    ensures free { (first.new.known.holds ≡ false) × (first.new.known.number ≡ 0) }
    ensures counts { (first.new.known.splits ≡ first.old.known.splits + 1)
        × (first.new.known.joins ≡ first.old.known.joins + 2) }
{
    let three = record(rt, turn, first, 3);
    let mut last = turn.split(first);
    let four = record(rt, turn, &mut last, 4);
    let number = last.number();
    turn.join(first, idle);
    turn.join(first, last);
    (number, three && four)
}

/// What the first seat, the second and the last one tell.
const TOLD_BY_THREE: [Event; 5] = [
    Event { number: 0, step: 0 },
    Event { number: 1, step: 1 },
    Event { number: 0, step: 2 },
    Event { number: 0, step: 3 },
    Event { number: 3, step: 4 },
];

#[test]
fn seats_are_split_and_joined_in_the_middle(rt: HostRuntime) {
    let (turn, mut first) = begun(&rt, rt.alloc(), 0);
    let (idle, numbers, all) = record_by_a_second(&rt, &turn, &mut first);
    let (last_number, rest) = record_by_a_last(&rt, &turn, &mut first, idle);
    let log = turn.close(first);
    see_log(&rt, &log, 0, &TOLD_BY_THREE);
    forget(log);
    see(&rt, (all, rest), (true, true), "recorded");
    see(&rt, (numbers, last_number), ((0, 1, 2), 3), "numbers");
}

#[test]
fn a_seat_that_never_entered_is_joined(rt: HostRuntime) {
    let (turn, mut first) = begun(&rt, rt.alloc(), 0);
    let other = turn.split(&mut first);
    turn.join(&mut first, other);
    let log = turn.close(first);
    see_log(&rt, &log, 0, &[]);
    forget(log);
}
