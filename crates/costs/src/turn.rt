//! What it costs to take and to leave a turn, beside the same with a `Mutex`: nanoseconds for one
//! taking and leaving, by a thread without company and among four threads that do nothing else.

ghost use Rattle.std.specs.Prelude.{◌≡◌, ◌<◌, false, []};

use hs_turn::{Seat, Storied, Turn};
use std::alloc::Global;
use std::io::{self, Input};
use std::sync::{Mutex, Wait};
use std::thread::{Threads, join};
use std::time::{Clock, Instant};

/// A number whose story is empty.
#[derive(Drop)]
struct Idle {
    number: u64,
}

impl Storied for Idle {
    type Base = u32;

    type Event = u32;

    ghost base = { λ _. 0 };

    ghost story = { λ _. [] };

    ghost number = { λ event. event };
}

/// How long it took, in nanoseconds.
#[derive(Clone, Copy)]
struct Cost {
    alone: u128,
    among_four: u128,
}

/// Takes and leaves the turn this often.
fn turns<R: Wait>(rt: &R, turn: &Turn<Idle>, mut seat: Seat<Idle>, rounds: u32)
    requires turn { seat.turn ≡ turn.now }
    requires free { seat.known.holds ≡ false }
{
    for _ in 0..rounds {
        let mut guard = turn.enter(rt, &mut seat);
        guard.state.number = guard.state.number.wrapping_add(1);
        guard.leave(&mut seat);
    }
}

fn two_turns<R: Threads + Wait + Sync>(
    rt: &R,
    turn: &Turn<Idle>,
    a: Seat<Idle>,
    b: Seat<Idle>,
    rounds: u32,
)
    requires a_turn { a.turn ≡ turn.now }
    requires a_free { a.known.holds ≡ false }
    requires b_turn { b.turn ≡ turn.now }
    requires b_free { b.known.holds ≡ false }
{
    join(
        rt,
        || turns(rt, turn, a, rounds),
        || turns(rt, turn, b, rounds),
    );
}

fn four_turns<R: Threads + Wait + Sync>(
    rt: &R,
    turn: &Turn<Idle>,
    a: Seat<Idle>,
    b: Seat<Idle>,
    c: Seat<Idle>,
    d: Seat<Idle>,
    rounds: u32,
)
    requires a_turn { a.turn ≡ turn.now }
    requires a_free { a.known.holds ≡ false }
    requires b_turn { b.turn ≡ turn.now }
    requires b_free { b.known.holds ≡ false }
    requires c_turn { c.turn ≡ turn.now }
    requires c_free { c.known.holds ≡ false }
    requires d_turn { d.turn ≡ turn.now }
    requires d_free { d.known.holds ≡ false }
{
    join(
        rt,
        ||
            requires { (a.turn ≡ turn.now) × (a.known.holds ≡ false) × (b.turn ≡ turn.now)
                × (b.known.holds ≡ false) }
        { two_turns(rt, turn, a, b, rounds) },
        ||
            requires { (c.turn ≡ turn.now) × (c.known.holds ≡ false) × (d.turn ≡ turn.now)
                × (d.known.holds ≡ false) }
        { two_turns(rt, turn, c, d, rounds) },
    );
}

/// How many nanoseconds passed since then.
fn nanos_since<R: Clock>(rt: &R, start: io::Result<Instant>) -> io::Result<u128> {
    Ok(start?.elapsed(rt)?.as_nanos())
}

/// What the turn costs.
fn turn_cost<R: Threads + Wait + Clock + Sync>(
    rt: &R,
    alloc: Global,
    rounds: u32,
) -> io::Result<Option<Cost>> {
    let Ok((turn, mut first)) = Turn::new(alloc, Idle { number: 0 }) else {
        return Ok(None);
    };
    let a = turn.split(&mut first);
    let b = turn.split(&mut first);
    let c = turn.split(&mut first);
    let d = turn.split(&mut first);
    let start = Instant::now(rt);
    turns(rt, &turn, first, rounds);
    let alone = nanos_since(rt, start);
    let start = Instant::now(rt);
    four_turns(rt, &turn, a, b, c, d, rounds);
    let among_four = nanos_since(rt, start);
    drop(turn);
    Ok(Some(Cost {
        alone: alone?,
        among_four: among_four?,
    }))
}

/// Takes and leaves the lock this often.
fn locks<R: Wait>(rt: &R, lock: &Mutex<Idle>, rounds: u32) {
    for _ in 0..rounds {
        let mut guard = lock.lock(rt);
        guard.number = guard.number.wrapping_add(1);
    }
}

fn two_locks<R: Threads + Wait + Sync>(rt: &R, lock: &Mutex<Idle>, rounds: u32) {
    join(rt, || locks(rt, lock, rounds), || locks(rt, lock, rounds));
}

/// What the `Mutex` costs.
fn lock_cost<R: Threads + Wait + Clock + Sync>(rt: &R, rounds: u32) -> io::Result<Cost> {
    let lock = Mutex::new(Idle { number: 0 });
    let start = Instant::now(rt);
    locks(rt, &lock, rounds);
    let alone = nanos_since(rt, start);
    let start = Instant::now(rt);
    join(
        rt,
        || two_locks(rt, &lock, rounds),
        || two_locks(rt, &lock, rounds),
    );
    let among_four = nanos_since(rt, start);
    drop(lock);
    Ok(Cost {
        alone: alone?,
        among_four: among_four?,
    })
}

/// Prints a line of the table: nanoseconds for one taking and leaving.
fn show<R: Print>(rt: &R, name: &str, cost: &Cost, rounds: u32) -> io::Result<()>
    requires { 0 < rounds }
{
    let rounds = rounds as u128;
    let alone = cost.alone / rounds;
    let among_four = cost.among_four / (4 * rounds);
    println!(rt; "{name}: {alone} ns alone, {among_four} ns among four")
}

/// The number on standard input, 0 where there is none.
fn rounds_of<R: Input>(rt: &R, alloc: Global) -> io::Result<u32> {
    let mut line = String::new(alloc);
    rt.read_line(&mut line)?;
    Ok(line.trim().parse::<u32>().unwrap_or(0))
}

/// Prints the table, with as many rounds of each thread as the number on standard input says; without
/// a number there, nothing is done.
pub(crate) fn show_turn<R: Threads + Wait + Clock + Input + Print + Sync>(
    rt: &R,
    alloc: Global,
) -> io::Result<()> {
    let rounds = rounds_of(rt, alloc)?;
    if rounds == 0 {
        return Ok(());
    }
    if let Some(cost) = turn_cost(rt, alloc, rounds)? {
        show(rt, "turn", &cost, rounds)?;
    }
    show(rt, "mutex", &lock_cost(rt, rounds)?, rounds)
}
