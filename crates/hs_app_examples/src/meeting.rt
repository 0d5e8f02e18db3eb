//! Workers that must meet.

ghost use Rattle.hs_flow.specs.Dependents.{HasDependents};

use crate::running::{CALM, Ended, outside_of, see_run_with};
use crate::seeing::see;
use hs_core::{Core, Done, Event};
use hs_fixtures::cycle;
use hs_flow::Dependents;
use hs_scheme::Problem;
use hs_workers::{Gate, Work, saturate};
use std::alloc::Global;
use std::hint::spin_loop;
use std::mem::forget;
use std::sync::Wait;
use std::sync::atomic::AtomicU64;
use std::sync::atomic::Ordering::SeqCst;
use std::test::Fail;
use std::thread::Threads;

/// How often a worker looks whether the other one has come.
const LOOKS: u32 = 10_000_000;

/// A gate at which workers 1 and 2 wait for one another when each first comes to it. Whoever looks in
/// vain goes on alone.
#[derive(Drop)]
struct Meeting {
    one: AtomicU64,
    two: AtomicU64,
    /// How many went on alone.
    alone: AtomicU64,
}

impl Meeting {
    fn new() -> Meeting {
        Meeting {
            one: AtomicU64::new(0),
            two: AtomicU64::new(0),
            alone: AtomicU64::new(0),
        }
    }

    /// A worker comes, and waits for the other one where it hasn't come before.
    fn meet(&self, mine: &AtomicU64, other: &AtomicU64) {
        if mine.swap(1, SeqCst) != 0 {
            return;
        }
        for _ in 0..LOOKS {
            if other.load(SeqCst) != 0 {
                return;
            }
            spin_loop();
        }
        self.alone.fetch_add(1, SeqCst);
    }
}

impl Gate for Meeting {
    fn before(&self, worker: u32, _work: Work) {
        if worker == 1 {
            self.meet(&self.one, &self.two);
        }
        if worker == 2 {
            self.meet(&self.two, &self.one);
        }
    }
}

/// Whether the worker took a work.
fn took(core: &Core, worker: u32) -> bool {
    core.journal().iter().any(|step| step.worker == worker
        && matches!(step.event, Event::Take { .. }))
}

/// The number of entries, and which of workers 0, 1 and 2 took a work.
fn met(done: &Done) -> Option<(u32, [bool; 3])> {
    match done {
        Done::Least(core) => Some((core.len(), [took(core, 0), took(core, 1), took(core, 2)])),
        _ => None,
    }
}

/// What two workers answer who meet at the gate.
fn saturated<R: Threads + Wait + Sync>(
    rt: &R,
    alloc: Global,
    problem: &Problem,
    dependents: &Dependents,
    gate: &Meeting,
) -> Option<(u32, [bool; 3])>
    requires { HasDependents problem.now.points problem.now.flow.pairs dependents.now }
{
    let Ok(done) = saturate(rt, alloc, problem, dependents, 2, 200_000, false, gate) else {
        return None;
    };
    let answer = met(&done);
    forget(done);
    answer
}

/// The same on a problem.
fn of_problem<R: Threads + Wait + Sync>(
    rt: &R,
    alloc: Global,
    problem: &Problem,
    gate: &Meeting,
) -> Option<(u32, [bool; 3])> {
    let Ok(dependents) = Dependents::of(alloc, problem) else {
        return None;
    };
    saturated(rt, alloc, problem, &dependents, gate)
}

/// The same on the generated file of this number.
fn saturated_cycle<R: Threads + Wait + Sync>(
    rt: &R,
    alloc: Global,
    k: u32,
    gate: &Meeting,
) -> Result<Option<(u32, [bool; 3])>, Fail> {
    let problem = cycle(alloc, k)?;
    let answer = of_problem(rt, alloc, &problem, gate);
    forget(problem);
    Ok(answer)
}

#[test]
fn two_workers_meet(rt: HostRuntime) -> Result<(), Fail> {
    let gate = Meeting::new();
    let answer = saturated_cycle(&rt, rt.alloc(), 5, &gate)?;
    see(&rt, gate.alone.load(SeqCst), 0, "alone");
    see(&rt, answer, Some((71, [false, true, true])), "met");
    Ok(())
}

/// The report on the generated file of number 5.
const CYCLE: Ended = (
    1,
    b"rejected\nentries 71\npath br/2 br/2 br/2 br/2 br/1 a/1 a/1 a/1 a/1 c\nstate s4\n",
    "",
);

#[test]
fn two_workers_of_a_run_meet(rt: HostRuntime) -> Result<(), Fail> {
    let gate = Meeting::new();
    let alloc = rt.alloc();
    let mut outside = outside_of(alloc, b"", CALM)?;
    let words = ["horsat", "--gen", "5", "--workers", "2"];
    see_run_with(
        &rt,
        alloc,
        &mut outside,
        &words,
        Vec::new(alloc),
        &gate,
        CYCLE,
    );
    drop(outside);
    see(&rt, gate.alone.load(SeqCst), 0, "alone");
    Ok(())
}
