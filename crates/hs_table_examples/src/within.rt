//! How many conclusions come where so many are asked for.

ghost use Rattle.std.specs.Prelude.{◌≡◌, [], All};
ghost use Rattle.hs_table.specs.Entries.{InShape};

use crate::growing::grow_at;
use crate::seeing::see;
use hs_fixtures::problem_of;
use hs_rules::{Replica, conclusions_within};
use hs_scheme::{OutOfMemory, Problem};
use std::alloc::Global;
use std::mem::forget;
use std::test::Fail;

/// How many entries are found at point 0 with the entry at place 0, where so many are asked for.
fn count_within(
    alloc: Global,
    problem: &Problem,
    replica: &mut Replica,
    most: usize,
) -> Result<usize, OutOfMemory>
    requires { All (InShape problem.now) replica.old.log }
    ensures { replica.new.log ≡ replica.old.log }
{
    if problem.points.count() == 0 || replica.len() == 0 {
        return Ok(usize::MAX);
    }
    let found = conclusions_within(alloc, problem, replica, 0, 0, most)?;
    Ok(found.len())
}

/// The same where none, one, two and three are asked for.
fn counts(
    alloc: Global,
    problem: &Problem,
    replica: &mut Replica,
) -> Result<[usize; 4], OutOfMemory>
    requires { All (InShape problem.now) replica.old.log }
{
    Ok([
        count_within(alloc, problem, replica, 0)?,
        count_within(alloc, problem, replica, 1)?,
        count_within(alloc, problem, replica, 2)?,
        count_within(alloc, problem, replica, 3)?,
    ])
}

/// The same once a new log has an entry at point 1.
fn counts_of(
    alloc: Global,
    problem: &Problem,
    replica: &mut Replica,
) -> Result<[usize; 4], OutOfMemory>
    requires { replica.old.log ≡ [] }
{
    if problem.points.count() != 2 {
        return Ok([usize::MAX; 4]);
    }
    grow_at(alloc, problem, replica, 1)?;
    counts(alloc, problem, replica)
}

/// Three states lead from `a` to the one in which `b` is refused, so three entries follow at point 0 with that at
/// point 1. The search ends with the first that is more than asked for.
#[test]
fn more_than_asked_for_or_all(rt: HostRuntime) -> Result<(), Fail> {
    let problem = problem_of(
        rt.alloc(),
        "S -> a b.",
        "q0 a -> r. q1 a -> r. q2 a -> r. q0 b -> . q1 b -> . q2 b -> .",
    )?;
    let mut replica = Replica::new(rt.alloc());
    let found = counts_of(rt.alloc(), &problem, &mut replica);
    forget(replica);
    forget(problem);
    see(
        &rt,
        found?,
        [1, 2, 3, 3],
        "none, one, two and three asked for",
    );
    Ok(())
}
