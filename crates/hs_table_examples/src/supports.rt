//! The support that an entry comes with where it follows by two.

ghost use Rattle.std.specs.Prelude.{◌<◌, length, All};
ghost use Rattle.hs_table.specs.Entries.{InShape};

use crate::growing::grow_at;
use crate::seeing::see;
use hs_fixtures::problem_of;
use hs_rules::{Deduced, Replica, conclusions, conclusions_with};
use hs_scheme::{OutOfMemory, Problem};
use hs_table::HeadBy;
use std::alloc::Global;
use std::mem::forget;
use std::test::Fail;

/// The place of the entry by whose type a parameter has the type that was found, where one entry was.
fn place_of(found: &[Deduced]) -> Option<u32> {
    if found.len() != 1 {
        return None;
    }
    let deduced = &found[0];
    match deduced.head {
        HeadBy::Param { place, .. } => Some(place),
        HeadBy::Rule { .. } => None,
        HeadBy::Terminal { .. } => None,
    }
}

/// The places by which the parameter at point 5 has a type: of all that follows there, with the entry at
/// place 0, and with the one at place 1.
fn places_at_parameter(
    alloc: Global,
    problem: &Problem,
    replica: &mut Replica,
) -> Result<[Option<u32>; 3], OutOfMemory>
    requires { All (InShape problem.now) replica.old.log }
{
    if problem.points.count() != 6 || replica.len() != 2 {
        return Ok([None; 3]);
    }
    let all = conclusions(alloc, problem, replica, 5)?;
    let with_first = conclusions_with(alloc, problem, replica, 5, 0)?;
    let with_second = conclusions_with(alloc, problem, replica, 5, 1)?;
    Ok([
        place_of(all.as_slice()),
        place_of(with_first.as_slice()),
        place_of(with_second.as_slice()),
    ])
}

/// The same once the log has an entry at each of these points.
fn places_after(
    alloc: Global,
    problem: &Problem,
    replica: &mut Replica,
    first: u32,
    second: u32,
) -> Result<[Option<u32>; 3], OutOfMemory>
    requires first { first < length problem.now.points.points }
    requires second { second < length problem.now.points.points }
    requires shape { All (InShape problem.now) replica.old.log }
{
    grow_at(alloc, problem, replica, first)?;
    grow_at(alloc, problem, replica, second)?;
    places_at_parameter(alloc, problem, replica)
}

/// The same of a new log, where the points are the problem's.
fn places_of_new(
    alloc: Global,
    problem: &Problem,
    first: u32,
    second: u32,
) -> Result<[Option<u32>; 3], OutOfMemory> {
    if first >= problem.points.count() || second >= problem.points.count() {
        return Ok([None; 3]);
    }
    let mut replica = Replica::new(alloc);
    let places = places_after(alloc, problem, &mut replica, first, second);
    forget(replica);
    places
}

/// The points 2 and 4, `a` and `b`, may stand for the parameter at point 5. Whichever has the first
/// entry, the support is by it.
#[test]
fn the_support_is_the_least_in_either_order(rt: HostRuntime) -> Result<(), Fail> {
    let problem = problem_of(
        rt.alloc(),
        "S -> br (F a) (F b). F x -> x.",
        "q0 br -> q0 q0.",
    )?;
    let ascending = places_of_new(rt.alloc(), &problem, 2, 4);
    let descending = places_of_new(rt.alloc(), &problem, 4, 2);
    forget(problem);
    see(&rt, ascending?, [Some(0), Some(0), Some(1)], "2, then 4");
    see(&rt, descending?, [Some(0), Some(0), Some(1)], "4, then 2");
    Ok(())
}
