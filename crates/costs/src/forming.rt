//! The least table, in two ways.

ghost use Rattle.std.specs.Prelude.{◌<◌, ◌≤◌, length, All, OnOk};
ghost use Rattle.hs_flow.specs.Dependents.{HasDependents};
ghost use Rattle.hs_table.specs.Entries.{InShape};
ghost use Rattle.hs_rules.specs.Conclusions.{IsShaped};

use hs_core::{Done, saturate_alone};
use hs_flow::Dependents;
use hs_rules::{
    Deduced, Replica, conclusions_with, deduced_entries_are_in_shape, seed_conclusions,
};
use hs_scheme::{OutOfMemory, Problem};
use std::alloc::Global;
use std::mem::forget;

/// The most entries of a table; further ones are left out.
const MOST_ENTRIES: u32 = 1_000_000;

/// Adds those of the entries that the log lacks, and answers how many all are.
fn add_new(problem: &Problem, replica: &mut Replica, found: &[Deduced]) -> Result<u64, OutOfMemory>
    requires shape { All (InShape problem.now) replica.old.log }
    requires found { All (IsShaped problem.now replica.old.ids) found.now }
    ensures shape { OnOk result (All (InShape problem.now) replica.new.log) }
    ensures longer { OnOk result (length replica.old.log ≤ length replica.new.log) }
{
    for deduced in found {
        if replica.len() < MOST_ENTRIES && replica.find(deduced.row).is_none() {
            replica.reserve(1)?;
            replica.add(deduced.row);
        }
    }
    Ok(found.len() as u64)
}

/// Adds what follows at the point from no entry, and answers how many conclusions these were.
fn add_seed(
    alloc: Global,
    problem: &Problem,
    replica: &mut Replica,
    point: u32,
) -> Result<u64, OutOfMemory>
    requires point { point < length problem.now.points.points }
    requires shape { All (InShape problem.now) replica.old.log }
    ensures shape { OnOk result (All (InShape problem.now) replica.new.log) }
{
    let found = seed_conclusions(alloc, problem, replica, point)?;
    deduced_entries_are_in_shape(problem, replica, found.as_slice());
    let count = add_new(problem, replica, found.as_slice());
    drop(found);
    count
}

/// Adds what follows at the point with the entry at this place, and answers how many conclusions
/// these were.
fn add_at(
    alloc: Global,
    problem: &Problem,
    replica: &mut Replica,
    point: u32,
    place: u32,
) -> Result<u64, OutOfMemory>
    requires point { point < length problem.now.points.points }
    requires place { place < length replica.old.log }
    requires shape { All (InShape problem.now) replica.old.log }
    ensures shape { OnOk result (All (InShape problem.now) replica.new.log) }
    ensures longer { OnOk result (length replica.old.log ≤ length replica.new.log) }
{
    let found = conclusions_with(alloc, problem, replica, point, place)?;
    deduced_entries_are_in_shape(problem, replica, found.as_slice());
    let count = add_new(problem, replica, found.as_slice());
    drop(found);
    count
}

/// Adds what follows with the entry at this place, and answers how many conclusions these were.
fn add_place(
    alloc: Global,
    problem: &Problem,
    dependents: &Dependents,
    replica: &mut Replica,
    place: u32,
) -> Result<u64, OutOfMemory>
    requires place { place < length replica.old.log }
    requires shape { All (InShape problem.now) replica.old.log }
    requires dependents { HasDependents problem.now.points problem.now.flow.pairs dependents.now }
    ensures shape { OnOk result (All (InShape problem.now) replica.new.log) }
{
    let mut count: u64 = 0;
    for point in dependents.list(replica.row(place).point) {
        count = count.saturating_add(add_at(alloc, problem, replica, *point, place)?);
    }
    Ok(count)
}

/// Adds what follows from no entry, and answers how many conclusions these were.
fn add_seeds(alloc: Global, problem: &Problem, replica: &mut Replica) -> Result<u64, OutOfMemory>
    requires { All (InShape problem.now) replica.old.log }
    ensures { OnOk result (All (InShape problem.now) replica.new.log) }
{
    let mut count: u64 = 0;
    for point in 0..problem.points.count() {
        count = count.saturating_add(add_seed(alloc, problem, replica, point)?);
    }
    Ok(count)
}

/// Fills the log by a plain loop over its places, and answers how many conclusions there were on the
/// way.
pub(crate) fn fill(
    alloc: Global,
    problem: &Problem,
    dependents: &Dependents,
    replica: &mut Replica,
) -> Result<u64, OutOfMemory>
    requires shape { All (InShape problem.now) replica.old.log }
    requires dependents { HasDependents problem.now.points problem.now.flow.pairs dependents.now }
{
    let mut count = add_seeds(alloc, problem, replica)?;
    for place in 0..MOST_ENTRIES {
        if place >= replica.len() {
            return Ok(count);
        }
        count = count.saturating_add(add_place(alloc, problem, dependents, replica, place)?);
    }
    Ok(count)
}

/// The number of entries that a core with one worker has in the end.
pub(crate) fn core_entries(
    alloc: Global,
    problem: &Problem,
    dependents: &Dependents,
) -> Result<u32, OutOfMemory>
    requires { HasDependents problem.now.points problem.now.flow.pairs dependents.now }
{
    let done = saturate_alone(alloc, problem, dependents, MOST_ENTRIES, false)?;
    let entries = match &done {
        Done::Least(core) => core.len(),
        Done::Over(core) => core.len(),
        Done::First(core) => core.len(),
    };
    // The program ends here. To give back a million entries one by one would take long.
    forget(done);
    Ok(entries)
}
