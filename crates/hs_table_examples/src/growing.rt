//! Logs that grow entry by entry, and what follows from them by the indexed programs.

ghost use Rattle.std.specs.Prelude.{◌≡◌, ◌<◌, length, All, IfOk, OnOk};
ghost use Rattle.hs_table.specs.Entries.{InShape};
ghost use Rattle.hs_types.specs.Interned.{IsRow};
ghost use Rattle.hs_rules.specs.Conclusions.{DeducedData, IsShaped};

use hs_rules::{
    Deduced, Replica, conclusions, conclusions_with, deduced_entries_are_in_shape, seed_conclusions,
};
use hs_scheme::{OutOfMemory, Problem};
use hs_table::Entry;
use std::alloc::Global;

/// The entries of the log.
pub(crate) fn trees(alloc: Global, replica: &Replica) -> Result<Vec<Entry>, OutOfMemory>
    ensures { IfOk result (λ log. log.items ≡ replica.now.log) }
{
    let mut log = Vec::with_capacity(alloc, replica.len() as usize)?;
    for place in 0..replica.len() {
        log.push(replica.interner().tree(alloc, replica.row(place))?)?;
    }
    Ok(log)
}

/// Adds the entries that were deduced.
fn push_trees(
    alloc: Global,
    replica: &Replica,
    found: &[Deduced],
    out: &mut Vec<Entry>,
) -> Result<(), OutOfMemory>
    requires { All (λ (d : DeducedData). IsRow replica.now.ids d.row) found.now }
{
    for deduced in found {
        out.push(replica.interner().tree(alloc, deduced.row)?)?;
    }
    Ok(())
}

/// What follows at the point by the call for all of it.
pub(crate) fn at_once(
    alloc: Global,
    problem: &Problem,
    replica: &mut Replica,
    point: u32,
) -> Result<Vec<Entry>, OutOfMemory>
    requires point { point < length problem.now.points.points }
    requires shape { All (InShape problem.now) replica.old.log }
    ensures log { replica.new.log ≡ replica.old.log }
{
    let found = conclusions(alloc, problem, replica, point)?;
    let mut out = Vec::new(alloc);
    push_trees(alloc, replica, found.as_slice(), &mut out)?;
    Ok(out)
}

/// Adds what follows at the point from nothing.
fn push_seeds(
    alloc: Global,
    problem: &Problem,
    replica: &mut Replica,
    point: u32,
    out: &mut Vec<Entry>,
) -> Result<(), OutOfMemory>
    requires point { point < length problem.now.points.points }
    ensures log { replica.new.log ≡ replica.old.log }
{
    let seeds = seed_conclusions(alloc, problem, replica, point)?;
    push_trees(alloc, replica, seeds.as_slice(), out)
}

/// Adds what follows at the point with the place.
fn push_with(
    alloc: Global,
    problem: &Problem,
    replica: &mut Replica,
    point: u32,
    place: u32,
    out: &mut Vec<Entry>,
) -> Result<(), OutOfMemory>
    requires point { point < length problem.now.points.points }
    requires place { place < length replica.old.log }
    requires shape { All (InShape problem.now) replica.old.log }
    ensures log { replica.new.log ≡ replica.old.log }
{
    let found = conclusions_with(alloc, problem, replica, point, place)?;
    push_trees(alloc, replica, found.as_slice(), out)
}

/// What follows at the point from nothing, and then with each place.
pub(crate) fn by_places(
    alloc: Global,
    problem: &Problem,
    replica: &mut Replica,
    point: u32,
) -> Result<Vec<Entry>, OutOfMemory>
    requires point { point < length problem.now.points.points }
    requires shape { All (InShape problem.now) replica.old.log }
    ensures log { replica.new.log ≡ replica.old.log }
{
    let mut out = Vec::new(alloc);
    push_seeds(alloc, problem, replica, point, &mut out)?;
    for place in 0..replica.len() {
        push_with(alloc, problem, replica, point, place, &mut out)?;
    }
    Ok(out)
}

/// Adds the first of the entries that the log lacks. Answers whether there was one.
fn add_first(
    problem: &Problem,
    replica: &mut Replica,
    found: &[Deduced],
) -> Result<bool, OutOfMemory>
    requires shape { All (InShape problem.now) replica.old.log }
    requires found { All (IsShaped problem.now replica.old.ids) found.now }
    ensures shape { OnOk result (All (InShape problem.now) replica.new.log) }
{
    for deduced in found {
        if replica.find(deduced.row).is_none() && replica.len() < 1_000 {
            replica.reserve(1)?;
            replica.add(deduced.row);
            return Ok(true);
        }
    }
    Ok(false)
}

/// Adds an entry that follows from the log at the point. Answers whether there was one that the log lacked.
pub(crate) fn grow_at(
    alloc: Global,
    problem: &Problem,
    replica: &mut Replica,
    point: u32,
) -> Result<bool, OutOfMemory>
    requires point { point < length problem.now.points.points }
    requires shape { All (InShape problem.now) replica.old.log }
    ensures shape { OnOk result (All (InShape problem.now) replica.new.log) }
{
    let found = conclusions(alloc, problem, replica, point)?;
    deduced_entries_are_in_shape(problem, replica, found.as_slice());
    add_first(problem, replica, found.as_slice())
}

/// Adds an entry that follows from the log. Answers whether there was one that the log lacked.
pub(crate) fn grow(
    alloc: Global,
    problem: &Problem,
    replica: &mut Replica,
) -> Result<bool, OutOfMemory>
    requires shape { All (InShape problem.now) replica.old.log }
    ensures shape { OnOk result (All (InShape problem.now) replica.new.log) }
{
    for point in 0..problem.points.count() {
        if grow_at(alloc, problem, replica, point)? {
            return Ok(true);
        }
    }
    Ok(false)
}
