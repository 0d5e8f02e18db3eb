//! What follows by a work from a log, and whether the log has it.

ghost use Rattle.std.specs.Prelude.{◌≡◌, ◌+◌, ◌<◌, [], length, take, All, Contains, IfOk, IsTrue, OnOk};
ghost use Rattle.hs_flow.specs.Dependents.{HasDependents};
ghost use Rattle.hs_table.specs.Entries.{InShape};
ghost use Rattle.hs_types.specs.Interned.{IsRow, entry_of};
ghost use Rattle.hs_rules.specs.Conclusions.{DeducedData};
ghost use Rattle.hs_history.specs.CoreStep.{IsClosedPlace, IsClosedWork};
ghost use Rattle.hs_history.specs.History.{IsWork};
ghost use Rattle.hs_table_examples.specs.Following.{AreFollowing, IsClosedAt};

use hs_core::Work;
use hs_flow::Dependents;
use hs_rules::{Deduced, Replica, conclusions_with, seed_conclusions};
use hs_scheme::{OutOfMemory, Problem};
use std::alloc::Global;

/// Adds the entry at this place of the log to the replica, which has those before it.
fn copy_entry(from: &Replica, to: &mut Replica, place: u32) -> Result<(), OutOfMemory>
    requires place { place < length from.now.log }
    requires before { to.old.log ≡ take place from.now.log }
    ensures { OnOk result (to.new.log ≡ take (place + 1) from.now.log) }
{
    let _entries = from.len();
    to.append(from.interner(), from.row(place))?;
    Ok(())
}

/// Makes an empty log the other one.
pub(crate) fn copy_log(from: &Replica, to: &mut Replica) -> Result<(), OutOfMemory>
    requires { to.old.log ≡ [] }
    ensures { OnOk result (to.new.log ≡ from.now.log) }
{
    for place in 0..from.len() {
        copy_entry(from, to, place)?;
    }
    Ok(())
}

/// Whether it is a work of the log.
pub(crate) fn is_work(problem: &Problem, replica: &Replica, work: Work) -> bool
    ensures { IsTrue result → IsWork problem.now replica.now.log work }
{
    match work {
        Work::Seed(point) => point < problem.points.count(),
        Work::Place(place) => place < replica.len(),
    }
}

/// What follows at the point by the work.
pub(crate) fn following(
    alloc: Global,
    problem: &Problem,
    replica: &mut Replica,
    work: Work,
    point: u32,
) -> Result<Vec<Deduced>, OutOfMemory>
    requires point { point < length problem.now.points.points }
    requires work { IsWork problem.now replica.old.log work }
    requires shape { All (InShape problem.now) replica.old.log }
    ensures log { replica.new.log ≡ replica.old.log }
    ensures found { IfOk result (λ found.
        AreFollowing problem.now replica.new.ids replica.old.log work point found.items) }
{
    match work {
        Work::Seed(_point) => seed_conclusions(alloc, problem, replica, point),
        Work::Place(place) => conclusions_with(alloc, problem, replica, point, place),
    }
}

/// Whether the log has all that was found.
fn has_all(replica: &Replica, found: &[Deduced]) -> bool
    requires { All (λ (d : DeducedData). IsRow replica.now.ids d.row) found.now }
    ensures { IsTrue result →
        All (λ (d : DeducedData). Contains replica.now.log (entry_of replica.now.ids d.row)) found.now }
{
    for deduced in found {
        if replica.find(deduced.row).is_none() {
            return false;
        }
    }
    true
}

/// Whether the log has all that follows at the point by the work.
fn is_closed_at(
    alloc: Global,
    problem: &Problem,
    replica: &mut Replica,
    work: Work,
    point: u32,
) -> Result<bool, OutOfMemory>
    requires { All (InShape problem.now) replica.old.log }
    ensures log { replica.new.log ≡ replica.old.log }
    ensures closed { IfOk result (λ closed. IsTrue closed →
        IsClosedAt problem.now replica.old.log work point) }
{
    if point >= problem.points.count() || !is_work(problem, replica, work) {
        return Ok(false);
    }
    let found = following(alloc, problem, replica, work, point)?;
    Ok(has_all(replica, found.as_slice()))
}

/// Whether the log has all that follows at these points by the work.
fn is_closed_at_all(
    alloc: Global,
    problem: &Problem,
    replica: &mut Replica,
    work: Work,
    points: &[u32],
) -> Result<bool, OutOfMemory>
    requires { All (InShape problem.now) replica.old.log }
    ensures { IfOk result (λ closed. IsTrue closed →
        All (IsClosedAt problem.now replica.old.log work) points.now) }
{
    for point in points {
        if !is_closed_at(alloc, problem, replica, work, *point)? {
            return Ok(false);
        }
    }
    Ok(true)
}

/// Whether the log has all that follows by the entry at the place.
fn is_closed_place(
    alloc: Global,
    problem: &Problem,
    dependents: &Dependents,
    replica: &mut Replica,
    place: u32,
) -> Result<bool, OutOfMemory>
    requires shape { All (InShape problem.now) replica.old.log }
    requires dependents { HasDependents problem.now.points problem.now.flow.pairs dependents.now }
    ensures { IfOk result (λ closed. IsTrue closed → IsClosedPlace problem.now replica.old.log place) }
{
    if place >= replica.len() {
        return Ok(false);
    }
    let point = replica.row(place).point;
    if point >= problem.points.count() {
        return Ok(false);
    }
    let points = dependents.list(point);
    let closed = is_closed_at_all(alloc, problem, replica, Work::Place(place), points)?;
    Ok(closed)
}

/// Whether the log has all that follows by the work.
pub(crate) fn is_closed(
    alloc: Global,
    problem: &Problem,
    dependents: &Dependents,
    replica: &mut Replica,
    work: Work,
) -> Result<bool, OutOfMemory>
    requires shape { All (InShape problem.now) replica.old.log }
    requires dependents { HasDependents problem.now.points problem.now.flow.pairs dependents.now }
    ensures { IfOk result (λ closed. IsTrue closed → IsClosedWork problem.now replica.old.log work) }
{
    match work {
        Work::Seed(point) => is_closed_at(alloc, problem, replica, Work::Seed(point), point),
        Work::Place(place) => is_closed_place(alloc, problem, dependents, replica, place),
    }
}
