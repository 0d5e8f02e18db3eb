//! What follows by a work, formed on a replica of the log.

ghost use Rattle.std.specs.Prelude.{◌≡◌, All, Contains, IsTrue};
ghost use Rattle.hs_table.specs.Entries.{InShape};
ghost use Rattle.hs_types.specs.Interned.{IsRow, entry_of};
ghost use Rattle.hs_rules.specs.Conclusions.{DeducedData};
ghost use Rattle.hs_history.specs.CoreStep.{IsClosedWork};
ghost use Rattle.hs_workers_examples.specs.Working.{AreFollowing, IsClosedAt};

use hs_rules::{Deduced, conclusions_with, seed_conclusions};
use hs_scheme::Problem;
use hs_shared::{Replica, Work};
use std::alloc::Global;
use std::process::Abort;

/// What follows at the point by the work. They are a point, and a work of the replica's log.
pub(crate) fn following<R: Abort>(
    rt: &R,
    alloc: Global,
    problem: &Problem,
    replica: &mut Replica,
    work: Work,
    point: u32,
) -> Vec<Deduced>
    requires { All (InShape problem.now) replica.old.log }
    ensures log { replica.new.log ≡ replica.old.log }
    ensures found { AreFollowing problem.now replica.new.ids replica.old.log work point result.items }
{
    assert!(rt; point < problem.points.count());
    match work {
        Work::Seed(_) => seed_conclusions(alloc, problem, replica, point).expect(rt, "memory"),
        Work::Place(place) => {
            assert!(rt; place < replica.len());
            conclusions_with(alloc, problem, replica, point, place).expect(rt, "memory")
        }
    }
}

/// The one thing that was found.
pub(crate) fn only<'a, R: Abort>(rt: &R, found: &'a [Deduced]) -> &'a Deduced
    ensures { Contains found.now result.now }
{
    assert_eq!(rt; found.len(), 1);
    &found[0]
}

/// Whether the log has the entry.
fn has(replica: &Replica, deduced: &Deduced) -> bool
    requires { IsRow replica.now.ids deduced.now.row }
    ensures { IsTrue result → Contains replica.now.log (entry_of replica.now.ids deduced.now.row) }
{
    match replica.find(deduced.row) {
        Some(_place) => true,
        None => false,
    }
}

/// Whether the log has all that was found.
fn has_all(replica: &Replica, found: &[Deduced]) -> bool
    requires { All (λ (d : DeducedData). IsRow replica.now.ids d.row) found.now }
    ensures { IsTrue result →
        All (λ (d : DeducedData). Contains replica.now.log (entry_of replica.now.ids d.row)) found.now }
{
    for deduced in found {
        if !has(replica, deduced) {
            return false;
        }
    }
    true
}

/// Whether the log has all that follows at the point by the work.
fn is_closed_at<R: Abort>(
    rt: &R,
    alloc: Global,
    problem: &Problem,
    replica: &mut Replica,
    work: Work,
    point: u32,
) -> bool
    requires { All (InShape problem.now) replica.old.log }
    ensures log { replica.new.log ≡ replica.old.log }
    ensures closed { IsTrue result → IsClosedAt problem.now replica.old.log work point }
{
    let found = following(rt, alloc, problem, replica, work, point);
    has_all(replica, found.as_slice())
}

/// Whether the log has all that follows by the work, at whatever point.
pub(crate) fn is_closed<R: Abort>(
    rt: &R,
    alloc: Global,
    problem: &Problem,
    replica: &mut Replica,
    work: Work,
) -> bool
    requires { All (InShape problem.now) replica.old.log }
    ensures log { replica.new.log ≡ replica.old.log }
    ensures closed { IsTrue result → IsClosedWork problem.now replica.old.log work }
{
    for point in 0..problem.points.count() {
        if !is_closed_at(rt, alloc, problem, replica, work, point) {
            return false;
        }
    }
    true
}
