//! What follows by a work, formed on a replica of the log.

ghost use Rattle.std.specs.Prelude.{◌≡◌, ◌<◌, [], length, IfOk, All, Contains, IsTrue};
ghost use Rattle.hs_table.specs.Entries.{InShape};
ghost use Rattle.hs_types.specs.Interned.{IsRow, entry_of, Grows};
ghost use Rattle.hs_history.specs.History.{IsWork};
ghost use Rattle.hs_workers.specs.Forming.{KeepsNew, AreAllAt, AreFormed};

use crate::common::Common;
use hs_core::{Tally, Work};
use hs_rules::{Deduced, Replica, conclusions_within, seed_conclusions};
use hs_scheme::{OutOfMemory, Problem};
use hs_types::Row;
use std::alloc::Global;

/// Whether the log has the row's entry.
fn knows(replica: &Replica, row: Row) -> bool
    requires { IsRow replica.now.ids row }
    ensures { IsTrue result → Contains replica.now.log (entry_of replica.now.ids row) }
{
    match replica.find(row) {
        Some(_place) => true,
        None => false,
    }
}

/// Keeps what was formed and isn't in the log.
fn keep_new(
    replica: &Replica,
    formed: Vec<Deduced>,
    found: &mut Vec<Deduced>,
) -> Result<(), OutOfMemory>
    requires { All (λ d. IsRow replica.now.ids d.row) formed.items }
    ensures { IfOk result (λ _. KeepsNew replica.now.ids replica.now.log formed.items found.old.items
        found.new.items) }
{
    for deduced in formed {
        if !knows(replica, deduced.row) {
            found.push(deduced)?;
        }
    }
    Ok(())
}

/// What follows at these points by the entry at the place, and isn't in the log. Adds to `tally` how
/// many conclusions were formed, known ones too, as the others here do. Where more than `most` follow at a
/// point, it answers as where memory is refused, and the work is given back.
fn form_at(
    alloc: Global,
    problem: &Problem,
    points: &[u32],
    replica: &mut Replica,
    place: u32,
    most: usize,
    tally: &mut Tally,
) -> Result<Vec<Deduced>, OutOfMemory>
    requires points { All (λ point. point < length problem.now.points.points) points.now }
    requires place { place < length replica.old.log }
    requires shape { All (InShape problem.now) replica.old.log }
    ensures log { replica.new.log ≡ replica.old.log }
    ensures grows { Grows replica.old.ids replica.new.ids }
    ensures found { IfOk result (λ found. AreAllAt problem.now replica.new.ids replica.new.log points.now
        place found.items) }
{
    let mut found = Vec::new(alloc);
    for point in points {
        let formed = conclusions_within(alloc, problem, replica, *point, place, most)?;
        tally.add(formed.len());
        if formed.len() > most {
            return Err(OutOfMemory);
        }
        keep_new(replica, formed, &mut found)?;
    }
    Ok(found)
}

/// What follows at the point from no entry, and isn't in the log. However much it is, it is no burst.
fn form_seed(
    alloc: Global,
    problem: &Problem,
    replica: &mut Replica,
    point: u32,
    tally: &mut Tally,
) -> Result<Vec<Deduced>, OutOfMemory>
    requires { point < length problem.now.points.points }
    ensures log { replica.new.log ≡ replica.old.log }
    ensures grows { Grows replica.old.ids replica.new.ids }
    ensures found { IfOk result (λ found. AreFormed problem.now replica.new.ids replica.new.log
        (Work.Seed point) found.items) }
{
    let formed = seed_conclusions(alloc, problem, replica, point)?;
    tally.formed = tally.formed.saturating_add(formed.len());
    let mut found = Vec::new(alloc);
    keep_new(replica, formed, &mut found)?;
    Ok(found)
}

/// What follows at the dependents of the place's point by its entry, and isn't in the log.
fn form_place(
    common: &Common<'_, '_>,
    replica: &mut Replica,
    place: u32,
    tally: &mut Tally,
) -> Result<Vec<Deduced>, OutOfMemory>
    requires place { place < length replica.old.log }
    requires shape { All (InShape common.now.problem) replica.old.log }
    ensures log { replica.new.log ≡ replica.old.log }
    ensures grows { Grows replica.old.ids replica.new.ids }
    ensures found { IfOk result (λ found. AreFormed common.now.problem replica.new.ids replica.new.log
        (Work.Place place) found.items) }
{
    let points = common.dependents.list(replica.row(place).point);
    let most = common.bell.sharing.most;
    form_at(
        common.alloc,
        common.problem,
        points,
        replica,
        place,
        most,
        tally,
    )
}

/// What follows by the work and isn't in the log, each once, with what it follows from.
pub(crate) fn form(
    common: &Common<'_, '_>,
    replica: &mut Replica,
    work: Work,
    tally: &mut Tally,
) -> Result<Vec<Deduced>, OutOfMemory>
    requires work { IsWork common.now.problem replica.old.log work }
    requires shape { All (InShape common.now.problem) replica.old.log }
    ensures log { replica.new.log ≡ replica.old.log }
    ensures grows { Grows replica.old.ids replica.new.ids }
    ensures found { IfOk result (λ found. AreFormed common.now.problem replica.new.ids replica.new.log work
        found.items) }
{
    match work {
        Work::Seed(point) => form_seed(common.alloc, common.problem, replica, point, tally),
        Work::Place(place) => form_place(common, replica, place, tally),
    }
}
