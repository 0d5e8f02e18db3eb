//! What follows with an entry that came.
//!
//! Nothing is proved of what is found here but that it weakly follows: the last look at each point
//! (`settling`) shows that nothing is left.

ghost use Rattle.std.specs.Prelude.{◌≡◌, ◌<◌, ℕ, Contains, IfOk, OnOk, length};
ghost use Rattle.std.specs.List.Sorted.{IsNonDecreasingBy};
ghost use Rattle.hs_scheme.specs.declared.term.Head.TheVariants.{Tm};
ghost use Rattle.hs_scheme.specs.flow.Points.{point_at};
ghost use Rattle.hs_table.specs.Follows.{rank_of};
ghost use Rattle.hs_types.specs.Interned.{RowData};
ghost use Rattle.hs_flow.specs.Dependents.{HasDependents};
ghost use Rattle.hs_reads.specs.Own.{AreAllPairs};
ghost use Rattle.hs_minimal.specs.Growing.{IsGrowing, IsGrownFrom, AreAdded};

use crate::children::{by_child, has_all_arguments};
use crate::following::following_from;
use crate::gathering::head_at;
use crate::growing::Growing;
use crate::selecting::selected;
use crate::settling::add_rows;
use hs_choices::{Compared, rows_at};
use hs_flow::Dependents;
use hs_reads::Reads;
use hs_scheme::{Head, OutOfMemory};
use hs_types::Row;
use std::alloc::Global;

/// Adds what weakly follows at the point from these entries, which are in the order of their points, and
/// isn't covered.
fn settle_from(
    types: &mut Compared,
    growing: &mut Growing,
    reads: &Reads,
    point: u32,
    rows: &[Row],
) -> Result<(), OutOfMemory>
    requires point { point < length growing.old.problem.points.points }
    requires growing { IsGrowing types.old growing.old }
    requires reads { AreAllPairs growing.old.problem reads.now }
    requires rows { AreAdded growing.old rows.now }
    requires order { IsNonDecreasingBy (λ (r : RowData). r.point) rows.now }
    ensures growing { OnOk result (IsGrowing types.new growing.new) }
    ensures grown { OnOk result (IsGrownFrom types.old types.new growing.old growing.new) }
{
    if growing.is_full() {
        return Ok(());
    }
    let found = following_from(types, growing, reads, point, rows)?;
    add_rows(types, growing, found.as_slice())
}

/// Adds what follows at a terminal that has all its arguments, with each of the new entries at one of them.
fn settle_children(
    types: &mut Compared,
    growing: &mut Growing,
    point: u32,
    terminal: u32,
    new: &[Row],
) -> Result<(), OutOfMemory>
    requires point { point < length growing.old.problem.points.points }
    requires growing { IsGrowing types.old growing.old }
    requires head { (point_at growing.old.problem.points point).head ≡ Tm terminal }
    requires full { length (point_at growing.old.problem.points point).args
        ≡ rank_of growing.old.problem terminal }
    requires new { AreAdded growing.old new.now }
    ensures growing { OnOk result (IsGrowing types.new growing.new) }
    ensures grown { OnOk result (IsGrownFrom types.old types.new growing.old growing.new) }
{
    for row in new {
        let found = by_child(types, growing, point, terminal, row)?;
        add_rows(types, growing, found.as_slice())?;
    }
    Ok(())
}

/// Adds what weakly follows at the point with the new entries, which are at this one of its sources.
fn settle_with(
    types: &mut Compared,
    growing: &mut Growing,
    reads: &Reads,
    point: u32,
    source: u32,
    new: &[Row],
) -> Result<(), OutOfMemory>
    requires point { point < length growing.old.problem.points.points }
    requires growing { IsGrowing types.old growing.old }
    requires reads { AreAllPairs growing.old.problem reads.now }
    requires new { AreAdded growing.old new.now }
    ensures growing { OnOk result (IsGrowing types.new growing.new) }
    ensures grown { OnOk result (IsGrownFrom types.old types.new growing.old growing.new) }
{
    if let Head::Tm(terminal) = head_at(growing.problem(), point) {
        if has_all_arguments(growing.problem(), point, terminal) {
            return settle_children(types, growing, point, terminal, new);
        }
    }
    let rows = selected(types, growing, point, source, new)?;
    settle_from(types, growing, reads, point, rows.as_slice())
}

/// So at each of the points that depend on it.
fn settle_dependents(
    types: &mut Compared,
    growing: &mut Growing,
    reads: &Reads,
    points: &[u32],
    source: u32,
    new: &[Row],
) -> Result<(), OutOfMemory>
    requires points { (u : ℕ) → Contains points.now u → u < length growing.old.problem.points.points }
    requires growing { IsGrowing types.old growing.old }
    requires reads { AreAllPairs growing.old.problem reads.now }
    requires new { AreAdded growing.old new.now }
    ensures growing { OnOk result (IsGrowing types.new growing.new) }
    ensures grown { OnOk result (IsGrownFrom types.old types.new growing.old growing.new) }
{
    for point in points {
        settle_with(types, growing, reads, *point, source, new)?;
    }
    Ok(())
}

/// The points of the rows, which are in their order, each once.
fn points_of(alloc: Global, rows: &[Row]) -> Result<Vec<u32>, OutOfMemory>
    ensures { IfOk result (λ points. (u : ℕ) → Contains points.items u
        → (r : RowData) × (Contains rows.now r × (r.point ≡ u))) }
{
    let mut points = Vec::new(alloc);
    for row in rows {
        if points.last().copied() == Some(row.point) {
            continue;
        }
        points.push(row.point)?;
    }
    Ok(points)
}

/// Adds what follows with the new entries, which are in the order of their points, and are at these.
fn settle_new(
    types: &mut Compared,
    growing: &mut Growing,
    reads: &Reads,
    dependents: &Dependents,
    points: &[u32],
    new: &[Row],
) -> Result<(), OutOfMemory>
    requires dependents { HasDependents growing.old.problem.points growing.old.problem.flow.pairs
        dependents.now }
    requires points { (u : ℕ) → Contains points.now u → u < length growing.old.problem.points.points }
    requires growing { IsGrowing types.old growing.old }
    requires reads { AreAllPairs growing.old.problem reads.now }
    requires new { AreAdded growing.old new.now }
    requires order { IsNonDecreasingBy (λ (r : RowData). r.point) new.now }
    ensures growing { OnOk result (IsGrowing types.new growing.new) }
    ensures grown { OnOk result (IsGrownFrom types.old types.new growing.old growing.new) }
{
    for point in points {
        let own = rows_at(new, *point);
        let above = dependents.list(*point);
        settle_dependents(types, growing, reads, above, *point, own)?;
    }
    Ok(())
}

/// Adds what follows with the entries from this place on, and with those that are added thereby, until
/// there are no more, or more than are allowed: round by round, and in each by point.
pub(crate) fn spread(
    types: &mut Compared,
    growing: &mut Growing,
    reads: &Reads,
    dependents: &Dependents,
    from: usize,
) -> Result<(), OutOfMemory>
    requires dependents { HasDependents growing.old.problem.points growing.old.problem.flow.pairs
        dependents.now }
    requires growing { IsGrowing types.old growing.old }
    requires reads { AreAllPairs growing.old.problem reads.now }
    ensures growing { OnOk result (IsGrowing types.new growing.new) }
    ensures grown { OnOk result (IsGrownFrom types.old types.new growing.old growing.new) }
{
    let mut place = from;
    while place < growing.len() && !growing.is_full() {
        let new = growing.rows_from(place)?;
        let points = points_of(growing.alloc, new.as_slice())?;
        place = growing.len();
        settle_new(
            types,
            growing,
            reads,
            dependents,
            points.as_slice(),
            new.as_slice(),
        )?;
    }
    Ok(())
}
