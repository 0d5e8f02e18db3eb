//! Adding what weakly follows and isn't covered, until nothing is left.

ghost use Rattle.std.specs.Prelude.{◌≡◌, ◌⊎◌, ◌<◌, ◌≤◌, ℕ, Contains, IfOk, OnOk, length};
ghost use Rattle.hs_types.specs.Interned.{RowData, entry_of};
ghost use Rattle.hs_flow.specs.Dependents.{HasDependents};
ghost use Rattle.hs_reads.specs.Own.{AreAllPairs};
ghost use Rattle.hs_minimal.specs.Growing.{IsGrowing, CoversAllAt, CoversAll, IsCoveredAt, IsGrownFrom};
ghost use Rattle.hs_minimal.specs.Growing.{WhereNoneAdded, entries};
ghost use Rattle.hs_minimal.specs.Following.{IsFollowing};

use crate::following::following;
use crate::growing::Growing;
use crate::spreading::spread;
use hs_choices::Compared;
use hs_flow::Dependents;
use hs_reads::Reads;
use hs_scheme::OutOfMemory;
use hs_types::Row;

/// Adds those of the entries, which weakly follow, that aren't covered, one after another, up to one more
/// than are allowed.
pub(crate) fn add_rows(
    types: &mut Compared,
    growing: &mut Growing,
    rows: &[Row],
) -> Result<(), OutOfMemory>
    requires growing { IsGrowing types.old growing.old }
    requires rows { (r : RowData) → Contains rows.now r → IsFollowing growing.old.problem
        (entries types.old growing.old.history) r.point types.old r }
    ensures same { types.new ≡ types.old }
    ensures growing { OnOk result (IsGrowing types.new growing.new) }
    ensures grown { OnOk result (IsGrownFrom types.old types.new growing.old growing.new) }
    ensures none { OnOk result (length growing.new.history ≡ length growing.old.history
        → length growing.old.history ≤ growing.old.budget → (growing.new ≡ growing.old)
        × ((r : RowData) → Contains rows.now r → IsCoveredAt types.old growing.old
        (entry_of types.old r))) }
{
    for row in rows {
        if growing.is_full() {
            return Ok(());
        }
        if growing.covers(types, row)? {
            continue;
        }
        growing.add(types, *row)?;
    }
    Ok(())
}

/// Adds what weakly follows at the point and isn't covered.
fn settle(
    types: &mut Compared,
    growing: &mut Growing,
    reads: &Reads,
    point: u32,
) -> Result<(), OutOfMemory>
    requires point { point < length growing.old.problem.points.points }
    requires growing { IsGrowing types.old growing.old }
    requires reads { AreAllPairs growing.old.problem reads.now }
    ensures growing { OnOk result (IsGrowing types.new growing.new) }
    ensures grown { OnOk result (IsGrownFrom types.old types.new growing.old growing.new) }
    ensures settled { OnOk result (WhereNoneAdded growing.old growing.new
        (CoversAllAt types.new growing.new point)) }
{
    if growing.is_full() {
        return Ok(());
    }
    let rows = following(types, growing, reads, point)?;
    add_rows(types, growing, rows.as_slice())
}

/// Settles each point once, in their order.
fn settle_each(
    types: &mut Compared,
    growing: &mut Growing,
    reads: &Reads,
) -> Result<(), OutOfMemory>
    requires growing { IsGrowing types.old growing.old }
    requires reads { AreAllPairs growing.old.problem reads.now }
    ensures growing { OnOk result (IsGrowing types.new growing.new) }
    ensures grown { OnOk result (IsGrownFrom types.old types.new growing.old growing.new) }
    ensures settled { OnOk result (WhereNoneAdded growing.old growing.new
        (CoversAll types.new growing.new)) }
{
    for point in 0..growing.problem().points.count() {
        settle(types, growing, reads, point)?;
    }
    Ok(())
}

/// Adds what weakly follows and isn't covered, until nothing is left or there are more entries than are
/// allowed.
///
/// Each point is settled once, and then from each entry that came what follows with it at the points that
/// depend on it. A last look at each point shows that nothing is left.
pub(crate) fn fill(
    types: &mut Compared,
    growing: &mut Growing,
    reads: &Reads,
    dependents: &Dependents,
) -> Result<(), OutOfMemory>
    requires dependents { HasDependents growing.old.problem.points growing.old.problem.flow.pairs
        dependents.now }
    requires growing { IsGrowing types.old growing.old }
    requires reads { AreAllPairs growing.old.problem reads.now }
    ensures growing { OnOk result (IsGrowing types.new growing.new) }
    ensures grown { OnOk result (IsGrownFrom types.old types.new growing.old growing.new) }
    ensures settled { OnOk result ((growing.new.budget < length growing.new.history)
        ⊎ CoversAll types.new growing.new) }
{
    while !growing.is_full() {
        let before = growing.len();
        settle_each(types, growing, reads)?;
        if growing.len() == before {
            return Ok(());
        }
        spread(types, growing, reads, dependents, before)?;
    }
    Ok(())
}
