//! The rows of a table that are at a point.

ghost use Rattle.std.specs.Prelude.{◌+◌};
ghost use Rattle.std.specs.List.Sorted.{IsNonDecreasingBy};
ghost use Rattle.hs_types.specs.Interned.{RowData};
ghost use Rattle.hs_flow_checker.specs.Starts.{IsStartBy};
ghost use Rattle.hs_choices.specs.Numbered.{AreAtPoint};

use hs_types::Row;

/// How many of the rows are at lesser points.
fn start_of(rows: &[Row], point: u32) -> usize
    requires { IsNonDecreasingBy (λ (r : RowData). r.point) rows.now }
    ensures { IsStartBy (λ (r : RowData). r.point) rows.now point result }
{
    rows.partition_point(|row| row.point < point)
}

/// How many are at this one or at lesser ones, where so many are at lesser ones.
fn end_from(rows: &[Row], point: u32, from: usize) -> usize
    requires order { IsNonDecreasingBy (λ (r : RowData). r.point) rows.now }
    requires from { IsStartBy (λ (r : RowData). r.point) rows.now point from }
    ensures { IsStartBy (λ (r : RowData). r.point) rows.now (point + 1) result }
{
    let mut to = from;
    while to < rows.len() {
        if rows[to].point != point {
            return to;
        }
        to += 1;
    }
    to
}

/// The rows at the point, of rows in the order of their points. Time in the logarithm of their number and in
/// how many are at the point, and takes no memory.
pub fn rows_at(rows: &[Row], point: u32) -> &[Row]
    requires { IsNonDecreasingBy (λ (r : RowData). r.point) rows.now }
    ensures { AreAtPoint rows.now point result.now }
{
    let from = start_of(rows, point);
    let to = end_from(rows, point, from);
    &rows[from..to]
}
