//! Which rows cover others.

ghost use Rattle.std.specs.Prelude.{◌≡◌, ◌↔◌, All, Contains, IfOk, IsTrue};
ghost use Rattle.hs_weak.specs.Strength.{AsStrongAs, Covers};
ghost use Rattle.hs_types.specs.Interned.{RowData, IsRow, entry_of};
ghost use Rattle.hs_minimal.specs.Growing.{AreLeft};

use hs_choices::Compared;
use hs_scheme::OutOfMemory;
use hs_types::Row;
use std::alloc::Global;

/// Whether the row is one of these.
pub(crate) fn has_row(rows: &[Row], row: &Row) -> bool
    ensures { IsTrue result ↔ Contains rows.now row.now }
{
    for own in rows {
        if own == row {
            return true;
        }
    }
    false
}

/// Whether the entry covers one of the others. Ends at the first that it covers.
pub(crate) fn covers_some(
    types: &mut Compared,
    rows: &[Row],
    row: &Row,
) -> Result<bool, OutOfMemory>
    requires rows { All (IsRow types.old) rows.now }
    requires row { IsRow types.old row.now }
    ensures ok { IfOk result (λ some. (r : RowData) → Contains rows.now r
        → Covers AsStrongAs (entry_of types.old row.now) (entry_of types.old r) → IsTrue some) }
    ensures same { types.new ≡ types.old }
{
    for other in rows {
        if types.covers(row, other)? {
            return Ok(true);
        }
    }
    Ok(false)
}

/// Those of the entries that this one doesn't cover.
pub(crate) fn not_covered_by(
    alloc: Global,
    types: &mut Compared,
    rows: &[Row],
    row: &Row,
) -> Result<Vec<Row>, OutOfMemory>
    requires rows { All (IsRow types.old) rows.now }
    requires row { IsRow types.old row.now }
    ensures left { IfOk result (λ left. AreLeft types.old row.now rows.now left.items) }
    ensures same { types.new ≡ types.old }
{
    let mut left = Vec::new(alloc);
    for own in rows {
        if types.covers(row, own)? {
            continue;
        }
        left.push(*own)?;
    }
    Ok(left)
}
