//! Whether entries of a table cover others.

ghost use Rattle.std.specs.Prelude.{◌≡◌, ◌↔◌, All, IfOk, IsTrue};
ghost use Rattle.std.specs.List.Sorted.{IsNonDecreasingBy};
ghost use Rattle.hs_types.specs.Interned.{RowData, IsRow};
ghost use Rattle.hs_strength.specs.Remembered.{IsCovered};

use hs_choices::{Compared, rows_at};
use hs_scheme::OutOfMemory;
use hs_types::Row;

/// Whether an entry of the table, whose rows are in the order of their points, covers the one of this row.
/// The rows at its point are looked at, up to the first that covers it.
pub(crate) fn is_covered(
    types: &mut Compared,
    table: &[Row],
    row: &Row,
) -> Result<bool, OutOfMemory>
    requires table { All (IsRow types.old) table.now }
    requires order { IsNonDecreasingBy (λ (r : RowData). r.point) table.now }
    requires row { IsRow types.old row.now }
    ensures ok { IfOk result (λ covered. IsTrue covered ↔ IsCovered types.old row.now table.now) }
    ensures same { types.new ≡ types.old }
{
    types.is_covered(row, rows_at(table, row.point))
}
