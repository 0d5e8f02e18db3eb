//! The entries of a table get numbers.

ghost use Rattle.std.specs.Prelude.{◌↔◌, IfOk, Contains};
ghost use Rattle.hs_table.specs.Entries.{EntryData, InShape};
ghost use Rattle.hs_checker.specs.Numbers.{entries_of, AreRows};

use crate::shape::is_in_shape;
use hs_numbered::import_entry;
use hs_scheme::{OutOfMemory, Problem};
use hs_table::Entry;
use hs_types::{Interner, Row};
use std::alloc::Global;

/// The rows of those entries of the table that are in shape, in its order. Time is in the size of all
/// their types, on average.
pub(crate) fn table_rows(
    alloc: Global,
    problem: &Problem,
    interner: &mut Interner,
    table: &[Entry],
) -> Result<Vec<Row>, OutOfMemory>
    ensures range { IfOk result (λ rows. AreRows interner.new rows.items) }
    ensures rows { IfOk result (λ rows. (e : EntryData) → Contains (entries_of interner.new rows.items) e
        ↔ (Contains table.now e × InShape problem.now e)) }
{
    let mut rows = Vec::new(alloc);
    for entry in table {
        if is_in_shape(problem, entry) {
            rows.push(import_entry(alloc, interner, entry)?)?;
        }
    }
    Ok(rows)
}
