//! The rows of a table and of void pairs.

ghost use Rattle.std.specs.Prelude.{IfOk};
ghost use Rattle.hs_types.specs.Interned.{Grows};
ghost use Rattle.hs_choices.specs.Numbered.{AreNumbered};
ghost use Rattle.hs_certificate_checker.specs.Faults.{AreInVoidShape};

use crate::import::{table_rows, void_rows};
use hs_numbered::VoidRow;
use hs_scheme::{OutOfMemory, Problem};
use hs_table::Entry;
use hs_types::{Interner, Row};
use hs_weak::Void;
use std::alloc::Global;

/// The entries of a table that are in shape, in the order of their points, and void pairs in their order.
#[derive(Drop)]
pub(crate) struct Numbers {
    pub(crate) table: Vec<Row>,
    pub(crate) void: Vec<VoidRow>,
}

/// Numbers for the table and the void pairs, which are in shape. Time is in the size of all their types, on
/// average, and as a sort of the entries by their points.
pub(crate) fn numbered(
    alloc: Global,
    problem: &Problem,
    interner: &mut Interner,
    table: &[Entry],
    void: &[Void],
) -> Result<Numbers, OutOfMemory>
    requires { AreInVoidShape problem.now void.now }
    ensures { IfOk result (λ numbers. AreNumbered problem.now table.now void.now interner.new
        numbers.table.items numbers.void.items) }
{
    let mut rows = table_rows(alloc, problem, interner, table)?;
    rows.sort_unstable_by_key(|row| row.point);
    let void = void_rows(alloc, problem, interner, void)?;
    Ok(Numbers { table: rows, void })
}
