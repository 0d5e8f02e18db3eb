//! The check of a table that a core holds, by number: no entry is told as a tree.

ghost use Rattle.std.specs.Prelude.{◌≡◌, length, map, take, All, IfOk};
ghost use Rattle.hs_table.specs.Tables.{IsClosedTable, HasStart, IsLeastTable};
ghost use Rattle.hs_verdict.specs.Premises.{HasClosedFlow};
ghost use Rattle.hs_types.specs.Interned.{IsRow, entry_of};
ghost use Rattle.hs_core.specs.Core.{log_of};
ghost use Rattle.hs_checker.specs.Checked.{IsCount};

use hs_checker::{CheckFault, check_rows};
use hs_core::Core;
use hs_scheme::{OutOfMemory, Problem};
use hs_types::{Interner, Row};
use hs_verdict::know_sorted_problem;
use std::alloc::Global;
use std::mem::forget;

/// The rows of the core's entries, in the log's order.
pub(crate) fn rows_of(alloc: Global, core: &Core) -> Result<Vec<Row>, OutOfMemory>
    ensures rows { IfOk result (λ rows. All (IsRow core.now.ids) rows.items) }
    ensures entries { IfOk result (λ rows. map (entry_of core.now.ids) rows.items ≡ log_of core.now) }
{
    let replica = core.replica();
    let mut rows = Vec::with_capacity(alloc, replica.len() as usize)?;
    for place in 0..replica.len() {
        rows.push_reserved(replica.row(place));
    }
    Ok(rows)
}

/// The number of instances of the entries that these rows stand for, which are a least table without the
/// start entry. The check finds no fault in it.
fn count_rows(
    alloc: Global,
    problem: &Problem,
    types: &mut Interner,
    rows: &[Row],
) -> Result<u64, OutOfMemory>
    requires flow { HasClosedFlow problem.now }
    requires rows { All (IsRow types.old) rows.now }
    requires least { IsLeastTable problem.now (map (entry_of types.old) rows.now) }
    requires lacks { HasStart problem.now (map (entry_of types.old) rows.now) → ⊥ }
    ensures { IfOk result (IsCount problem.now (map (entry_of types.old) rows.now)) }
{
    know_sorted_problem(problem);
    match check_rows(alloc, problem, types, rows) {
        Ok(count) => Ok(count),
        Err(CheckFault::OutOfMemory) => Err(OutOfMemory),
        Err(_) => unreachable!(),
    }
}

/// The number of instances of the core's entries, which are a least table without the start entry. Of the
/// core the rows and their interner are left: the check makes further types there.
pub(crate) fn instances_of(alloc: Global, problem: &Problem, core: Core) -> Result<u64, OutOfMemory>
    requires flow { HasClosedFlow problem.now }
    requires least { IsLeastTable problem.now (log_of core) }
    requires lacks { HasStart problem.now (log_of core) → ⊥ }
    ensures { IfOk result (IsCount problem.now (log_of core.entry)) }
{
    let told = rows_of(alloc, &core);
    let mut types = core.into_interner();
    let checked = match told {
        Ok(rows) => count_rows(alloc, problem, &mut types, rows.as_slice()),
        Err(refused) => Err(refused),
    };
    forget(types);
    checked
}
