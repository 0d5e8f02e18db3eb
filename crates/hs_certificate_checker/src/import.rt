//! Entries and void pairs that are trees get numbers.

ghost use Rattle.std.specs.Prelude.{◌≡◌, ◌<◌, All, IfOk, length, map};
ghost use Rattle.hs_types.specs.Interned.{IsRow, Grows};
ghost use Rattle.hs_numbered.specs.Certificates.{void_of};
ghost use Rattle.hs_choices.specs.Numbered.{AreTableRows};
ghost use Rattle.hs_certificate_checker.specs.Faults.{AreInVoidShape};

use hs_checker::is_in_shape;
use hs_numbered::{VoidRow, import_entry, import_env};
use hs_scheme::{OutOfMemory, Problem};
use hs_table::Entry;
use hs_types::{Interner, Row};
use hs_weak::Void;
use std::alloc::Global;

/// The rows of those entries of the table that are in shape, in its order. Time is in the size of all
/// their types, on average.
pub(crate) fn table_rows(
    alloc: Global,
    problem: &Problem,
    interner: &mut Interner,
    table: &[Entry],
) -> Result<Vec<Row>, OutOfMemory>
    ensures range { IfOk result (λ rows. All (IsRow interner.new) rows.items) }
    ensures rows { IfOk result (λ rows. AreTableRows problem.now table.now interner.new rows.items) }
    ensures grows { Grows interner.old interner.new }
{
    let mut rows = Vec::new(alloc);
    for entry in table {
        if is_in_shape(problem, entry) {
            rows.push(import_entry(alloc, interner, entry)?)?;
        }
    }
    Ok(rows)
}

/// The void pairs, which are in shape, by number, in their order.
pub(crate) fn void_rows(
    alloc: Global,
    problem: &Problem,
    interner: &mut Interner,
    void: &[Void],
) -> Result<Vec<VoidRow>, OutOfMemory>
    requires { AreInVoidShape problem.now void.now }
    ensures range { IfOk result (λ rows. All (λ r. r.env < length interner.new.envs) rows.items) }
    ensures pairs { IfOk result (λ rows. map (void_of interner.new) rows.items ≡ void.now) }
    ensures grows { Grows interner.old interner.new }
{
    let mut rows = Vec::with_capacity(alloc, void.len())?;
    for pair in void {
        let env = import_env(alloc, interner, pair.env.as_slice())?;
        rows.push_reserved(VoidRow {
            rule: pair.rule,
            env,
        });
    }
    Ok(rows)
}
