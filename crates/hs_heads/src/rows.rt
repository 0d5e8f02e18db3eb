//! The types of a nonterminal and of a parameter, as the rows of a table say.

ghost use Rattle.std.specs.Prelude.{◌<◌, ℕ, length, All, OnOk};
ghost use Rattle.std.specs.List.Sorted.{IsNonDecreasingBy};
ghost use Rattle.hs_scheme.specs.declared.flow.FlowPair.{FlowPair as AnyFlow};
ghost use Rattle.hs_types.specs.Interned.{RowData, IsRow};
ghost use Rattle.hs_heads.specs.Sources.{GainsTypes, FromSome, BodySays, FlowSays, AtRow};

use crate::arrows::{add, add_arrows};
use hs_choices::{Compared, rows_at};
use hs_reads::Reads;
use hs_scheme::{FlowPair, OutOfMemory};
use hs_strength::last_state;
use hs_types::{Interner, Row, TyId, View};
use indexmap::IndexSet;

/// Adds the type of a nonterminal that the row, one at its body, says, where the point is read in its
/// state. A row whose type is no state says none.
fn add_body(
    types: &mut Compared,
    reads: &Reads,
    point: u32,
    row: &Row,
    found: &mut IndexSet<TyId>,
) -> Result<(), OutOfMemory>
    requires { IsRow types.old row.now }
    ensures { OnOk result (GainsTypes types.old types.new found.old.keys found.new.keys
        (BodySays types.old reads.now point row.now)) }
{
    let View::State(q) = types.interner().view(row.ty) else {
        return Ok(());
    };
    if !reads.holds(point, q) {
        return Ok(());
    }
    add_arrows(types, row.env, row.ty, found)
}

/// So for each of the rows at the body.
pub(crate) fn add_bodies(
    types: &mut Compared,
    reads: &Reads,
    point: u32,
    rows: &[Row],
    found: &mut IndexSet<TyId>,
) -> Result<(), OutOfMemory>
    requires { All (IsRow types.old) rows.now }
    ensures { OnOk result (GainsTypes types.old types.new found.old.keys found.new.keys
        (FromSome (BodySays types.old reads.now point) rows.now)) }
{
    for row in rows {
        add_body(types, reads, point, row, found)?;
    }
    Ok(())
}

/// Adds the row's type, where the point is read in the state at its end.
fn add_row(
    types: &Interner,
    reads: &Reads,
    point: u32,
    row: &Row,
    found: &mut IndexSet<TyId>,
) -> Result<(), OutOfMemory>
    requires { IsRow types.now row.now }
    ensures { OnOk result (GainsTypes types.now types.now found.old.keys found.new.keys
        (FlowSays types.now reads.now point row.now)) }
{
    if !reads.holds(point, last_state(types, row.ty)) {
        return Ok(());
    }
    add(found, row.ty)
}

/// So for each of the rows at a point.
fn add_rows(
    types: &Interner,
    reads: &Reads,
    point: u32,
    rows: &[Row],
    found: &mut IndexSet<TyId>,
) -> Result<(), OutOfMemory>
    requires { All (IsRow types.now) rows.now }
    ensures { OnOk result (GainsTypes types.now types.now found.old.keys found.new.keys
        (FromSome (FlowSays types.now reads.now point) rows.now)) }
{
    for row in rows {
        add_row(types, reads, point, row, found)?;
    }
    Ok(())
}

/// So for the rows at the points that may stand for a parameter.
pub(crate) fn add_flow(
    types: &Interner,
    reads: &Reads,
    point: u32,
    table: &[Row],
    pairs: &[FlowPair],
    found: &mut IndexSet<TyId>,
) -> Result<(), OutOfMemory>
    requires table { All (IsRow types.now) table.now }
    requires order { IsNonDecreasingBy (λ (r : RowData). r.point) table.now }
    ensures { OnOk result (GainsTypes types.now types.now found.old.keys found.new.keys
        (FromSome (λ (pair : AnyFlow). AtRow (FlowSays types.now reads.now point) table.now pair.point)
        pairs.now)) }
{
    for pair in pairs {
        add_rows(types, reads, point, rows_at(table, pair.point), found)?;
    }
    Ok(())
}
