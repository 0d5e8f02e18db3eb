//! Entries by their points, the states at the ends of their types, and those at the ends of the first types
//! that they ask for: so an entry that covers another is found without a look at all.

ghost use Rattle.std.specs.Prelude.{◌≡◌, ◌<◌, ◌↔◌, ◌⊎◌, ℕ, false, All, Contains, IfOk, IfSome, IsTrue, OnOk, length};
ghost use Rattle.hs_table.specs.Types.{TypeTree};
ghost use Rattle.hs_weak.specs.Reads.{last_state as last_state_of};
ghost use Rattle.hs_types.specs.Interned.{RowData, IsRow, type_of_id, set_of_id};
ghost use Rattle.hs_reads.specs.Lists.{list_of};
ghost use Rattle.hs_strength.specs.Remembered.{Remembers};
ghost use Rattle.hs_minimal.specs.Ends.{rows_ending};
ghost use Rattle.hs_minimal.specs.Strongest.{AsksFirst, IsFilingState, IsFiled, IsFiledAmong, AreFiled};
ghost use Rattle.hs_minimal.specs.Strongest.{IsOtherCovering, IsCoveredByOther, AreRowsIn};

use crate::ends::EndRows;
use hs_scheme::OutOfMemory;
use hs_strength::{Strengths, last_state};
use hs_types::{EnvId, Interner, Row, SetId};
use std::alloc::Global;

/// The state at the end of the first type that is asked for.
fn first_asked(types: &Interner, env: EnvId) -> Option<u32>
    requires { env < length types.now.envs }
    ensures { IfSome result (AsksFirst types.now env) }
{
    let sets = types.sets(env);
    for set in sets {
        if let Some(first) = types.members(*set).first() {
            return Some(last_state(types, *first));
        }
    }
    None
}

/// The state at the end of the first type that the entry asks for, or where it asks for none, of its own.
fn filing_state(types: &Interner, row: &Row) -> u32
    requires { IsRow types.now row.now }
    ensures { IsFilingState types.now row.now result }
{
    match first_asked(types, row.env) {
        Some(state) => state,
        None => last_state(types, row.ty),
    }
}

/// Adds the entry at its point, by the two states.
fn file_row(
    alloc: Global,
    types: &Interner,
    filed: &mut Vec<EndRows>,
    row: Row,
) -> Result<(), OutOfMemory>
    requires row { IsRow types.now row }
    requires point { row.point < length filed.old.items }
    ensures own { OnOk result (IsFiled types.now filed.new.items row) }
    ensures keeps { OnOk result ((r : RowData) → IsFiled types.now filed.old.items r
        → IsFiled types.now filed.new.items r) }
    ensures only { OnOk result ((r : RowData) → IsFiledAmong filed.new.items r
        → IsFiledAmong filed.old.items r ⊎ (r ≡ row)) }
    ensures len { OnOk result (length filed.new.items ≡ length filed.old.items) }
{
    let end = last_state(types, row.ty);
    let state = filing_state(types, &row);
    let rows = &mut filed[row.point as usize];
    rows.push(alloc, end, state, row)
}

/// Nothing at each of so many points.
fn nothing_filed(alloc: Global, points: usize) -> Result<Vec<EndRows>, OutOfMemory>
    ensures len { IfOk result (λ filed. length filed.items ≡ points) }
    ensures none { IfOk result (λ filed. (r : RowData) → IsFiledAmong filed.items r → ⊥) }
{
    let mut filed = Vec::with_capacity(alloc, points)?;
    for _ in 0..points {
        filed.push_reserved(EndRows::new(alloc));
    }
    Ok(filed)
}

/// The entries, which are at so many points, by point and the two states.
pub(crate) fn file(
    alloc: Global,
    types: &Interner,
    points: usize,
    rows: &[Row],
) -> Result<Vec<EndRows>, OutOfMemory>
    requires rows { All (IsRow types.now) rows.now }
    requires points { All (λ (r : RowData). r.point < points) rows.now }
    ensures { IfOk result (λ filed. AreFiled types.now rows.now filed.items) }
{
    let mut filed = nothing_filed(alloc, points)?;
    for row in rows {
        file_row(alloc, types, &mut filed, *row)?;
    }
    Ok(filed)
}

/// Whether one of the entries covers this one, and isn't it. Ends at the first that does.
fn has_covering(
    types: &Interner,
    strengths: &mut Strengths,
    rows: &[Row],
    row: &Row,
) -> Result<bool, OutOfMemory>
    requires rows { All (IsRow types.now) rows.now }
    requires row { IsRow types.now row.now }
    requires memo { Remembers types.now strengths.old }
    ensures ok { IfOk result (λ covered. IsTrue covered
        ↔ IsCoveredByOther types.now rows.now row.now) }
    ensures memo { Remembers types.now strengths.new }
{
    for other in rows {
        if other == row {
            continue;
        }
        if strengths.covers(types, other, row)? {
            return Ok(true);
        }
    }
    Ok(false)
}

/// The entries at the point by these two states.
fn filed_at(filed: &[EndRows], point: u32, end: u32, state: u32) -> &[Row]
    ensures { result.now ≡ rows_ending (list_of filed.now point) end state }
{
    match filed.get(point as usize) {
        Some(rows) => rows.at(end, state),
        None => &[],
    }
}

/// Whether another entry covers this one that asks first for a type with the same state at its end as one
/// of the set.
fn has_covering_for(
    types: &Interner,
    strengths: &mut Strengths,
    filed: &[EndRows],
    set: SetId,
    row: &Row,
) -> Result<bool, OutOfMemory>
    requires filed { AreRowsIn types.now filed.now }
    requires set { set < length types.now.sets }
    requires row { IsRow types.now row.now }
    requires memo { Remembers types.now strengths.old }
    ensures some { IfOk result (λ covered. IsTrue covered → (o : RowData)
        × (IsFiledAmong filed.now o × IsOtherCovering types.now row.now o)) }
    ensures none { IfOk result (λ covered. covered ≡ false → (a : TypeTree)
        → Contains (set_of_id types.now set) a → IsCoveredByOther types.now
        (rows_ending (list_of filed.now row.now.point) (last_state_of (type_of_id types.now row.now.ty))
        (last_state_of a)) row.now → ⊥) }
    ensures memo { Remembers types.now strengths.new }
{
    let end = last_state(types, row.ty);
    let members = types.members(set);
    for member in members {
        let rows = filed_at(filed, row.point, end, last_state(types, *member));
        if has_covering(types, strengths, rows, row)? {
            return Ok(true);
        }
    }
    Ok(false)
}

/// Whether another entry covers this one. Looks at those that ask for nothing, or first for a type with
/// the same state at its end as one of those that this one asks for.
pub(crate) fn is_covered_by_other(
    types: &Interner,
    strengths: &mut Strengths,
    filed: &[EndRows],
    row: &Row,
) -> Result<bool, OutOfMemory>
    requires filed { AreRowsIn types.now filed.now }
    requires row { IsRow types.now row.now }
    requires memo { Remembers types.now strengths.old }
    ensures some { IfOk result (λ covered. IsTrue covered → (o : RowData)
        × (IsFiledAmong filed.now o × IsOtherCovering types.now row.now o)) }
    ensures none { IfOk result (λ covered. covered ≡ false → (o : RowData) → IsFiled types.now filed.now o
        → IsOtherCovering types.now row.now o → ⊥) }
    ensures memo { Remembers types.now strengths.new }
{
    let end = last_state(types, row.ty);
    let free = filed_at(filed, row.point, end, end);
    if has_covering(types, strengths, free, row)? {
        return Ok(true);
    }
    let sets = types.sets(row.env);
    for set in sets {
        if has_covering_for(types, strengths, filed, *set, row)? {
            return Ok(true);
        }
    }
    Ok(false)
}
