//! The types of the entries of a table that are arrows, and those that they ask for.

ghost use Rattle.std.specs.Prelude.{◌<◌, ℕ, All, Contains, OnOk, length};
ghost use Rattle.hs_table.specs.Types.{arrows};
ghost use Rattle.hs_types.specs.Interned.{RowData, IsRow, type_of_id, set_of_id, env_of_id};
ghost use Rattle.hs_minimal.specs.Strongest.{IsNoState, AddsTypes, HasArrows, HaveArrows, HasAskedFor};

use hs_scheme::OutOfMemory;
use hs_types::{Interner, Row, SetId, TyId, View};
use indexmap::IndexSet;
use std::alloc::Global;

/// Adds the type, where it is an arrow.
fn add_arrow(types: &Interner, ty: TyId, found: &mut IndexSet<TyId>) -> Result<(), OutOfMemory>
    requires { ty < length types.now.types }
    ensures adds { OnOk result (AddsTypes types.now found.old.keys found.new.keys) }
    ensures own { OnOk result (IsNoState (type_of_id types.now ty) → Contains found.new.keys ty) }
{
    match types.view(ty) {
        View::State(_) => Ok(()),
        View::Arrow(_, _) => {
            found.insert(ty)?;
            Ok(())
        }
    }
}

/// Adds the arrows of the set, unless it was seen, and sees it.
fn add_set(
    types: &Interner,
    set: SetId,
    seen: &mut IndexSet<SetId>,
    found: &mut IndexSet<TyId>,
) -> Result<(), OutOfMemory>
    requires set { set < length types.now.sets }
    requires seen { HaveArrows types.now found.old.keys seen.old.keys }
    ensures adds { OnOk result (AddsTypes types.now found.old.keys found.new.keys) }
    ensures own { OnOk result (HasArrows types.now found.new.keys (set_of_id types.now set)) }
    ensures seen { OnOk result (HaveArrows types.now found.new.keys seen.new.keys) }
{
    if seen.contains(&set) {
        return Ok(());
    }
    let members = types.members(set);
    for member in members {
        add_arrow(types, *member, found)?;
    }
    seen.insert(set)?;
    Ok(())
}

/// Adds the arrows of each of the sets.
fn add_sets(
    types: &Interner,
    sets: &[SetId],
    seen: &mut IndexSet<SetId>,
    found: &mut IndexSet<TyId>,
) -> Result<(), OutOfMemory>
    requires sets { All (λ s. s < length types.now.sets) sets.now }
    requires seen { HaveArrows types.now found.old.keys seen.old.keys }
    ensures adds { OnOk result (AddsTypes types.now found.old.keys found.new.keys) }
    ensures own { OnOk result (HaveArrows types.now found.new.keys sets.now) }
    ensures seen { OnOk result (HaveArrows types.now found.new.keys seen.new.keys) }
{
    for set in sets {
        add_set(types, *set, seen, found)?;
    }
    Ok(())
}

/// Adds the arrows of the sets in front of the type's last state.
fn add_before(
    types: &Interner,
    ty: TyId,
    seen: &mut IndexSet<SetId>,
    found: &mut IndexSet<TyId>,
) -> Result<(), OutOfMemory>
    requires ty { ty < length types.now.types }
    requires seen { HaveArrows types.now found.old.keys seen.old.keys }
    ensures adds { OnOk result (AddsTypes types.now found.old.keys found.new.keys) }
    ensures own { OnOk result (HasAskedFor types.now found.new.keys (type_of_id types.now ty)) }
    ensures seen { OnOk result (HaveArrows types.now found.new.keys seen.new.keys) }
{
    match types.view(ty) {
        View::State(_) => Ok(()),
        View::Arrow(set, rest) => {
            add_set(types, set, seen, found)?;
            add_before(types, rest, seen, found)
        }
    }
}

/// Adds the arrows that the entry asks for, and those that its type does.
fn add_asked_by(
    types: &Interner,
    row: &Row,
    seen: &mut IndexSet<SetId>,
    found: &mut IndexSet<TyId>,
) -> Result<(), OutOfMemory>
    requires row { IsRow types.now row.now }
    requires seen { HaveArrows types.now found.old.keys seen.old.keys }
    ensures adds { OnOk result (AddsTypes types.now found.old.keys found.new.keys) }
    ensures own { OnOk result (HasAskedFor types.now found.new.keys
        (arrows (env_of_id types.now row.now.env) (type_of_id types.now row.now.ty))) }
    ensures seen { OnOk result (HaveArrows types.now found.new.keys seen.new.keys) }
{
    add_sets(types, types.sets(row.env), seen, found)?;
    add_before(types, row.ty, seen, found)
}

/// So for each of the entries. Each set is looked through once.
pub(crate) fn add_asked(
    alloc: Global,
    types: &Interner,
    rows: &[Row],
    found: &mut IndexSet<TyId>,
) -> Result<(), OutOfMemory>
    requires { All (IsRow types.now) rows.now }
    ensures adds { OnOk result (AddsTypes types.now found.old.keys found.new.keys) }
    ensures own { OnOk result ((r : RowData) → Contains rows.now r → HasAskedFor types.now found.new.keys
        (arrows (env_of_id types.now r.env) (type_of_id types.now r.ty))) }
{
    let mut seen = IndexSet::new(alloc);
    for row in rows {
        add_asked_by(types, row, &mut seen, found)?;
    }
    Ok(())
}

/// Adds the types of the entries that are arrows.
pub(crate) fn add_types(
    types: &Interner,
    rows: &[Row],
    found: &mut IndexSet<TyId>,
) -> Result<(), OutOfMemory>
    requires { All (IsRow types.now) rows.now }
    ensures adds { OnOk result (AddsTypes types.now found.old.keys found.new.keys) }
    ensures own { OnOk result ((r : RowData) → Contains rows.now r → IsNoState (type_of_id types.now r.ty)
        → Contains found.new.keys r.ty) }
{
    for row in rows {
        add_arrow(types, row.ty, found)?;
    }
    Ok(())
}
