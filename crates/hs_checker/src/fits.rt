//! Types whose sets have entries at the arguments.

ghost use Rattle.std.specs.Prelude.{◌≡◌, ◌↔◌, ◌⊎◌, ◌<◌, ◌∷◌, [], ℕ, length, Contains, IsTrue, IfOk, OnOk};
ghost use Rattle.hs_table.specs.Types.{TypeTree};
ghost use Rattle.hs_types.specs.Interned.{type_of_id, set_of_id};
ghost use Rattle.hs_checker.specs.Slots.{HasTypesAt, FitsSets};
ghost use Rattle.hs_checker.specs.Numbers.{entries_of, trees_of, AreRows, AreTypes, GainsTypes};

use crate::index::RowIndex;
use hs_scheme::OutOfMemory;
use hs_types::{Interner, SetId, TyId, View};
use std::alloc::Global;

/// Whether each type of the set has an entry at the argument.
fn have_entries(types: &Interner, index: &RowIndex, arg: u32, set: SetId) -> bool
    requires rows { AreRows types.now index.now }
    requires set { set < length types.now.sets }
    ensures { IsTrue result ↔ HasTypesAt (entries_of types.now index.now) arg (set_of_id types.now set) }
{
    types.know_numbers();
    for ty in types.members(set) {
        if !index.has(arg, *ty) {
            return false;
        }
    }
    true
}

/// Whether each type of the sets has an entry at its argument. Recurses as deep as the type.
fn fits(types: &Interner, index: &RowIndex, args: &[u32], ty: TyId) -> bool
    requires rows { AreRows types.now index.now }
    requires ty { ty < length types.now.types }
    ensures { IsTrue result ↔ FitsSets (entries_of types.now index.now) args.now (type_of_id types.now ty) }
{
    let Some(arg) = args.first() else {
        return true;
    };
    match types.view(ty) {
        View::State(_) => false,
        View::Arrow(set, rest) => {
            have_entries(types, index, *arg, set) && fits(types, index, &args[1..], rest)
        }
    }
}

/// Adds the type, where its sets have entries.
pub(crate) fn add_fitting(
    types: &Interner,
    index: &RowIndex,
    args: &[u32],
    ty: TyId,
    found: &mut Vec<TyId>,
) -> Result<(), OutOfMemory>
    requires rows { AreRows types.now index.now }
    requires ty { ty < length types.now.types }
    requires found { AreTypes types.now found.old.items }
    ensures { OnOk result (GainsTypes types.now types.now found.old.items found.new.items
        (λ t. (t ≡ type_of_id types.now ty) × FitsSets (entries_of types.now index.now) args.now t)) }
{
    if !fits(types, index, args, ty) {
        return Ok(());
    }
    found.push(ty)?;
    Ok(())
}

/// Those of the types whose sets have entries.
pub(crate) fn fitting(
    alloc: Global,
    types: &Interner,
    index: &RowIndex,
    args: &[u32],
    all: &[TyId],
) -> Result<Vec<TyId>, OutOfMemory>
    requires rows { AreRows types.now index.now }
    requires all { AreTypes types.now all.now }
    ensures range { IfOk result (λ found. AreTypes types.now found.items) }
    ensures each { IfOk result (λ found. (t : TypeTree) → Contains (trees_of types.now found.items) t
        ↔ (Contains (trees_of types.now all.now) t × FitsSets (entries_of types.now index.now) args.now t)) }
{
    let mut found = Vec::new(alloc);
    for ty in all {
        add_fitting(types, index, args, *ty, &mut found)?;
    }
    Ok(found)
}
