//! What may be chosen for a type that is asked of an argument.

ghost use Rattle.std.specs.Prelude.{◌≡◌, ◌<◌, length, map, All, IfOk, OnOk};
ghost use Rattle.std.specs.List.Sorted.{IsNonDecreasingBy};
ghost use Rattle.hs_types.specs.Interned.{type_of_id, set_of_id, RowData, IsRow};
ghost use Rattle.hs_choices.specs.Numbered.{AreOfStrong, AreSlotsAdded, AreOfArguments};

use crate::comparing::Comparing;
use crate::rows::rows_at;
use hs_scheme::OutOfMemory;
use hs_types::{EnvId, Row, SetId, TyId};
use std::alloc::Global;
use std::marker::Model;

/// The environments of which one is chosen, for a type that is asked of an argument.
#[derive(Drop)]
pub struct Slot {
    pub envs: Vec<EnvId>,
}

impl Model for Slot {
    ghost use Rattle.std.specs.Prelude.{ℕ, List};
    ghost use Rattle.std.specs.Coded.{coded_list, coded_ℕ};

    ghost Value = { List ℕ };

    ghost coded = { coded_list coded_ℕ };

    ghost view = { λ a. a.envs.items };
}

/// The environments of those of the rows, which are a point's, whose types are as strong as this one. Each
/// row is looked at.
fn slot_of<T: Comparing>(
    alloc: Global,
    types: &mut T,
    rows: &[Row],
    ty: TyId,
) -> Result<Slot, OutOfMemory>
    requires rows { All (IsRow (T.known types.old)) rows.now }
    requires ty { ty < length (T.known types.old).types }
    ensures slot { IfOk result (λ slot. AreOfStrong (T.known types.old) rows.now
        (type_of_id (T.known types.old) ty) slot) }
    ensures same { T.known types.new ≡ T.known types.old }
{
    let mut envs = Vec::new(alloc);
    for row in rows {
        if !types.is_as_strong(row.ty, ty)? {
            continue;
        }
        envs.push(row.env)?;
    }
    Ok(Slot { envs })
}

/// Adds a slot for each type of the set, in the set's order, by the rows of a point.
fn add_slots<T: Comparing>(
    alloc: Global,
    types: &mut T,
    rows: &[Row],
    set: SetId,
    slots: &mut Vec<Slot>,
) -> Result<(), OutOfMemory>
    requires rows { All (IsRow (T.known types.old)) rows.now }
    requires set { set < length (T.known types.old).sets }
    ensures slots { OnOk result (AreSlotsAdded (T.known types.old) rows.now
        (set_of_id (T.known types.old) set) slots.old.items slots.new.items) }
    ensures same { T.known types.new ≡ T.known types.old }
{
    let count = types.count(set);
    for place in 0..count {
        let ty = types.member(set, place);
        let slot = slot_of(alloc, types, rows, ty)?;
        slots.push(slot)?;
    }
    Ok(())
}

/// A slot for each type that is asked of the arguments at these points, where `sets` has a set for each of
/// them: by argument and then in the set's order. The table is in the order of points. For each type the
/// rows of its argument are looked at, and no argument of which nothing is asked.
pub fn slots_for<T: Comparing>(
    alloc: Global,
    types: &mut T,
    table: &[Row],
    args: &[u32],
    sets: &[SetId],
) -> Result<Vec<Slot>, OutOfMemory>
    requires table { All (IsRow (T.known types.old)) table.now }
    requires order { IsNonDecreasingBy (λ (r : RowData). r.point) table.now }
    requires sets { All (λ s. s < length (T.known types.old).sets) sets.now }
    requires long { length sets.now ≡ length args.now }
    ensures slots { IfOk result (λ slots. AreOfArguments (T.known types.old) table.now args.now
        (map (set_of_id (T.known types.old)) sets.now) slots.items) }
    ensures same { T.known types.new ≡ T.known types.old }
{
    let mut slots = Vec::new(alloc);
    for (place, arg) in args.iter().enumerate() {
        let set = sets[place];
        if types.count(set) == 0 {
            continue;
        }
        let rows = rows_at(table, *arg);
        add_slots(alloc, types, rows, set, &mut slots)?;
    }
    Ok(slots)
}
