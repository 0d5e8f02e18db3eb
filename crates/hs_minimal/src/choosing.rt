//! Whether something may be chosen for all that is asked of arguments.

ghost use Rattle.std.specs.Prelude.{◌≡◌, ◌<◌, ℕ, All, Contains, IfOk, IsTrue, Some, length, map, slice_get};
ghost use Rattle.std.specs.List.Sorted.{IsNonDecreasingBy};
ghost use Rattle.hs_table.specs.Types.{TypeTree};
ghost use Rattle.hs_table.specs.Entries.{Has};
ghost use Rattle.hs_types.specs.Interned.{RowData, IsRow, type_of_id, set_of_id};
ghost use Rattle.hs_minimal.specs.Following.{HasStrong, HasStrongAt};

use hs_choices::{Compared, Comparing, rows_at};
use hs_scheme::OutOfMemory;
use hs_types::{Row, SetId, TyId};

/// Whether one of the rows has a type that is as strong as this one. Ends at the first such one.
fn has_strong(types: &mut Compared, rows: &[Row], ty: TyId) -> Result<bool, OutOfMemory>
    requires rows { All (IsRow types.old) rows.now }
    requires ty { ty < length types.old.types }
    ensures ok { IfOk result (λ has. HasStrong types.old rows.now (type_of_id types.old ty) → IsTrue has) }
    ensures same { types.new ≡ types.old }
{
    for row in rows {
        if types.is_as_strong(row.ty, ty)? {
            return Ok(true);
        }
    }
    Ok(false)
}

/// Whether for each type of the set one of the rows has a type that is as strong.
pub(crate) fn has_each(types: &mut Compared, rows: &[Row], set: SetId) -> Result<bool, OutOfMemory>
    requires rows { All (IsRow types.old) rows.now }
    requires set { set < length types.old.sets }
    ensures ok { IfOk result (λ has. ((a : TypeTree) → Contains (set_of_id types.old set) a
        → HasStrong types.old rows.now a) → IsTrue has) }
    ensures same { types.new ≡ types.old }
{
    let count = types.count(set);
    for place in 0..count {
        let ty = types.member(set, place);
        if !has_strong(types, rows, ty)? {
            return Ok(false);
        }
    }
    Ok(true)
}

/// Whether something may be chosen, of rows in the order of their points, for each type that these sets ask
/// of the arguments at these points. Ends at the first for which there is nothing.
pub(crate) fn may_choose(
    types: &mut Compared,
    rows: &[Row],
    args: &[u32],
    sets: &[SetId],
) -> Result<bool, OutOfMemory>
    requires rows { All (IsRow types.old) rows.now }
    requires order { IsNonDecreasingBy (λ (r : RowData). r.point) rows.now }
    requires sets { All (λ s. s < length types.old.sets) sets.now }
    requires long { length sets.now ≡ length args.now }
    ensures ok { IfOk result (λ may. ((k u : ℕ) (a : TypeTree) → slice_get args.now k ≡ Some u
        → Has (map (set_of_id types.old) sets.now) k a → HasStrongAt types.old rows.now u a) → IsTrue may) }
    ensures same { types.new ≡ types.old }
{
    for (place, arg) in args.iter().enumerate() {
        let at = rows_at(rows, *arg);
        if !has_each(types, at, sets[place])? {
            return Ok(false);
        }
    }
    Ok(true)
}
