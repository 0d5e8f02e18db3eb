//! What the entries of a core ask of parameters.

ghost use Rattle.std.specs.Prelude.{◌≡◌, ◌<◌, length, All, map};
ghost use Rattle.hs_table.specs.Entries.{set_at, entry_at};
ghost use Rattle.hs_types.specs.Interned.{type_of_id, IsRow, entry_of};
ghost use Rattle.hs_core.specs.Core.{log_of};

use hs_core::Core;
use hs_types::{Row, TyId};

/// The row of the entry at this place.
pub(crate) fn row_at(core: &Core, place: u32) -> Row
    requires { place < length (log_of core.now) }
    ensures row { IsRow core.now.ids result }
    ensures entry { entry_at (log_of core.now) place ≡ entry_of core.now.ids result }
{
    core.replica().row(place)
}

/// The types that the entry at this place asks of a parameter, counted from 0.
pub(crate) fn asked<'a>(core: &'a Core, place: u32, param: usize) -> &'a [TyId]
    requires { place < length (log_of core.now) }
    ensures types { map (type_of_id core.now.ids) result.now
        ≡ set_at (entry_at (log_of core.now) place).env param }
    ensures range { All (λ t. t < length core.now.ids.types) result.now }
{
    let row = row_at(core, place);
    let interner = core.replica().interner();
    match interner.sets(row.env).get(param) {
        Some(set) => interner.members(*set),
        None => &[],
    }
}

/// Of how many parameters the entry at this place asks something.
pub(crate) fn asked_params(core: &Core, place: u32) -> usize
    requires { place < length (log_of core.now) }
    ensures { result ≡ length (entry_at (log_of core.now) place).env }
{
    let row = row_at(core, place);
    core.replica().interner().sets(row.env).len()
}
