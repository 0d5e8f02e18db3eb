//! The states at the ends of types. A type is as strong as another only where both have the same one.

ghost use Rattle.std.specs.Prelude.{◌≡◌, ◌↔◌, ◌<◌, length, Contains, IsTrue};
ghost use Rattle.hs_table.specs.Types.{TypeTree};
ghost use Rattle.hs_weak.specs.Reads.{last_state as last_state_of};
ghost use Rattle.hs_weak.specs.Strength.{AsStrongAs, AsksEach};
ghost use Rattle.hs_types.specs.Interned.{type_of_id, set_of_id};

use hs_types::{Interner, SetId, TyId, View};

/// The state at the end of the type, counted from 0. Walks its results, and takes no memory.
pub fn last_state(types: &Interner, ty: TyId) -> u32
    requires { ty < length types.now.types }
    ensures { result ≡ last_state_of (type_of_id types.now ty) }
{
    match types.view(ty) {
        View::State(q) => q,
        View::Arrow(_, rest) => last_state(types, rest),
    }
}

/// Whether a type of the set has the state at its end. Walks the results of each of its types, up to the
/// first such one, and takes no memory.
pub fn has_last_state(types: &Interner, set: SetId, state: u32) -> bool
    requires { set < length types.now.sets }
    ensures { IsTrue result ↔ ((a : TypeTree) × (Contains (set_of_id types.now set) a
        × (last_state_of a ≡ state))) }
{
    let members = types.members(set);
    for member in members {
        if last_state(types, *member) == state {
            return true;
        }
    }
    false
}

/// Whether the set may ask at least each type of the other: not where it has no type with the same state at
/// its end as the other's first. Looks at no set of a type.
pub(crate) fn may_ask_each(types: &Interner, set: SetId, other: SetId) -> bool
    requires set { set < length types.now.sets }
    requires other { other < length types.now.sets }
    ensures { AsksEach AsStrongAs (set_of_id types.now set) (set_of_id types.now other) → IsTrue result }
{
    match types.members(other).first() {
        Some(first) => has_last_state(types, set, last_state(types, *first)),
        None => true,
    }
}
