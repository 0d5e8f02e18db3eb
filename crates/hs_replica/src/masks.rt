//! Masks of environments: numbers with a bit for each type that is asked for of a parameter.

ghost use Rattle.std.specs.Prelude.{◌≡◌, ◌<◌, ◌≤◌, ◌*◌, ◌+◌, IfNone, IfSome, length};
ghost use Rattle.hs_types.specs.Interned.{set_of_id, env_of_id};
ghost use Rattle.hs_replica.specs.Masks.{IsMask, AddsBitsOf};

use hs_types::{EnvId, Interner, SetId};

/// So many bits a mask has.
const BITS: usize = 128;

/// A mask with the number of sets of the environments that have it: where there are more sets, the same bits
/// are those of other types.
#[derive(Clone, Copy, Debug, PartialEq, Eq, Hash)]
pub(crate) struct MaskKey {
    pub(crate) mask: u128,
    pub(crate) count: usize,
}

/// The bit of the type of this number at one of so many parameters, counted from 0, where there is one.
fn bit_of(count: usize, param: usize, number: usize) -> Option<u32>
    requires { param < count }
    ensures bit { IfSome result (λ bit. (bit < 128) × (bit ≡ number * count + param)) }
    ensures none { IfNone result (128 ≤ number * count + param) }
{
    let bit = number.checked_mul(count)?.checked_add(param)?;
    if bit < BITS { Some(bit as u32) } else { None }
}

/// The mask, and the bits of the types of the set at the parameter, where all have one.
fn with_set(interner: &Interner, count: usize, param: usize, set: SetId, mask: u128) -> Option<u128>
    requires param { param < count }
    requires set { set < length interner.now.sets }
    ensures { IfSome result (AddsBitsOf interner.now count param (set_of_id interner.now set) mask) }
{
    let mut all = mask;
    for ty in interner.members(set) {
        let bit = bit_of(count, param, ty.number())?;
        all |= 1 << bit;
    }
    Some(all)
}

/// The mask of the environment, where it has one.
pub(crate) fn formed(interner: &Interner, env: EnvId) -> Option<u128>
    requires { env < length interner.now.envs }
    ensures { IfSome result (IsMask interner.now (length (env_of_id interner.now env))
        (env_of_id interner.now env)) }
{
    let sets = interner.sets(env);
    let mut mask = 0;
    for (param, set) in sets.iter().enumerate() {
        mask = with_set(interner, sets.len(), param, *set, mask)?;
    }
    Some(mask)
}
