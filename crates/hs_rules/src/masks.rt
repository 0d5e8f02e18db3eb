//! Masks of the candidates for a slot, and of the environments that they are joined to.

ghost use Rattle.std.specs.Prelude.{◌≡◌, ◌<◌, ℕ, length, slice_get, Some, Contains, IfOk, IfSome};
ghost use Rattle.hs_rules.specs.Joins.{PartialData, AreMasksOf, AreOwnMasks, IsUnited};

use crate::joining::Partial;
use crate::search::Filled;
use hs_replica::Replica;
use hs_scheme::OutOfMemory;
use smallvec::SmallVec;
use std::alloc::Global;

/// Where environments and candidates for a slot make at least so many pairs, what comes of a pair is looked for
/// by its mask first.
const MANY: usize = 64;

/// The masks of the environments of the slot's candidates; none where one of them has no mask.
fn masks_of(alloc: Global, replica: &mut Replica, slot: &Filled) -> Result<Vec<u128>, OutOfMemory>
    requires { (place : ℕ) → Contains slot.now.places place → place < length replica.old.log }
    ensures masks { IfOk result (λ masks. AreMasksOf replica.old.ids replica.old.log slot.now masks.items) }
    ensures kept { replica.new ≡ replica.old }
{
    let mut masks = Vec::with_capacity(alloc, slot.places.len())?;
    for place in slot.places.as_slice() {
        let env = replica.row(*place).env;
        let Some(mask) = replica.mask_of(env)? else {
            return Ok(Vec::new(alloc));
        };
        masks.push(mask)?;
    }
    Ok(masks)
}

/// Environments' masks, each where there is one. Four of them lie in the value itself.
pub(crate) type OwnMasks = SmallVec<Option<u128>, 4>;

/// The masks of the environments, in their order, each where it has one; none where candidates have no masks.
pub(crate) fn own_masks(
    alloc: Global,
    replica: &mut Replica,
    masks: &[u128],
    run: &[Partial],
) -> Result<OwnMasks, OutOfMemory>
    requires { (x : PartialData) → Contains run.now x → x.env < length replica.old.ids.envs }
    ensures masks { IfOk result (λ owns. AreOwnMasks replica.old.ids run.now owns.items) }
    ensures kept { replica.new ≡ replica.old }
{
    let mut owns = SmallVec::new(alloc);
    if masks.is_empty() {
        return Ok(owns);
    }
    for partial in run {
        let own = replica.mask_of(partial.env)?;
        owns.push(own)?;
    }
    Ok(owns)
}

/// The mask of the environment of this number, counted from 0, where there is one.
pub(crate) fn own_mask(owns: &[Option<u128>], number: usize) -> Option<u128>
    ensures { IfSome result (λ mask. slice_get owns.now number ≡ Some (Some mask)) }
{
    let own = owns.get(number)?;
    *own
}

/// The mask of the union of an environment with this mask and the candidate of this number, where both have
/// masks.
pub(crate) fn united(own: Option<u128>, masks: &[u128], number: usize) -> Option<u128>
    ensures { IfSome result (IsUnited own masks.now number) }
{
    let mask = own?;
    let other = masks.get(number)?;
    Some(mask | *other)
}

/// The masks of the slot's candidates where these meet many environments, and otherwise none.
pub(crate) fn masks_for(
    alloc: Global,
    replica: &mut Replica,
    partials: usize,
    slot: &Filled,
) -> Result<Vec<u128>, OutOfMemory>
    requires { 1 < partials → (place : ℕ) → Contains slot.now.places place
        → place < length replica.old.log }
    ensures masks { IfOk result (λ masks. AreMasksOf replica.old.ids replica.old.log slot.now masks.items) }
    ensures kept { replica.new ≡ replica.old }
{
    if partials <= 1 || partials.saturating_mul(slot.places.len()) < MANY {
        return Ok(Vec::new(alloc));
    }
    masks_of(alloc, replica, slot)
}
