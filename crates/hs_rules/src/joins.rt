//! Joins of all slots of a type.

ghost use Rattle.std.specs.Prelude.{◌≡◌, ◌&&◌, true, ◌<◌, [], length, Contains, IfOk, OnOk};
ghost use Rattle.std.specs.List.Sorted.{IsStrictlyIncreasing};
ghost use Rattle.hs_table.specs.Entries.{IsEnv};
ghost use Rattle.hs_types.specs.Interned.{env_of_id};
ghost use Rattle.hs_replica.specs.Replica.{KeepsLog};
ghost use Rattle.hs_rules.specs.Slots.{FilledData};
ghost use Rattle.hs_rules.specs.Joins.{ArePlaced, IsWithSole, AreJoined, LeadBySole};

use crate::joining::{Partial, PartialList, join_slot};
use crate::search::Filled;
use crate::turns::{Numbers, are_many, next_slot, no_weights};
use hs_replica::Replica;
use hs_scheme::OutOfMemory;
use hs_types::EnvId;
use smallvec::SmallVec;
use std::alloc::Global;

/// The environment that asks for what the head's own and the only candidates of slots ask for.
fn own_with_sole(replica: &mut Replica, own: EnvId, slots: &[Filled]) -> Result<EnvId, OutOfMemory>
    requires own { own < length replica.old.ids.envs }
    requires is_env { IsEnv (length (env_of_id replica.old.ids own)) (env_of_id replica.old.ids own) }
    requires placed { (f : FilledData) → Contains slots.now f
        → ArePlaced replica.old.log (length (env_of_id replica.old.ids own)) f }
    ensures known { IfOk result (λ env. env < length replica.new.ids.envs) }
    ensures asks { IfOk result (λ env. IsWithSole replica.old.log
        (length (env_of_id replica.old.ids own)) (env_of_id replica.old.ids own) slots.now
        (env_of_id replica.new.ids env)) }
    ensures kept { KeepsLog replica.old replica.new }
{
    let mut env = own;
    for slot in slots {
        let places = slot.places.as_slice();
        if places.len() != 1 {
            continue;
        }
        let candidate = replica.row(places[0]).env;
        env = replica.union_envs(env, candidate)?;
    }
    Ok(env)
}

/// Whether both hold.
fn both(first: bool, second: bool) -> bool
    ensures { result ≡ first && second }
{
    first && second
}

/// Adds the environment that a join of the slots begins with: it asks for what the head's own and the only
/// candidates of slots ask for. Nothing is chosen yet.
fn begin(
    alloc: Global,
    replica: &mut Replica,
    own: EnvId,
    slots: &[Filled],
    out: &mut PartialList,
) -> Result<(), OutOfMemory>
    requires own { own < length replica.old.ids.envs }
    requires is_env { IsEnv (length (env_of_id replica.old.ids own)) (env_of_id replica.old.ids own) }
    requires placed { (f : FilledData) → Contains slots.now f
        → ArePlaced replica.old.log (length (env_of_id replica.old.ids own)) f }
    requires none { out.old.items ≡ [] }
    ensures lead { OnOk result (LeadBySole replica.new.ids replica.old.log
        (length (env_of_id replica.old.ids own)) (env_of_id replica.old.ids own) slots.now [] true
        out.new.items) }
    ensures kept { KeepsLog replica.old replica.new }
{
    let env = own_with_sole(replica, own, slots)?;
    out.reserve(1)?;
    out.push_reserved(Partial {
        env,
        args: SmallVec::new(alloc),
    });
    Ok(())
}

/// Does what `joined` does. The slots are joined in their order.
fn joined_in_order(
    alloc: Global,
    replica: &mut Replica,
    own: EnvId,
    slots: &[Filled],
    most: usize,
    out: &mut PartialList,
) -> Result<bool, OutOfMemory>
    requires own { own < length replica.old.ids.envs }
    requires is_env { IsEnv (length (env_of_id replica.old.ids own)) (env_of_id replica.old.ids own) }
    requires placed { (f : FilledData) → Contains slots.now f
        → ArePlaced replica.old.log (length (env_of_id replica.old.ids own)) f }
    requires rise { (f : FilledData) → Contains slots.now f → IsStrictlyIncreasing f.places }
    requires none { out.old.items ≡ [] }
    ensures joined { IfOk result (λ whole. AreJoined replica.new.ids replica.old.log
        (length (env_of_id replica.old.ids own)) (env_of_id replica.old.ids own) slots.now whole
        out.new.items) }
    ensures kept { KeepsLog replica.old replica.new }
{
    begin(alloc, replica, own, slots, out)?;
    let mut whole = true;
    for (number, slot) in slots.iter().enumerate() {
        let all = join_slot(alloc, replica, slot, number, most, out)?;
        whole = both(whole, all);
    }
    Ok(whole)
}

/// Does what `joined` does. Which slot is joined next, `next_slot` tells, so that the environments grow little.
fn joined_lightest_first(
    alloc: Global,
    replica: &mut Replica,
    own: EnvId,
    slots: &[Filled],
    most: usize,
    out: &mut PartialList,
) -> Result<bool, OutOfMemory>
    requires own { own < length replica.old.ids.envs }
    requires is_env { IsEnv (length (env_of_id replica.old.ids own)) (env_of_id replica.old.ids own) }
    requires placed { (f : FilledData) → Contains slots.now f
        → ArePlaced replica.old.log (length (env_of_id replica.old.ids own)) f }
    requires rise { (f : FilledData) → Contains slots.now f → IsStrictlyIncreasing f.places }
    requires none { out.old.items ≡ [] }
    ensures joined { IfOk result (λ whole. AreJoined replica.new.ids replica.old.log
        (length (env_of_id replica.old.ids own)) (env_of_id replica.old.ids own) slots.now whole
        out.new.items) }
    ensures kept { KeepsLog replica.old replica.new }
{
    begin(alloc, replica, own, slots, out)?;
    let mut whole = true;
    let mut done: Numbers = SmallVec::new(alloc);
    let mut weights = no_weights(alloc);
    while let Some(turn) = next_slot(
        replica,
        slots,
        done.as_slice(),
        out.as_slice(),
        &mut weights,
    )? {
        let complete = join_slot(alloc, replica, &slots[turn.number], turn.at, most, out)?;
        done.insert(turn.at, turn.number)?;
        whole = both(whole, complete);
    }
    Ok(whole)
}

/// Adds environments that the slots lead to from the head's own, each once, and answers whether it is sure that
/// these are all. Then each has the choice of candidates with the least list of places; else the least one of
/// what was carried on. It is sure but where a slot leads to more than `most`, as `join_slot` has it; then some
/// of these alone are carried on to the next slot.
///
/// Slot by slot, so that time is in the number of distinct environments and the candidates, and not in the
/// number of choices. No more than `most` environments are kept for a slot, and one more, and each of them is
/// united with each candidate for the next. A slot's only candidate is in each choice, so these are joined
/// first, once for all choices. Where there are many choices, `next_slot` tells which slot comes next, so that
/// the environments grow little. The choices are met in ascending order, whichever slot comes next, so the
/// first one that leads to an environment is its least one.
pub(crate) fn joined(
    alloc: Global,
    replica: &mut Replica,
    own: EnvId,
    slots: &[Filled],
    most: usize,
    out: &mut PartialList,
) -> Result<bool, OutOfMemory>
    requires own { own < length replica.old.ids.envs }
    requires is_env { IsEnv (length (env_of_id replica.old.ids own)) (env_of_id replica.old.ids own) }
    requires placed { (f : FilledData) → Contains slots.now f
        → ArePlaced replica.old.log (length (env_of_id replica.old.ids own)) f }
    requires rise { (f : FilledData) → Contains slots.now f → IsStrictlyIncreasing f.places }
    requires none { out.old.items ≡ [] }
    ensures joined { IfOk result (λ whole. AreJoined replica.new.ids replica.old.log
        (length (env_of_id replica.old.ids own)) (env_of_id replica.old.ids own) slots.now whole
        out.new.items) }
    ensures kept { KeepsLog replica.old replica.new }
{
    if are_many(slots) {
        return joined_lightest_first(alloc, replica, own, slots, most, out);
    }
    joined_in_order(alloc, replica, own, slots, most, out)
}
