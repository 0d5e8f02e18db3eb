//! The types of a head, in numbers.

ghost use Rattle.std.specs.Prelude.{◌≡◌, ◌≤◌, ◌<◌, All, IfOk, MatchOption, OnOk, drop, length, map};
ghost use Rattle.hs_table.specs.Types as types;
ghost use Rattle.hs_table.specs.Types.{TypeTree};
ghost use Rattle.hs_table.specs.Entries.{Env};
ghost use Rattle.hs_types.specs.Interned.{type_of_id, set_of_id, env_of_id};
ghost use Rattle.hs_replica.specs.Places.{IsState};
ghost use Rattle.hs_replica.specs.Replica.{KeepsLog};
ghost use Rattle.hs_rules.specs.Heads.{GainsHeads, Just, BodyAt, ParamAt, AtSome, IsSplit};

use crate::found::{HeadType, HeadTypes, Sets};
use crate::head_search::HeadSearch;
use hs_replica::Replica;
use hs_scheme::OutOfMemory;
use hs_table::HeadBy;
use hs_types::{EnvId, Interner, SetId, TyId, View};
use smallvec::SmallVec;
use std::alloc::Global;

/// The first sets of a type, so many of them, and what is left of it; `None` where it has fewer.
fn split(
    alloc: Global,
    interner: &Interner,
    ty: TyId,
    count: usize,
) -> Result<Option<(Sets, TyId)>, OutOfMemory>
    requires { ty < length interner.now.types }
    ensures { IfOk result (λ r. MatchOption r
        ((sets : Env) (rest : TypeTree) → length sets ≡ count
        → type_of_id interner.now ty ≡ types.arrows sets rest → ⊥)
        (λ s. IsSplit interner.now ty count s.0.items s.1)) }
{
    let mut sets = SmallVec::new(alloc);
    let mut rest = ty;
    for _ in 0..count {
        match interner.view(rest) {
            View::State(_) => return Ok(None),
            View::Arrow(set, next) => {
                sets.push(set)?;
                rest = next;
            }
        }
    }
    Ok(Some((sets, rest)))
}

/// The type that asks for these sets from number `from` on, and then is the other.
fn rest_of(
    replica: &mut Replica,
    full: &[SetId],
    from: usize,
    ty: TyId,
) -> Result<TyId, OutOfMemory>
    requires full { All (λ s. s < length replica.old.ids.sets) full.now }
    requires ty { ty < length replica.old.ids.types }
    requires from { from ≤ length full.now }
    ensures range { IfOk result (λ id. id < length replica.new.ids.types) }
    ensures is { IfOk result (λ id. type_of_id replica.new.ids id
        ≡ types.arrows (drop from (map (set_of_id replica.old.ids) full.now))
        (type_of_id replica.old.ids ty)) }
    ensures kept { KeepsLog replica.old replica.new }
{
    let mut rest = ty;
    let mut left = full.len();
    while left > from {
        left -= 1;
        rest = replica.arrow(full[left], rest)?;
    }
    Ok(rest)
}

/// Adds the type that asks for these sets and then is a state, where it has a set for each
/// argument.
pub(crate) fn push_given(
    at: &HeadSearch,
    replica: &mut Replica,
    by: HeadBy,
    own: EnvId,
    full: &[SetId],
    ty: TyId,
    out: &mut HeadTypes,
) -> Result<(), OutOfMemory>
    requires own { own < length replica.old.ids.envs }
    requires full { All (λ s. s < length replica.old.ids.sets) full.now }
    requires ty { ty < length replica.old.ids.types }
    requires state { IsState (type_of_id replica.old.ids ty) }
    ensures gains { OnOk result (GainsHeads replica.new.ids (length at.now.search.args.now)
        (Just by (env_of_id replica.old.ids own)
        (types.arrows (map (set_of_id replica.old.ids) full.now) (type_of_id replica.old.ids ty)))
        out.old.items out.new.items) }
    ensures kept { KeepsLog replica.old replica.new }
{
    let count = at.search.args.len();
    if full.len() < count {
        return Ok(());
    }
    let rest = rest_of(replica, full, count, ty)?;
    out.reserve(1)?;
    let sets = SmallVec::from_slice(at.search.alloc, &full[..count])?;
    out.push_reserved(HeadType {
        by,
        own,
        sets,
        rest,
    });
    Ok(())
}

/// Adds the type of a nonterminal that the entry at this place, one at its body, gives.
fn push_body(
    at: &HeadSearch,
    replica: &mut Replica,
    place: u32,
    own: EnvId,
    out: &mut HeadTypes,
) -> Result<(), OutOfMemory>
    requires place { place < length replica.old.log }
    requires own { own < length replica.old.ids.envs }
    ensures gains { OnOk result (GainsHeads replica.new.ids (length at.now.search.args.now)
        (BodyAt replica.old.log (env_of_id replica.old.ids own) place) out.old.items out.new.items) }
    ensures kept { KeepsLog replica.old replica.new }
{
    let row = replica.row(place);
    if let View::Arrow(_, _) = replica.interner().view(row.ty) {
        return Ok(());
    }
    let full: Sets = SmallVec::from_slice(at.search.alloc, replica.interner().sets(row.env))?;
    let by = HeadBy::Rule { place };
    push_given(at, replica, by, own, full.as_slice(), row.ty, out)
}

/// Adds the types of a nonterminal that the entries at these places, all at its body, give.
pub(crate) fn push_bodies(
    at: &HeadSearch,
    replica: &mut Replica,
    places: &[u32],
    own: EnvId,
    out: &mut HeadTypes,
) -> Result<(), OutOfMemory>
    requires places { All (λ place. place < length replica.old.log) places.now }
    requires own { own < length replica.old.ids.envs }
    ensures gains { OnOk result (GainsHeads replica.new.ids (length at.now.search.args.now)
        (AtSome (BodyAt replica.old.log
        (env_of_id replica.old.ids own)) places.now) out.old.items out.new.items) }
    ensures kept { KeepsLog replica.old replica.new }
{
    for place in places {
        push_body(at, replica, *place, own, out)?;
    }
    Ok(())
}

/// Adds the type of the parameter x that the entry at this place, one at a point that
/// may stand for it, gives.
fn push_param(
    at: &HeadSearch,
    replica: &mut Replica,
    place: u32,
    x: u32,
    out: &mut HeadTypes,
) -> Result<(), OutOfMemory>
    requires place { place < length replica.old.log }
    requires x { x < at.now.params }
    ensures gains { OnOk result (GainsHeads replica.new.ids (length at.now.search.args.now)
        (ParamAt replica.old.log at.now.params x place) out.old.items out.new.items) }
    ensures kept { KeepsLog replica.old replica.new }
{
    let row = replica.row(place);
    let count = at.search.args.len();
    out.reserve(1)?;
    let Some((sets, rest)) = split(at.search.alloc, replica.interner(), row.ty, count)? else {
        return Ok(());
    };
    let own = replica.single_env(at.params as usize, x, row.ty)?;
    out.push_reserved(HeadType {
        by: HeadBy::Param { param: x, place },
        own,
        sets,
        rest,
    });
    Ok(())
}

/// Adds the types of the parameter that the entries at these places, all at points that may stand
/// for it, give.
pub(crate) fn push_params(
    at: &HeadSearch,
    replica: &mut Replica,
    places: &[u32],
    x: u32,
    out: &mut HeadTypes,
) -> Result<(), OutOfMemory>
    requires places { All (λ place. place < length replica.old.log) places.now }
    requires x { x < at.now.params }
    ensures gains { OnOk result (GainsHeads replica.new.ids (length at.now.search.args.now)
        (AtSome (ParamAt replica.old.log at.now.params x) places.now) out.old.items out.new.items) }
    ensures kept { KeepsLog replica.old replica.new }
{
    for place in places {
        push_param(at, replica, *place, x, out)?;
    }
    Ok(())
}
