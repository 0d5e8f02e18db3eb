//! Types of a head that are split at the arguments of its point.

ghost use Rattle.std.specs.Prelude.{◌≡◌, ◌<◌, ◌⊎◌, ℕ, length, Contains, All, IfOk, OnOk, MatchOption};
ghost use Rattle.hs_table.specs.Types as trees;
ghost use Rattle.hs_table.specs.Types.{TypeTree};
ghost use Rattle.hs_table.specs.Entries.{Env};
ghost use Rattle.hs_types.specs.Interned.{type_of_id, env_of_id, Grows};
ghost use Rattle.hs_choices.specs.Slots.{IsHeadEnv};
ghost use Rattle.hs_heads.specs.HeadTypes.{HeadTypeData};
ghost use Rattle.hs_heads.specs.Splits.{IsHeadWithin, IsSplitAt, IsSplitOf, GainsSplit, AreSplits};

use hs_choices::Compared;
use hs_scheme::{Head, OutOfMemory};
use hs_types::{EnvId, Interner, SetId, TyId, View};
use std::alloc::Global;
use std::marker::Model;

/// A type of the head of a point, split at the point's arguments. Contracts see its numbers.
#[derive(Drop)]
pub struct HeadType {
    /// A set for each argument.
    pub sets: Vec<SetId>,
    /// The rest: the type of the entries that follow.
    pub ty: TyId,
    /// What the head asks of the parameters of the point's rule.
    pub first: EnvId,
}

impl Model for HeadType {
    ghost use Rattle.hs_heads.specs.HeadTypes.{HeadTypeData, coded_head_type};

    ghost Value = { HeadTypeData };

    ghost coded = { coded_head_type };

    ghost view = { λ a. record { sets = a.sets.items; ty = a.ty; first = a.first } };
}

/// The first sets of a type, so many of them, and what is left of it; `None` where it has fewer.
fn split(
    alloc: Global,
    types: &Interner,
    ty: TyId,
    count: usize,
) -> Result<Option<(Vec<SetId>, TyId)>, OutOfMemory>
    requires { ty < length types.now.types }
    ensures { IfOk result (λ r. MatchOption r
        ((sets : Env) (rest : TypeTree) → length sets ≡ count
        → type_of_id types.now ty ≡ trees.arrows sets rest → ⊥)
        (λ s. IsSplitAt types.now (type_of_id types.now ty) count s.0.items s.1)) }
{
    let mut sets = Vec::new(alloc);
    let mut rest = ty;
    for _ in 0..count {
        match types.view(rest) {
            View::State(_) => return Ok(None),
            View::Arrow(set, next) => {
                sets.push(set)?;
                rest = next;
            }
        }
    }
    Ok(Some((sets, rest)))
}

/// The environment for so many parameters that asks what the head asks, where its type is this one.
fn env_of(types: &mut Compared, head: Head, params: u32, ty: TyId) -> Result<EnvId, OutOfMemory>
    requires head { IsHeadWithin params head }
    requires ty { ty < length types.old.types }
    ensures range { IfOk result (λ env. env < length types.new.envs) }
    ensures asks { IfOk result (λ env. IsHeadEnv params head (type_of_id types.old ty)
        (env_of_id types.new env)) }
    ensures grows { OnOk result (Grows types.old types.new) }
{
    match head {
        Head::Var(x) => types.single_env(params as usize, x, ty),
        Head::Nt(_) => types.empty_env(params as usize),
        Head::Tm(_) => types.empty_env(params as usize),
    }
}

/// Adds what the type is split to, where it has so many sets.
fn add_split(
    alloc: Global,
    types: &mut Compared,
    head: Head,
    params: u32,
    count: usize,
    ty: TyId,
    found: &mut Vec<HeadType>,
) -> Result<(), OutOfMemory>
    requires head { IsHeadWithin params head }
    requires ty { ty < length types.old.types }
    ensures { OnOk result (GainsSplit head params count types.old types.new (type_of_id types.old ty)
        found.old.items found.new.items) }
{
    let Some((sets, rest)) = split(alloc, types.interner(), ty, count)? else {
        return Ok(());
    };
    let first = env_of(types, head, params, ty)?;
    found.push(HeadType {
        sets,
        ty: rest,
        first,
    })?;
    Ok(())
}

/// What those of the types are split to that have so many sets.
pub(crate) fn split_all(
    alloc: Global,
    types: &mut Compared,
    head: Head,
    params: u32,
    count: usize,
    tys: &[TyId],
) -> Result<Vec<HeadType>, OutOfMemory>
    requires head { IsHeadWithin params head }
    requires types { All (λ t. t < length types.old.types) tys.now }
    ensures { IfOk result (λ found. AreSplits head params count types.old types.new tys.now found.items) }
{
    let mut found = Vec::new(alloc);
    for ty in tys {
        add_split(alloc, types, head, params, count, *ty, &mut found)?;
    }
    Ok(found)
}
