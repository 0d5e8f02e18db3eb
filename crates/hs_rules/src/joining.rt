//! Environments joined slot by slot.

ghost use Rattle.std.specs.Prelude.{◌≡◌, ◌<◌, ◌≤◌, ◌++◌, ◌∷◌, ◌⊎◌, [], ℕ, length, map, slice_get, Some, Contains, IfOk, IfSome, OnOk};
ghost use Rattle.std.specs.List.Sorted.{IsStrictlyIncreasing};
ghost use Rattle.hs_table.specs.Entries.{EntryData};
ghost use Rattle.hs_types.specs.Interned.{env_of_id};
ghost use Rattle.hs_replica.specs.Masks.{IsUnionMask};
ghost use Rattle.hs_replica.specs.Replica.{KeepsLog};
ghost use Rattle.std.specs.Bool.{OnFalse, OnTrue};
ghost use Rattle.std.specs.List.{insert};
ghost use Rattle.hs_rules.specs.Order.{chosen_places, IsNoGreater};
ghost use Rattle.hs_rules.specs.Joins.{PartialData, FillsBy, IsPlaced, AreGathered, JoinsOne, SeenAre, AreAscending, ComeBefore, AreAsLong, HaveRoom, IsMadeOf, IsAmongJoined, CanFill, HaveSole, with_choice};

use crate::extending::{NextSlot, extend_all};
use crate::masks::masks_for;
use crate::met::{Met, meet};
use crate::search::Filled;
use hs_replica::Replica;
use hs_scheme::OutOfMemory;
use hs_types::EnvId;
use indexmap::IndexSet;
use smallvec::SmallVec;
use std::alloc::Global;
use std::default::MadeWith;
use std::marker::Model;

/// For some slots the number of the argument with the place of the entry that fills it, in the order of the slots,
/// whichever was joined first. Four of them lie in the value itself.
pub(crate) type Chosen = SmallVec<(u32, u32), 4>;

/// An environment that some slots lead to, and the candidates for these slots that were chosen.
#[derive(Drop)]
pub(crate) struct Partial {
    pub(crate) env: EnvId,
    pub(crate) args: Chosen,
}

impl Model for Partial {
    ghost use Rattle.hs_rules.specs.Joins.{PartialData};

    ghost Value = { PartialData };

    ghost view = { λ a. record { env = a.env; args = a.args.items } };
}

impl MadeWith<Global> for Partial {
    fn made_with(alloc: Global) -> Partial {
        Partial {
            env: EnvId::default(),
            args: SmallVec::new(alloc),
        }
    }
}

/// Environments that some slots lead to. Two of them lie in the value itself.
pub(crate) type PartialList = SmallVec<Partial, 2>;

/// So many items of a list are looked through one by one. A hash set knows those behind them.
pub(crate) const FEW: usize = 8;

/// Environments, each once where either all have masks or none has. Where only some have, one that was met
/// by its mask isn't known by its number, nor the other way round, so it may be there twice.
#[derive(Drop)]
pub(crate) struct Partials {
    pub(crate) list: PartialList,
    /// The numbers of some behind the first `FEW`.
    pub(crate) seen: IndexSet<EnvId>,
    /// The masks of some.
    pub(crate) met: Met,
}

/// Whether the environment is one of these.
fn is_among(list: &[Partial], env: EnvId) -> bool
    ensures { OnTrue result ((x : PartialData) × Contains list.now x × (x.env ≡ env)) }
{
    for partial in list {
        if partial.env == env {
            return true;
        }
    }
    false
}

/// Whether the environment is there.
fn has(out: &Partials, env: EnvId) -> bool
    requires { SeenAre out.now.seen.keys out.now.list.items }
    ensures { OnTrue result ((x : PartialData) × Contains out.now.list.items x × (x.env ≡ env)) }
{
    let list = out.list.as_slice();
    if list.len() <= FEW {
        return is_among(list, env);
    }
    is_among(&list[..FEW], env) || out.seen.contains(&env)
}

/// Keeps the environment that comes to this place, unless it is among the first few.
fn keep(seen: &mut IndexSet<EnvId>, place: usize, env: EnvId) -> Result<(), OutOfMemory>
    ensures { OnOk result ((n : ℕ) → Contains seen.new.keys n → Contains seen.old.keys n ⊎ (n ≡ env)) }
{
    if place < FEW {
        return Ok(());
    }
    seen.insert(env)?;
    Ok(())
}

/// A candidate for a slot: the number of the slot's argument, how many of the chosen places stand before its own,
/// and that place.
#[derive(Clone, Copy)]
pub(crate) struct Candidate {
    pub(crate) arg: u32,
    pub(crate) at: usize,
    pub(crate) place: u32,
}

/// Puts the candidate into the choice. At the end, where most go, nothing is moved.
fn choose(args: &mut Chosen, candidate: Candidate) -> Result<(), OutOfMemory>
    requires { candidate.at ≤ length args.old.items }
    ensures { OnOk result (args.new.items
        ≡ insert args.old.items candidate.at (candidate.arg, candidate.place)) }
{
    let choice = (candidate.arg, candidate.place);
    if candidate.at == args.len() {
        args.push(choice)?;
        return Ok(());
    }
    args.insert(candidate.at, choice)?;
    Ok(())
}

/// Adds the environment with the choice and this candidate.
fn push(
    alloc: Global,
    out: &mut Partials,
    env: EnvId,
    from: &[(u32, u32)],
    candidate: Candidate,
) -> Result<(), OutOfMemory>
    requires { candidate.at ≤ length from.now }
    ensures list { OnOk result (out.new.list.items ≡ out.old.list.items ++
        record { env = env; args = insert from.now candidate.at (candidate.arg, candidate.place) } ∷ []) }
    ensures seen { out.new.seen.keys ≡ out.old.seen.keys }
    ensures met { out.new.met.masks.keys ≡ out.old.met.masks.keys }
{
    out.list.reserve(1)?;
    let mut args = SmallVec::from_slice(alloc, from)?;
    choose(&mut args, candidate)?;
    out.list.push_reserved(Partial { env, args });
    Ok(())
}

/// Adds the environment with the choice and this candidate, unless it is there. What is there was chosen
/// before, so it has lesser places.
fn add(
    alloc: Global,
    out: &mut Partials,
    env: EnvId,
    from: &[(u32, u32)],
    candidate: Candidate,
) -> Result<(), OutOfMemory>
    requires room { candidate.at ≤ length from.now }
    requires seen { SeenAre out.old.seen.keys out.old.list.items }
    requires ascending { AreAscending out.old.list.items }
    requires before { ComeBefore out.old.list.items
        (insert (chosen_places from.now) candidate.at candidate.place) }
    ensures seen { OnOk result (SeenAre out.new.seen.keys out.new.list.items) }
    ensures ascending { OnOk result (AreAscending out.new.list.items) }
    ensures keeps { OnOk result ((x : PartialData) → Contains out.old.list.items x
        → Contains out.new.list.items x) }
    ensures only { OnOk result ((x : PartialData) → Contains out.new.list.items x →
        Contains out.old.list.items x
        ⊎ (x ≡ record { env = env; args = insert from.now candidate.at (candidate.arg, candidate.place) })) }
    ensures there { OnOk result ((x : PartialData) × Contains out.new.list.items x × (x.env ≡ env)
        × IsNoGreater (chosen_places x.args)
        (insert (chosen_places from.now) candidate.at candidate.place)) }
    ensures met { out.new.met.masks.keys ≡ out.old.met.masks.keys }
{
    if has(out, env) {
        return Ok(());
    }
    keep(&mut out.seen, out.list.len(), env)?;
    push(alloc, out, env, from, candidate)
}

/// Adds what comes of one environment and a candidate for a slot, unless it is there.
fn join_one(
    alloc: Global,
    replica: &mut Replica,
    partial: &Partial,
    candidate: Candidate,
    out: &mut Partials,
) -> Result<(), OutOfMemory>
    requires env { partial.now.env < length replica.old.ids.envs }
    requires placed { IsPlaced replica.old.log (length (env_of_id replica.old.ids partial.now.env))
        candidate.place }
    requires room { candidate.at ≤ length partial.now.args }
    requires before { ComeBefore out.old.list.items
        (insert (chosen_places partial.now.args) candidate.at candidate.place) }
    requires gathered { AreGathered replica.old.ids (length (env_of_id replica.old.ids partial.now.env))
        out.old.seen.keys out.old.met.masks.keys out.old.list.items }
    ensures gathered { OnOk result (AreGathered replica.new.ids
        (length (env_of_id replica.old.ids partial.now.env)) out.new.seen.keys out.new.met.masks.keys
        out.new.list.items) }
    ensures joins { OnOk result (JoinsOne replica.old.ids replica.new.ids replica.old.log partial.now
        candidate.arg candidate.at candidate.place out.old.list.items out.new.list.items) }
    ensures kept { KeepsLog replica.old replica.new }
{
    let other = replica.row(candidate.place).env;
    let joined = replica.union_envs(partial.env, other)?;
    add(alloc, out, joined, partial.args.as_slice(), candidate)?;
    Ok(())
}

/// The same, where the union has this mask: it is there where the mask was met.
fn join_with_mask(
    alloc: Global,
    replica: &mut Replica,
    partial: &Partial,
    candidate: Candidate,
    mask: u128,
    out: &mut Partials,
) -> Result<(), OutOfMemory>
    requires env { partial.now.env < length replica.old.ids.envs }
    requires placed { IsPlaced replica.old.log (length (env_of_id replica.old.ids partial.now.env))
        candidate.place }
    requires room { candidate.at ≤ length partial.now.args }
    requires mask { (e : EntryData) → slice_get replica.old.log candidate.place ≡ Some e → IsUnionMask
        replica.old.ids (env_of_id replica.old.ids partial.now.env) e.env mask }
    requires before { ComeBefore out.old.list.items
        (insert (chosen_places partial.now.args) candidate.at candidate.place) }
    requires gathered { AreGathered replica.old.ids (length (env_of_id replica.old.ids partial.now.env))
        out.old.seen.keys out.old.met.masks.keys out.old.list.items }
    ensures gathered { OnOk result (AreGathered replica.new.ids
        (length (env_of_id replica.old.ids partial.now.env)) out.new.seen.keys out.new.met.masks.keys
        out.new.list.items) }
    ensures joins { OnOk result (JoinsOne replica.old.ids replica.new.ids replica.old.log partial.now
        candidate.arg candidate.at candidate.place out.old.list.items out.new.list.items) }
    ensures kept { KeepsLog replica.old replica.new }
{
    replica.interner().know_numbers();
    let is_new = meet(&mut out.met, mask)?;
    if !is_new {
        return Ok(());
    }
    let other = replica.row(candidate.place).env;
    let joined = replica.union_with_mask(partial.env, other, mask)?;
    push(alloc, out, joined, partial.args.as_slice(), candidate)?;
    Ok(())
}

/// Adds what comes of one environment and a candidate for a slot, whose union has this mask, where one is
/// known.
pub(crate) fn join_candidate(
    alloc: Global,
    replica: &mut Replica,
    partial: &Partial,
    candidate: Candidate,
    mask: Option<u128>,
    out: &mut Partials,
) -> Result<(), OutOfMemory>
    requires env { partial.now.env < length replica.old.ids.envs }
    requires placed { IsPlaced replica.old.log (length (env_of_id replica.old.ids partial.now.env))
        candidate.place }
    requires room { candidate.at ≤ length partial.now.args }
    requires mask { IfSome mask (λ m. (e : EntryData) → slice_get replica.old.log candidate.place ≡ Some e →
        IsUnionMask replica.old.ids (env_of_id replica.old.ids partial.now.env) e.env m) }
    requires before { ComeBefore out.old.list.items
        (insert (chosen_places partial.now.args) candidate.at candidate.place) }
    requires gathered { AreGathered replica.old.ids (length (env_of_id replica.old.ids partial.now.env))
        out.old.seen.keys out.old.met.masks.keys out.old.list.items }
    ensures gathered { OnOk result (AreGathered replica.new.ids
        (length (env_of_id replica.old.ids partial.now.env)) out.new.seen.keys out.new.met.masks.keys
        out.new.list.items) }
    ensures joins { OnOk result (JoinsOne replica.old.ids replica.new.ids replica.old.log partial.now
        candidate.arg candidate.at candidate.place out.old.list.items out.new.list.items) }
    ensures kept { KeepsLog replica.old replica.new }
{
    match mask {
        Some(mask) => join_with_mask(alloc, replica, partial, candidate, mask, out),
        None => join_one(alloc, replica, partial, candidate, out),
    }
}

/// Puts what comes of each environment and each candidate for a slot, whose place goes behind the first `at` of
/// those chosen, in the place of the environments, and answers whether that is all, as it is where there are no
/// more than `most`.
fn extended(
    alloc: Global,
    replica: &mut Replica,
    slot: &Filled,
    at: usize,
    most: usize,
    partials: &mut PartialList,
) -> Result<bool, OutOfMemory>
    requires can { CanFill replica.old.ids replica.old.log partials.old.items slot.now }
    requires rises { IsStrictlyIncreasing slot.now.places }
    requires room { HaveRoom at partials.old.items }
    requires ascending { AreAscending partials.old.items }
    requires long { AreAsLong partials.old.items }
    ensures ascending { OnOk result (AreAscending partials.new.items) }
    ensures only { OnOk result ((x : PartialData) → Contains partials.new.items x →
        IsMadeOf replica.old.ids replica.new.ids replica.old.log partials.old.items slot.now at x) }
    ensures all { IfOk result (λ whole. OnTrue whole
        ((from : PartialData) → Contains partials.old.items from →
        (place : ℕ) (e : EntryData) → FillsBy replica.old.log slot.now place e →
        IsAmongJoined replica.old.ids replica.new.ids from at place e partials.new.items)) }
    ensures more { IfOk result (λ whole. OnFalse whole (most < length partials.new.items)) }
    ensures kept { KeepsLog replica.old replica.new }
{
    let count = partials.len();
    replica.note_pairs(count.saturating_mul(slot.places.len()));
    let masks = masks_for(alloc, replica, count, slot)?;
    let mut out = Partials {
        list: SmallVec::new(alloc),
        seen: IndexSet::new(alloc),
        met: Met::new(alloc),
    };
    if !masks.is_empty() {
        out.met.make_room(count.saturating_mul(masks.len()))?;
    }
    let next = NextSlot {
        slot,
        masks: masks.as_slice(),
        at,
        most,
    };
    let whole = extend_all(alloc, replica, partials.as_slice(), &next, &mut out)?;
    *partials = out.list;
    Ok(whole)
}

/// Adds a slot's only candidate to the choice of each environment.
fn choose_sole(partials: &mut [Partial], candidate: Candidate) -> Result<(), OutOfMemory>
    requires { HaveRoom candidate.at partials.old }
    ensures { OnOk result (partials.new
        ≡ map (λ x. with_choice candidate.arg candidate.at candidate.place x) partials.old) }
{
    for partial in partials.iter_mut() {
        choose(&mut partial.args, candidate)?;
    }
    Ok(())
}

/// Does what `extended` does, and faster for a slot's only candidate: what that asks for, the environments ask
/// for before.
pub(crate) fn join_slot(
    alloc: Global,
    replica: &mut Replica,
    slot: &Filled,
    at: usize,
    most: usize,
    partials: &mut PartialList,
) -> Result<bool, OutOfMemory>
    requires can { CanFill replica.old.ids replica.old.log partials.old.items slot.now }
    requires sole { HaveSole replica.old.ids replica.old.log partials.old.items slot.now }
    requires rises { IsStrictlyIncreasing slot.now.places }
    requires room { HaveRoom at partials.old.items }
    requires ascending { AreAscending partials.old.items }
    requires long { AreAsLong partials.old.items }
    ensures ascending { OnOk result (AreAscending partials.new.items) }
    ensures only { OnOk result ((x : PartialData) → Contains partials.new.items x →
        IsMadeOf replica.old.ids replica.new.ids replica.old.log partials.old.items slot.now at x) }
    ensures all { IfOk result (λ whole. OnTrue whole
        ((from : PartialData) → Contains partials.old.items from →
        (place : ℕ) (e : EntryData) → FillsBy replica.old.log slot.now place e →
        IsAmongJoined replica.old.ids replica.new.ids from at place e partials.new.items)) }
    ensures more { IfOk result (λ whole. OnFalse whole (most < length partials.new.items)) }
    ensures kept { KeepsLog replica.old replica.new }
{
    let places = slot.places.as_slice();
    if places.len() == 1 {
        let candidate = Candidate {
            arg: slot.arg,
            at,
            place: places[0],
        };
        choose_sole(partials.as_mut_slice(), candidate)?;
        return Ok(true);
    }
    extended(alloc, replica, slot, at, most, partials)
}
