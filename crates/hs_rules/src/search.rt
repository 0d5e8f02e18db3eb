//! Where conclusions are sought, and the candidates for the slots there.

ghost use Rattle.std.specs.Prelude.{◌≡◌, ◌<◌, ◌≤◌, ◌↔◌, [], ℕ, length, map, take, slice_get, Some, All, Contains, IfOk, OnOk};
ghost use Rattle.std.specs.List.Sorted.{IsStrictlyIncreasing};
ghost use Rattle.hs_table.specs.Entries.{EntryData};
ghost use Rattle.hs_types.specs.Interned.{type_of_id, set_of_id};
ghost use Rattle.hs_replica.specs.Replica.{typed_to, ListsMore};
ghost use Rattle.std.specs.Bool.{OnFalse, OnTrue};
ghost use Rattle.hs_rules.specs.Slots.{slots_of, slots, IsCandidate};
ghost use Rattle.hs_rules.specs.Filling.{CanSearch, fixed_of, AreFilled, GainsFilled, LacksCandidate, LacksSlot};
ghost use Rattle.hs_rules.specs.Shut.{AreShut};

use hs_replica::{Places, Replica};
use hs_scheme::OutOfMemory;
use hs_types::{SetId, TyId};
use smallvec::SmallVec;
use std::alloc::Global;
use std::default::MadeWith;
use std::marker::Model;

/// The entry at this place has to fill the slot of its type at this argument, counted from 0.
#[derive(Clone, Copy, Debug, PartialEq, Eq)]
pub(crate) struct Fixed {
    pub(crate) arg: u32,
    pub(crate) place: u32,
}

/// A point with the points of its arguments, how many places of the log count, from the first, and how many
/// conclusions are asked for: the search may end once more are found. What is listed there is allocated so.
#[derive(Clone, Copy)]
pub(crate) struct Search<'a> {
    pub(crate) alloc: Global,
    pub(crate) point: u32,
    pub(crate) args: &'a [u32],
    pub(crate) limit: u32,
    pub(crate) most: usize,
    pub(crate) fixed: Option<Fixed>,
}

/// A slot: the number of its argument, and the places of its candidates.
#[derive(Drop)]
pub(crate) struct Filled {
    pub(crate) arg: u32,
    pub(crate) places: Places,
}

impl Model for Filled {
    ghost use Rattle.hs_rules.specs.Slots.{FilledData};

    ghost Value = { FilledData };

    ghost view = { λ a. record { arg = a.arg; places = a.places.items } };
}

impl MadeWith<Global> for Filled {
    fn made_with(alloc: Global) -> Filled {
        Filled {
            arg: 0,
            places: SmallVec::new(alloc),
        }
    }
}

/// Slots. Two of them lie in the value itself.
pub(crate) type Slots = SmallVec<Filled, 2>;

/// The places below the limit, which begin the list.
pub(crate) fn begin_below(places: &[u32], limit: u32) -> &[u32]
    requires { IsStrictlyIncreasing places.now }
    ensures places { (place : ℕ) → Contains result.now place
        ↔ (Contains places.now place × (place < limit)) }
    ensures ascending { IsStrictlyIncreasing result.now }
{
    let count = places.partition_point(|place| *place < limit);
    &places[..count]
}

/// A list of the places below the limit.
pub(crate) fn below(alloc: Global, places: &[u32], limit: u32) -> Result<Places, OutOfMemory>
    requires { IsStrictlyIncreasing places.now }
    ensures places { IfOk result (λ out. (place : ℕ) → Contains out.items place
        ↔ (Contains places.now place × (place < limit))) }
    ensures ascending { IfOk result (λ out. IsStrictlyIncreasing out.items) }
{
    let begin = begin_below(places, limit);
    let out = SmallVec::from_slice(alloc, begin)?;
    Ok(out)
}

/// The places of the candidates for the slot of this type at this argument.
fn places_for(
    replica: &mut Replica,
    search: &Search,
    arg: u32,
    point: u32,
    ty: TyId,
) -> Result<Places, OutOfMemory>
    requires search { CanSearch replica.old search.now.args.now search.now.limit search.now.fixed }
    requires ty { ty < length replica.old.ids.types }
    requires point { slice_get search.now.args.now arg ≡ Some point }
    ensures candidates { IfOk result (λ places. (place : ℕ) → Contains places.items place ↔ ((e : EntryData) ×
        IsCandidate (take search.now.limit replica.old.log) (fixed_of replica.old.log search.now.fixed)
        (record { arg = arg; point = point; ty = type_of_id replica.old.ids ty }) place e)) }
    ensures ascending { IfOk result (λ places. IsStrictlyIncreasing places.items) }
    ensures kept { ListsMore replica.old replica.new }
{
    replica.interner().know_numbers();
    if let Some(fixed) = search.fixed {
        if fixed.arg == arg && replica.row(fixed.place).ty == ty {
            let mut only = SmallVec::new(search.alloc);
            only.push_reserved(fixed.place);
            return Ok(only);
        }
    }
    replica.list_types(point)?;
    below(search.alloc, replica.with_type(point, ty), search.limit)
}

/// Adds the slots of one argument, and answers whether each has candidates. It ends at the first
/// that has none.
fn fill_set(
    replica: &mut Replica,
    search: &Search,
    arg: u32,
    point: u32,
    set: SetId,
    out: &mut Slots,
) -> Result<bool, OutOfMemory>
    requires search { CanSearch replica.old search.now.args.now search.now.limit search.now.fixed }
    requires set { set < length replica.old.ids.sets }
    requires point { slice_get search.now.args.now arg ≡ Some point }
    ensures filled { IfOk result (λ all. OnTrue all (GainsFilled (take search.now.limit replica.old.log)
        (fixed_of replica.old.log search.now.fixed)
        (slots_of arg point (set_of_id replica.old.ids set)) out.old.items out.new.items)) }
    ensures lacks { IfOk result (λ all. OnFalse all (LacksSlot (take search.now.limit replica.old.log)
        (fixed_of replica.old.log search.now.fixed) arg point (set_of_id replica.old.ids set))) }
    ensures kept { ListsMore replica.old replica.new }
{
    let count = replica.interner().members(set).len();
    for number in 0..count {
        let ty = replica.interner().members(set)[number];
        out.reserve(1)?;
        let places = places_for(replica, search, arg, point, ty)?;
        if places.is_empty() {
            return Ok(false);
        }
        out.push_reserved(Filled { arg, places });
    }
    Ok(true)
}

/// Makes the look-ups by type tell of the whole log at each of these points.
pub(crate) fn list_args(replica: &mut Replica, args: &[u32]) -> Result<(), OutOfMemory>
    ensures listed { OnOk result (All (λ p. replica.old.indexed ≤ typed_to replica.new p) args.now) }
    ensures kept { ListsMore replica.old replica.new }
{
    for arg in args {
        replica.list_types(*arg)?;
    }
    Ok(())
}

/// Whether there may be candidates for the slots of this type at this point: some place below the
/// limit has an entry there with the type.
fn has_candidate(replica: &Replica, limit: u32, point: u32, ty: TyId) -> bool
    requires listed { limit ≤ typed_to replica.now point }
    requires ty { ty < length replica.now.ids.types }
    ensures { OnFalse result ((place : ℕ) (e : EntryData)
        → slice_get (take limit replica.now.log) place ≡ Some e →
        e.point ≡ point → e.ty ≡ type_of_id replica.now.ids ty → ⊥) }
{
    let places = replica.with_type(point, ty);
    if places.len() == 0 {
        return false;
    }
    if places[0] >= limit {
        return false;
    }
    true
}

/// Whether there may be candidates for all slots of one argument.
fn is_set_open(replica: &Replica, limit: u32, point: u32, set: SetId) -> bool
    requires listed { limit ≤ typed_to replica.now point }
    requires set { set < length replica.now.ids.sets }
    ensures { OnFalse result (LacksCandidate (take limit replica.now.log) point
        (set_of_id replica.now.ids set)) }
{
    for ty in replica.interner().members(set) {
        if !has_candidate(replica, limit, point, *ty) {
            return false;
        }
    }
    true
}

/// Whether there may be candidates for all slots: where there are none for one of them, the others
/// needn't be filled.
pub(crate) fn is_open(replica: &Replica, search: &Search, sets: &[SetId]) -> bool
    requires search { CanSearch replica.now search.now.args.now search.now.limit search.now.fixed }
    requires sets { All (λ s. s < length replica.now.ids.sets) sets.now }
    requires long { length sets.now ≡ length search.now.args.now }
    requires listed { All (λ p. search.now.limit ≤ typed_to replica.now p) search.now.args.now }
    ensures { OnFalse result (AreShut (take search.now.limit replica.now.log)
        (fixed_of replica.now.log search.now.fixed)
        (slots 0 search.now.args.now (map (set_of_id replica.now.ids) sets.now))) }
{
    let args = search.args;
    for (arg, set) in sets.iter().enumerate() {
        if !is_set_open(replica, search.limit, args[arg], *set) {
            return false;
        }
    }
    true
}

/// Adds the slots for these sets, one set for each argument, and answers whether each has candidates. It
/// ends at the first that has none.
pub(crate) fn fill(
    replica: &mut Replica,
    search: &Search,
    sets: &[SetId],
    out: &mut Slots,
) -> Result<bool, OutOfMemory>
    requires search { CanSearch replica.old search.now.args.now search.now.limit search.now.fixed }
    requires sets { All (λ s. s < length replica.old.ids.sets) sets.now }
    requires long { length sets.now ≡ length search.now.args.now }
    requires none { out.old.items ≡ [] }
    ensures filled { IfOk result (λ all. OnTrue all (AreFilled (take search.now.limit replica.old.log)
        (fixed_of replica.old.log search.now.fixed)
        (slots 0 search.now.args.now (map (set_of_id replica.old.ids) sets.now)) out.new.items)) }
    ensures shut { IfOk result (λ all. OnFalse all (AreShut (take search.now.limit replica.old.log)
        (fixed_of replica.old.log search.now.fixed)
        (slots 0 search.now.args.now (map (set_of_id replica.old.ids) sets.now)))) }
    ensures kept { ListsMore replica.old replica.new }
{
    let args = search.args;
    for (arg, set) in sets.iter().enumerate() {
        let complete = fill_set(replica, search, arg as u32, args[arg], *set, out)?;
        if !complete {
            return Ok(false);
        }
    }
    Ok(true)
}
