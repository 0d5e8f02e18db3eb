//! What comes of environments and the candidates for one more slot, in ascending order of the choices.

ghost use Rattle.std.specs.Prelude.{◌≡◌, ◌≢◌, ◌<◌, ◌≤◌, ◌⊎◌, [], ℕ, length, take, slice_get, slice_index_or, Some, Contains, IfOk, MatchBool, OnOk};
ghost use Rattle.std.specs.Bool.{OnFalse, OnTrue};
ghost use Rattle.std.specs.List.{insert};
ghost use Rattle.std.specs.List.Sorted.{IsStrictlyIncreasing};
ghost use Rattle.hs_table.specs.Entries.{EntryData};
ghost use Rattle.hs_replica.specs.Replica.{KeepsLog};
ghost use Rattle.hs_rules.specs.Order.{chosen_places};
ghost use Rattle.hs_rules.specs.Joins.{PartialData, FillsBy, AreMasksOf, AreOwnMasks, MetForSlot, only_place, SeenAre, AreAscending, ComeBefore, AreAsLong, HaveRoom, HaveSameBefore, IsRun, IsMadeOf, IsAmongJoined, CanFill};

use crate::joining::{Candidate, Partial, Partials, join_candidate};
use crate::masks::{own_mask, own_masks, united};
use crate::search::Filled;
use hs_replica::Replica;
use hs_scheme::OutOfMemory;
use std::alloc::Global;

/// A slot that is joined to environments, the masks of its candidates, where these have some, how many of the
/// chosen places stand before theirs, and the number of environments past which the join ends.
#[derive(Clone, Copy)]
pub(crate) struct NextSlot<'a> {
    pub(crate) slot: &'a Filled,
    pub(crate) masks: &'a [u128],
    pub(crate) at: usize,
    pub(crate) most: usize,
}

/// Adds what comes of each environment and the candidate of this number, counted from 0, and answers whether
/// that is all: it ends behind the environment with which there are more than asked for.
fn extend_by(
    alloc: Global,
    replica: &mut Replica,
    run: &[Partial],
    owns: &[Option<u128>],
    next: &NextSlot,
    number: usize,
    out: &mut Partials,
) -> Result<bool, OutOfMemory>
    requires can { CanFill replica.old.ids replica.old.log run.now next.now.slot.now }
    requires number { number < length next.now.slot.now.places }
    requires masks { AreMasksOf replica.old.ids replica.old.log next.now.slot.now next.now.masks.now }
    requires own { AreOwnMasks replica.old.ids run.now owns.now }
    requires room { HaveRoom next.now.at run.now }
    requires ascends { AreAscending run.now }
    requires long { AreAsLong run.now }
    requires seen { SeenAre out.old.seen.keys out.old.list.items }
    requires met { MetForSlot replica.old.ids replica.old.log next.now.slot.now out.old.met.masks.keys
        out.old.list.items }
    requires ascending { AreAscending out.old.list.items }
    requires before { (y : PartialData) → Contains run.now y → ComeBefore out.old.list.items
        (insert (chosen_places y.args) next.now.at (slice_index_or next.now.slot.now.places number 0)) }
    ensures seen { OnOk result (SeenAre out.new.seen.keys out.new.list.items) }
    ensures met { OnOk result (MetForSlot replica.new.ids replica.old.log next.now.slot.now
        out.new.met.masks.keys out.new.list.items) }
    ensures ascending { OnOk result (AreAscending out.new.list.items) }
    ensures keeps { OnOk result ((x : PartialData) → Contains out.old.list.items x
        → Contains out.new.list.items x) }
    ensures only { OnOk result ((x : PartialData) → Contains out.new.list.items x →
        Contains out.old.list.items x ⊎ IsMadeOf replica.old.ids replica.new.ids replica.old.log run.now
        (only_place next.now.slot.now.arg (slice_index_or next.now.slot.now.places number 0)) next.now.at x) }
    ensures all { IfOk result (λ whole. OnTrue whole ((from : PartialData) → Contains run.now from →
        (e : EntryData) → slice_get replica.old.log (slice_index_or next.now.slot.now.places number 0) ≡ Some e →
        IsAmongJoined replica.old.ids replica.new.ids from next.now.at
        (slice_index_or next.now.slot.now.places number 0) e out.new.list.items)) }
    ensures more { IfOk result (λ whole. OnFalse whole (next.now.most < length out.new.list.items)) }
    ensures kept { KeepsLog replica.old replica.new }
{
    let slot = next.slot;
    let candidate = Candidate {
        arg: slot.arg,
        at: next.at,
        place: slot.places.as_slice()[number],
    };
    for (place, partial) in run.iter().enumerate() {
        let own = own_mask(owns, place);
        let mask = united(own, next.masks, number);
        join_candidate(alloc, replica, partial, candidate, mask, out)?;
        if out.list.len() > next.most {
            return Ok(false);
        }
    }
    Ok(true)
}

/// Adds what comes of each environment and each candidate for a slot, candidate by candidate, and answers
/// whether that is all, as `extend_by` has it. The choices have the same places before that of the slot.
fn extend_run(
    alloc: Global,
    replica: &mut Replica,
    run: &[Partial],
    next: &NextSlot,
    out: &mut Partials,
) -> Result<bool, OutOfMemory>
    requires can { CanFill replica.old.ids replica.old.log run.now next.now.slot.now }
    requires rises { IsStrictlyIncreasing next.now.slot.now.places }
    requires masks { AreMasksOf replica.old.ids replica.old.log next.now.slot.now next.now.masks.now }
    requires room { HaveRoom next.now.at run.now }
    requires ascends { AreAscending run.now }
    requires long { AreAsLong run.now }
    requires same { HaveSameBefore next.now.at run.now }
    requires seen { SeenAre out.old.seen.keys out.old.list.items }
    requires met { MetForSlot replica.old.ids replica.old.log next.now.slot.now out.old.met.masks.keys
        out.old.list.items }
    requires ascending { AreAscending out.old.list.items }
    requires before { (y : PartialData) → Contains run.now y → (place : ℕ) →
        ComeBefore out.old.list.items (insert (chosen_places y.args) next.now.at place) }
    ensures seen { OnOk result (SeenAre out.new.seen.keys out.new.list.items) }
    ensures met { OnOk result (MetForSlot replica.new.ids replica.old.log next.now.slot.now
        out.new.met.masks.keys out.new.list.items) }
    ensures ascending { OnOk result (AreAscending out.new.list.items) }
    ensures keeps { OnOk result ((x : PartialData) → Contains out.old.list.items x
        → Contains out.new.list.items x) }
    ensures only { OnOk result ((x : PartialData) → Contains out.new.list.items x →
        Contains out.old.list.items x ⊎ IsMadeOf replica.old.ids replica.new.ids replica.old.log run.now
        next.now.slot.now next.now.at x) }
    ensures all { IfOk result (λ whole. OnTrue whole ((from : PartialData) → Contains run.now from →
        (place : ℕ) (e : EntryData) → FillsBy replica.old.log next.now.slot.now place e →
        IsAmongJoined replica.old.ids replica.new.ids from next.now.at place e out.new.list.items)) }
    ensures more { IfOk result (λ whole. OnFalse whole (next.now.most < length out.new.list.items)) }
    ensures kept { KeepsLog replica.old replica.new }
{
    let slot = next.slot;
    let owns = own_masks(alloc, replica, next.masks, run)?;
    for number in 0..slot.places.len() {
        let whole = extend_by(alloc, replica, run, owns.as_slice(), next, number, out)?;
        if !whole {
            return Ok(false);
        }
    }
    Ok(true)
}

/// Whether the first places of two choices are the same, for as many as `count`.
fn have_same(one: &[(u32, u32)], other: &[(u32, u32)], count: usize) -> bool
    requires one { count ≤ length one.now }
    requires other { count ≤ length other.now }
    ensures { MatchBool result
        (take count (chosen_places one.now) ≡ take count (chosen_places other.now))
        (take count (chosen_places one.now) ≢ take count (chosen_places other.now)) }
{
    for number in 0..count {
        if one[number].1 != other[number].1 {
            return false;
        }
    }
    true
}

/// Where, from this choice on, those end that have the same first `at` places. They stand side by side.
fn run_end(partials: &[Partial], start: usize, at: usize) -> usize
    requires start { start < length partials.now }
    requires room { HaveRoom at partials.now }
    requires ascending { AreAscending partials.now }
    requires long { AreAsLong partials.now }
    ensures { IsRun partials.now start at result }
{
    let first = &partials[start];
    if at >= first.args.len() {
        // No two choices are the same.
        return start + 1;
    }
    for end in start + 1..partials.len() {
        let other = &partials[end];
        if !have_same(first.args.as_slice(), other.args.as_slice(), at) {
            return end;
        }
    }
    partials.len()
}

/// Adds what comes of each environment and each candidate for a slot, and answers whether that is all, as
/// `extend_by` has it.
///
/// The choices are met in ascending order: those that have the same places before that of the slot, one
/// candidate after another, and then the next ones.
pub(crate) fn extend_all(
    alloc: Global,
    replica: &mut Replica,
    partials: &[Partial],
    next: &NextSlot,
    out: &mut Partials,
) -> Result<bool, OutOfMemory>
    requires can { CanFill replica.old.ids replica.old.log partials.now next.now.slot.now }
    requires rises { IsStrictlyIncreasing next.now.slot.now.places }
    requires masks { AreMasksOf replica.old.ids replica.old.log next.now.slot.now next.now.masks.now }
    requires room { HaveRoom next.now.at partials.now }
    requires ascending { AreAscending partials.now }
    requires long { AreAsLong partials.now }
    requires none { out.old.list.items ≡ [] }
    requires unseen { out.old.seen.keys ≡ [] }
    requires unmet { out.old.met.masks.keys ≡ [] }
    ensures ascending { OnOk result (AreAscending out.new.list.items) }
    ensures only { OnOk result ((x : PartialData) → Contains out.new.list.items x →
        IsMadeOf replica.old.ids replica.new.ids replica.old.log partials.now next.now.slot.now next.now.at x) }
    ensures all { IfOk result (λ whole. OnTrue whole
        ((from : PartialData) → Contains partials.now from →
        (place : ℕ) (e : EntryData) → FillsBy replica.old.log next.now.slot.now place e →
        IsAmongJoined replica.old.ids replica.new.ids from next.now.at place e out.new.list.items)) }
    ensures more { IfOk result (λ whole. OnFalse whole (next.now.most < length out.new.list.items)) }
    ensures kept { KeepsLog replica.old replica.new }
{
    let mut start = 0;
    while start < partials.len() {
        let end = run_end(partials, start, next.at);
        let whole = extend_run(alloc, replica, &partials[start..end], next, out)?;
        if !whole {
            return Ok(false);
        }
        start = end;
    }
    Ok(true)
}
