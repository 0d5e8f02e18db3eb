//! One conclusion for each entry, with the least support, in the order of the entries.

ghost use Rattle.std.specs.Prelude.{◌≡◌, ◌≢◌, ◌<◌, ◌⊎◌, ◌↔◌, false, length, slice_get, Some, All, AllPairs, IfOk, IsTrue, Contains, ℕ};
ghost use Rattle.hs_table.specs.Follows.{premises};
ghost use Rattle.hs_types.specs.Interned.{IsRow};
ghost use Rattle.hs_rules.specs.Order.{IsNoGreater};
ghost use Rattle.hs_rules.specs.Conclusions.{DeducedData};
ghost use Rattle.hs_rules.specs.Found.{Lowers};
ghost use Rattle.hs_rank.specs.Ordering.{found_at, picked, AreInOrder, AreSorted};

use crate::ordering::sorted_places;
use hs_rules::{Deduced, Replica, compare_supports};
use hs_scheme::OutOfMemory;
use hs_types::Interner;
use std::alloc::Global;
use std::cmp::Ordering;
use std::mem::replace;

/// Whether the two are of one entry.
fn is_same_entry(one: &Deduced, other: &Deduced) -> bool
    ensures { IsTrue result ↔ (one.now.row ≡ other.now.row) }
{
    one.row == other.row
}

/// Whether the support of the first is no greater than that of the second.
fn is_no_greater(one: &Deduced, other: &Deduced) -> bool
    ensures yes { IsTrue result
        → IsNoGreater (premises one.now.support) (premises other.now.support) }
    ensures no { result ≡ false
        → IsNoGreater (premises other.now.support) (premises one.now.support) }
{
    let order = compare_supports(
        other.head,
        other.args.as_slice(),
        one.head,
        one.args.as_slice(),
    );
    if order != Ordering::Less {
        return true;
    }
    false
}

/// Of two places the one with the lesser support.
fn lesser_of(found: &[Deduced], place: usize, other: usize) -> usize
    requires place { place < length found.now }
    requires other { other < length found.now }
    ensures which { (result ≡ place) ⊎ (result ≡ other) }
    ensures least { IsNoGreater (premises (found_at found.now result).support)
        (premises (found_at found.now place).support) }
    ensures other_least { IsNoGreater (premises (found_at found.now result).support)
        (premises (found_at found.now other).support) }
{
    if is_no_greater(&found[place], &found[other]) {
        return place;
    }
    other
}

/// Of the places, at which no entry is less than the one before it, one for each entry: that with the
/// least support.
fn one_each(
    alloc: Global,
    interner: &Interner,
    found: &[Deduced],
    sorted: &[usize],
) -> Result<Vec<usize>, OutOfMemory>
    requires known { All (λ d. IsRow interner.now d.row) found.now }
    requires sorted { AreSorted interner.now found.now sorted.now }
    ensures { IfOk result (λ places. AreInOrder interner.now found.now places.items) }
{
    interner.know_numbers();
    let mut kept = Vec::with_capacity(alloc, sorted.len())?;
    if sorted.is_empty() {
        return Ok(kept);
    }
    let mut last = sorted[0];
    for number in 1..sorted.len() {
        let place = sorted[number];
        if is_same_entry(&found[place], &found[last]) {
            last = lesser_of(found, last, place);
            continue;
        }
        kept.push_reserved(last);
        last = place;
    }
    kept.push_reserved(last);
    Ok(kept)
}

/// The places of what was found, counted from 0, one for each entry, that with the least support, in
/// ascending order of the entries.
///
/// Takes time in proportion to their number where their points are spread evenly, and else compares
/// about as often as a merge sort, as it does where there are fewer than 64. Takes some 20 bytes for
/// each where they are spread so, and some 30 where most stand at few points.
pub fn places_in_order(
    alloc: Global,
    replica: &Replica,
    found: &[Deduced],
) -> Result<Vec<usize>, OutOfMemory>
    requires { All (λ d. IsRow replica.now.ids d.row) found.now }
    ensures { IfOk result (λ places. AreInOrder replica.now.ids found.now places.items) }
{
    let interner = replica.interner();
    let sorted = sorted_places(alloc, interner, found)?;
    one_each(alloc, interner, found, sorted.as_slice())
}

/// Takes what stands at the place, and leaves its row and its head there.
pub fn take_out(alloc: Global, found: &mut Vec<Deduced>, place: usize) -> Deduced
    requires { place < length found.old.items }
    ensures taken { slice_get found.old.items place ≡ Some result }
    ensures others { (k : ℕ) → k ≢ place → slice_get found.new.items k ≡ slice_get found.old.items k }
{
    let there = &mut found[place];
    let args = replace(&mut there.args, Vec::new(alloc));
    Deduced {
        row: there.row,
        head: there.head,
        args,
    }
}

/// Takes out what stands at these places, in their order.
fn take_all_out(
    alloc: Global,
    found: &mut Vec<Deduced>,
    places: &[usize],
) -> Result<Vec<Deduced>, OutOfMemory>
    requires within { All (λ k. k < length found.old.items) places.now }
    requires once { AllPairs (λ a b. a ≢ b) places.now }
    ensures { IfOk result (λ taken. taken.items ≡ picked found.old.items places.now) }
{
    let mut taken = Vec::with_capacity(alloc, places.len())?;
    for place in places {
        taken.push_reserved(take_out(alloc, found, *place));
    }
    Ok(taken)
}

/// One conclusion for each entry, with the least support. What was found is left without the arguments
/// of those.
pub(crate) fn merged(
    alloc: Global,
    replica: &Replica,
    found: &mut Vec<Deduced>,
) -> Result<Vec<Deduced>, OutOfMemory>
    requires { All (λ d. IsRow replica.now.ids d.row) found.old.items }
    ensures lowers { IfOk result (λ left. Lowers found.old.items left.items) }
    ensures only { IfOk result (λ left. (d : DeducedData) → Contains left.items d
        → Contains found.old.items d) }
{
    let places = places_in_order(alloc, replica, found.as_slice())?;
    take_all_out(alloc, found, places.as_slice())
}
