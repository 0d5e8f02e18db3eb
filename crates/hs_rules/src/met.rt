//! Masks that a join has met.

ghost use Rattle.std.specs.Prelude.{◌≡◌, ◌⊎◌, [], ℕ, Contains, IfOk, OnOk};
ghost use Rattle.std.specs.Bool.{OnFalse, OnTrue};

use hs_scheme::OutOfMemory;
use indexmap::IndexSet;
use std::alloc::Global;

/// So many masks of those that were met last are kept at a place of their own.
const LATEST: usize = 2_048;

/// Where so many masks were met, the latest are kept at a place of their own.
const SOME: usize = 64;

/// Room is made for so many masks at once, where as many may be met.
const ROOM: usize = 256;

/// An odd number whose multiples differ in their upper bits: 2^128 by the golden ratio (Knuth, "The Art of
/// Computer Programming", volume 3, 1973).
const MULTIPLIER: u128 = 0x9e37_79b9_7f4a_7c15_f39c_c060_5ced_c835;

/// Masks that were met. Most are met again soon, so the latest are looked for first, each at one place.
#[derive(Drop)]
pub(crate) struct Met {
    pub(crate) masks: IndexSet<u128>,
    /// The numbers of the latest among the masks, by their places. Nothing rests on them: a mask is looked at
    /// before it is taken to be met.
    latest: Vec<u32>,
}

/// The place, below `LATEST`, at which the number of the mask stands while it is one of the latest.
fn latest_place(mask: u128) -> usize {
    (mask.wrapping_mul(MULTIPLIER) >> 64) as usize % LATEST
}

impl Met {
    /// None was met. Takes no memory.
    pub(crate) fn new(alloc: Global) -> Met
        ensures { result.masks.keys ≡ [] }
    {
        Met {
            masks: IndexSet::new(alloc),
            latest: Vec::new(alloc),
        }
    }

    /// Makes room for so many masks more, and for no more than the first few hundred of them.
    pub(crate) fn make_room(&mut self, count: usize) -> Result<(), OutOfMemory>
        ensures { self.new.masks.keys ≡ self.old.masks.keys }
    {
        self.masks.reserve(count.min(ROOM))?;
        Ok(())
    }
}

/// Whether the mask is one of the latest at its place.
fn is_latest(met: &Met, place: usize, mask: u128) -> bool
    ensures { OnTrue result (Contains met.now.masks.keys mask) }
{
    let Some(number) = met.latest.get(place) else {
        return false;
    };
    match met.masks.as_slice().get(*number as usize) {
        Some(latest) => *latest == mask,
        None => false,
    }
}

/// Keeps the number of a mask at its place, where at least `SOME` were met.
fn keep_latest(
    latest: &mut Vec<u32>,
    count: usize,
    place: usize,
    number: usize,
) -> Result<(), OutOfMemory> {
    if count < SOME || number > u32::MAX as usize {
        return Ok(());
    }
    if latest.is_empty() {
        latest.resize(LATEST, 0)?;
    }
    if place < latest.len() {
        latest[place] = number as u32;
    }
    Ok(())
}

/// Notes that the mask is met, and answers whether it is new.
pub(crate) fn meet(met: &mut Met, mask: u128) -> Result<bool, OutOfMemory>
    ensures old { IfOk result (λ is_new. OnFalse is_new (Contains met.old.masks.keys mask)) }
    ensures only { OnOk result ((m : ℕ) → Contains met.new.masks.keys m
        → Contains met.old.masks.keys m ⊎ (m ≡ mask)) }
{
    let place = latest_place(mask);
    if is_latest(met, place, mask) {
        return Ok(false);
    }
    let (number, is_new) = met.masks.insert_full(mask)?;
    keep_latest(&mut met.latest, met.masks.len(), place, number)?;
    Ok(is_new)
}
