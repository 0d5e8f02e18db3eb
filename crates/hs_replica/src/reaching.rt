//! How far the places of a point are listed, a number for each point, and which place comes next.

ghost use Rattle.std.specs.Prelude.{◌≡◌, ℕ, ◌<◌, ◌≤◌, Contains, IfNone, IfSome, OnOk, length, slice_index_or};
ghost use Rattle.std.specs.List.Sorted.{IsStrictlyIncreasing};
ghost use Rattle.hs_replica.specs.declared.key.Key.TheVariants.{At};
ghost use Rattle.hs_replica.specs.Index.{list_at, RisesTo};

use crate::key::Key;
use crate::lists::{Lists, below, list_of};
use hs_scheme::OutOfMemory;

/// The first place of the list that isn't below `from`.
fn first_from(list: &[u32], from: u32) -> Option<u32>
    requires { IsStrictlyIncreasing list.now }
    ensures there { IfSome result (λ place. (from ≤ place) × Contains list.now place) }
    ensures first { IfSome result (λ place. (i : ℕ) → Contains list.now i → from ≤ i → place ≤ i) }
    ensures none { IfNone result ((i : ℕ) → Contains list.now i → i < from) }
{
    let begin = list.partition_point(|place| *place < from);
    if begin >= list.len() {
        return None;
    }
    Some(list[begin])
}

/// The first place of the point among the first `indexed` that isn't below `from`.
pub(crate) fn next_at(lists: &Lists, point: u32, from: u32, indexed: u32) -> Option<u32>
    requires { RisesTo indexed (list_at lists.now (At point)) }
    ensures there { IfSome result (λ place. (from ≤ place) × ((place < indexed)
        × Contains (list_at lists.now (At point)) place)) }
    ensures first { IfSome result (λ place. (i : ℕ) → Contains (list_at lists.now (At point)) i
        → from ≤ i → i < indexed → place ≤ i) }
    ensures none { IfNone result ((i : ℕ) → Contains (list_at lists.now (At point)) i → i < indexed
        → i < from) }
{
    first_from(below(list_of(lists, Key::At(point)), indexed), from)
}

/// Adds zeros until the point has a number.
pub(crate) fn lengthen(numbers: &mut Vec<u32>, point: u32) -> Result<(), OutOfMemory>
    ensures same { (p : ℕ) → slice_index_or numbers.new.items p 0 ≡ slice_index_or numbers.old.items p 0 }
    ensures long { OnOk result (point < length numbers.new.items) }
{
    while numbers.len() <= point as usize {
        numbers.push(0)?;
    }
    Ok(())
}

/// The number of the point, 0 where it has none.
pub(crate) fn number_of(numbers: &[u32], point: u32) -> u32
    ensures { result ≡ slice_index_or numbers.now point 0 }
{
    match numbers.get(point as usize) {
        Some(number) => *number,
        None => 0,
    }
}
