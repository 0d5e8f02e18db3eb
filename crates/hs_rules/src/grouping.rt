//! Types of a head that ask for the same.

ghost use Rattle.std.specs.Prelude.{◌≡◌, ◌≤◌, length, take, Contains};
ghost use Rattle.std.specs.Bool.{OnTrue};
ghost use Rattle.std.specs.List.Sorted.{IsPermutation};
ghost use Rattle.hs_rules.specs.Found.{HeadData, IsAlike};

use crate::found::HeadType;
use std::cmp::Ordering;

/// Whether the two types ask for the same, of the parameters and of the arguments.
fn are_alike(head: &HeadType, other: &HeadType) -> bool
    ensures { OnTrue result (IsAlike head.now other.now) }
{
    if head.own != other.own {
        return false;
    }
    head.sets.as_slice() == other.sets.as_slice()
}

/// So many of the types, from the first one on, ask for the same as this one.
pub(crate) fn count_alike(head: &HeadType, others: &[HeadType]) -> usize
    ensures within { result ≤ length others.now }
    ensures alike { (h : HeadData) → Contains (take result others.now) h → IsAlike head.now h }
{
    for (place, other) in others.iter().enumerate() {
        let same = are_alike(head, other);
        if !same {
            return place;
        }
    }
    others.len()
}

/// The order by what they ask for of the arguments, and then of the parameters, by number.
fn compare(head: &HeadType, other: &HeadType) -> Ordering {
    for (set, other_set) in head.sets.as_slice().iter().zip(other.sets.as_slice()) {
        let ordering = set.number().cmp(&other_set.number());
        if ordering != Ordering::Equal {
            return ordering;
        }
    }
    head.own.number().cmp(&other.own.number())
}

/// Brings those together that ask for the same.
pub(crate) fn group(heads: &mut [HeadType])
    ensures { IsPermutation heads.old heads.new }
{
    let few = heads.len() <= 2;
    if few {
        return;
    }
    heads.sort_unstable_by(|head, other| compare(head, other));
}
