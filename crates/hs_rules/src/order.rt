//! The order of supports by their lists of places.

ghost use Rattle.std.specs.Prelude.{◌≡◌, ◌+◌, ◌<◌, ◌∷◌, length, slice_index};
ghost use Rattle.hs_table.specs.Follows.{premises};
ghost use Rattle.hs_rules.specs.Order.{places_cmp, chosen_places};

use hs_table::HeadBy;
use std::cmp::Ordering;

/// How many premises a support has.
fn premise_count(head: HeadBy, args: &[(u32, u32)]) -> usize
    ensures { result ≡ length (premises (record { head = head; args = args.now })) }
{
    match head {
        HeadBy::Terminal { .. } => args.len(),
        HeadBy::Rule { .. } => args.len() + 1,
        HeadBy::Param { .. } => args.len() + 1,
    }
}

/// The place of this number, counted from 0, among the first one and those of the arguments.
fn place_behind(first: u32, args: &[(u32, u32)], number: usize) -> u32
    requires { number < length args.now + 1 }
    ensures { result ≡ slice_index (first ∷ chosen_places args.now) number }
{
    if number == 0 {
        return first;
    }
    args[number - 1].1
}

/// The premise of this number, counted from 0.
fn premise(head: HeadBy, args: &[(u32, u32)], number: usize) -> u32
    requires { number < length (premises (record { head = head; args = args.now })) }
    ensures { result ≡ slice_index (premises (record { head = head; args = args.now })) number }
{
    match head {
        HeadBy::Terminal { .. } => args[number].1,
        HeadBy::Rule { place } => place_behind(place, args, number),
        HeadBy::Param { place, .. } => place_behind(place, args, number),
    }
}

/// The order of two supports: place by place, a proper prefix first.
pub fn compare(head: HeadBy, args: &[(u32, u32)], other: HeadBy, others: &[(u32, u32)]) -> Ordering
    ensures { result ≡ places_cmp (premises (record { head = head; args = args.now }))
        (premises (record { head = other; args = others.now })) }
{
    let count = premise_count(head, args);
    let other_count = premise_count(other, others);
    for number in 0..count {
        if number == other_count {
            return Ordering::Greater;
        }
        let by_place = premise(head, args, number).cmp(&premise(other, others, number));
        if by_place != Ordering::Equal {
            return by_place;
        }
    }
    count.cmp(&other_count)
}
