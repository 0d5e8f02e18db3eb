//! Sorts of rules that pass a limit, and by how much.

use crate::sought::Sought;
use hs_scheme::{OutOfMemory, Unsorted};
use hs_trace::push_number;
use std::alloc::Global;

/// The largest size of a sort.
const MOST_SIZE: u64 = 1_000;

/// The most parameters of a rule, and arguments of a right side.
const MOST_LONG: u64 = 64;

/// A number, what there is so much of, and how much there may be, put at the end.
fn push_passed(number: u64, what: &[u8], most: u64, text: &mut Vec<u8>) -> Result<(), OutOfMemory> {
    push_number(number, text)?;
    text.extend_from_slice(what)?;
    text.extend_from_slice(b", at most ")?;
    push_number(most, text)?;
    text.extend_from_slice(b"\n")?;
    Ok(())
}

/// The sorts of a scheme's nonterminals, and the sort of the rule with this number, counted from 0.
fn sought_of(alloc: Global, unsorted: &Unsorted, rule: u32) -> Option<(Sought, u32)> {
    let mut sought = Sought::new(alloc, unsorted).ok()?;
    if sought.first(alloc, unsorted.rules.as_slice()).is_some() {
        return None;
    }
    let sort = sought.nonterminals.get(rule as usize).copied()?;
    Some((sought, sort))
}

/// Puts at the end of a line how large the sort of the rule with this number is, counted from 0: 1, and
/// for each argument 1 and its size, up to 1,000,000. None comes where memory doesn't suffice, or it isn't
/// found to be past the limit. Takes time and memory as `push_clash`, for all rules.
pub fn push_large_sort(
    alloc: Global,
    unsorted: &Unsorted,
    rule: u32,
    text: &mut Vec<u8>,
) -> Option<()> {
    let (sought, sort) = sought_of(alloc, unsorted, rule)?;
    let size = sought.shapes.size(alloc, sort).ok()?;
    if size <= MOST_SIZE {
        return None;
    }
    text.extend_from_slice(b": the size of its sort is ").ok()?;
    push_passed(size, b"", MOST_SIZE, text).ok()
}

/// Puts at the end of a line how many parameters the rule with this number, counted from 0, has once it is
/// lengthened to its sort, or where these are few how many arguments its right side has then. None comes
/// where memory doesn't suffice, or neither is found to be past the limit. Takes time and memory as
/// `push_clash`, for all rules.
pub fn push_long_rule(
    alloc: Global,
    unsorted: &Unsorted,
    rule: u32,
    text: &mut Vec<u8>,
) -> Option<()> {
    let (sought, sort) = sought_of(alloc, unsorted, rule)?;
    let own = unsorted.rules.get(rule as usize)?;
    let params = sought.shapes.arguments(sort);
    let missing = params.saturating_sub(u64::from(own.params));
    let args = missing.saturating_add(own.body.args.len() as u64);
    if params <= MOST_LONG && args <= MOST_LONG {
        return None;
    }
    text.extend_from_slice(b": lengthened to its sort it has ")
        .ok()?;
    if params > MOST_LONG {
        push_passed(params, b" parameters", MOST_LONG, text).ok()
    } else {
        push_passed(args, b" arguments on its right side", MOST_LONG, text).ok()
    }
}
