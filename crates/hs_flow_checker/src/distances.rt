//! Flow pairs that many bases demand of one argument, and that stand at one distance from each other, as
//! pairs do at one place in rows of one length.

ghost use Rattle.std.specs.Prelude.{◌≡◌, ◌+◌, ◌<◌, ◌≤◌, ◌⊎◌, Contains, IsTrue, IfSome, length};
ghost use Rattle.hs_scheme.specs.declared.flow.HeadPair.{HeadPair as AnyHead};
ghost use Rattle.hs_flow_checker.specs.PassedOn.{HasPassed};

use hs_scheme::{FlowPair, HeadPair};

/// The fewest bases that are looked at together.
const MANY: usize = 32;

/// Whether the pair is that of the base's parameter behind so many others, and of the argument.
fn is_of(pair: &FlowPair, base: &HeadPair, number: u32, arg: u32) -> bool
    ensures { IsTrue result → (pair.now.rule ≡ base.now.rule)
        × ((pair.now.param ≡ base.now.given + number) × (pair.now.point ≡ arg)) }
{
    pair.rule == base.rule
        && pair.point == arg
        && pair.param as u64 == base.given as u64 + number as u64
}

/// The first bases, up to the last one whose pair for the argument isn't found. That of the last base is
/// looked for at this place, and that of each base before it at the distance before that one.
fn left_of<'b>(
    pairs: &[FlowPair],
    bases: &'b [HeadPair],
    number: u32,
    arg: u32,
    last: usize,
    distance: usize,
) -> &'b [HeadPair]
    requires { last < length pairs.now }
    ensures part { (h : AnyHead) → Contains result.now h → Contains bases.now h }
    ensures rest { (h : AnyHead) → Contains bases.now h → Contains result.now h
        ⊎ HasPassed pairs.now h number arg }
{
    let mut left = bases;
    let mut place = last;
    while let Some((base, before)) = left.split_last() {
        if !is_of(&pairs[place], base, number, arg) {
            return left;
        }
        left = before;
        if place < distance {
            return left;
        }
        place -= distance;
    }
    left
}

/// The place among all pairs of that which the argument demands by the base, if it is there.
fn place_of(pairs: &[FlowPair], base: &HeadPair, number: u32, arg: u32) -> Option<usize>
    ensures { IfSome result (λ place. place < length pairs.now) }
{
    let param = base.given.checked_add(number)?;
    let pair = FlowPair {
        rule: base.rule,
        param,
        point: arg,
    };
    pairs.binary_search(&pair).ok()
}

/// The first of two or more bases, up to the last one whose pair for the argument isn't found at the
/// distance of those of the last two.
fn left_of_many<'b>(
    pairs: &[FlowPair],
    bases: &'b [HeadPair],
    number: usize,
    arg: u32,
) -> &'b [HeadPair]
    requires { 2 ≤ length bases.now }
    ensures part { (h : AnyHead) → Contains result.now h → Contains bases.now h }
    ensures rest { (h : AnyHead) → Contains bases.now h → Contains result.now h
        ⊎ HasPassed pairs.now h number arg }
{
    let Ok(number) = u32::try_from(number) else {
        return bases;
    };
    let count = bases.len();
    let Some(last) = place_of(pairs, &bases[count - 1], number, arg) else {
        return bases;
    };
    let Some(before) = place_of(pairs, &bases[count - 2], number, arg) else {
        return bases;
    };
    left_of(pairs, bases, number, arg, last, last.wrapping_sub(before))
}

/// The bases, and where they are many the first of them: up to the last one whose pair for the argument
/// isn't found at the distance of those of the last two. Those that are left may be held, too.
///
/// Time is in the number of those that are found, and in the logarithm of that of the pairs.
pub(crate) fn left_at_one_distance<'b>(
    pairs: &[FlowPair],
    bases: &'b [HeadPair],
    number: usize,
    arg: u32,
) -> &'b [HeadPair]
    ensures part { (h : AnyHead) → Contains result.now h → Contains bases.now h }
    ensures rest { (h : AnyHead) → Contains bases.now h → Contains result.now h
        ⊎ HasPassed pairs.now h number arg }
{
    if bases.len() < MANY {
        return bases;
    }
    left_of_many(pairs, bases, number, arg)
}
