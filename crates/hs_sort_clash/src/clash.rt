//! The sorts that don't meet in a rule.

use crate::shapes::Shapes;
use crate::sought::{Clash, Sought};
use hs_scheme::{Head, Name, Names, OutOfMemory, Term, Unsorted};
use hs_text::name_of;
use hs_trace::push_number;
use std::alloc::Global;

/// How deep the sorts and terms are that are shown.
const MOST_DEEP: u32 = 8;

/// The name of a head.
fn head_name<'a>(names: &'a Names, params: &'a [Name], head: Head) -> &'a [u8] {
    match head {
        Head::Var(number) => name_of(params, number as usize),
        Head::Nt(number) => name_of(names.rules.as_slice(), number as usize),
        Head::Tm(number) => name_of(names.terminals.as_slice(), number as usize),
    }
}

/// Puts a term with the first of its arguments at the end. Of one that is deeper than `depth` dots are
/// shown.
fn push_term(
    names: &Names,
    params: &[Name],
    term: &Term,
    count: usize,
    depth: u32,
    text: &mut Vec<u8>,
) -> Result<(), OutOfMemory> {
    text.extend_from_slice(head_name(names, params, term.head))?;
    for arg in term.args.iter().take(count) {
        if arg.args.is_empty() {
            text.extend_from_slice(b" ")?;
            text.extend_from_slice(head_name(names, params, arg.head))?;
        } else if depth == 0 {
            text.extend_from_slice(b" (..)")?;
        } else {
            text.extend_from_slice(b" (")?;
            push_term(names, params, arg, arg.args.len(), depth - 1, text)?;
            text.extend_from_slice(b")")?;
        }
    }
    Ok(())
}

/// Puts the sort at the end that a term has, and the one that is wanted.
fn push_sorts(shapes: &Shapes, clash: Clash, text: &mut Vec<u8>) -> Result<(), OutOfMemory> {
    if clash.is_circular {
        text.extend_from_slice(b"` would have a sort within itself")?;
        return Ok(());
    }
    text.extend_from_slice(b"` has the sort ")?;
    shapes.push(clash.found, false, MOST_DEEP, text)?;
    text.extend_from_slice(b", and ")?;
    shapes.push(clash.wanted, false, MOST_DEEP, text)?;
    text.extend_from_slice(b" is wanted")?;
    Ok(())
}

/// Puts what clashes at the end of a line.
fn push_found(
    names: &Names,
    params: &[Name],
    shapes: &Shapes,
    clash: Clash,
    text: &mut Vec<u8>,
) -> Result<(), OutOfMemory> {
    text.extend_from_slice(b": `")?;
    push_term(names, params, clash.term, clash.count, MOST_DEEP, text)?;
    push_sorts(shapes, clash, text)?;
    if let Some((head, place)) = clash.argument {
        text.extend_from_slice(b" as argument ")?;
        push_number(place as u64, text)?;
        text.extend_from_slice(b" of `")?;
        text.extend_from_slice(head_name(names, params, head))?;
        text.extend_from_slice(b"`")?;
    }
    text.extend_from_slice(b"\n")?;
    Ok(())
}

/// Puts at the end of a line what the rule with this number, counted from 0, has no sort for beside those
/// before it: the term whose sort isn't the one that is wanted, and both sorts. None comes where memory
/// doesn't suffice, or nothing is found.
///
/// Takes time and memory in proportion to the rules up to that one and to their sorts, while what is known
/// of a sort is found in few steps; it gives up after 50,000,000 of them.
pub fn push_clash(alloc: Global, unsorted: &Unsorted, rule: u32, text: &mut Vec<u8>) -> Option<()> {
    let mut sought = Sought::new(alloc, unsorted).ok()?;
    let rules = unsorted.rules.get(..=(rule as usize))?;
    let clash = sought.first(alloc, rules)?;
    let params = unsorted.names.params.get(rule as usize)?;
    push_found(
        &unsorted.names,
        params.as_slice(),
        &sought.shapes,
        clash,
        text,
    )
    .ok()
}
