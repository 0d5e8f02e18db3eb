//! Where the names of a file clash, each place sought on the line that the fault names; and where there are
//! too many states.

use crate::placing::{push_count, push_placed, push_rule};
use hs_reader::{RawFile, RawRule, RawTransition, is_upper};
use hs_resolve::{MAX_STATES, NameFault};
use hs_scheme::OutOfMemory;
use hs_trace::push_number;
use indexmap::{IndexMap, IndexSet};
use std::alloc::Global;

/// The line on two things of one name, of which the first stands on the line `before`.
fn twice(
    alloc: Global,
    what: &[u8],
    first: &[u8],
    second: &[u8],
    line: u32,
    before: u32,
) -> Result<Vec<u8>, OutOfMemory> {
    let mut text = Vec::new(alloc);
    push_placed(what, first, second, line, &mut text)?;
    text.extend_from_slice(b": first on line ")?;
    push_number(u64::from(before), &mut text)?;
    text.extend_from_slice(b"\n")?;
    Ok(text)
}

/// The line on a rule whose name an earlier one has.
fn rule_twice(alloc: Global, raw: &RawFile, line: u32) -> Option<Vec<u8>> {
    let mut seen: IndexMap<&[u8], u32> = IndexMap::new(alloc);
    for rule in &raw.rules {
        let name = rule.name.text.bytes();
        match seen.get(name) {
            Some(before) if rule.name.line == line => {
                return twice(alloc, b"rule", name, b"", line, *before).ok();
            }
            Some(_) => (),
            None => {
                seen.insert(name, rule.name.line).ok()?;
            }
        }
    }
    None
}

/// The line on a parameter of this rule whose name an earlier one has.
fn parameter_in(alloc: Global, rule: &RawRule, line: u32) -> Option<Vec<u8>> {
    for (place, param) in rule.params.iter().enumerate() {
        let name = param.text.bytes();
        for before in rule.params.iter().take(place) {
            if param.line == line && before.text.bytes() == name {
                return twice(alloc, b"parameter", name, b"", line, before.line).ok();
            }
        }
    }
    None
}

/// The line on a parameter whose name an earlier one of its rule has.
fn parameter_twice(alloc: Global, raw: &RawFile, line: u32) -> Option<Vec<u8>> {
    for rule in &raw.rules {
        if let Some(text) = parameter_in(alloc, rule, line) {
            return Some(text);
        }
    }
    None
}

/// The numbers of the rules by their names.
fn rules_by_name<'a>(
    alloc: Global,
    rules: &[RawRule<'a>],
) -> Result<IndexMap<&'a [u8], u32>, OutOfMemory> {
    let mut rules_by_name = IndexMap::new(alloc);
    for rule in rules {
        rules_by_name.insert(rule.name.text.bytes(), rule.name.line)?;
    }
    Ok(rules_by_name)
}

/// The line on a nonterminal on this line of a right side that has no rule.
fn undefined_in(
    alloc: Global,
    rule: &RawRule,
    rules: &IndexMap<&[u8], u32>,
    line: u32,
) -> Option<Vec<u8>> {
    for node in rule.body.nodes() {
        let name = node.text.bytes();
        if node.line == line && is_upper(name) && !rules.contains_key(name) {
            let mut text = Vec::new(alloc);
            push_placed(b"nonterminal", name, b"", line, &mut text).ok()?;
            text.extend_from_slice(b": no rule\n").ok()?;
            return Some(text);
        }
    }
    None
}

/// The line on a nonterminal that has no rule.
fn undefined(alloc: Global, raw: &RawFile, line: u32) -> Option<Vec<u8>> {
    let rules = rules_by_name(alloc, raw.rules.as_slice()).ok()?;
    for rule in &raw.rules {
        if let Some(text) = undefined_in(alloc, rule, &rules, line) {
            return Some(text);
        }
    }
    None
}

/// The line on a start with parameters.
fn start(alloc: Global, raw: &RawFile) -> Option<Vec<u8>> {
    let rule = raw.rules.get(0)?;
    let mut text = Vec::new(alloc);
    push_rule(raw, 0, &mut text)?;
    text.extend_from_slice(b": the first one, parameters: ")
        .ok()?;
    push_number(rule.params.len() as u64, &mut text).ok()?;
    text.extend_from_slice(b"\n").ok()?;
    Some(text)
}

/// The line on a transition whose state and terminal an earlier one has.
fn transition_twice(alloc: Global, raw: &RawFile, line: u32) -> Option<Vec<u8>> {
    let mut seen: IndexMap<(&[u8], &[u8]), u32> = IndexMap::new(alloc);
    for transition in &raw.transitions {
        let left = (
            transition.from.text.bytes(),
            transition.terminal.text.bytes(),
        );
        match seen.get(&left) {
            Some(before) if transition.from.line == line => {
                return twice(alloc, b"transition", left.0, left.1, line, *before).ok();
            }
            Some(_) => (),
            None => {
                seen.insert(left, transition.from.line).ok()?;
            }
        }
    }
    None
}

/// Puts a number of children at the end, and the line on which there are so many.
fn push_children(
    before: &[u8],
    count: usize,
    line: u32,
    text: &mut Vec<u8>,
) -> Result<(), OutOfMemory> {
    text.extend_from_slice(before)?;
    push_number(count as u64, text)?;
    text.extend_from_slice(b" on line ")?;
    push_number(u64::from(line), text)?;
    Ok(())
}

/// The line on a terminal with two numbers of children.
fn clash(
    alloc: Global,
    first: &RawTransition,
    second: &RawTransition,
) -> Result<Vec<u8>, OutOfMemory> {
    let mut text = Vec::new(alloc);
    text.extend_from_slice(b"terminal ")?;
    text.extend_from_slice(second.terminal.text.bytes())?;
    push_children(b": children ", second.to.len(), second.from.line, &mut text)?;
    push_children(b", ", first.to.len(), first.from.line, &mut text)?;
    text.extend_from_slice(b"\n")?;
    Ok(text)
}

/// The line on a terminal whose first transition has another number of children.
fn rank_clash(alloc: Global, raw: &RawFile, line: u32) -> Option<Vec<u8>> {
    let mut seen: IndexMap<&[u8], usize> = IndexMap::new(alloc);
    for (place, transition) in raw.transitions.iter().enumerate() {
        let name = transition.terminal.text.bytes();
        match seen.get(name) {
            Some(before) => {
                let first = raw.transitions.get(*before)?;
                if transition.from.line == line && transition.to.len() != first.to.len() {
                    return clash(alloc, first, transition).ok();
                }
            }
            None => {
                seen.insert(name, place).ok()?;
            }
        }
    }
    None
}

/// Adds the name of a state, and answers whether it is the first one too many.
fn is_first_too_many<'a>(
    seen: &mut IndexSet<&'a [u8]>,
    state: &'a [u8],
) -> Result<bool, OutOfMemory> {
    let before = seen.len();
    seen.insert(state)?;
    Ok(before == MAX_STATES && seen.len() > before)
}

/// The line on the first state of which there are too many.
fn states(alloc: Global, raw: &RawFile) -> Option<Vec<u8>> {
    let mut seen: IndexSet<&[u8]> = IndexSet::new(alloc);
    let mut text = Vec::new(alloc);
    for transition in &raw.transitions {
        let from = transition.from.text.bytes();
        if is_first_too_many(&mut seen, from).ok()? {
            push_placed(b"state", from, b"", transition.from.line, &mut text).ok()?;
        }
        for state in &transition.to {
            let name = state.text.bytes();
            if is_first_too_many(&mut seen, name).ok()? {
                push_placed(b"state", name, b"", state.line, &mut text).ok()?;
            }
        }
    }
    text.extend_from_slice(b": number ").ok()?;
    let most = MAX_STATES as u64;
    push_count(most.saturating_add(1), seen.len() as u64, most, &mut text).ok()?;
    Some(text)
}

/// Both places of a clash of names, or the first state past the limit, as a line. None comes where memory
/// doesn't suffice, or no clash is found on the line that the fault names. Takes time in proportion to the
/// file, on average.
pub fn names_text(alloc: Global, raw: &RawFile, fault: &NameFault) -> Option<Vec<u8>> {
    match fault {
        NameFault::DuplicateRule { line } => rule_twice(alloc, raw, *line),
        NameFault::DuplicateParam { line } => parameter_twice(alloc, raw, *line),
        NameFault::Undefined { line } => undefined(alloc, raw, *line),
        NameFault::StartHasParams { line: _ } => start(alloc, raw),
        NameFault::DuplicateTransition { line } => transition_twice(alloc, raw, *line),
        NameFault::RankClash { line } => rank_clash(alloc, raw, *line),
        NameFault::TooManyStates => states(alloc, raw),
        NameFault::OutOfMemory => None,
    }
}
