//! Limits behind the text and the sorts of a file, and by how much they are passed.

ghost use Rattle.std.specs.Prelude.{◌≤◌, length};

use hs_diagnostics::push_rule;
use hs_front::sorted_of;
use hs_reader::{MAX_BYTES, read_file};
use hs_scheme::{MAX_POINTS, OutOfMemory, Rule, Term};
use hs_trace::push_number;
use std::alloc::Global;

/// The most entries that may be asked for.
const MOST_ENTRIES: u64 = 1_000_000;

/// How many points the rules of a scheme have.
#[derive(Clone, Copy)]
struct PointCount {
    all: u64,
    /// The first rule with which there are too many, counted from 0, and how many there are with it.
    passing: Option<(u32, u64)>,
}

/// The points of a term. Recurses as deep as the term.
fn points_of(term: &Term) -> u64 {
    let mut count: u64 = 1;
    for arg in &term.args {
        count = count.saturating_add(points_of(arg));
    }
    count
}

/// The points of some rules.
fn count_points(rules: &[Rule]) -> PointCount {
    let mut count = PointCount {
        all: 0,
        passing: None,
    };
    for (number, rule) in rules.iter().enumerate() {
        count.all = count.all.saturating_add(points_of(&rule.body));
        if count.passing.is_none() && count.all > MAX_POINTS as u64 {
            count.passing = match u32::try_from(number) {
                Ok(number) => Some((number, count.all)),
                Err(_) => None,
            };
        }
    }
    count
}

/// The points of the rules of a file, where it has sorts.
fn points_in(alloc: Global, bytes: &[u8]) -> Option<PointCount>
    requires { length bytes.now ≤ MAX_BYTES }
{
    match sorted_of(alloc, bytes) {
        Ok(sorted) => {
            let count = count_points(sorted.scheme.rules.as_slice());
            drop(sorted);
            Some(count)
        }
        Err(_) => None,
    }
}

/// Puts how many points there are at the end.
fn push_points(with_it: u64, all: u64, text: &mut Vec<u8>) -> Result<(), OutOfMemory> {
    text.extend_from_slice(b": with it there are ")?;
    push_number(with_it, text)?;
    text.extend_from_slice(b" points, ")?;
    push_number(all, text)?;
    text.extend_from_slice(b" in all, at most ")?;
    push_number(MAX_POINTS as u64, text)?;
    text.extend_from_slice(b"\n")?;
    Ok(())
}

/// The first rule of a file with which there are too many points, and how many there are by its own rules,
/// as a line.
pub(crate) fn points_text(alloc: Global, bytes: &[u8]) -> Option<Vec<u8>>
    requires { length bytes.now ≤ MAX_BYTES }
{
    let count = points_in(alloc, bytes)?;
    let (rule, with_it) = count.passing?;
    let mut text = Vec::new(alloc);
    match read_file(alloc, bytes) {
        Ok(raw) => push_rule(&raw, rule, &mut text)?,
        Err(_) => return None,
    }
    push_points(with_it, count.all, &mut text).ok()?;
    Some(text)
}

/// The line on a flow with too many pairs.
pub(crate) fn flow_text(alloc: Global) -> Result<Vec<u8>, OutOfMemory> {
    let mut text = Vec::new(alloc);
    text.extend_from_slice(b"the flow has more than 4000000 pairs\n")?;
    Ok(text)
}

/// The line on a table with more entries than these.
pub(crate) fn entries_text(alloc: Global, entries: u32) -> Result<Vec<u8>, OutOfMemory> {
    let mut text = Vec::new(alloc);
    text.extend_from_slice(b"the table has more than ")?;
    push_number(u64::from(entries), &mut text)?;
    text.extend_from_slice(b" entries; --entries takes a number up to ")?;
    push_number(MOST_ENTRIES, &mut text)?;
    text.extend_from_slice(
        b", and --quick, where it isn't given, may find a verdict without the table\n",
    )?;
    Ok(text)
}
