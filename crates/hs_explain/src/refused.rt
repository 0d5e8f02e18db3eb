//! Where and why a file is refused.

ghost use Rattle.std.specs.Prelude.{◌≤◌, length};

use crate::limits::{entries_text, flow_text, points_text};
use hs_diagnostics::{limit_text, names_text, push_placed, push_rule, syntax_text};
use hs_front::Refusal;
use hs_reader::{MAX_BYTES, RawFile, read_file};
use hs_resolve::resolve_owned;
use hs_scheme::Unsorted;
use hs_sort_clash::{push_clash, push_large_sort, push_long_rule};
use std::alloc::Global;

/// The line on the first place at which a terminal of this name has arguments.
fn on_terminal(alloc: Global, raw: &RawFile, terminal: &[u8]) -> Option<Vec<u8>> {
    for rule in &raw.rules {
        for node in rule.body.nodes() {
            if node.args > 0 && node.text.bytes() == terminal {
                let mut text = Vec::new(alloc);
                push_placed(b"terminal", terminal, b"", node.line, &mut text).ok()?;
                text.extend_from_slice(
                    b": an argument of it takes arguments itself, here or later\n",
                ).ok()?;
                return Some(text);
            }
        }
    }
    None
}

/// Puts what is said of the sort of a rule at the end.
fn push_sort(
    alloc: Global,
    unsorted: &Unsorted,
    refusal: &Refusal,
    text: &mut Vec<u8>,
) -> Option<()> {
    match refusal {
        Refusal::IllSorted { rule } => push_clash(alloc, unsorted, *rule, text),
        Refusal::SortTooLarge { rule } => push_large_sort(alloc, unsorted, *rule, text),
        Refusal::RuleTooLong { rule } => push_long_rule(alloc, unsorted, *rule, text),
        _ => None,
    }
}

/// The line on the rule with this number, counted from 0, whose sort is refused: with what is said of it, where
/// something is found.
fn on_sort(alloc: Global, raw: RawFile, rule: u32, refusal: &Refusal) -> Option<Vec<u8>> {
    let mut text = Vec::new(alloc);
    push_rule(&raw, rule, &mut text)?;
    match resolve_owned(alloc, raw) {
        Ok(unsorted) => {
            let length = text.len();
            let pushed = push_sort(alloc, &unsorted, refusal, &mut text);
            drop(unsorted);
            if pushed.is_none() {
                if text.len() > length {
                    return None;
                }
                text.extend_from_slice(b"\n").ok()?;
            }
            Some(text)
        }
        Err(_) => None,
    }
}

/// The rule whose sort is refused, counted from 0.
fn refused_rule(refusal: &Refusal) -> Option<u32> {
    match refusal {
        Refusal::IllSorted { rule } => Some(*rule),
        Refusal::SortTooLarge { rule } => Some(*rule),
        Refusal::RuleTooLong { rule } => Some(*rule),
        _ => None,
    }
}

/// What explains a refusal of a file by its names or its sorts.
fn of_file(alloc: Global, bytes: &[u8], refusal: &Refusal) -> Option<Vec<u8>>
    requires { length bytes.now ≤ MAX_BYTES }
{
    match read_file(alloc, bytes) {
        Ok(raw) => match refusal {
            Refusal::Names { fault } => names_text(alloc, &raw, fault),
            Refusal::NotFirstOrder { terminal } => on_terminal(alloc, &raw, terminal.bytes()),
            _ => match refused_rule(refusal) {
                Some(rule) => on_sort(alloc, raw, rule, refusal),
                None => None,
            },
        },
        Err(_) => None,
    }
}

/// What explains a refusal of the bytes of a file, as a line: for a fault of the text what stands where it
/// leaves the grammar, and what could stand there; for a limit the place that passes it, and by how much; for
/// a clash of names both places; for a fault of sorts the rule with its line, and the two sorts that don't
/// meet. The table may have this many entries.
///
/// None comes where memory doesn't suffice, or nothing more can be said. Takes time in proportion to the
/// file and to the sorts in it, on average.
pub fn refusal_text(alloc: Global, bytes: &[u8], entries: u32, refusal: &Refusal) -> Option<Vec<u8>>
    requires { length bytes.now ≤ MAX_BYTES }
{
    match refusal {
        Refusal::Syntax { line } => syntax_text(alloc, bytes, *line),
        Refusal::Limit { which } => limit_text(alloc, bytes, *which),
        Refusal::PointLimit => points_text(alloc, bytes),
        Refusal::FlowLimit => flow_text(alloc).ok(),
        Refusal::EntryLimit => entries_text(alloc, entries).ok(),
        _ => of_file(alloc, bytes, refusal),
    }
}
