//! The trace of a path that a report shows.

ghost use Rattle.std.specs.Prelude.{◌≡◌, ◌≤◌, ℕ, List, length, take, IsTrue, IfOk, IfSome};
ghost use Rattle.hs_scheme.specs.acceptance.Steps.{child_numbers};
ghost use Rattle.hs_trace.specs.Explained.{StandsIn, IsTraced, IsTraceOfReport};
ghost use Rattle.hs_text.specs.Report.{path_lines};
ghost use Rattle.hs_trace.specs.TraceText.{trace_lines};

use crate::lines::rule_lines;
use crate::trace::{MOST_STEPS, trace_text};
use hs_front::sorted_of;
use hs_reader::MAX_BYTES;
use hs_reduce::{MAX_STEPS, Trace, trace_along};
use hs_scheme::{FailingPath, Names, OutOfMemory, Sorted};
use hs_text::path_text;
use std::alloc::Global;

/// So many bytes may stand before the path of a report.
const FRONT: usize = 64;

/// Whether the piece stands in the text behind so many bytes.
fn stands_behind(text: &[u8], piece: &[u8], at: usize) -> bool
    ensures { IsTrue result → StandsIn text.now piece.now }
{
    if at > text.len() {
        return false;
    }
    let (_front, rest) = text.split_at(at);
    rest.starts_with(piece)
}

/// Whether the text has this piece in it, near its front.
fn stands_in(text: &[u8], piece: &[u8]) -> bool
    ensures { IsTrue result → StandsIn text.now piece.now }
{
    for at in 0..FRONT {
        if stands_behind(text, piece, at) {
            return true;
        }
    }
    false
}

/// The child numbers of a path.
fn numbers_of(alloc: Global, steps: &[(u32, u32)]) -> Result<Vec<u32>, OutOfMemory>
    ensures { IfOk result (λ numbers. numbers.items ≡ child_numbers steps.now) }
{
    let mut numbers = Vec::with_capacity(alloc, steps.len())?;
    for step in steps {
        numbers.push_reserved(step.1);
    }
    Ok(numbers)
}

/// The text of a trace, where the report shows its path.
fn told(
    alloc: Global,
    names: &Names,
    lines: &[u32],
    trace: &Trace,
    report: &[u8],
) -> Option<Vec<u8>>
    ensures printed { IfSome result (λ _. StandsIn report.now (path_lines names.now trace.now.path)) }
    ensures text { IfSome result (λ text.
        text.items ≡ trace_lines names.now lines.now trace.now.steps.items trace.now.path) }
{
    match path_text(alloc, names, &trace.path) {
        Ok(printed) if stands_in(report, printed.as_slice()) => {
            trace_text(alloc, names, lines, trace).ok()
        }
        _ => None,
    }
}

/// The text of the trace along these child numbers, where the report shows its path.
fn traced_along(
    alloc: Global,
    sorted: &Sorted,
    lines: &[u32],
    numbers: &[u32],
    report: &[u8],
) -> Option<Vec<u8>>
    ensures { IfSome result (λ text. IsTraced sorted.now lines.now report.now text.items) }
{
    if numbers.len() as u64 > MAX_STEPS {
        return None;
    }
    match trace_along(alloc, sorted, numbers, MAX_STEPS, MOST_STEPS) {
        Ok(Some(trace)) => told(alloc, &sorted.names, lines, &trace, report),
        _ => None,
    }
}

/// The text of the trace along a path, where the report shows it.
fn traced(
    alloc: Global,
    sorted: &Sorted,
    lines: &[u32],
    path: &FailingPath,
    report: &[u8],
) -> Option<Vec<u8>>
    ensures { IfSome result (λ text. IsTraced sorted.now lines.now report.now text.items) }
{
    match numbers_of(alloc, path.steps.as_slice()) {
        Ok(numbers) => traced_along(alloc, sorted, lines, numbers.as_slice(), report),
        Err(_) => None,
    }
}

/// The text of the trace of the reduction along a path, by the rules of the file that the bytes are. The
/// path is the one that the report shows.
///
/// None comes where memory doesn't suffice, the bytes are no file with sorts, the report doesn't show the
/// path, or its last terminal isn't met within 4,000,000 steps. Takes time in proportion to the file and
/// to the steps times the size of the rules' bodies, and memory likewise.
pub fn trace_of_report(
    alloc: Global,
    bytes: &[u8],
    path: &FailingPath,
    report: &[u8],
) -> Option<Vec<u8>>
    requires { length bytes.now ≤ MAX_BYTES }
    ensures { IfSome result (λ text. IsTraceOfReport bytes.now report.now text.items) }
{
    let lines = rule_lines(alloc, bytes)?;
    match sorted_of(alloc, bytes) {
        Ok(sorted) => {
            let text = traced(alloc, &sorted, lines.as_slice(), path, report);
            drop(sorted);
            text
        }
        Err(_) => None,
    }
}
