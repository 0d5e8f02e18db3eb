//! What a core tells of itself, in short.

use hs_core::Core;
use hs_scheme::OutOfMemory;
use hs_table::{Entry, HeadBy, Shape};
use std::alloc::Global;

/// An entry in short: its point, the number of its sets, and its type where that is a state.
pub(crate) type Line = (u32, usize, Option<u32>);

/// The entry in short.
fn line_of(entry: &Entry) -> Line {
    let state = match &entry.ty.shape {
        Shape::State(q) => Some(*q),
        Shape::Arrow(..) => None,
    };
    (entry.point, entry.env.len(), state)
}

/// Whether these are the entries, in this order.
fn are_lines(entries: &[Entry], lines: &[Line]) -> bool {
    for (entry, line) in entries.iter().zip(lines) {
        if line_of(entry) != *line {
            return false;
        }
    }
    entries.len() == lines.len()
}

/// Whether these are the entries in the log's order.
pub(crate) fn has_log(alloc: Global, core: &Core, lines: &[Line]) -> Result<bool, OutOfMemory> {
    let table = core.table(alloc)?;
    Ok(are_lines(table.as_slice(), lines))
}

/// The entry past the budget, where one is kept.
pub(crate) fn past_line(alloc: Global, core: &Core) -> Result<Option<Line>, OutOfMemory> {
    let Some(past) = core.past() else {
        return Ok(None);
    };
    let entry = core.replica().interner().tree(alloc, past.row)?;
    Ok(Some(line_of(&entry)))
}

/// The head of a terminal that is read in state 0.
pub(crate) fn terminal(child: Option<u32>) -> HeadBy {
    HeadBy::Terminal { state: 0, child }
}

/// Whether the supports of the two entries of the table of `S -> a b.` are those that there are.
pub(crate) fn are_supported(core: &Core) -> bool {
    if core.len() != 2 {
        return false;
    }
    let (first, none) = core.support(0);
    let (second, one) = core.support(1);
    *first == terminal(None)
        && none.is_empty()
        && *second == terminal(Some(1))
        && one == [(0, 0)].as_slice()
}

/// Whether this worker did all of it: each of four works is taken and finished, and two entries are
/// added.
pub(crate) fn is_alone(core: &Core, worker: u32) -> bool {
    let journal = core.journal();
    journal.len() == 10 && journal.iter().all(|step| step.worker == worker)
}

/// Whether nothing is pending, in flight, sought or kept.
pub(crate) fn is_quiet(core: &Core) -> bool {
    core.quiet()
        && core.pending() == 0
        && core.flight(0).is_none()
        && core.found().is_none()
        && core.past().is_none()
}

/// Whether the core is one for two points and entries, in which all are sought.
pub(crate) fn is_for_two(core: &Core) -> bool {
    core.budget() == 2 && !core.first() && core.problem().points.count() == 2
}
