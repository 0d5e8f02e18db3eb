//! The search for a compact list.

ghost use Rattle.std.specs.Prelude.{◌≡◌, ◌≤◌, false, IfOk, length};
ghost use Rattle.hs_table.specs.Tables.{IsLeastTable};
ghost use Rattle.hs_core.specs.Core.{log_of};
ghost use Rattle.hs_minimal.specs.Compact.{IsCompactAnswer};
ghost use Rattle.hs_app.specs.Verdict.{IsSought};

use crate::counting::rows_of;
use hs_core::Core;
use hs_minimal::{Compact, compact, compact_within};
use hs_scheme::{OutOfMemory, Problem};
use hs_text::Minimal;
use hs_words::Settings;
use std::alloc::Global;

/// What the search comes to within the core's log, which is the least table.
fn seek_within(
    alloc: Global,
    problem: &Problem,
    core: &Core,
    budget: u32,
) -> Result<Compact, OutOfMemory>
    requires least_budget { 1 ≤ budget }
    requires most { budget ≤ 1000000 }
    requires few { length (log_of core.now) ≤ budget }
    requires least { IsLeastTable problem.now (log_of core.now) }
    ensures { IfOk result (IsCompactAnswer problem.now budget) }
{
    let rows = rows_of(alloc, core)?;
    let replica = core.replica();
    compact_within(alloc, problem, replica.interner(), rows.as_slice(), budget)
}

/// What the search comes to: where the first start entry was enough, the log is no least table, and nothing
/// is taken from it.
fn seek(
    alloc: Global,
    problem: &Problem,
    core: &Core,
    first: bool,
    budget: u32,
) -> Result<Compact, OutOfMemory>
    requires least_budget { 1 ≤ budget }
    requires most { budget ≤ 1000000 }
    requires few { length (log_of core.now) ≤ budget }
    requires least { first ≡ false → IsLeastTable problem.now (log_of core.now) }
    ensures { IfOk result (IsCompactAnswer problem.now budget) }
{
    if first {
        return compact(alloc, problem, budget);
    }
    seek_within(alloc, problem, core, budget)
}

/// What the search for a compact list comes to, where it is asked for.
pub(crate) fn minimal_of(
    alloc: Global,
    problem: &Problem,
    core: &Core,
    settings: Settings,
) -> Result<Option<Minimal>, OutOfMemory>
    requires few { length (log_of core.now) ≤ settings.entries }
    requires least { settings.first ≡ false → IsLeastTable problem.now (log_of core.now) }
    ensures { IfOk result (IsSought settings problem.now) }
{
    if !settings.minimal {
        return Ok(None);
    }
    match seek(alloc, problem, core, settings.first, settings.entries)? {
        Compact::Table(entries) => Ok(Some(Minimal::Table(entries))),
        Compact::Over(_added) => Ok(Some(Minimal::More {
            budget: settings.entries,
        })),
    }
}
