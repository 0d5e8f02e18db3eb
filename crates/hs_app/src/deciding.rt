//! The verdict on a problem, with its report.

ghost use Rattle.std.specs.Prelude.{◌≡◌, ◌↔◌, ◌≤◌, ℕ, List, Option, Some, None, true, false, length, if◌then◌else◌, IfOk, IfSome, option_map};
ghost use Rattle.hs_scheme.specs.acceptance.Run.{Accepts};
ghost use Rattle.hs_scheme.specs.sorting.Sorted.{SortedData};
ghost use Rattle.hs_table.specs.Entries.{EntryData};
ghost use Rattle.hs_table.specs.Tables.{IsSupportedTable, IsLeastTable, HasStart, Exceeds};
ghost use Rattle.hs_verdict.specs.Premises.{HasClosedFlow, IsSortedProblem};
ghost use Rattle.hs_core.specs.Core.{state_of, log_of};
ghost use Rattle.hs_core.specs.Answers.{IsLeastAnswer, IsOverAnswer, IsFirstAnswer};
ghost use Rattle.hs_core.specs.Saturation.{IsVerdict};
ghost use Rattle.hs_workers.specs.Answers.{IsShared, IsSharedDone};
ghost use Rattle.hs_rank.specs.Canonical.{IsCanonicalLog};
ghost use Rattle.hs_app.specs.Problems.{IsReportedTable};
ghost use Rattle.hs_app.specs.Verdict.{IsSought, IsShown, Decides, DecidesProblem};

use crate::counting::instances_of;
use crate::proposed::decide_by_search;
use crate::seeking::minimal_of;
use crate::verdict::{Decided, Decision};
use hs_canonical::canonical;
use hs_core::{Core, Done};
use hs_flow::Dependents;
use hs_front::Refusal;
use hs_path::{Walk, walk};
use hs_scheme::{FailingPath, OutOfMemory, Problem, Sorted};
use hs_table::Entry;
use hs_text::{Minimal, Verdict, report};
use hs_verdict::{know_sorted_problem, namings_end_and_fail};
use hs_words::Settings;
use hs_workers::{Gate, saturate};
use std::alloc::Global;
use std::mem::forget;
use std::sync::Wait;
use std::thread::Threads;

/// The entries of the core, where the table is asked for.
fn told_entries(
    alloc: Global,
    core: &Core,
    settings: Settings,
) -> Result<Option<Vec<Entry>>, OutOfMemory>
    ensures { IfOk result (λ table. option_map (λ t. t.items) table
        ≡ if settings.table then Some (log_of core.now) else None) }
{
    if !settings.table {
        return Ok(None);
    }
    Ok(Some(core.table(alloc)?))
}

/// The entries as a slice, where there are some.
fn listed(entries: &Option<Vec<Entry>>) -> Option<&[Entry]>
    ensures { option_map (λ t. t.now) result ≡ option_map (λ t. t.items) entries.now }
{
    match entries {
        Some(all) => Some(all.as_slice()),
        None => None,
    }
}

/// The report of a verdict, with these entries where they are given, and with a compact list where that is
/// asked for.
fn report_by(
    alloc: Global,
    problem: &Problem,
    entries: &Option<Vec<Entry>>,
    sought: &Option<Minimal>,
    settings: Settings,
    verdict: &Verdict,
    removed: Option<u64>,
) -> Result<Vec<u8>, OutOfMemory>
    requires entries { IfSome entries.now (λ t. IsSupportedTable problem.now t.items) }
    requires sought { IsSought settings problem.now sought.now }
    ensures { IfOk result (λ text. (log : List EntryData) → option_map (λ t. t.items) entries.now
        ≡ (if settings.table then Some log else None)
        → IsShown settings problem.now verdict.now log removed text.items) }
{
    know_sorted_problem(problem);
    let table = listed(entries);
    report(alloc, problem, verdict, table, removed, sought.as_ref())
}

/// The report of a verdict, with what was told and sought for it, where memory sufficed.
fn report_told(
    alloc: Global,
    problem: &Problem,
    told: Result<Option<Vec<Entry>>, OutOfMemory>,
    sought: Result<Option<Minimal>, OutOfMemory>,
    settings: Settings,
    verdict: &Verdict,
    removed: Option<u64>,
) -> Result<Vec<u8>, OutOfMemory>
    requires told { IfOk told (λ entries. IfSome entries (λ t. IsSupportedTable problem.now t.items)) }
    requires sought { IfOk sought (IsSought settings problem.now) }
    ensures { IfOk result (λ text. (log : List EntryData) → IfOk told (λ entries.
        option_map (λ t. t.items) entries ≡ (if settings.table then Some log else None))
        → IsShown settings problem.now verdict.now log removed text.items) }
{
    match (told, sought) {
        (Ok(entries), Ok(sought)) => {
            let text = report_by(
                alloc, problem, &entries, &sought, settings, verdict, removed,
            );
            drop(entries);
            drop(sought);
            text
        }
        _ => Err(OutOfMemory),
    }
}

/// The report of a verdict, with the core's entries where the table is asked for.
fn report_of(
    alloc: Global,
    problem: &Problem,
    core: &Core,
    settings: Settings,
    verdict: &Verdict,
    removed: Option<u64>,
) -> Result<Vec<u8>, OutOfMemory>
    requires problem { problem.now ≡ core.now.base.problem }
    requires few { length (log_of core.now) ≤ settings.entries }
    requires reported { IsReportedTable settings.first problem.now (log_of core.now) }
    ensures { IfOk result (λ text. IsShown settings problem.now verdict.now (log_of core.now) removed
        text.items) }
{
    core.know_core();
    let sought = minimal_of(alloc, problem, core, settings);
    let told = told_entries(alloc, core, settings);
    report_told(alloc, problem, told, sought, settings, verdict, removed)
}

/// The verdict where the least table lacks the start entry. The table is checked before it is told.
fn accepted<'p>(
    alloc: Global,
    problem: &'p Problem,
    core: Core<'p>,
    settings: Settings,
    removed: Option<u64>,
) -> Result<Decided, OutOfMemory>
    requires flow { HasClosedFlow problem.now }
    requires budget { core.base.budget ≡ settings.entries }
    requires least { IsLeastTable problem.now (log_of core) }
    requires lacks { HasStart problem.now (log_of core) → ⊥ }
    requires accepts { Accepts problem.now.sorted.scheme.rules problem.now.sorted.automaton.transitions }
    ensures { IfOk result (λ decided. DecidesProblem settings problem.now removed (Ok decided)) }
{
    core.know_core();
    let entries = core.len();
    let told = told_entries(alloc, &core, settings);
    let sought = minimal_of(alloc, problem, &core, settings);
    let checked = instances_of(alloc, problem, core)?;
    let verdict = Verdict::Accepted { entries, checked };
    let report = report_told(alloc, problem, told, sought, settings, &verdict, removed)?;
    Ok(Decided {
        verdict: Decision::Accepted,
        report,
        path: None,
    })
}

/// The path of a verdict, where it has one. Nothing is claimed of it: who explains it looks whether the
/// report shows it.
fn path_in(verdict: Verdict) -> Option<FailingPath> {
    match verdict {
        Verdict::Rejected { entries: _, path } => Some(path),
        _ => None,
    }
}

/// The verdict where the log has the start entry, with the path that it names or, where that is too
/// long, without one. Unless the first start entry is enough, the log is the canonical one.
fn rejected(
    alloc: Global,
    problem: &Problem,
    core: &Core,
    settings: Settings,
    removed: Option<u64>,
) -> Result<Decided, OutOfMemory>
    requires problem { problem.now ≡ core.now.base.problem }
    requires few { length (log_of core.now) ≤ settings.entries }
    requires reported { IsReportedTable settings.first problem.now (log_of core.now) }
    requires canonical { settings.first ≡ false
        → IsCanonicalLog problem.now (log_of core.now) (state_of core.now).supports }
    requires start { HasStart problem.now (log_of core.now) }
    requires rejects { Accepts problem.now.sorted.scheme.rules problem.now.sorted.automaton.transitions → ⊥ }
    ensures { IfOk result (λ decided. DecidesProblem settings problem.now removed (Ok decided)) }
{
    core.know_core();
    know_sorted_problem(problem);
    namings_end_and_fail();
    let entries = core.len();
    match walk(alloc, problem, core, settings.steps)? {
        Walk::Found(path) => {
            let verdict = Verdict::Rejected { entries, path };
            let report = report_of(alloc, problem, core, settings, &verdict, removed)?;
            Ok(Decided {
                verdict: Decision::Rejected,
                report,
                path: path_in(verdict),
            })
        }
        Walk::StepLimit(_prefix) => {
            let verdict = Verdict::Long {
                entries,
                steps: settings.steps,
            };
            let report = report_of(alloc, problem, core, settings, &verdict, removed)?;
            Ok(Decided {
                verdict: Decision::Long,
                report,
                path: None,
            })
        }
    }
}

/// That the least table has more entries than are allowed.
fn over(problem: &Problem, core: &Core, settings: Settings) -> Refusal
    requires sorted { IsSortedProblem problem.now }
    requires shared { IsShared (record {
      problem = problem.now;
      budget = settings.entries;
      first = settings.first;
    }) settings.workers core.now }
    requires answer { IsOverAnswer core.now }
    ensures { (removed : Option ℕ) → DecidesProblem settings problem.now removed (Err result) }
{
    core.know_core();
    Refusal::EntryLimit
}

/// The verdict where the start entry was sought and found.
fn first(
    alloc: Global,
    problem: &Problem,
    core: &Core,
    settings: Settings,
    removed: Option<u64>,
) -> Result<Decided, OutOfMemory>
    requires sorted { IsSortedProblem problem.now }
    requires shared { IsShared (record {
      problem = problem.now;
      budget = settings.entries;
      first = settings.first;
    }) settings.workers core.now }
    requires answer { IsFirstAnswer core.now }
    ensures { IfOk result (λ decided. DecidesProblem settings problem.now removed (Ok decided)) }
{
    core.know_core();
    rejected(alloc, problem, core, settings, removed)
}

/// The verdict where the log is the least table and has the start entry: the path is the one that the
/// canonical log names, which takes the place of the log.
fn by_canonical_log<'p>(
    alloc: Global,
    problem: &'p Problem,
    core: Core<'p>,
    settings: Settings,
    removed: Option<u64>,
) -> Result<Decided, OutOfMemory>
    requires all { settings.first ≡ false }
    requires problem { problem.now ≡ core.base.problem }
    requires least { IsLeastTable problem.now (log_of core) }
    requires few { Exceeds problem.now settings.entries → ⊥ }
    requires start { (T : List EntryData) → IsLeastTable problem.now T → HasStart problem.now T }
    requires rejects { Accepts problem.now.sorted.scheme.rules problem.now.sorted.automaton.transitions → ⊥ }
    ensures { IfOk result (λ decided. DecidesProblem settings problem.now removed (Ok decided)) }
{
    let ranked = canonical(alloc, problem, core)?;
    let decided = rejected(alloc, problem, &ranked, settings, removed);
    forget(ranked);
    decided
}

/// The verdict of the least table.
fn least<'p>(
    alloc: Global,
    problem: &'p Problem,
    core: Core<'p>,
    settings: Settings,
    removed: Option<u64>,
) -> Result<Decided, OutOfMemory>
    requires flow { HasClosedFlow problem.now }
    requires sorted { IsSortedProblem problem.now }
    requires shared { IsShared (record {
      problem = problem.now;
      budget = settings.entries;
      first = settings.first;
    }) settings.workers core }
    requires answer { IsLeastAnswer core }
    requires verdict { Accepts problem.now.sorted.scheme.rules problem.now.sorted.automaton.transitions
        ↔ (HasStart problem.now (log_of core) → ⊥) }
    ensures { IfOk result (λ decided. DecidesProblem settings problem.now removed (Ok decided)) }
{
    core.know_core();
    match core.start() {
        Some(_place) => by_canonical_log(alloc, problem, core, settings, removed),
        None => accepted(alloc, problem, core, settings, removed),
    }
}

/// What saturation has come to, as a verdict. A run ends with it, so what is large is given to the system:
/// to give back a million entries one by one would take longer.
fn of_done<'p>(
    alloc: Global,
    problem: &'p Problem,
    done: Done<'p>,
    settings: Settings,
    removed: Option<u64>,
) -> Result<Decided, Refusal>
    requires flow { HasClosedFlow problem.now }
    requires sorted { IsSortedProblem problem.now }
    requires done { IsSharedDone (record {
      problem = problem.now;
      budget = settings.entries;
      first = settings.first;
    }) settings.workers done }
    requires verdict { IsVerdict problem.now done }
    ensures { DecidesProblem settings problem.now removed result }
{
    match done {
        Done::Over(core) => {
            let refusal = over(problem, &core, settings);
            forget(core);
            Err(refusal)
        }
        Done::First(core) => {
            let decided = first(alloc, problem, &core, settings, removed);
            forget(core);
            Ok(decided?)
        }
        Done::Least(core) => Ok(least(alloc, problem, core, settings, removed)?),
    }
}

/// The verdict by the least table, or that it has more entries than are allowed.
pub(crate) fn by_table<R: Threads + Wait + Sync, G: Gate + Sync>(
    rt: &R,
    alloc: Global,
    problem: &Problem,
    removed: Option<u64>,
    settings: Settings,
    gate: &G,
) -> Result<Decided, Refusal>
    requires flow { HasClosedFlow problem.now }
    ensures { DecidesProblem settings problem.now removed result }
{
    know_sorted_problem(problem);
    let dependents = Dependents::of(alloc, problem)?;
    let done = saturate(
        rt,
        alloc,
        problem,
        &dependents,
        settings.workers,
        settings.entries,
        settings.first,
        gate,
    )?;
    of_done(alloc, problem, done, settings, removed)
}

/// The verdict on a problem, or that its least table has more entries than are allowed. Where the scheme
/// `before` is given, evidence is sought first, with paths along its rules.
pub(crate) fn decide_problem<R: Threads + Wait + Sync, G: Gate + Sync>(
    rt: &R,
    alloc: Global,
    before: Option<&Sorted>,
    problem: &Problem,
    removed: Option<u64>,
    settings: Settings,
    gate: &G,
) -> Result<Decided, Refusal>
    requires flow { HasClosedFlow problem.now }
    requires quick { IfSome before (λ _. settings.quick ≡ true) }
    ensures { (source : SortedData) → IfSome (option_map (λ s. s.now) before.entry) (λ s. s ≡ source)
        → Decides settings source problem.now removed result }
{
    match before {
        Some(before) => decide_by_search(rt, alloc, before, problem, removed, settings, gate),
        None => by_table(rt, alloc, problem, removed, settings, gate),
    }
}
