//! From the bytes of a file to the verdict.

ghost use Rattle.std.specs.Prelude.{◌≡◌, ◌≤◌, ◌^◌, true, false, length, map, All, IfSome, option_map};
ghost use Rattle.hs_scheme.specs.sorting.Sorted.{SortedData, IsSorted};
ghost use Rattle.hs_app.specs.Problems.{asked_of};
ghost use Rattle.hs_app.specs.Verdict.{DecidesForm, DecidesSorted, IsAnsweredWith};

use crate::deciding::decide_problem;
use hs_front::{Refusal, problem_of, sorted_of};
use hs_passes::{Pass, simplify, weight_of};
use hs_reader::MAX_BYTES;
use hs_scheme::{FailingPath, Problem, Sorted};
use hs_words::Settings;
use hs_workers::Gate;
use std::alloc::Global;
use std::sync::Wait;
use std::thread::Threads;

/// What the automaton makes of the value tree.
#[derive(Clone, Copy)]
pub enum Decision {
    Accepted,
    /// It isn't, and the path that the report shows leads to a terminal without transition.
    Rejected,
    /// It isn't, and the path is longer than is asked for.
    Long,
}

/// A verdict with its report.
#[derive(Drop)]
pub struct Decided {
    pub verdict: Decision,
    /// The bytes of the report.
    pub report: Vec<u8>,
    /// The path that the report shows, where it shows one.
    pub path: Option<FailingPath>,
}

/// What holds of each scheme with its sorts.
fn know_sorted(sorted: &Sorted)
    ensures { IsSorted sorted.now }
{
    let _ = &sorted.names;
}

/// A copy of the scheme that the passes are to make smaller, where evidence is sought. Where memory
/// doesn't suffice for it, none is sought.
fn copy_of(alloc: Global, sorted: &Sorted, settings: Settings) -> Option<Sorted>
    ensures { IfSome result (λ copy. copy ≡ sorted.now) }
{
    if settings.quick {
        sorted.copy(alloc).ok()
    } else {
        None
    }
}

/// The scheme along whose rules the path of evidence leads, where evidence is sought: that of which
/// there is a copy, where the passes made it smaller, and else the problem's.
fn scheme_before<'a>(
    copy: Option<&'a Sorted>,
    problem: &'a Problem,
    settings: Settings,
) -> Option<&'a Sorted>
    ensures quick { IfSome result (λ _. settings.quick ≡ true) }
    ensures is { (before : SortedData) → (settings.simplify ≡ false → before ≡ problem.now.sorted)
        → IfSome (option_map (λ s. s.now) copy.entry) (λ s. s ≡ before)
        → IfSome (option_map (λ s. s.now) result) (λ s. s ≡ before) }
{
    if !settings.quick {
        return None;
    }
    if !settings.simplify {
        return Some(&problem.sorted);
    }
    copy
}

/// The verdict on a scheme from which so much weight was taken off, or which limit it passes. Where it
/// was made smaller, `copy` is what it was before.
fn decide_form<R: Threads + Wait + Sync, G: Gate + Sync>(
    rt: &R,
    alloc: Global,
    copy: Option<&Sorted>,
    form: Sorted,
    removed: Option<u64>,
    settings: Settings,
    gate: &G,
) -> Result<Decided, Refusal>
    ensures { (before : SortedData) → (settings.simplify ≡ false → before ≡ form)
        → IfSome (option_map (λ s. s.now) copy.entry) (λ s. s ≡ before)
        → DecidesForm settings before form removed result }
{
    match problem_of(alloc, form) {
        Ok(problem) => {
            let before = scheme_before(copy, &problem, settings);
            let decided = decide_problem(rt, alloc, before, &problem, removed, settings, gate);
            drop(problem);
            decided
        }
        Err(refusal) => Err(refusal),
    }
}

/// The verdict on a scheme that the passes make smaller before, of which this may be a copy.
fn decide_smaller<R: Threads + Wait + Sync, G: Gate + Sync>(
    rt: &R,
    alloc: Global,
    copy: Option<&Sorted>,
    sorted: Sorted,
    settings: Settings,
    passes: &mut Vec<Box<dyn Pass>>,
    gate: &G,
) -> Result<Decided, Refusal>
    requires simplify { settings.simplify ≡ true }
    requires copy { IfSome (option_map (λ s. s.now) copy) (λ s. s ≡ sorted) }
    requires tallies { All (λ p. taken p ≡ 0) passes.old.items }
    ensures { DecidesSorted (asked_of settings (map (λ p. image p) passes.old.items)) sorted result }
{
    know_sorted(&sorted);
    let before = weight_of(&sorted);
    let form = simplify(alloc, passes, sorted)?;
    let removed = before - weight_of(&form);
    decide_form(rt, alloc, copy, form, Some(removed), settings, gate)
}

/// The verdict on a scheme that the passes make smaller before.
fn decide_simplified<R: Threads + Wait + Sync, G: Gate + Sync>(
    rt: &R,
    alloc: Global,
    sorted: Sorted,
    settings: Settings,
    passes: &mut Vec<Box<dyn Pass>>,
    gate: &G,
) -> Result<Decided, Refusal>
    requires simplify { settings.simplify ≡ true }
    requires tallies { All (λ p. taken p ≡ 0) passes.old.items }
    ensures { DecidesSorted (asked_of settings (map (λ p. image p) passes.old.items)) sorted result }
{
    let copy = copy_of(alloc, &sorted, settings);
    let decided = decide_smaller(rt, alloc, copy.as_ref(), sorted, settings, passes, gate);
    drop(copy);
    decided
}

/// The verdict on a scheme with its sorts, or which limit it passes.
fn decide_scheme<R: Threads + Wait + Sync, G: Gate + Sync>(
    rt: &R,
    alloc: Global,
    sorted: Sorted,
    settings: Settings,
    passes: &mut Vec<Box<dyn Pass>>,
    gate: &G,
) -> Result<Decided, Refusal>
    requires tallies { All (λ p. taken p ≡ 0) passes.old.items }
    ensures { DecidesSorted (asked_of settings (map (λ p. image p) passes.old.items)) sorted result }
{
    know_sorted(&sorted);
    if settings.simplify {
        decide_simplified(rt, alloc, sorted, settings, passes, gate)
    } else {
        decide_form(rt, alloc, None, sorted, None, settings, gate)
    }
}

/// The verdict on the bytes of a file, or why there is none.
pub(crate) fn decide<R: Threads + Wait + Sync, G: Gate + Sync>(
    rt: &R,
    alloc: Global,
    bytes: &[u8],
    settings: Settings,
    passes: &mut Vec<Box<dyn Pass>>,
    gate: &G,
) -> Result<Decided, Refusal>
    requires length { length bytes.now ≤ MAX_BYTES }
    requires tallies { All (λ p. taken p ≡ 0) passes.old.items }
    ensures { IsAnsweredWith (asked_of settings (map (λ p. image p) passes.old.items)) bytes.now result }
{
    match sorted_of(alloc, bytes) {
        Ok(sorted) => decide_scheme(rt, alloc, sorted, settings, passes, gate),
        Err(refusal) => Err(refusal),
    }
}
