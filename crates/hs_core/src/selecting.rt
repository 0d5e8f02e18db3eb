//! The works that are left, by one worker that selects what enters the log: conclusions wait, and one
//! enters the log where no work is pending. So each work is done over those that were selected before.

ghost use Rattle.std.specs.Prelude.{◌≡◌, ◌<◌, ◌≤◌, [], ℕ, All, length, IfOk, OnOk, IsTrue, MatchBool, MatchOption};
ghost use Rattle.hs_flow.specs.Dependents.{HasDependents};
ghost use Rattle.hs_types.specs.Interned.{Grows, entry_of};
ghost use Rattle.hs_rules.specs.Conclusions.{DeducedData};
ghost use Rattle.hs_history.specs.CoreStep.{Holds};
ghost use Rattle.hs_history.specs.History.{IsWork};
ghost use Rattle.hs_history.specs.Following.{HasPlace, HasWork};
ghost use Rattle.hs_core.specs.Core.{state_of, log_of};
ghost use Rattle.hs_core.specs.declared.selecting.Progress.TheVariants.{Ended};
ghost use Rattle.hs_core.specs.Draining.{GoesAlone, NothingFlies, IsReady, EndsAtRest};
ghost use Rattle.hs_core.specs.Waiting.{Waits, IsThereOrWaits};
ghost use Rattle.hs_core.specs.Selecting.{AreReady, AreOwn, IsSelecting, AreClosed, IsSurplus, IsEnded, IsIdleCore, IsStill, IsSpent, After, EndsAs};

use crate::answers::{Published, Taken};
use crate::draining::{close, publish_all};
use crate::gate::Gate;
use crate::state::Core;
use crate::waiting::Waiting;
use hs_flow::Dependents;
use hs_history::Work;
use hs_rules::Deduced;
use hs_scheme::OutOfMemory;
use std::alloc::Global;

/// What came of a turn.
#[derive(Clone, Copy, Debug)]
pub(crate) enum Progress {
    /// A work was taken, or a conclusion was published; there may be more to do.
    More,
    /// Nothing is left.
    Done,
    /// No more works are given out.
    Ended,
}

/// Lets what was found wait.
fn keep_waiting(core: &Core, waiting: &mut Waiting, found: Vec<Deduced>) -> Result<(), OutOfMemory>
    requires found { All (IsReady core.now) found.items }
    requires ready { AreReady core.now (Waits waiting.old.found) }
    ensures keeps { (d : DeducedData) → Waits waiting.old.found d → Waits waiting.new.found d }
    ensures ready { AreReady core.now (Waits waiting.new.found) }
    ensures known { OnOk result (All (λ d. IsThereOrWaits core.now.ids (log_of core.now) (Waits waiting.new.found)
        (entry_of core.now.ids d.row)) found.items) }
{
    for deduced in found {
        waiting.add(core.replica(), deduced)?;
    }
    Ok(())
}

/// Lets what follows by the place wait; or, where more than the budget follow at a dependent, answers
/// conclusions there that are more than the budget.
fn form_place(
    alloc: Global,
    core: &mut Core,
    dependents: &Dependents,
    place: u32,
    waiting: &mut Waiting,
) -> Result<Option<Vec<Deduced>>, OutOfMemory>
    requires place { place < length (log_of core.old) }
    requires dependents { HasDependents core.old.base.problem.points core.old.base.problem.flow.pairs
        dependents.now }
    requires ready { AreReady core.old (Waits waiting.old.found) }
    ensures kept { core.new ≡ record core.old { ids = core.new.ids } }
    ensures grows { Grows core.old.ids core.new.ids }
    ensures keeps { (d : DeducedData) → Waits waiting.old.found d → Waits waiting.new.found d }
    ensures ready { AreReady core.new (Waits waiting.new.found) }
    ensures all { IfOk result (λ surplus. MatchOption surplus
        (HasPlace core.old.base.problem (log_of core.old) place
        (IsThereOrWaits core.new.ids (log_of core.old) (Waits waiting.new.found)))
        (λ found. IsSurplus core.new found.items)) }
{
    core.know_core();
    let point = core.replica().row(place).point;
    let before = waiting.len();
    let pairs_before = core.replica().pairs();
    let most = core.budget() as usize;
    let mut formed = 0_u64;
    for dependent in dependents.list(point) {
        let found = core.at_place_within(alloc, *dependent, place, most)?;
        if found.len() > most {
            return Ok(Some(found));
        }
        formed = formed.saturating_add(found.len() as u64);
        keep_waiting(core, waiting, found)?;
    }
    let new = waiting.len().saturating_sub(before) as u64;
    let pairs = core.replica().pairs().saturating_sub(pairs_before);
    waiting.tell(point, pairs, formed, new)?;
    Ok(None)
}

/// Lets what follows by the work wait; or answers more conclusions by it than the budget.
fn form(
    alloc: Global,
    core: &mut Core,
    dependents: &Dependents,
    work: Work,
    waiting: &mut Waiting,
) -> Result<Option<Vec<Deduced>>, OutOfMemory>
    requires work { IsWork core.old.base.problem (log_of core.old) work }
    requires dependents { HasDependents core.old.base.problem.points core.old.base.problem.flow.pairs
        dependents.now }
    requires ready { AreReady core.old (Waits waiting.old.found) }
    ensures kept { core.new ≡ record core.old { ids = core.new.ids } }
    ensures grows { Grows core.old.ids core.new.ids }
    ensures keeps { (d : DeducedData) → Waits waiting.old.found d → Waits waiting.new.found d }
    ensures ready { AreReady core.new (Waits waiting.new.found) }
    ensures all { IfOk result (λ surplus. MatchOption surplus
        (HasWork core.old.base.problem (log_of core.old) work
        (IsThereOrWaits core.new.ids (log_of core.old) (Waits waiting.new.found)))
        (λ found. IsSurplus core.new found.items)) }
{
    match work {
        Work::Seed(point) => {
            let found = core.at_seed(alloc, point)?;
            keep_waiting(core, waiting, found)?;
            Ok(None)
        }
        Work::Place(place) => form_place(alloc, core, dependents, place, waiting),
    }
}

/// Publishes one of those that wait, the first that the log lacks: in order, or whichever is at hand. The
/// worker holds the ticket, where any wait.
fn publish_next(
    core: &mut Core,
    worker: u32,
    ticket: u32,
    waiting: &mut Waiting,
    in_order: bool,
) -> Progress
    requires selecting { IsSelecting worker core.old (Waits waiting.old.found) ticket }
    requires spare { 1 ≤ core.old.spare }
    ensures goes { GoesAlone worker core.old core.new }
    ensures own { AreOwn worker core.new }
    ensures after { After (IsSpent worker core.old core.new (Waits waiting.new.found) ticket) result worker
        core.old core.new (Waits waiting.new.found) ticket }
{
    while let Some(deduced) = waiting.next(in_order) {
        match core.publish(worker, ticket, deduced) {
            Published::Known { place: _ } => {}
            Published::Added { place: _ } => {
                return Progress::More;
            }
            Published::Over => {
                return Progress::Ended;
            }
        }
    }
    Progress::Done
}

/// Publishes one of those that wait, where they and the log are more than the budget. All of them will be
/// published up to the one that is over, so in whichever order takes least time. The worker holds the
/// ticket, where any wait.
fn publish_surplus(core: &mut Core, worker: u32, ticket: u32, waiting: &mut Waiting) -> Progress
    requires selecting { IsSelecting worker core.old (Waits waiting.old.found) ticket }
    requires spare { 1 ≤ core.old.spare }
    ensures goes { GoesAlone worker core.old core.new }
    ensures own { AreOwn worker core.new }
    ensures after { After (IsStill worker core.old core.new (Waits waiting.new.found) ticket) result worker
        core.old core.new (Waits waiting.new.found) ticket }
{
    let room = core.budget().saturating_sub(core.len());
    let is_surplus = waiting.len() > room as usize;
    if is_surplus {
        return publish_next(core, worker, ticket, waiting, false);
    }
    Progress::Done
}

/// Publishes conclusions that are more than the budget, up to the one that is over. The worker holds the
/// ticket.
fn overflow(
    core: &mut Core,
    worker: u32,
    ticket: u32,
    found: Vec<Deduced>,
) -> Result<Progress, OutOfMemory>
    requires holds { Holds (state_of core.old) worker ticket }
    requires own { AreOwn worker core.old }
    requires surplus { IsSurplus core.old found.items }
    ensures goes { GoesAlone worker core.old core.new }
    ensures own { AreOwn worker core.new }
    ensures ended { IfOk result (λ progress. (progress ≡ Ended) × IsEnded core.new) }
{
    publish_all(core, worker, ticket, found)?;
    core.know_core();
    Ok(Progress::Ended)
}

/// Takes a work, passes the gate and lets what follows by it wait; or publishes one of those that wait,
/// where no work is pending, or they and the log are more than the budget. Of more conclusions by one work
/// than the budget none waits: they are published up to the one that is over. The ticket of the work that was
/// taken last is `last`.
fn select_turn<G: Gate>(
    alloc: Global,
    core: &mut Core,
    dependents: &Dependents,
    worker: u32,
    gate: &G,
    waiting: &mut Waiting,
    last: &mut u32,
) -> Result<Progress, OutOfMemory>
    requires dependents { HasDependents core.old.base.problem.points core.old.base.problem.flow.pairs
        dependents.now }
    requires selecting { IsSelecting worker core.old (Waits waiting.old.found) last.old }
    ensures goes { GoesAlone worker core.old core.new }
    ensures own { AreOwn worker core.new }
    ensures after { IfOk result (λ progress. After (AreClosed core.new × IsIdleCore core.new) progress worker
        core.old core.new (Waits waiting.new.found) last.new) }
{
    core.reserve_some()?;
    let progress = publish_surplus(core, worker, *last, waiting);
    let Progress::Done = progress else {
        return Ok(progress);
    };
    core.know_core();
    match core.take(worker) {
        Taken::Item { work, ticket } => {
            *last = ticket;
            gate.before(worker, work);
            match form(alloc, core, dependents, work, waiting)? {
                None => Ok(Progress::More),
                Some(found) => overflow(core, worker, ticket, found),
            }
        }
        Taken::Over | Taken::Found { place: _ } => Ok(Progress::Ended),
        Taken::Idle | Taken::Quiet => Ok(publish_next(core, worker, *last, waiting, true)),
    }
}

/// Takes turns until nothing is left, which it answers, or no more works are given out. Nothing waits at
/// first.
fn select_all<G: Gate>(
    alloc: Global,
    core: &mut Core,
    dependents: &Dependents,
    worker: u32,
    gate: &G,
    waiting: &mut Waiting,
) -> Result<bool, OutOfMemory>
    requires flight { NothingFlies core.old }
    requires dependents { HasDependents core.old.base.problem.points core.old.base.problem.flow.pairs
        dependents.now }
    requires empty { waiting.old.found.entries ≡ [] }
    ensures goes { GoesAlone worker core.old core.new }
    ensures own { AreOwn worker core.new }
    ensures ends { IfOk result (λ done. MatchBool done (AreClosed core.new × IsIdleCore core.new)
        (IsEnded core.new)) }
{
    let mut last = 0;
    loop {
        let progress = select_turn(alloc, core, dependents, worker, gate, waiting, &mut last)?;
        match progress {
            Progress::More => {}
            Progress::Done => {
                return Ok(true);
            }
            Progress::Ended => {
                return Ok(false);
            }
        }
    }
}

/// Ends each work in flight, all of which the worker holds: closes it where `closed` says that the log
/// has what follows by it, and else gives it back.
fn end_all(core: &mut Core, worker: u32, closed: bool)
    requires own { AreOwn worker core.old }
    requires closed { IsTrue closed → AreClosed core.old }
    ensures goes { GoesAlone worker core.old core.new }
    ensures flight { NothingFlies core.new }
    ensures left { EndsAs closed core.old core.new }
{
    for ticket in 0..core.tickets_bound() {
        if let Some(_flight) = core.flight(ticket) {
            let _all = close(core, worker, ticket, Ok(closed));
        }
    }
}

/// Does the works that are pending, as this worker, until nothing is left or `take` gives out none, as
/// `work_alone` does, but what follows waits from the beginning. The worker passes the gate before each
/// work that it does. Nothing is in flight, and the dependents are those of the core's problem. After a
/// refusal of memory the story has gone on, and nothing is in flight.
pub fn select_alone<G: Gate>(
    alloc: Global,
    core: &mut Core,
    dependents: &Dependents,
    worker: u32,
    gate: &G,
) -> Result<(), OutOfMemory>
    requires flight { NothingFlies core.old }
    requires dependents { HasDependents core.old.base.problem.points core.old.base.problem.flow.pairs
        dependents.now }
    ensures goes { GoesAlone worker core.old core.new }
    ensures flight { NothingFlies core.new }
    ensures ends { OnOk result (EndsAtRest core.new) }
{
    let mut waiting = Waiting::new(alloc);
    let done = select_all(alloc, core, dependents, worker, gate, &mut waiting);
    drop(waiting);
    match done {
        Ok(closed) => {
            end_all(core, worker, closed);
            Ok(())
        }
        Err(refused) => {
            end_all(core, worker, false);
            Err(refused)
        }
    }
}
