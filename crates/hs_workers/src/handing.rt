//! What a worker does while it holds the table.

ghost use Rattle.std.specs.Prelude.{◌≡◌, ℕ, [], None, IfOk, IsTrue, All, Contains};
ghost use mathlib.Core.List.{IsPrefix};
ghost use Rattle.hs_types.specs.Interned.{entry_of};
ghost use Rattle.hs_types.specs.Translations.{AreFound};
ghost use Rattle.hs_rules.specs.Conclusions.{IsDeduced};
ghost use Rattle.hs_replica.specs.Extending.{CanExtend, extended};
ghost use Rattle.hs_history.specs.CoreStep.{Holds, put, IsClosedWork};
ghost use Rattle.hs_history.specs.History.{IsWork};
ghost use Rattle.hs_core.specs.Core.{state_of, log_of};
ghost use Rattle.hs_core.specs.Draining.{SameFlight};
ghost use Rattle.hs_shared.specs.Holding.{IsHolding};
ghost use Rattle.hs_workers.specs.Forming.{HasFound};
ghost use Rattle.hs_workers.specs.Jobs.{key, keys, Carries, CarriesAll, IsUnformed, IsFormed};
ghost use Rattle.hs_workers.specs.Working.{StepsInHold, IfServes, IfEnds};

use crate::common::Common;
use crate::job::Job;
use crate::sharing::{goes_on, tally_behind};
use crate::stock::Stock;
use hs_core::{Published, Taken, Tally};
use hs_rules::{Deduced, Replica};
use hs_scheme::OutOfMemory;
use hs_shared::{Held, Hold, Seat};
use hs_types::{ImportedNumbers, Row};
use std::mem::replace;

/// A worker takes at most so many works at once.
const MOST: usize = 256;

/// What a worker does next.
#[derive(Clone, Copy)]
pub(crate) enum Next {
    /// It forms what follows by the works that it has taken.
    Serve,
    /// It passes the gate before the works that it has taken, and does them in its next turn, on the
    /// core itself.
    Pass,
    /// It rests until it is called.
    Rest,
    /// Nothing is pending, but others hold works: it takes again once the bell has rung.
    Wait,
    /// It ends.
    End,
}

/// Publishes a deduction under the ticket. Answers whether the budget had room for it.
fn publish_one<'p>(
    hold: &mut Hold<'_, 'p>,
    seat: &mut Seat<Held<'p>>,
    ticket: u32,
    replica: &Replica,
    deduced: &Deduced,
    exported: &mut ImportedNumbers,
) -> Result<bool, OutOfMemory>
    requires holds { IsHolding seat.old hold.old }
    requires ticket { Holds (state_of hold.old.core) seat.old.known.number ticket }
    requires begins { IsPrefix replica.now.log (log_of hold.old.core) }
    requires deduced { IsDeduced hold.old.core.base.problem replica.now.ids replica.now.log deduced.now }
    requires exported { AreFound replica.now.ids hold.old.core.ids exported.old }
    ensures exported { AreFound replica.now.ids hold.new.core.ids exported.new }
    ensures goes { StepsInHold seat.old seat.new hold.old hold.new }
    ensures flight { SameFlight hold.old.core hold.new.core }
    ensures there { IfOk result (λ room. IsTrue room →
        Contains (log_of hold.new.core) (entry_of replica.now.ids deduced.now.row)) }
{
    let published = hold.publish(seat, ticket, replica, deduced, exported)?;
    if let Published::Over = published {
        return Ok(false);
    }
    Ok(true)
}

/// Publishes what was found under the ticket. Answers whether the budget had room for all of it.
fn publish_all<'p>(
    hold: &mut Hold<'_, 'p>,
    seat: &mut Seat<Held<'p>>,
    ticket: u32,
    replica: &Replica,
    found: &[Deduced],
    exported: &mut ImportedNumbers,
) -> Result<bool, OutOfMemory>
    requires holds { IsHolding seat.old hold.old }
    requires ticket { Holds (state_of hold.old.core) seat.old.known.number ticket }
    requires begins { IsPrefix replica.now.log (log_of hold.old.core) }
    requires found { All (IsDeduced hold.old.core.base.problem replica.now.ids replica.now.log) found.now }
    requires exported { AreFound replica.now.ids hold.old.core.ids exported.old }
    ensures exported { AreFound replica.now.ids hold.new.core.ids exported.new }
    ensures goes { StepsInHold seat.old seat.new hold.old hold.new }
    ensures flight { SameFlight hold.old.core hold.new.core }
    ensures all { IfOk result (λ all. IsTrue all
        → HasFound replica.now.ids found.now (log_of hold.new.core)) }
{
    for deduced in found {
        if !publish_one(hold, seat, ticket, replica, deduced, exported)? {
            return Ok(false);
        }
    }
    Ok(true)
}

/// Publishes what was formed for the work, where `going` is set. Answers whether that is all that
/// follows by it.
fn publish_job<'p>(
    hold: &mut Hold<'_, 'p>,
    seat: &mut Seat<Held<'p>>,
    replica: &Replica,
    job: &Job,
    going: bool,
    exported: &mut ImportedNumbers,
) -> bool
    requires holds { IsHolding seat.old hold.old }
    requires ticket { Holds (state_of hold.old.core) seat.old.known.number job.now.ticket }
    requires begins { IsPrefix replica.now.log (log_of hold.old.core) }
    requires formed { IsFormed hold.old.core.base.problem replica.now.ids replica.now.log job.now }
    requires exported { AreFound replica.now.ids hold.old.core.ids exported.old }
    ensures exported { AreFound replica.now.ids hold.new.core.ids exported.new }
    ensures goes { StepsInHold seat.old seat.new hold.old hold.new }
    ensures flight { SameFlight hold.old.core hold.new.core }
    ensures closed { IsTrue result
        → IsClosedWork hold.new.core.base.problem (log_of hold.new.core) job.now.work }
{
    if !going {
        return false;
    }
    let Some(found) = &job.found else {
        return false;
    };
    match publish_all(hold, seat, job.ticket, replica, found.as_slice(), exported) {
        Ok(all) => all,
        Err(_) => false,
    }
}

/// Publishes what was formed for the work and closes it, where `going` is set; or gives it back.
/// Answers whether it is closed.
fn settle<'p>(
    hold: &mut Hold<'_, 'p>,
    seat: &mut Seat<Held<'p>>,
    replica: &Replica,
    job: &Job,
    going: bool,
    exported: &mut ImportedNumbers,
) -> bool
    requires holds { IsHolding seat.old hold.old }
    requires flies { (state_of hold.old.core).flight job.now.ticket ≡ Some
        (record { worker = seat.old.known.number; work = job.now.work }) }
    requires begins { IsPrefix replica.now.log (log_of hold.old.core) }
    requires formed { IsFormed hold.old.core.base.problem replica.now.ids replica.now.log job.now }
    requires exported { AreFound replica.now.ids hold.old.core.ids exported.old }
    ensures exported { AreFound replica.now.ids hold.new.core.ids exported.new }
    ensures goes { StepsInHold seat.old seat.new hold.old hold.new }
    ensures flight { (ticket : ℕ) → (state_of hold.new.core).flight ticket ≡ put job.now.ticket None
        (state_of hold.old.core).flight ticket }
{
    if publish_job(hold, seat, replica, job, going, exported) {
        hold.finish(seat, job.ticket);
        return true;
    }
    hold.give_back(seat, job.ticket);
    false
}

/// Publishes what was formed for the works and closes them, as long as there are memory and room; the
/// others it gives back. Answers whether all are closed.
fn hand_in<'p>(
    hold: &mut Hold<'_, 'p>,
    seat: &mut Seat<Held<'p>>,
    replica: &Replica,
    jobs: Vec<Job>,
    exported: &mut ImportedNumbers,
) -> bool
    requires holds { IsHolding seat.old hold.old }
    requires carries { Carries seat.old.known.number (state_of hold.old.core).flight (keys jobs.items) }
    requires all { CarriesAll seat.old.known.number (state_of hold.old.core).flight (keys jobs.items) }
    requires begins { IsPrefix replica.now.log (log_of hold.old.core) }
    requires formed { All (IsFormed hold.old.core.base.problem replica.now.ids replica.now.log) jobs.items }
    ensures goes { StepsInHold seat.old seat.new hold.old hold.new }
    ensures all { CarriesAll seat.new.known.number (state_of hold.new.core).flight [] }
{
    exported.clear();
    let mut going = true;
    for job in jobs {
        going = settle(hold, seat, replica, &job, going, exported);
        drop(job);
    }
    going
}

/// Does the work on the core itself, where `going` is set; or gives it back. Answers whether it is
/// closed, and not much follows from little.
fn do_one<'p>(
    common: &Common<'_, '_>,
    hold: &mut Hold<'_, 'p>,
    seat: &mut Seat<Held<'p>>,
    job: &Job,
    going: bool,
    tally: &mut Tally,
) -> bool
    requires holds { IsHolding seat.old hold.old }
    requires flies { (state_of hold.old.core).flight job.now.ticket ≡ Some
        (record { worker = seat.old.known.number; work = job.now.work }) }
    requires upon { hold.old.core.base.problem ≡ common.now.problem }
    ensures goes { StepsInHold seat.old seat.new hold.old hold.new }
    ensures flight { (ticket : ℕ) → (state_of hold.new.core).flight ticket ≡ put job.now.ticket None
        (state_of hold.old.core).flight ticket }
{
    if !going {
        hold.give_back(seat, job.ticket);
        return false;
    }
    let before = *tally;
    let done = hold.work(
        common.alloc,
        seat,
        common.dependents,
        job.work,
        job.ticket,
        tally,
    );
    *tally = tally_behind(job.work, &before, tally);
    goes_on(done.unwrap_or(false), tally)
}

/// Does the works on the core itself, as long as there are memory and room, and until much follows from
/// little; the others it gives back. Answers whether all are closed. Adds to `tally` how many conclusions
/// were formed, known ones too.
fn do_each<'p>(
    common: &Common<'_, '_>,
    hold: &mut Hold<'_, 'p>,
    seat: &mut Seat<Held<'p>>,
    jobs: Vec<Job>,
    tally: &mut Tally,
) -> bool
    requires holds { IsHolding seat.old hold.old }
    requires carries { Carries seat.old.known.number (state_of hold.old.core).flight (keys jobs.items) }
    requires all { CarriesAll seat.old.known.number (state_of hold.old.core).flight (keys jobs.items) }
    requires upon { hold.old.core.base.problem ≡ common.now.problem }
    ensures goes { StepsInHold seat.old seat.new hold.old hold.new }
    ensures all { CarriesAll seat.new.known.number (state_of hold.new.core).flight [] }
{
    let mut going = true;
    for job in jobs {
        going = do_one(common, hold, seat, &job, going, tally);
        drop(job);
    }
    going
}

/// Takes a work, where there is one.
fn take_one<'p>(
    hold: &mut Hold<'_, 'p>,
    seat: &mut Seat<Held<'p>>,
    jobs: &mut Vec<Job>,
) -> Result<Taken, OutOfMemory>
    requires holds { IsHolding seat.old hold.old }
    requires carries { Carries seat.old.known.number (state_of hold.old.core).flight (keys jobs.old.items) }
    requires all { CarriesAll seat.old.known.number (state_of hold.old.core).flight (keys jobs.old.items) }
    requires unformed { All IsUnformed jobs.old.items }
    ensures goes { StepsInHold seat.old seat.new hold.old hold.new }
    ensures log { log_of hold.new.core ≡ log_of hold.old.core }
    ensures carries { Carries seat.new.known.number (state_of hold.new.core).flight (keys jobs.new.items) }
    ensures all { CarriesAll seat.new.known.number (state_of hold.new.core).flight (keys jobs.new.items) }
    ensures unformed { All IsUnformed jobs.new.items }
{
    jobs.reserve(1)?;
    let taken = hold.take(seat)?;
    if let Taken::Item { work, ticket } = taken {
        jobs.push_reserved(Job {
            work,
            ticket,
            found: None,
        });
    }
    Ok(taken)
}

/// Takes as many works as that, where there are so many.
fn take_some<'p>(
    hold: &mut Hold<'_, 'p>,
    seat: &mut Seat<Held<'p>>,
    jobs: &mut Vec<Job>,
    share: usize,
) -> Next
    requires holds { IsHolding seat.old hold.old }
    requires carries { Carries seat.old.known.number (state_of hold.old.core).flight (keys jobs.old.items) }
    requires all { CarriesAll seat.old.known.number (state_of hold.old.core).flight (keys jobs.old.items) }
    requires unformed { All IsUnformed jobs.old.items }
    ensures goes { StepsInHold seat.old seat.new hold.old hold.new }
    ensures log { log_of hold.new.core ≡ log_of hold.old.core }
    ensures carries { Carries seat.new.known.number (state_of hold.new.core).flight (keys jobs.new.items) }
    ensures all { CarriesAll seat.new.known.number (state_of hold.new.core).flight (keys jobs.new.items) }
    ensures unformed { All IsUnformed jobs.new.items }
{
    for _ in 0..share {
        match take_one(hold, seat, jobs) {
            Ok(Taken::Item { .. }) => {}
            Ok(Taken::Idle) => return Next::Wait,
            Ok(_) => return Next::End,
            Err(_) => return Next::End,
        }
    }
    Next::Serve
}

/// How many works a worker takes at once: its share of the pending works, so that all workers have
/// something to do, but at least one.
fn share_of(pending: usize, workers: usize) -> usize {
    let share = pending / workers.max(1);
    share.max(1).min(MOST)
}

/// Takes the worker's share of the pending works, and reads the rows of the entries that the replica
/// lacks, where it took any. Where memory is refused for the rows it gives the works back.
fn take_and_read<'p>(
    common: &Common<'_, '_>,
    hold: &mut Hold<'_, 'p>,
    seat: &mut Seat<Held<'p>>,
    stock: &mut Stock,
    rows: &mut Vec<Row>,
) -> Next
    requires holds { IsHolding seat.old hold.old }
    requires begins { IsPrefix stock.old.replica.log (log_of hold.old.core) }
    requires none { rows.old.items ≡ [] }
    requires free { stock.old.jobs.items ≡ [] }
    requires all { CarriesAll seat.old.known.number (state_of hold.old.core).flight [] }
    ensures goes { StepsInHold seat.old seat.new hold.old hold.new }
    ensures fits { CanExtend stock.new.replica rows.new.items }
    ensures begins { IsPrefix (extended stock.new.replica rows.new.items) (log_of hold.new.core) }
    ensures carries { Carries seat.new.known.number (state_of hold.new.core).flight
        (keys stock.new.jobs.items) }
    ensures all { CarriesAll seat.new.known.number (state_of hold.new.core).flight
        (keys stock.new.jobs.items) }
    ensures ends { IfEnds result (stock.new.jobs.items ≡ []) }
    ensures unformed { All IsUnformed stock.new.jobs.items }
    ensures works { IfServes result (All (λ j. IsWork hold.new.core.base.problem
        (extended stock.new.replica rows.new.items) j.work) stock.new.jobs.items) }
{
    let _known = stock.replica.len();
    let share = share_of(hold.pending(), common.bell.workers());
    let next = take_some(hold, seat, &mut stock.jobs, share);
    if stock.jobs.is_empty() {
        return next;
    }
    let Ok(read) = hold.read_new(&mut stock.replica, &mut stock.imported) else {
        let taken = replace(&mut stock.jobs, Vec::new(common.alloc));
        let _ = hand_in(hold, seat, &stock.replica, taken, &mut stock.exported);
        return Next::End;
    };
    *rows = read;
    Next::Serve
}

/// Takes further works. A worker that does all works reads no rows, and one that rests takes nothing.
fn take_next<'p>(
    common: &Common<'_, '_>,
    hold: &mut Hold<'_, 'p>,
    seat: &mut Seat<Held<'p>>,
    stock: &mut Stock,
    rows: &mut Vec<Row>,
) -> Next
    requires holds { IsHolding seat.old hold.old }
    requires begins { IsPrefix stock.old.replica.log (log_of hold.old.core) }
    requires none { rows.old.items ≡ [] }
    requires free { stock.old.jobs.items ≡ [] }
    requires all { CarriesAll seat.old.known.number (state_of hold.old.core).flight [] }
    ensures goes { StepsInHold seat.old seat.new hold.old hold.new }
    ensures fits { CanExtend stock.new.replica rows.new.items }
    ensures begins { IsPrefix (extended stock.new.replica rows.new.items) (log_of hold.new.core) }
    ensures carries { Carries seat.new.known.number (state_of hold.new.core).flight
        (keys stock.new.jobs.items) }
    ensures all { CarriesAll seat.new.known.number (state_of hold.new.core).flight
        (keys stock.new.jobs.items) }
    ensures ends { IfEnds result (stock.new.jobs.items ≡ []) }
    ensures unformed { All IsUnformed stock.new.jobs.items }
    ensures works { IfServes result (All (λ j. IsWork hold.new.core.base.problem
        (extended stock.new.replica rows.new.items) j.work) stock.new.jobs.items) }
{
    let _known = stock.replica.len();
    let sharing = &common.bell.sharing;
    if sharing.is_resting(seat.number()) {
        return Next::Rest;
    }
    if !sharing.is_lone(seat.number()) {
        return take_and_read(common, hold, seat, stock, rows);
    }
    let next = take_some(hold, seat, &mut stock.jobs, share_of(hold.pending(), 1));
    if stock.jobs.is_empty() {
        next
    } else {
        Next::Pass
    }
}

/// Hands in the works that are done; or, where the worker does all works, does them now, on the core
/// itself. Answers whether all are closed, and not much follows from little. The tally says how many
/// conclusions it has formed since its last turn, known ones too.
fn hand_over<'p>(
    common: &Common<'_, '_>,
    hold: &mut Hold<'_, 'p>,
    seat: &mut Seat<Held<'p>>,
    stock: &mut Stock,
) -> bool
    requires holds { IsHolding seat.old hold.old }
    requires carries { Carries seat.old.known.number (state_of hold.old.core).flight
        (keys stock.old.jobs.items) }
    requires all { CarriesAll seat.old.known.number (state_of hold.old.core).flight
        (keys stock.old.jobs.items) }
    requires begins { IsPrefix stock.old.replica.log (log_of hold.old.core) }
    requires formed { All (IsFormed hold.old.core.base.problem stock.old.replica.ids stock.old.replica.log)
        stock.old.jobs.items }
    requires upon { hold.old.core.base.problem ≡ common.now.problem }
    ensures goes { StepsInHold seat.old seat.new hold.old hold.new }
    ensures free { stock.new.jobs.items ≡ [] }
    ensures all { CarriesAll seat.new.known.number (state_of hold.new.core).flight [] }
    ensures replica { stock.new.replica ≡ stock.old.replica }
{
    let jobs = replace(&mut stock.jobs, Vec::new(common.alloc));
    let sharing = &common.bell.sharing;
    let worker = seat.number();
    let before = hold.entries();
    let all = if sharing.is_lone(worker) {
        do_each(common, hold, seat, jobs, &mut stock.tally)
    } else {
        hand_in(hold, seat, &stock.replica, jobs, &mut stock.exported)
    };
    let entries = hold.entries();
    let new = entries.saturating_sub(before);
    let tally = replace(&mut stock.tally, Tally::new());
    sharing.count(worker, tally, new, entries);
    sharing.goes_on(all)
}

/// Hands in the works that are done, and takes further ones. Answers what the worker does next, which
/// ends where it hasn't closed all works, memory is refused, or much follows from little.
pub(crate) fn turn<'p>(
    common: &Common<'_, '_>,
    hold: &mut Hold<'_, 'p>,
    seat: &mut Seat<Held<'p>>,
    stock: &mut Stock,
    rows: &mut Vec<Row>,
) -> Next
    requires holds { IsHolding seat.old hold.old }
    requires carries { Carries seat.old.known.number (state_of hold.old.core).flight
        (keys stock.old.jobs.items) }
    requires all { CarriesAll seat.old.known.number (state_of hold.old.core).flight
        (keys stock.old.jobs.items) }
    requires begins { IsPrefix stock.old.replica.log (log_of hold.old.core) }
    requires formed { All (IsFormed hold.old.core.base.problem stock.old.replica.ids stock.old.replica.log)
        stock.old.jobs.items }
    requires none { rows.old.items ≡ [] }
    requires upon { hold.old.core.base.problem ≡ common.now.problem }
    ensures goes { StepsInHold seat.old seat.new hold.old hold.new }
    ensures fits { CanExtend stock.new.replica rows.new.items }
    ensures begins { IsPrefix (extended stock.new.replica rows.new.items) (log_of hold.new.core) }
    ensures carries { Carries seat.new.known.number (state_of hold.new.core).flight
        (keys stock.new.jobs.items) }
    ensures all { CarriesAll seat.new.known.number (state_of hold.new.core).flight
        (keys stock.new.jobs.items) }
    ensures ends { IfEnds result (stock.new.jobs.items ≡ []) }
    ensures unformed { All IsUnformed stock.new.jobs.items }
    ensures works { IfServes result (All (λ j. IsWork hold.new.core.base.problem
        (extended stock.new.replica rows.new.items) j.work) stock.new.jobs.items) }
{
    let _known = stock.replica.len();
    if !hand_over(common, hold, seat, stock) {
        return Next::End;
    }
    take_next(common, hold, seat, stock, rows)
}
