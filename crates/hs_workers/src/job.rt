//! Works that a worker holds, and what it forms for them.

ghost use Rattle.std.specs.Prelude.{◌≡◌, All};
ghost use Rattle.hs_table.specs.Entries.{InShape};
ghost use Rattle.hs_types.specs.Interned.{Grows};
ghost use Rattle.hs_history.specs.History.{IsWork};
ghost use Rattle.hs_workers.specs.Jobs.{IsFormed, keys};

use crate::common::Common;
use crate::forming::form;
use crate::stock::Stock;
use hs_core::{Gate, Tally, Work};
use hs_rules::{Deduced, Replica};
use std::mem::replace;

/// A work that a worker holds under the ticket, and what follows by it and isn't in the log, once that
/// is formed.
#[derive(Drop)]
pub(crate) struct Job {
    pub work: Work,
    pub ticket: u32,
    pub found: Option<Vec<Deduced>>,
}

/// What follows by the work, or `None` where memory is refused, more follows at a point than the budget, or
/// much has followed from little.
fn formed(common: &Common<'_, '_>, replica: &mut Replica, job: Job, tally: &mut Tally) -> Job
    requires work { IsWork common.now.problem replica.old.log job.work }
    requires shape { All (InShape common.now.problem) replica.old.log }
    ensures log { replica.new.log ≡ replica.old.log }
    ensures grows { Grows replica.old.ids replica.new.ids }
    ensures work { result.work ≡ job.work }
    ensures ticket { result.ticket ≡ job.ticket }
    ensures formed { IsFormed common.now.problem replica.new.ids replica.new.log result }
{
    let work = job.work;
    let ticket = job.ticket;
    drop(job);
    if tally.is_bursting() {
        return Job {
            work,
            ticket,
            found: None,
        };
    }
    match form(common, replica, work, tally) {
        Ok(found) => Job {
            work,
            ticket,
            found: Some(found),
        },
        Err(_) => Job {
            work,
            ticket,
            found: None,
        },
    }
}

/// Passes the gate before each work.
pub(crate) fn pass_each<G: Gate>(gate: &G, worker: u32, jobs: &[Job]) {
    for job in jobs {
        gate.before(worker, job.work);
    }
}

/// Forms what follows by each work, as far as there is memory, no more than the budget follows at a point, and
/// until much follows from little, and passes the gate before each. Adds to the tally how many conclusions were formed, known ones too.
pub(crate) fn form_each<G: Gate>(common: &Common<'_, '_>, gate: &G, worker: u32, stock: &mut Stock)
    requires works { All (λ j. IsWork common.now.problem stock.old.replica.log j.work) stock.old.jobs.items }
    requires formed { All (IsFormed common.now.problem stock.old.replica.ids stock.old.replica.log)
        stock.old.jobs.items }
    requires shape { All (InShape common.now.problem) stock.old.replica.log }
    ensures log { stock.new.replica.log ≡ stock.old.replica.log }
    ensures keys { keys stock.new.jobs.items ≡ keys stock.old.jobs.items }
    ensures formed { All (IsFormed common.now.problem stock.new.replica.ids stock.new.replica.log)
        stock.new.jobs.items }
{
    let Ok(room) = Vec::with_capacity(common.alloc, stock.jobs.len()) else {
        return;
    };
    for job in replace(&mut stock.jobs, room) {
        gate.before(worker, job.work);
        let done = formed(common, &mut stock.replica, job, &mut stock.tally);
        stock.jobs.push_reserved(done);
    }
}
