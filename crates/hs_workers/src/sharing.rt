//! Whether the workers share the works, or one does all of them and the others rest.
//!
//! Nothing is proved of it, and no contract speaks of it. What is formed and known already costs a
//! worker nothing under the turn, so it pays to form it beside others. Where nearly all that is formed
//! is new, workers get into each other's way: each entry is published under the turn, and each of the
//! others reads it, adds it to its replica and indexes it. Then one works on the core itself, and the
//! replicas of the others stay as they are.
//!
//! One that rests is called when the lone worker finds that much is known, or ends. Whoever goes to
//! rest has handed in its works, and rings, since it may leave works pending for one that waits.
//!
//! Where much follows from little, what enters the log next matters more than who does it: once the
//! workers have met two bursts (`Tally` of `hs_core`), all end, and one selects what enters the log. A work by
//! which more follows at a point than the budget is left to that one, too.

use hs_core::{Tally, Work};
use std::sync::Wait;
use std::sync::atomic::AtomicU64;
use std::sync::atomic::Ordering::SeqCst;

/// So many conclusions are formed before it is decided for the first time.
const LEAST: u64 = 2_048;

/// Of so many conclusions one at most is known where a worker becomes the lone one.
const FEW: u64 = 32;

/// So many known conclusions at least have been formed by the lone worker when it calls the others.
const MANY: u64 = 512;

/// So many times the known conclusions that the lone worker has formed are as many as the entries,
/// when it calls the others: those have to read all entries.
const TIMES: u64 = 16;

/// After so many conclusions those before count half.
const LONG: u64 = 32_768;

/// Whether a worker goes on that has closed all its works, or not: it ends where much follows from
/// little.
pub(crate) fn goes_on(closed: bool, tally: &Tally) -> bool {
    closed && !tally.is_bursting()
}

/// The tally behind a work, before which it was `before`: a seed is no burst.
pub(crate) fn tally_behind(work: Work, before: &Tally, tally: &Tally) -> Tally {
    let bursts = match work {
        Work::Seed(_) => before.bursts,
        Work::Place(_) => tally.bursts,
    };
    Tally {
        formed: tally.formed,
        bursts,
    }
}

/// Who works, and how much of what was formed lately was known already.
#[derive(Drop)]
pub(crate) struct Sharing {
    /// The worker that does all works, or 0 where they are shared.
    lone: AtomicU64,
    /// How many conclusions were formed since that has changed.
    formed: AtomicU64,
    /// How many of them were known.
    known: AtomicU64,
    /// How many bursts all have met.
    bursts: AtomicU64,
    /// A work by which more conclusions than this follow at a point is given back, so that it is left to the
    /// one that goes on alone.
    pub(crate) most: usize,
}

impl Sharing {
    pub(crate) fn new(most: usize) -> Sharing {
        Sharing {
            lone: AtomicU64::new(0),
            formed: AtomicU64::new(0),
            known: AtomicU64::new(0),
            bursts: AtomicU64::new(0),
            most,
        }
    }

    /// Whether the worker does all works.
    pub(crate) fn is_lone(&self, worker: u32) -> bool {
        self.lone.load(SeqCst) == worker as u64
    }

    /// Whether another does all works.
    pub(crate) fn is_resting(&self, worker: u32) -> bool {
        let lone = self.lone.load(SeqCst);
        lone != 0 && lone != worker as u64
    }

    /// Whether a worker goes on that has closed all its works, or not. All end where they have met many
    /// bursts together.
    pub(crate) fn goes_on(&self, closed: bool) -> bool {
        let bursts = self.bursts.load(SeqCst) as usize;
        goes_on(closed, &Tally { formed: 0, bursts })
    }

    /// Begins to count anew.
    fn begin(&self) {
        self.formed.store(0, SeqCst);
        self.known.store(0, SeqCst);
    }

    /// The lone worker calls the others.
    pub(crate) fn call(&self, worker: u32) {
        if self.is_lone(worker) {
            self.begin();
            self.lone.store(0, SeqCst);
            self.lone.wake_all();
        }
    }

    /// A worker has formed so many conclusions, of which so many entries were new, and the log has so
    /// many now. It holds the table, so no other counts at the same time.
    pub(crate) fn count(&self, worker: u32, tally: Tally, new: usize, entries: usize) {
        let formed = tally.formed;
        self.bursts.fetch_add(tally.bursts as u64, SeqCst);
        let known = self
            .known
            .load(SeqCst)
            .saturating_add(formed.saturating_sub(new) as u64);
        let formed = self.formed.load(SeqCst).saturating_add(formed as u64);
        self.formed.store(formed, SeqCst);
        self.known.store(known, SeqCst);
        if self.is_lone(worker) {
            if known >= MANY && known.saturating_mul(TIMES) >= entries as u64 {
                self.call(worker);
            }
        } else if !self.is_resting(worker) && formed >= LEAST {
            self.decide(worker, formed, known);
        }
    }

    /// Where few of the conclusions were known, the worker does all works from now on.
    fn decide(&self, worker: u32, formed: u64, known: u64) {
        if known.saturating_mul(FEW) < formed {
            self.begin();
            self.lone.store(worker as u64, SeqCst);
        } else if formed >= LONG {
            self.formed.store(formed / 2, SeqCst);
            self.known.store(known / 2, SeqCst);
        }
    }

    /// Rests until the lone worker calls.
    pub(crate) fn rest<R: Wait>(&self, rt: &R, worker: u32) {
        let lone = self.lone.load(SeqCst);
        if lone != 0 && lone != worker as u64 {
            self.lone.park(rt, (lone & 0xffff_ffff) as u32);
        }
    }
}
