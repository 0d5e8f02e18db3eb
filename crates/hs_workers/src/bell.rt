//! Where workers wait that find nothing to take.
//!
//! Nothing is proved of it, and no contract speaks of it: a worker that is never woken would wait for
//! ever, and one that is woken for nothing takes again. By argument, none waits for ever: who waits was
//! counted before it looked for a work for the last time. Whoever leaves works pending after that look
//! sees the count when it tells of them. The last worker that holds a work ends in its turn or goes
//! to rest, and rings.

use crate::sharing::Sharing;
use std::hint::spin_loop;
use std::sync::Wait;
use std::sync::atomic::AtomicU64;
use std::sync::atomic::Ordering::SeqCst;

/// How often a worker looks for a ring before it sleeps.
const LOOKS: u32 = 2_000;

/// A bell that wakes the workers that wait.
#[derive(Drop)]
pub(crate) struct Bell {
    /// How often it has rung.
    rings: AtomicU64,
    /// How many workers have found nothing to take.
    waiting: AtomicU64,
    /// How many workers there are.
    workers: usize,
    /// Whether they share the works.
    pub(crate) sharing: Sharing,
}

impl Bell {
    pub(crate) fn new(workers: usize, most: usize) -> Bell {
        Bell {
            rings: AtomicU64::new(0),
            waiting: AtomicU64::new(0),
            workers,
            sharing: Sharing::new(most),
        }
    }

    /// How many workers there are.
    pub(crate) fn workers(&self) -> usize {
        self.workers
    }

    /// Wakes all who wait.
    pub(crate) fn ring(&self) {
        if self.waiting.load(SeqCst) != 0 {
            self.rings.fetch_add(1, SeqCst);
            self.rings.wake_all();
        }
    }

    /// So many works are pending: wakes all who wait, where there are any.
    pub(crate) fn tell(&self, pending: usize) {
        if pending != 0 {
            self.ring();
        }
    }

    /// A worker found a work. `heard` is what `wait` answered last.
    pub(crate) fn go_on(&self, heard: Option<u64>) -> Option<u64> {
        if heard.is_some() {
            self.waiting.fetch_sub(1, SeqCst);
        }
        None
    }

    /// A worker found nothing to take. At first it is counted among those who wait, and looks again;
    /// then it waits until the bell has rung since it was counted. Answers how often the bell had rung
    /// where the worker is counted.
    pub(crate) fn wait<R: Wait>(&self, rt: &R, heard: Option<u64>) -> Option<u64> {
        let Some(rings) = heard else {
            self.waiting.fetch_add(1, SeqCst);
            return Some(self.rings.load(SeqCst));
        };
        for _ in 0..LOOKS {
            if self.rings.load(SeqCst) != rings {
                return Some(self.rings.load(SeqCst));
            }
            spin_loop();
        }
        self.rings.park(rt, (rings & 0xffff_ffff) as u32);
        Some(self.rings.load(SeqCst))
    }

    /// A worker ends, and wakes all others: none of them waits for it.
    pub(crate) fn end(&self, worker: u32, heard: Option<u64>) {
        self.sharing.call(worker);
        self.go_on(heard);
        self.ring();
    }
}
