//! Waiting for the lock, and waking who waits.
//!
//! Nothing is proved of it but that it changes no word of the table. By argument: who sleeps was
//! counted before it looked at the lock word for the last time and found it held, so whoever held it
//! then, or since, sees the count when it leaves, and wakes one. Each that is woken leaves in turn,
//! so none of the others sleeps for ever.

use crate::storied::Storied;
use crate::turn::{LOCK, Turn};
use std::hint::spin_loop;
use std::sync::Wait;
use std::sync::atomic::Ordering::SeqCst;

/// How often a thread looks at the lock word before it sleeps. To sleep and to be woken takes as long
/// as some thousand looks.
const LOOKS: u32 = 2_000;

impl<T: Storied> Turn<T> {
    /// Waits until the lock may be free: looks for a while, then sleeps until it is woken.
    pub(crate) fn wait<R: Wait>(&self, rt: &R) {
        let shared = &self.table.shared;
        for _ in 0..LOOKS {
            if shared.peek(LOCK) == 0 {
                return;
            }
            spin_loop();
        }
        self.sleepers.fetch_add(1, SeqCst);
        shared.park(rt, LOCK, 1);
        self.sleepers.fetch_sub(1, SeqCst);
    }

    /// Wakes one that sleeps, where somebody may.
    pub(crate) fn wake(&self) {
        if self.sleepers.load(SeqCst) != 0 {
            self.table.shared.wake_one(LOCK);
        }
    }
}
