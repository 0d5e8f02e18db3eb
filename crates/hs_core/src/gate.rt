//! What a worker passes on its way.

use hs_history::Work;

/// What each worker passes before it forms what follows by a work.
pub trait Gate {
    /// The worker is about to do the work, which it has taken, or, working alone, takes next. It
    /// holds nothing for which others wait.
    fn before(&self, worker: u32, work: Work);
}

/// A gate that lets everybody through.
pub struct Open;

impl Gate for Open {
    fn before(&self, _worker: u32, _work: Work) {}
}
