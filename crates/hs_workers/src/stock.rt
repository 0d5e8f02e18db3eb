//! What a worker has for itself.

ghost use Rattle.std.specs.Prelude.{◌≡◌, []};

use crate::job::Job;
use hs_core::Tally;
use hs_rules::Replica;
use hs_types::ImportedNumbers;
use std::alloc::Global;

/// What a worker has for itself, beside its seat.
#[derive(Drop)]
pub(crate) struct Stock {
    /// The log, as far as the worker has read it.
    pub(crate) replica: Replica,
    /// What rows are read with, kept so that the next time takes no memory anew.
    pub(crate) imported: ImportedNumbers,
    /// What deductions are published with, kept for the same reason.
    pub(crate) exported: ImportedNumbers,
    /// The works that it holds.
    pub(crate) jobs: Vec<Job>,
    /// How many conclusions it has formed since its last turn, known ones too.
    pub(crate) tally: Tally,
}

impl Stock {
    /// What a worker has that has done nothing yet. Takes no memory.
    pub(crate) fn new(alloc: Global) -> Stock
        ensures log { result.replica.log ≡ [] }
        ensures jobs { result.jobs.items ≡ [] }
    {
        Stock {
            replica: Replica::new(alloc),
            imported: ImportedNumbers::new(alloc),
            exported: ImportedNumbers::new(alloc),
            jobs: Vec::new(alloc),
            tally: Tally::new(),
        }
    }
}
