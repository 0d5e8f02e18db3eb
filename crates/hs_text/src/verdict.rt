//! What a run comes to.

use hs_scheme::FailingPath;

/// What a run comes to, where it comes to a verdict. `entries` is the number of entries of the
/// table.
#[derive(Debug, Drop)]
pub enum Verdict {
    /// The automaton accepts. `checked` is the number of instances of the table.
    Accepted { entries: u32, checked: u64 },
    /// It doesn't, and fails at the end of this path.
    Rejected { entries: u32, path: FailingPath },
    /// It doesn't, and the path to a failure is longer than so many steps.
    Long { entries: u32, steps: u64 },
}
