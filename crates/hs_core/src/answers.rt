//! Answers of a core.

use crate::state::Core;
use hs_history::Work;

/// What `take` answers.
#[derive(Clone, Copy, Debug, PartialEq, Eq, Drop)]
pub enum Taken {
    /// A work, which is in flight under the ticket from now on.
    Item { work: Work, ticket: u32 },
    /// Nothing is left to do: the log is the least table.
    Quiet,
    /// Nothing is pending, but others hold works.
    Idle,
    /// The least table has more entries than the budget.
    Over,
    /// Only the start entry is sought, and it stands at this place of the log.
    Found { place: u32 },
}

/// What `publish` answers.
#[derive(Clone, Copy, Debug, PartialEq, Eq, Drop)]
pub enum Published {
    /// The entry stands at this place already.
    Known { place: u32 },
    /// The entry stands at this place now, the last one.
    Added { place: u32 },
    /// The budget has no room for the entry.
    Over,
}

/// What `drain` answers.
#[derive(Clone, Copy, Debug, PartialEq, Eq, Drop)]
pub enum Drained {
    /// The log is the least table.
    Quiet,
    /// The least table has more entries than the budget.
    Over,
    /// Only the start entry was sought, and it stands at this place of the log.
    Found { place: u32 },
}

/// What saturation answers.
#[derive(Drop)]
pub enum Done<'p> {
    /// The log is the least table, and nothing is pending or in flight.
    Least(Core<'p>),
    /// The least table has more entries than the budget. The log has as many as the budget, and a
    /// further one is kept.
    Over(Core<'p>),
    /// Only the start entry was sought, and the log has it.
    First(Core<'p>),
}
