//! Works and events: what the workers on a log do.

/// What is to be done: the conclusions from no entry at a point, or those that rest on the entry at
/// a place of the log. Points and places are counted from 0.
#[derive(Clone, Copy, Debug, PartialEq, Eq, Drop)]
pub enum Work {
    Seed(u32),
    Place(u32),
}

/// A work in flight, with the worker who took it.
#[derive(Clone, Copy, Debug, PartialEq, Eq, Drop)]
pub struct Flight {
    pub worker: u32,
    pub work: Work,
}

/// What a worker does.
#[derive(Clone, Copy, Debug, PartialEq, Eq, Drop)]
pub enum Event {
    /// It takes a pending work, which is in flight under the ticket from then on.
    Take { work: Work, ticket: u32 },
    /// While it holds the ticket, it adds the entry that then stands at this place of the log.
    Added { ticket: u32, place: u32 },
    /// While it holds the ticket, it finds an entry for which the budget has no room. The entry is
    /// kept beside the log.
    PastBudget { ticket: u32 },
    /// It closes the work that is in flight under the ticket.
    Finish { ticket: u32 },
    /// It leaves the work that is in flight under the ticket to others: it is pending again.
    GiveBack { ticket: u32 },
}

/// An event of a worker.
#[derive(Clone, Copy, Debug, PartialEq, Eq, Drop)]
pub struct Step {
    pub worker: u32,
    pub event: Event,
}
