//! The core of saturation: a log of entries to which workers add what follows, with the works that
//! are left, and a budget.
//!
//! Workers take works, publish what follows by them and finish them, or give them back. Whatever
//! they do in whatever order, the log is supported, and where nothing is left to do it is the least
//! table (`hs_history`). Contracts see a core as its problem, budget and flag, and the story of what
//! has happened.
#![tactic(auto)]

mod alone;
mod answers;
mod backing;
mod concluding;
mod draining;
mod gate;
mod journal;
mod pending;
mod priority;
mod selecting;
mod start;
mod state;
mod steps;
mod tally;
mod tickets;
mod waiting;

pub use alone::saturate_alone;
pub use answers::{Done, Drained, Published, Taken};
pub use draining::{do_work, drain, work_alone};
pub use gate::{Gate, Open};
pub use hs_history::{Event, Flight, Step, Work};
pub use hs_rules::{Deduced, Replica};
pub use journal::{Journal, JournalSteps};
pub use selecting::select_alone;
pub use state::Core;
pub use tally::Tally;
