//! The table that workers share: a core behind a turn.
//!
//! Each worker has a seat. A call of a seat waits until no other is under way, and then does a step
//! on the core, or none; or the seat holds the core for a while, and does several. What the core has
//! gone through is one story, a list of steps of workers. A seat remembers how much of it it has seen
//! and which steps are its own, and each call finds a core whose story begins with the one and has the
//! other in it, each step once. So what the seat has seen is still so, and nothing has to be compared.
//!
//! The definitions stand in `specs/`: `Seats`, `Calls` and `Holding`.
#![tactic(auto)]

mod held;
mod hold;
mod holding;
mod table;

pub use held::{CoreBase, Held, Told};
pub use holding::Hold;
pub use hs_core::{Core, Deduced, Published, Replica, Taken, Tally, Work};
pub use hs_turn::{Rested, Seat};
pub use table::{RestedSeat, SharedTable};
