//! The canonical log of a problem: the least table in an order, and with supports, that depend on
//! nothing but the problem.
#![tactic(auto)]

mod buckets;
mod comparing;
mod gathering;
mod laws;
mod merging;
mod ordering;

pub use gathering::{Fresh, keep_new, room_for};
pub use laws::{canonical_logs_are_equal, least_supports_are_canonical};
pub use merging::{places_in_order, take_out};
