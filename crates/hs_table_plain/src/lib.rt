//! What follows from a list of entries, and the least table, computed as they are defined.
//!
//! The programs try each choice of entries, so they are slow: they serve to compare the fast ways
//! to a table with, on small schemes.
#![tactic(auto)]

mod choices;
mod following;
mod heads;
mod table;
mod union;

pub use following::conclusions;
pub use heads::child_type;
pub use table::{leads_within, least_table};
pub use union::insert_type;
