//! What follows from a log: all of it at a point, what needs no premises, and what needs one certain
//! entry.
#![tactic(auto)]

mod deduced;
mod extending;
mod following;
mod found;
mod gathering;
mod grouping;
mod head_search;
mod heads;
mod joining;
mod joins;
mod masks;
mod met;
mod nonterminals;
mod order;
mod parameters;
mod search;
mod seeds;
mod sources;
mod terminals;
mod turns;

pub use deduced::{Deduced, deduced_entries_are_in_shape};
pub use following::{conclusions, conclusions_with, conclusions_within, seed_conclusions};
pub use hs_replica::Replica;
pub use order::compare as compare_supports;
