//! A log of entries without repeats, with the interner that reads its rows, and its look-ups.
//!
//! The definitions stand in `specs/`: `Replica` and `Places`.
#![tactic(auto)]

mod asking;
mod forming;
mod indexing;
mod key;
mod lists;
mod lookups;
mod masked;
mod masks;
mod reaching;
mod replica;
mod typing;

pub use lists::Places;
pub use lookups::each_entry_has_a_first;
pub use replica::Replica;
