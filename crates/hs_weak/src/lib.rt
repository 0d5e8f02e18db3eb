//! Tables that keep only strong entries, and what such a table needs to prove that the automaton
//! accepts: the definitions, which types, environments and entries are as strong as others, and the
//! type of void pairs.
//!
//! The definitions stand in `specs/`: `Strength`, `Weak`, `Reads`, `Sites`, `Void` and
//! `Certificate`, with worked examples beside them.
#![tactic(auto)]

mod comparing;
mod laws;
mod void;

pub use comparing::{asks_at_least, covers, is_as_strong};
pub use laws::strength_is_an_order;
pub use void::Void;
