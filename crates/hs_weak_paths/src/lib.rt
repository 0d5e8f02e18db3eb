//! What a list with the start entry says of the value tree, where each of its entries weakly follows
//! from those before it, and what a compact list decides. Each law is the contract of a function that
//! does nothing.
#![tactic(auto)]

mod laws;

pub use laws::{compact_lists_decide, weak_supports_reject};
