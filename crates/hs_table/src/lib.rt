//! Types of rejected terms, entries, what follows from a list of entries, and the least table: the
//! definitions that the verdict rests on.
//!
//! A type says how a term is rejected, and an entry that a point of a scheme is rejected by a type
//! where the parameters of its rule are rejected by theirs. The definitions stand in `specs/`:
//! `Types`, `Entries`, `Follows` and `Tables`. They are after Kobayashi, "Types and higher-order
//! recursion schemes for verification of higher-order programs" (POPL 2009), and Broadbent and
//! Kobayashi, "Saturation-based model checking of higher-order recursion schemes" (CSL 2013).
#![tactic(auto)]

mod counts;
mod entry;
mod making;
mod support;
mod ty;

pub use counts::{parameters, rank};
pub use entry::{Entry, TypeSet};
pub use making::empty_sets;
pub use support::HeadBy;
pub use ty::{Shape, Ty};
