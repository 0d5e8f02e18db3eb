//! Types of rejected terms, sets of them and environments as numbers: equal ones are one number, so
//! that rows of a table are small, and a union that was made once is a look-up.
//!
//! Contracts see an `Interner` as the lists of what has numbers (`specs/Interned`). The technique is
//! after Ershov, "On programming of arithmetic operations" (CACM 1958), and Filliâtre and Conchon,
//! "Type-safe modular hash-consing" (ML 2006).
#![tactic(auto)]

mod compare;
mod guesses;
mod ids;
mod import;
mod interner;
mod latest;
mod make;
mod merge;
mod nodes;
mod rows;
mod translations;
mod tree;
mod unions;

pub use ids::{EnvId, Row, SetId, TyId, View};
pub use interner::Interner;
pub use translations::ImportedNumbers;
