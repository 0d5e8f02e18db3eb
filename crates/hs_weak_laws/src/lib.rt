//! What tables that keep only strong entries prove of the value tree. Each law is the contract of a
//! function that does nothing.
#![tactic(auto)]

mod laws;

pub use laws::{
    built_tuples_are_never_void, certificates_accept, closed_tables_are_a_case,
    compact_tables_have_the_start, reductions_are_built,
};
