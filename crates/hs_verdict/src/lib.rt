//! The verdict of a table: what a closed table says of the value tree, which path a log of entries
//! with their supports names, and that least tables decide. Each law is the contract of a function
//! that does nothing.
#![tactic(auto)]

mod laws;
mod naming;
mod premises;

pub use laws::{
    acceptance_is_no_failing_path, closed_tables_without_start_accept,
    complete_tables_have_the_start, supported_tables_have_supports,
};
pub use naming::{
    least_tables_decide, namings_are_unique, namings_end_and_fail, namings_lead_the_start,
    supported_tables_with_start_reject,
};
pub use premises::know_sorted_problem;
