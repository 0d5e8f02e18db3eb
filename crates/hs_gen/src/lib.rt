//! Files that are made from a number: families of schemes that grow.
#![tactic(auto)]

mod cycle;

pub use cycle::{MAX_CYCLE, cycle_file, cycle_files_are_short};
