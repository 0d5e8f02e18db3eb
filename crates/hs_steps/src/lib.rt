//! Laws of the steps along a path, of refused cuts and of lengthened rules. Each is the contract of
//! a function that does nothing.
#![tactic(auto)]

mod ends;
mod laws;
mod lengthening;
mod paths;

pub use ends::same_trees_end_alike;
pub use laws::{
    cuts_grow, full_rules_take_all_arguments, refusals_are_failing_paths,
    refusals_have_a_first_step, steps_keep_the_sort, terms_have_all_arguments,
};
pub use lengthening::{lengthened_schemes_have_the_same_tree, lengthening_keeps_the_tree};
pub use paths::{paths_go_on, steps_are_determined};
