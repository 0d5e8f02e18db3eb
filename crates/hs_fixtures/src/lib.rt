//! Schemes and problems of small files, for tests: rules and transitions as text, worked ones among
//! them, which the front end reads. What goes wrong is a test's failure.
#![tactic(auto)]

mod making;
mod naming;
mod worked;

pub use making::{
    cycle, know, problem_of, problem_of_text, sorted_of, unsorted_of, unsorted_of_text,
};
pub use naming::name_of;
pub use worked::{
    BRANCHING, BRANCHING_ACCEPTED, BRANCHING_REJECTED, PARTIAL, RESOURCE, RESOURCE_TRANSITIONS,
    TWICE, TWICE_TRANSITIONS,
};
