//! Worked schemes and their tables.

use hs_fixtures::{
    BRANCHING, BRANCHING_ACCEPTED, BRANCHING_REJECTED, PARTIAL, RESOURCE, RESOURCE_TRANSITIONS,
    TWICE, TWICE_TRANSITIONS,
};

/// Rules and transitions of worked schemes, with the number of entries of their least tables.
pub(crate) const WORKED: &[(&str, &str, u32)] = &[
    ("S -> a S.", "q0 a -> q0.", 0),
    ("S -> a b.", "q0 a -> q0.", 2),
    ("S -> S.", "q0 a -> .", 0),
    (BRANCHING, BRANCHING_ACCEPTED, 4),
    (BRANCHING, BRANCHING_REJECTED, 18),
    (TWICE, TWICE_TRANSITIONS, 13),
    (RESOURCE, RESOURCE_TRANSITIONS, 8),
    (PARTIAL, "q0 d -> .", 7),
    ("S -> G b. G x -> c.", "q0 c -> .", 1),
    ("S -> F c. F -> a.", "q0 a -> q0.", 4),
    ("S -> Ap a c. Ap f -> f.", "q0 a -> q0.", 5),
    ("S -> br a b.", "q0 br -> q0 q0.", 3),
];
