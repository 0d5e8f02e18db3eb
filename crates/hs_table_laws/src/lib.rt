//! Laws of types, of what follows from a list of entries, and of least tables. Each is the contract
//! of a function that does nothing.
#![tactic(auto)]

mod laws;

pub use laws::{
    follows_grows, least_tables_are_equal, members_determine_sets, orders_are_total,
    what_follows_is_in_shape,
};
