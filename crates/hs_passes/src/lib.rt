//! Passes that make a scheme smaller, each of which keeps its value tree.
#![tactic(auto)]

mod aliases;
mod chain;
mod drop_unreachable;
mod drop_unused;
mod fold_aliases;
mod in_order;
mod keeping;
mod laws;
mod leaving;
mod needing;
mod ordering;
mod pass;
mod reachable;
mod selecting;
mod weighing;

pub use chain::{add, simplify};
pub use drop_unreachable::DropUnreachable;
pub use drop_unused::DropUnused;
pub use fold_aliases::FoldAliases;
pub use laws::{
    needed_parameters_stay, no_alias_is_left, no_unused_parameter_is_left, reachable_rules_stay,
};
pub use pass::Pass;
pub use weighing::weight_of;
