//! The flow analysis of recursion schemes: which points may stand for which parameters.
#![tactic(auto)]

mod analysis;
mod bases;
mod dependents;
mod fault;
mod lists;
mod pairs;
mod short_lists;
mod table;
mod users;

pub use analysis::analyse;
pub use dependents::Dependents;
pub use fault::FlowFault;
