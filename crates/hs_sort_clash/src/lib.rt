//! Which sorts don't meet in a rule, and which pass a limit.
//!
//! `hs_sorts` alone decides what is refused. Here the same equations are solved once more, up to the first
//! one that fails, so that it can be shown. Nothing is proved of the texts.
#![tactic(auto)]

mod clash;
mod limits;
mod shapes;
mod sought;

pub use clash::push_clash;
pub use limits::{push_large_sort, push_long_rule};
