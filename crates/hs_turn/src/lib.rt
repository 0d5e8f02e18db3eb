//! A lock under which lies a value with a story that only grows. A seat of the lock remembers how
//! much of the story it has seen and which events are its own, and who enters finds a story that
//! begins with the one and has the other in it, each event once.
#![tactic(auto)]

mod guard;
mod known;
mod rested;
mod seat;
mod steps;
mod storied;
mod turn;
mod waiting;

pub use guard::Guard;
pub use known::Known;
pub use rested::Rested;
pub use seat::Seat;
pub use storied::Storied;
pub use turn::{Turn, TurnRule};
