//! Workers that share a table: saturation by up to sixteen threads. Where there is only one worker,
//! nothing is shared at all.
#![tactic(auto)]

mod bell;
mod common;
mod forming;
mod handing;
mod job;
mod saturating;
mod sharing;
mod stock;
mod worker;

pub use hs_core::{Core, Done, Gate, Open, Work};
pub use saturating::saturate;
