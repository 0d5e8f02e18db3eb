//! A checker for tables: whether a flow holds all that is demanded, and a table all that follows
//! from it, without the start entry.
//!
//! What a flow lacks is looked for in `hs_flow_checker`; here stands the look at the table.
//!
//! It works on rows, whose types and environments are numbers of an interner, and what it says is of
//! the entries that they stand for. Of what makes tables it calls the interner alone: no rules, no log
//! and no look-ups in one.
#![tactic(auto)]

mod arrows;
mod checking;
mod fault;
mod fits;
mod heads;
mod import;
mod index;
mod inert;
mod instances;
mod laws;
mod missing;
mod shape;
mod terminals;
mod unions;

pub use checking::{check, check_rows, has_start, has_start_row};
pub use fault::CheckFault;
pub use laws::closed_tables_have_no_fault;
pub use shape::{is_env_of, is_in_shape};
