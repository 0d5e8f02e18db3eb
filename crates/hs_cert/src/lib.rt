//! Evidence of acceptance in a file, read back.
//!
//! What `horsat --table` writes of an accepted scheme, with `--quick` or without it, is read here from
//! bytes that nobody vouches for: `read_table` answers the entries, and the void environments of a
//! certificate of acceptance, exactly where each line keeps the rules, and the first faulty line
//! otherwise. The rules are the definition `Certificate` in `specs/`, which takes the
//! texts of an entry and of a void environment from the writer's definitions, so that they stand once.
#![tactic(auto)]

mod ahead;
mod entry;
mod fault;
mod heading;
mod laws;
mod lines;
mod names;
mod number;
mod numbered;
mod pair;
mod rows;
mod table;
mod types;

pub use fault::TableFault;
pub use laws::{certificate_is_unique, certificate_report_is_certificate, report_is_certificate};
pub use lines::line_at;
pub use table::{Cert, read_table};
