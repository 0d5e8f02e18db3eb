//! The texts that are written: the report of a run with its table, that of a certificate of acceptance
//! or of a path that was found without one, and the canonical file of a scheme.
#![tactic(auto)]

mod canonical;
mod evidence;
mod laws;
mod minimal;
mod pieces;
mod summary;
mod table;
mod verdict;

pub use canonical::scheme_text;
pub use evidence::{certificate_report, certificate_summary, path_report, void_line};
pub use laws::report_is_unique;
pub use minimal::Minimal;
pub use pieces::name_of;
pub use summary::{path_text, report};
pub use table::{entry_line, table_text};
pub use verdict::Verdict;
