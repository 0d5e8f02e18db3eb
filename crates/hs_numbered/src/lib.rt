//! Certificates of acceptance by number: entries and void pairs whose types, sets and environments are told
//! once.
//!
//! A table file and a search name the same types over and over, as trees they take many times the memory. Here
//! each has a number in an interner (`hs_types`), and an entry takes 12 bytes. Contracts see the entries and the
//! pairs as trees (`specs/Certificates`), so what is proved of lists of trees holds of these.
#![tactic(auto)]

mod certificate;
mod import;
mod order;
mod void_row;

pub use certificate::{CertificateParts, NumberedCertificate};
pub use import::{import_entry, import_env};
pub use order::{compare_rows, compare_void_rows};
pub use void_row::VoidRow;
