//! A second program as one call: whether a table shows that a scheme is accepted.
//!
//! `check_run` reads the file of a scheme, and a file with the table that somebody reports of it. It
//! trusts nobody who made that table: it calls the front end, the reader of certificates and the
//! checker, and nothing that makes tables.
#![tactic(auto)]

mod fault;
mod files;
mod laws;
mod top;
mod verified;
mod words;

pub use laws::{reported_certificates_are_verified, reported_tables_are_verified};
pub use top::check_run;
pub use words::check_run_on;
