//! A checker for certificates of acceptance: whether over a closed flow a table with void pairs and read
//! pairs is one.
//!
//! It calls nothing of what makes such tables, so that its answer stands alone. `specs/Faults` says when
//! something is no certificate, in the order in which it is looked for.
#![tactic(auto)]

mod checking;
mod covered;
mod fault;
mod flow;
mod idle;
mod import;
mod laws;
mod missing;
mod numbered;
mod numbers;
mod row_shape;
mod rows;
mod shape;

pub use checking::check_certificate;
pub use fault::CertificateFault;
pub use laws::certificates_have_no_fault;
pub use numbered::check_numbered;
pub use row_shape::is_row_in_shape;
