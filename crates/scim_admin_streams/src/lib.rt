//! The bodies that the administrator's port sends in pieces: rows of the audit, and all resources.
#![tactic(auto)]

mod audit_jobs;
mod export_jobs;
mod open_shelves;

pub use audit_jobs::AuditJob;
pub use export_jobs::{ExportFault, ExportJob};
pub use open_shelves::OpenShelf;
