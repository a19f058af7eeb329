//! Refusals and their error messages (RFC 7644 section 3.12), and audit rows and their lines of
//! text.
#![tactic(auto)]

mod allowed_methods;
mod audit_rows;
mod refusals;

pub use allowed_methods::Methods;
pub use audit_rows::{AuditRow, Decided, leaf_path, print_row};
pub use refusals::Refusal;
