//! The administrator's port: answers requests for the server's health and figures, for rows of the audit, for
//! explanations and for all resources, reads the policy and the token files again, and stops the server. It
//! looks after the database's files and the cache.
#![tactic(auto)]

mod answers;
mod connections;
mod figures;
mod hosts;
mod housekeeping;
mod jobs;
mod operators;
mod reloads;
mod replies;
mod request_counts;
mod watching;

pub use hosts::{Host, Setting};
pub use housekeeping::AdminEnding;
pub use operators::Admin;
pub use scim_admin_streams::OpenShelf;
pub use watching::ServerWatch;
