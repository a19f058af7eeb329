//! Makes a users file of resources that another SCIM server exports: a list response (RFC 7644 section 3.4.2), or
//! a JSON list of resources.
//!
//! Cases: `crates/cases/data/imports.jsonl`.
#![tactic(auto)]

mod exports;
mod faults;
mod items;
mod resources;
mod users_files;

pub use exports::items_of_export;
pub use faults::{ItemFault, NotAnExport, RefusedItem};
pub use users_files::users_of_items;
