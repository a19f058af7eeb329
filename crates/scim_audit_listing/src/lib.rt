//! Lists rows of the audit: chooses them by a filter, and prints a line for each, in words or as JSON.
//!
//! Cases: `crates/cases/data/audit_listings.jsonl`.
#![tactic(auto)]

mod filters;
mod json_rows;
mod laws;
mod listings;
mod refusal_names;

pub use filters::AuditFilter;
pub use json_rows::print_json_row;
pub use laws::plain_listings_are_consecutive;
pub use listings::{LineFormat, Listing, Portion, add_lines, print_line, start_of_last};
pub use refusal_names::refusal_named;
