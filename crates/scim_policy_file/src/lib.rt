//! Reads policy files, or reports the first fault and the number of the faulty rule.
//!
//! Cases: `crates/cases/data/policy.jsonl` and `targets.jsonl`.
#![tactic(auto)]

mod client_names;
mod faults;
mod policy_files;
mod rule_paths;
mod rule_targets;
mod versions;

pub use client_names::is_client_name;
pub use faults::{Cause, PolicyFault};
pub use policy_files::read_policy;
