//! Explains the policy's decisions on the leaves that a path covers.
//!
//! Cases: `crates/cases/data/explain.jsonl`.
#![tactic(auto)]

mod explained_paths;

pub use explained_paths::{explain_path, path_named};
