//! Prints each rule of a policy as a sentence.
//!
//! Cases: `crates/cases/data/explain.jsonl`.
#![tactic(auto)]

mod lists;
mod sentences;
mod targets;

pub use sentences::rule_sentences;
