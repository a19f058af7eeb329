//! Merges a users file into a shelf that may hold resources: a resource whose id isn't stored is created, one
//! whose id is stored is replaced, and one that is stored as it is changes nothing. All changes are put on the
//! device together, in one round, and each leaves an audit row.
//!
//! Cases: `crates/cases/data/imports.jsonl`.
#![tactic(auto)]

mod faults;
mod merging;
mod outcomes;
mod taken_names;

pub use faults::{Clash, MergeFault};
pub use merging::{MergeCount, merge};
