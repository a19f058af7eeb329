//! The calls of `scim_store_causes`: why a database can't be opened, and why an open one can't be used.
#![tactic(auto)]

mod cause_calls;

pub use cause_calls::answer;
