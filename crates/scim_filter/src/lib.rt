//! Evaluates filters on the cells of a resource, or on a part of them (RFC 7644 section 3.4.2.2).
//!
//! Cases: `crates/cases/data/filter_truth.jsonl` and `filter_examples.jsonl`.
#![tactic(auto)]

mod comparisons;
mod truth;
mod visible_rows;

pub use truth::{holds, holds_at, holds_of, holds_where};
