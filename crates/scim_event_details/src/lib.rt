//! Says which part of a faulty line of an events file isn't valid.
//!
//! Cases: `crates/cases/data/event_details.jsonl`.
#![tactic(auto)]

mod event_details;

pub use event_details::{EventDetail, event_detail};
