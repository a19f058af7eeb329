//! Reads PATCH messages into steps (RFC 7644 section 3.5.2).
#![tactic(auto)]

mod faults;
mod match_steps;
mod message_readings;
mod messages;
mod operations;
mod path_steps;
mod path_targets;
mod pathless_steps;

pub use faults::PatchFault;
pub use messages::read_patch;
