//! Reads the paths of PATCH operations (RFC 7644 section 3.5.2) and looks up their targets.
//!
//! Cases: `crates/cases/data/paths.jsonl`.
#![tactic(auto)]

mod faults;
mod laws;
mod path_reading;
mod paths;

pub use faults::PathFault;
pub use laws::{targets_are_named, texts_name_one_thing};
pub use path_reading::{extension_named, read_path};
pub use paths::{Path, ValuePath};
