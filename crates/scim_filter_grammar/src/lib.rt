//! Reads filters and attribute paths (RFC 7644 sections 3.4.2.2 and 3.10) into typed trees, and cuts their
//! texts into tokens.
//!
//! Cases: `crates/cases/data/filter_texts.jsonl` and `filter_parts.jsonl`.
#![tactic(auto)]

mod attribute_paths;
mod bytes;
mod faults;
mod filter_reading;
mod laws;
mod literals;
mod mentions;
mod string_literals;
mod tokens;
mod tree;
mod types;
mod whole_paths;
mod written_paths;

pub use faults::FilterFault;
pub use filter_reading::read_filter;
pub use laws::{filters_are_spelled, one_path_is_spelled, paths_are_spelled};
pub use mentions::{Named, knows_names, mentioned_names};
pub use string_literals::StringLiteral;
pub use tokens::{Token, read_tokens};
pub use tree::{AttributePath, Filter, Literal, Meant, Node, Operator};
pub use types::truth_of;
pub use whole_paths::{attribute_path, lone_word};
pub use written_paths::{WrittenPath, written_path};
