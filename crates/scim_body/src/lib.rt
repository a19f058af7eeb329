//! Reads the bodies of requests that create or replace a resource (RFC 7644 sections 3.3 and 3.5.1) into
//! drafts. The JSON is read into a tree whose texts are borrowed from the body.
//!
//! Cases: `crates/cases/data/bodies.jsonl`.
#![tactic(auto)]

mod absent_values;
mod bodies;
mod drafts;
mod json_numbers;
mod json_reading;
mod object_members;
mod repeated_keys;
mod required_attributes;
mod trees;
mod values;

pub use absent_values::{given_named, is_absent};
pub use bodies::{BodyFault, UnitGiven, field_given, read_body, read_units};
pub use drafts::{Draft, UseFor};
pub use json_reading::NotJson;
pub use object_members::{is_twice, value_named};
pub use repeated_keys::{value_clashes, values_clash};
pub use required_attributes::lacks_required;
pub use trees::{Member, Tree};
pub use values::{WrongValue, read_field, read_fields, read_listed};
