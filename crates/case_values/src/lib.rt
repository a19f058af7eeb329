//! The type of a case, and the calls of `scim_text`, `scim_schema`, `scim_cell`, `scim_value` and
//! `scim_audit`.
//!
//! The calls of other crates are in crates that depend on this one, because a function is proved together
//! with everything that its crate depends on.
#![tactic(auto)]

mod arguments;
mod audit_calls;
mod case;
mod cell_calls;
mod faults;
mod forms;
mod listed;
mod policies;
mod row_tests;
mod schema_calls;
mod tables;
mod text_calls;
mod value_calls;

pub use arguments::{
    beside, between, debugged, file_text, joined, kind_of, push_all, said, shown, text_or_json,
    truth, written_text,
};
pub use audit_calls::{push_rows_after, refusal_of};
pub use case::Case;
pub use faults::CaseFault;
pub use forms::{Argument, Form};
pub use listed::{parts_of, resources, resources_of, spaced_text, texts};
pub use policies::policy_text;
pub use schema_calls::{attribute_name, urn_of};
pub use tables::named;

/// Returns the result of the case's call, or `None` if it isn't a call of this crate.
pub fn answer(case: &Case<'_>, call: &str) -> Option<Result<String, CaseFault>> {
    if let Some(found) = text_calls::answer(case, call) {
        return Some(found);
    }
    if let Some(found) = schema_calls::answer(case, call) {
        return Some(found);
    }
    if let Some(found) = cell_calls::answer(case, call) {
        return Some(found);
    }
    if let Some(found) = audit_calls::answer(case, call) {
        return Some(found);
    }
    value_calls::answer(case, call)
}
