//! The calls of `scim_json`, `scim_body`, `scim_filter`, `scim_filter_grammar` and `scim_path`.
#![tactic(auto)]

mod body_calls;
mod filter_calls;
mod json_calls;
mod path_calls;

pub use body_calls::{body_kind, use_for};
use case_values::{Case, CaseFault};
pub use filter_calls::filter_of;

/// Returns the result of the case's call, or `None` if it isn't a call of this crate.
pub fn answer(case: &Case<'_>, call: &str) -> Option<Result<String, CaseFault>> {
    if let Some(found) = json_calls::answer(case, call) {
        return Some(found);
    }
    if let Some(found) = body_calls::answer(case, call) {
        return Some(found);
    }
    if let Some(found) = filter_calls::answer(case, call) {
        return Some(found);
    }
    path_calls::answer(case, call)
}
