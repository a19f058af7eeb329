//! The calls of `scim_policy`, `scim_policy_file`, `scim_explain`, `scim_policy_sentences`, `scim_view` and
//! `scim_query`.
#![tactic(auto)]

mod access_calls;
mod explain_calls;
mod pattern_calls;
mod policy_calls;
mod query_calls;
mod view_calls;

use case_values::{Case, CaseFault};
pub use policy_calls::policy;
pub use query_calls::query_of;
pub use view_calls::wanted;

/// Returns the result of the case's call, or `None` if it isn't a call of this crate.
pub fn answer(case: &Case<'_>, call: &str) -> Option<Result<String, CaseFault>> {
    if let Some(found) = policy_calls::answer(case, call) {
        return Some(found);
    }
    if let Some(found) = pattern_calls::answer(case, call) {
        return Some(found);
    }
    if let Some(found) = access_calls::answer(case, call) {
        return Some(found);
    }
    if let Some(found) = explain_calls::answer(case, call) {
        return Some(found);
    }
    if let Some(found) = view_calls::answer(case, call) {
        return Some(found);
    }
    query_calls::answer(case, call)
}
