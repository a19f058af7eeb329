//! The calls of `scim_token`, `scim_route` and `scim_wire`.
#![tactic(auto)]

mod route_calls;
mod token_calls;
mod wire_calls;

use case_values::{Case, CaseFault};
pub use token_calls::{client_of, tokens_of};

/// Returns the result of the case's call, or `None` if it isn't a call of this crate.
pub fn answer(case: &Case<'_>, call: &str) -> Option<Result<String, CaseFault>> {
    if let Some(found) = token_calls::answer(case, call) {
        return Some(found);
    }
    if let Some(found) = route_calls::answer(case, call) {
        return Some(found);
    }
    wire_calls::answer(case, call)
}
