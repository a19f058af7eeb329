//! The calls of `scim_policy_warnings`.
#![tactic(auto)]

use case_policies::policy;
use case_values::{Case, CaseFault};
use scim_policy_warnings::{print_warnings, token_warnings, warnings};

/// Returns the result of the case's call, or `None` if it isn't a call of this crate.
pub fn answer(case: &Case<'_>, call: &str) -> Option<Result<String, CaseFault>> {
    match call {
        "warnings" => Some(warnings_call(case)),
        "token_warnings" => Some(token_warnings_call(case)),
        _ => None,
    }
}

/// Returns the warnings of the policy, each on a line.
fn warnings_call(case: &Case<'_>) -> Result<String, CaseFault> {
    let policy = policy(case)?;
    let found = warnings(case.alloc, &policy)?;
    Ok(print_warnings(case.alloc, found.as_slice())?)
}

/// Returns the clients of the policy that have no token in the token file `tokens`, and the clients with a token that
/// no rule is for, each on a line.
fn token_warnings_call(case: &Case<'_>) -> Result<String, CaseFault> {
    let policy = policy(case)?;
    Ok(token_warnings(case.alloc, &policy, case.text("tokens")?)?)
}
