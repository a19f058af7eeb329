//! The calls of `scim_foreign_users` and `scim_shelf_merge`.
#![tactic(auto)]

mod export_calls;
mod merge_calls;

use case_values::{Case, CaseFault, named};

/// The moment of all imports, 2024-06-01T12:00:00Z.
const NOON: i64 = 1_717_243_200;

/// A call of `scim_foreign_users` or `scim_shelf_merge`.
#[derive(Clone, Copy)]
enum Call {
    UsersOfExport,
    Merge,
}

static CALLS: [(&str, Call); 2] = [
    ("users_of_export", Call::UsersOfExport),
    ("merge", Call::Merge),
];

/// Returns the result of the case's call, or `None` if it isn't a call of this crate.
pub fn answer(case: &Case<'_>, call: &str) -> Option<Result<String, CaseFault>> {
    let call = named(&CALLS, call)?;
    Some(match call {
        Call::UsersOfExport => export_calls::users_of_export_call(case),
        Call::Merge => merge_calls::merge_call(case),
    })
}
