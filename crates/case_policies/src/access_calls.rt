//! The calls of `scim_policy` on the units that a client may write, and on the access that a change would
//! add.
use crate::policy_calls::{decision_text, policy};
use case_values::{Case, CaseFault, beside, joined, named, said};
use scim_policy::{Decision, Policy};
use scim_samples::{ALICE, leaf_text, resource};
use scim_schema::{Leaf, Op, unit_of};
use scim_value::Resource;
use std::alloc::Global;

/// A call on the access of a client.
#[derive(Clone, Copy)]
enum AccessCall {
    MayWrite,
    Widens,
}

static CALLS: [(&str, AccessCall); 2] = [
    ("may_write", AccessCall::MayWrite),
    ("widens", AccessCall::Widens),
];

/// Returns the result of the case's call, or `None` if it isn't a call on access.
pub fn answer(case: &Case<'_>, call: &str) -> Option<Result<String, CaseFault>> {
    let call = named(&CALLS, call)?;
    Some(access_call(case, call))
}

fn access_call(case: &Case<'_>, call: AccessCall) -> Result<String, CaseFault> {
    let policy = policy(case)?;
    told_of_access(case, call, &policy)
}

fn told_of_access(case: &Case<'_>, call: AccessCall, policy: &Policy) -> Result<String, CaseFault> {
    let before = case.resource()?;
    match call {
        AccessCall::MayWrite => forbidding_text(case, policy, &before),
        AccessCall::Widens => widening_text(case, policy, &before),
    }
}

/// Returns the leaf because of which the client may not write the unit of the argument `leaf`, and the
/// deciding rule. Returns `nothing` if the client may write the unit.
fn forbidding_text(
    case: &Case<'_>,
    policy: &Policy,
    resource: &Resource,
) -> Result<String, CaseFault> {
    let unit = unit_of(case.leaf("leaf")?);
    match policy.may_write(case.alloc, case.text("client")?, resource, unit)? {
        Some((leaf, decision)) => text_at(case.alloc, leaf, decision),
        None => said(case.alloc, "nothing"),
    }
}

/// Returns the operation and the leaf that the client gains if the resource changes to the cells in the
/// argument `then`, and the deciding rule. Returns `nothing` if the client gains no access.
fn widening_text(case: &Case<'_>, policy: &Policy, before: &Resource) -> Result<String, CaseFault> {
    let after = resource(
        case.alloc,
        case.kind(),
        case.text_or("id", ALICE),
        case.text("then")?,
    )?;
    match policy.widens(case.alloc, case.text("client")?, before, &after)? {
        Some((op, leaf, decision)) => opened_text(case.alloc, op, leaf, decision),
        None => said(case.alloc, "nothing"),
    }
}

fn opened_text(alloc: Global, op: Op, leaf: Leaf, decision: Decision) -> Result<String, CaseFault> {
    let rest = text_at(alloc, leaf, decision)?;
    beside(alloc, op.name(), rest.as_str())
}

fn text_at(alloc: Global, leaf: Leaf, decision: Decision) -> Result<String, CaseFault> {
    let leaf = leaf_text(alloc, leaf)?;
    let decision = decision_text(alloc, decision)?;
    joined(alloc, &[leaf.as_str(), ", ", decision.as_str()])
}
