//! The calls of `scim_explain` and `scim_policy_sentences`.
use crate::policy_calls::policy;
use case_values::{Case, CaseFault, named};
use scim_explain::{explain, idle_rules, print, print_idle_rules, table};
use scim_policy::Policy;
use scim_policy_sentences::rule_sentences;
use scim_value::Resource;

/// A call of `scim_explain` or `scim_policy_sentences`.
#[derive(Clone, Copy)]
enum ExplainCall {
    Explain,
    Table,
    RuleSentences,
    IdleRules,
}

static CALLS: [(&str, ExplainCall); 4] = [
    ("explain", ExplainCall::Explain),
    ("table", ExplainCall::Table),
    ("rule_sentences", ExplainCall::RuleSentences),
    ("idle_rules", ExplainCall::IdleRules),
];

/// Returns the result of the case's call, or `None` if it isn't a call of `scim_explain` or
/// `scim_policy_sentences`.
pub fn answer(case: &Case<'_>, call: &str) -> Option<Result<String, CaseFault>> {
    let call = named(&CALLS, call)?;
    Some(policy_call(case, call))
}

fn policy_call(case: &Case<'_>, call: ExplainCall) -> Result<String, CaseFault> {
    let policy = policy(case)?;
    match call {
        ExplainCall::Explain => explanation_text(case, &policy),
        ExplainCall::Table => table_text(case, &policy),
        ExplainCall::RuleSentences => Ok(rule_sentences(case.alloc, &policy)?),
        ExplainCall::IdleRules => idle_text(case, &policy),
    }
}

/// Returns the rules that can never decide, one per line.
fn idle_text(case: &Case<'_>, policy: &Policy) -> Result<String, CaseFault> {
    let idle = idle_rules(case.alloc, policy)?;
    Ok(print_idle_rules(case.alloc, idle.as_slice())?)
}

/// Returns the decisions on all leaves of the resource, one per line.
fn table_text(case: &Case<'_>, policy: &Policy) -> Result<String, CaseFault> {
    let client = case.text("client")?;
    let resource = case.resource()?;
    Ok(table(case.alloc, policy, client, case.op(), &resource)?)
}

/// Returns the explanation of a decision, with one line for each rule.
fn explanation_text(case: &Case<'_>, policy: &Policy) -> Result<String, CaseFault> {
    let client = case.text("client")?;
    let resource = case.resource()?;
    explained(case, policy, client, &resource)
}

fn explained(
    case: &Case<'_>,
    policy: &Policy,
    client: &str,
    resource: &Resource,
) -> Result<String, CaseFault> {
    let leaf = case.leaf("leaf")?;
    let explanation = explain(case.alloc, policy, client, case.op(), resource, leaf)?;
    Ok(print(case.alloc, &explanation)?)
}
