//! The calls of `scim_policy` and `scim_policy_file`.
use case_values::{
    Case, CaseFault, between, debugged, file_text, named, policy_text, push_all, said, shown, truth,
};
use scim_policy::{ClientName, Decision, Decisions, Misfit, Patterns, Policy, Rule, Target};
use scim_policy_file::{is_client_name, read_policy};
use scim_samples::read_leaf;
use scim_schema::Op;
use scim_value::Resource;
use std::alloc::Global;

/// A call of `scim_policy` or `scim_policy_file`.
#[derive(Clone, Copy)]
enum PolicyCall {
    IsClientName,
    ReadPolicy,
    PolicyFile,
    OnRule(OfRule),
    OnResource(OfDecision),
}

/// A call on a rule.
#[derive(Clone, Copy)]
enum OfRule {
    Rule,
    Paths,
    Targets,
}

/// A call on the decisions of a policy.
#[derive(Clone, Copy)]
enum OfDecision {
    Decision,
    Decisions,
    Misfit,
    Misfits,
}

static CALLS: [(&str, PolicyCall); 10] = [
    ("is_client_name", PolicyCall::IsClientName),
    ("read_policy", PolicyCall::ReadPolicy),
    ("policy_file", PolicyCall::PolicyFile),
    ("rule", PolicyCall::OnRule(OfRule::Rule)),
    ("rule_paths", PolicyCall::OnRule(OfRule::Paths)),
    ("rule_targets", PolicyCall::OnRule(OfRule::Targets)),
    ("decide", PolicyCall::OnResource(OfDecision::Decision)),
    ("decisions", PolicyCall::OnResource(OfDecision::Decisions)),
    ("misfit", PolicyCall::OnResource(OfDecision::Misfit)),
    ("misfits", PolicyCall::OnResource(OfDecision::Misfits)),
];

/// Returns the result of the case's call, or `None` if it isn't a call of `scim_policy` or
/// `scim_policy_file`.
pub fn answer(case: &Case<'_>, call: &str) -> Option<Result<String, CaseFault>> {
    let call = named(&CALLS, call)?;
    Some(match call {
        PolicyCall::IsClientName => is_client_name_call(case),
        PolicyCall::ReadPolicy => read_policy_call(case),
        PolicyCall::PolicyFile => policy_file(case),
        PolicyCall::OnRule(told) => rule_call(case, told),
        PolicyCall::OnResource(told) => decision_call(case, told),
    })
}

fn is_client_name_call(case: &Case<'_>) -> Result<String, CaseFault> {
    truth(case.alloc, is_client_name(case.text("text")?))
}

/// Returns `ok, N rules`, or the text of the error if the policy is invalid.
fn read_policy_call(case: &Case<'_>) -> Result<String, CaseFault> {
    let text = policy_text(case)?;
    told_of_text(case.alloc, text.as_str())
}

/// Returns `ok, N rules`, or the text of the error if the policy file is invalid. The error is `rule 0: json`
/// if the file isn't UTF-8.
fn policy_file(case: &Case<'_>) -> Result<String, CaseFault> {
    match file_text(case, "policy", "policy_hex")? {
        Some(text) => told_of_text(case.alloc, text.as_str()),
        None => said(case.alloc, "rule 0: json"),
    }
}

fn told_of_text(alloc: Global, text: &str) -> Result<String, CaseFault> {
    match read_policy(alloc, text) {
        Ok(policy) => count_text(alloc, policy.rules()),
        Err(fault) => shown(alloc, &fault),
    }
}

/// Returns `ok, N rules`, the result for a valid policy with this number of rules.
fn count_text(alloc: Global, rules: usize) -> Result<String, CaseFault> {
    between(alloc, "ok, ", &rules, " rules")
}

/// Returns the policy of a case, read from [`policy_text`]. Fails with `Missing` if it is invalid.
pub fn policy(case: &Case<'_>) -> Result<Policy, CaseFault> {
    let text = policy_text(case)?;
    match read_policy(case.alloc, text.as_str()) {
        Ok(policy) => Ok(policy),
        Err(_) => Err(CaseFault::Missing("policy")),
    }
}

/// Returns the rule whose number is the argument `number`, counted from 1, by default the first. Fails with
/// `Missing` if there is no such rule.
fn rule_of<'p>(case: &Case<'_>, policy: &'p Policy) -> Result<&'p Rule, CaseFault> {
    let number = if case.has("number") {
        case.count("number")?
    } else {
        1
    };
    match policy.listed().get(number.wrapping_sub(1)) {
        Some(rule) => Ok(rule),
        None => Err(CaseFault::Missing("number")),
    }
}

/// Returns the result of a call on a rule of the policy.
fn rule_call(case: &Case<'_>, told: OfRule) -> Result<String, CaseFault> {
    let policy = policy(case)?;
    told_of_rule(case, told, &policy)
}

fn told_of_rule(case: &Case<'_>, told: OfRule, policy: &Policy) -> Result<String, CaseFault> {
    let rule = rule_of(case, policy)?;
    match told {
        OfRule::Rule => rule_text(case.alloc, rule),
        OfRule::Paths => debugged(case.alloc, &rule.paths_on(case.kind())),
        OfRule::Targets => targets_text(case.alloc, rule.targets()),
    }
}

/// Returns the effect, the clients, the operations and the kinds of a rule.
fn rule_text(alloc: Global, rule: &Rule) -> Result<String, CaseFault> {
    let mut text = said(alloc, if rule.allows() { "allow" } else { "deny" })?;
    for client in rule.clients() {
        push_client(client, &mut text)?;
    }
    push_scope(alloc, rule, &mut text)?;
    Ok(text)
}

fn push_client(client: &ClientName, text: &mut String) -> Result<(), CaseFault> {
    match client {
        ClientName::Everyone => push_all(text, &[" *"]),
        ClientName::Named(name) => push_all(text, &[" ", name.as_str()]),
    }
}

/// Appends the operations and the kinds of a rule.
fn push_scope(alloc: Global, rule: &Rule, text: &mut String) -> Result<(), CaseFault> {
    let ops = debugged(alloc, &rule.ops())?;
    let kinds = debugged(alloc, &rule.kinds())?;
    push_all(text, &[" ", ops.as_str(), " ", kinds.as_str()])
}

/// Returns the targets of a rule. After each target, says whether its values have the types of their
/// attributes.
fn targets_text(alloc: Global, targets: &[Target]) -> Result<String, CaseFault> {
    let mut text = String::new(alloc);
    for target in targets {
        push_target(alloc, target, &mut text)?;
    }
    Ok(text)
}

fn push_target(alloc: Global, target: &Target, text: &mut String) -> Result<(), CaseFault> {
    let told = debugged(alloc, target)?;
    text.push_str(told.as_str())?;
    let is_typed = target.filter().has_right_types();
    Ok(text.push_str(if is_typed { " true " } else { " false " })?)
}

/// Returns the result of a call on the policy and the resource.
fn decision_call(case: &Case<'_>, told: OfDecision) -> Result<String, CaseFault> {
    let policy = policy(case)?;
    decided_by(case, told, &policy)
}

fn decided_by(case: &Case<'_>, told: OfDecision, policy: &Policy) -> Result<String, CaseFault> {
    let resource = case.resource()?;
    told_of_decision(case, told, policy, &resource)
}

fn told_of_decision(
    case: &Case<'_>,
    told: OfDecision,
    policy: &Policy,
    resource: &Resource,
) -> Result<String, CaseFault> {
    match told {
        OfDecision::Decision => decision_of(case, policy, resource),
        OfDecision::Decisions => decisions_of(case, policy, resource),
        OfDecision::Misfit => misfit_text(case, policy, resource),
        OfDecision::Misfits => misfits_text(case, policy, resource),
    }
}

/// Returns the text of a decision, such as `rule 3: allow`.
pub fn decision_text(alloc: Global, decision: Decision) -> Result<String, CaseFault> {
    let effect = if decision.allow { ": allow" } else { ": deny" };
    between(alloc, "rule ", &decision.rule, effect)
}

fn decision_of(case: &Case<'_>, policy: &Policy, resource: &Resource) -> Result<String, CaseFault> {
    let leaf = case.leaf("leaf")?;
    let client = case.text("client")?;
    let decision = policy.decide(case.alloc, client, case.op(), resource, leaf)?;
    decision_text(case.alloc, decision)
}

/// Returns the decisions on the leaves in the list `leaves`, separated by `; `.
fn decisions_of(
    case: &Case<'_>,
    policy: &Policy,
    resource: &Resource,
) -> Result<String, CaseFault> {
    let client = case.text("client")?;
    let op = case.op();
    if op == Op::Read {
        let patterns = policy.patterns(case.alloc, client, resource)?;
        return wholes_text(case, &patterns);
    }
    let decisions = policy.decisions(case.alloc, client, op, resource)?;
    decisions_text(case, &decisions)
}

fn decisions_text(case: &Case<'_>, decisions: &Decisions) -> Result<String, CaseFault> {
    let mut text = String::new(case.alloc);
    for path in case.list("leaves") {
        let Some(path) = path.as_str() else {
            return Err(CaseFault::Missing("leaves"));
        };
        push_decision(case.alloc, decisions.of(read_leaf(path)?), &mut text)?;
    }
    Ok(text)
}

/// Returns the decisions on reading the leaves in the list `leaves` in all values, separated by `; `.
fn wholes_text(case: &Case<'_>, patterns: &Patterns<'_>) -> Result<String, CaseFault> {
    let mut text = String::new(case.alloc);
    for path in case.list("leaves") {
        let Some(path) = path.as_str() else {
            return Err(CaseFault::Missing("leaves"));
        };
        push_decision(case.alloc, patterns.whole(read_leaf(path)?), &mut text)?;
    }
    Ok(text)
}

/// Appends the text of a decision, behind `; ` if it isn't the first.
pub(crate) fn push_decision(
    alloc: Global,
    decision: Decision,
    text: &mut String,
) -> Result<(), CaseFault> {
    if !text.is_empty() {
        text.push_str("; ")?;
    }
    let decision = decision_text(alloc, decision)?;
    Ok(text.push_str(decision.as_str())?)
}

/// Returns the first part of a rule that doesn't match the case, or `None` if every part matches. The
/// argument `number` is the number of the rule. Fails with `Missing` if there is no such rule.
fn misfit_text(case: &Case<'_>, policy: &Policy, resource: &Resource) -> Result<String, CaseFault> {
    let leaf = case.leaf("leaf")?;
    let client = case.text("client")?;
    let number = case.count("number")?;
    if number < 1 || policy.rules() < number {
        return Err(CaseFault::Missing("number"));
    }
    let misfit = policy.misfit(case.alloc, number, client, case.op(), resource, leaf)?;
    debugged(case.alloc, &misfit)
}

/// Returns, for each rule, the first part that doesn't match the case, or `None` if every part matches.
fn misfits_text(
    case: &Case<'_>,
    policy: &Policy,
    resource: &Resource,
) -> Result<String, CaseFault> {
    let leaf = case.leaf("leaf")?;
    let client = case.text("client")?;
    let mut text = String::new(case.alloc);
    for rule in policy.listed() {
        let misfit = rule.misfit(case.alloc, client, case.op(), resource, leaf)?;
        push_misfit(case.alloc, misfit, &mut text)?;
    }
    Ok(text)
}

fn push_misfit(alloc: Global, misfit: Option<Misfit>, text: &mut String) -> Result<(), CaseFault> {
    let told = debugged(alloc, &misfit)?;
    push_all(text, &[told.as_str(), " "])
}
