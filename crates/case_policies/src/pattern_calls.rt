//! The calls on rules with value filters, of `scim_policy` and `scim_view`.
use crate::policy_calls::{decision_text, push_decision};
use crate::view_calls::{seen_text, viewer};
use case_values::{Case, CaseFault, named, push_all, said};
use scim_filter_grammar::{Filter, Meant, Node, WrittenPath, written_path};
use scim_policy::{
    ClientName, Decision, FilteredPath, KindPaths, Patterns, Policy, PolicyPath, Rule,
};
use scim_samples::leaf_text;
use scim_schema::{Kind, Leaf, MOST_RULES, SubAttribute, sub_attribute_named};
use scim_value::Resource;
use std::alloc::Global;

/// A call on a policy with value filters and a resource.
#[derive(Clone, Copy)]
enum PatternCall {
    Pattern,
    DecideAt,
    Whole,
    View,
    Opened,
}

static CALLS: [(&str, PatternCall); 5] = [
    ("pattern", PatternCall::Pattern),
    ("decide_at", PatternCall::DecideAt),
    ("whole_decision", PatternCall::Whole),
    ("view_by_rules", PatternCall::View),
    ("first_opened", PatternCall::Opened),
];

/// Returns the result of the case's call, or `None` if it isn't a call on rules with value filters.
pub fn answer(case: &Case<'_>, call: &str) -> Option<Result<String, CaseFault>> {
    let call = named(&CALLS, call)?;
    Some(pattern_call(case, call))
}

/// Returns the result of a call on the policy of the argument `rules` and the resource.
fn pattern_call(case: &Case<'_>, told: PatternCall) -> Result<String, CaseFault> {
    let policy = policy_of(case, "rules")?;
    told_of_policy(case, told, &policy)
}

fn told_of_policy(
    case: &Case<'_>,
    told: PatternCall,
    policy: &Policy,
) -> Result<String, CaseFault> {
    let resource = case.resource()?;
    told_of_resource(case, told, policy, &resource)
}

fn told_of_resource(
    case: &Case<'_>,
    told: PatternCall,
    policy: &Policy,
    resource: &Resource,
) -> Result<String, CaseFault> {
    match told {
        PatternCall::Pattern => pattern_text(case, policy, resource),
        PatternCall::DecideAt => decided_at(case, policy, resource),
        PatternCall::Whole => whole_text(case, policy, resource),
        PatternCall::View => view_text(case, policy, resource),
        PatternCall::Opened => opened_text(case, policy, resource),
    }
}

/// Returns the decisions of the pattern of the argument `leaf`, separated by `; `.
fn pattern_text(
    case: &Case<'_>,
    policy: &Policy,
    resource: &Resource,
) -> Result<String, CaseFault> {
    let leaf = case.leaf("leaf")?;
    let pattern = policy.pattern(case.alloc, case.text("client")?, resource, leaf)?;
    decisions_text(case.alloc, pattern.as_slice())
}

fn decisions_text(alloc: Global, decisions: &[Decision]) -> Result<String, CaseFault> {
    let mut text = String::new(alloc);
    for decision in decisions {
        push_decision(alloc, *decision, &mut text)?;
    }
    Ok(text)
}

/// Returns the decision on the argument `leaf` at the position in the argument `position`.
fn decided_at(case: &Case<'_>, policy: &Policy, resource: &Resource) -> Result<String, CaseFault> {
    let leaf = case.leaf("leaf")?;
    let position = case.count("position")?;
    let client = case.text("client")?;
    let decision = policy.decide_at(case.alloc, client, resource, leaf, position)?;
    decision_text(case.alloc, decision)
}

/// Returns the decision on the argument `leaf` as a whole.
fn whole_text(case: &Case<'_>, policy: &Policy, resource: &Resource) -> Result<String, CaseFault> {
    let leaf = case.leaf("leaf")?;
    let patterns = policy.patterns(case.alloc, case.text("client")?, resource)?;
    decision_text(case.alloc, patterns.whole(leaf))
}

/// Returns the cells that the client sees, or `unseen`.
fn view_text(case: &Case<'_>, policy: &Policy, resource: &Resource) -> Result<String, CaseFault> {
    let viewer = viewer(case, policy)?;
    seen_text(case.alloc, viewer.view(case.alloc, resource)?)
}

/// Returns the first leaf on which a change of the policy into that of the argument `then` opens reading, and the
/// rule that opens it, or `nothing`.
fn opened_text(case: &Case<'_>, policy: &Policy, resource: &Resource) -> Result<String, CaseFault> {
    let client = case.text("client")?;
    let before = policy.patterns(case.alloc, client, resource)?;
    opened_after(case, &before, client, resource)
}

fn opened_after(
    case: &Case<'_>,
    before: &Patterns<'_>,
    client: &str,
    resource: &Resource,
) -> Result<String, CaseFault> {
    let policy = policy_of(case, "then")?;
    let after = policy.patterns(case.alloc, client, resource)?;
    match before.first_opened(case.alloc, resource.kind(), &after)? {
        Some((_, leaf, decision)) => opening_text(case.alloc, leaf, decision),
        None => said(case.alloc, "nothing"),
    }
}

/// Returns the leaf and the decision, such as `emails.value: rule 1: allow`.
fn opening_text(alloc: Global, leaf: Leaf, decision: Decision) -> Result<String, CaseFault> {
    let mut text = leaf_text(alloc, leaf)?;
    let decision = decision_text(alloc, decision)?;
    push_all(&mut text, &[": ", decision.as_str()])?;
    Ok(text)
}

/// Returns the policy with the rules in the list `name`. They are for all clients and for users, and may have paths
/// that no policy file can hold, as a value filter on `groups`.
fn policy_of(case: &Case<'_>, name: &'static str) -> Result<Policy, CaseFault> {
    let mut rules = Vec::new(case.alloc);
    for item in case.list(name) {
        let rule = rule_of(&case.inner(item))?;
        rules.push(rule)?;
    }
    if rules.len() > MOST_RULES {
        return Err(CaseFault::Missing(name));
    }
    Ok(Policy::of(rules))
}

/// Returns the rule with the arguments `allow`, by default false, `op` and `paths`.
fn rule_of(case: &Case<'_>) -> Result<Rule, CaseFault> {
    let alloc = case.alloc;
    let mut plain = Vec::new(alloc);
    let mut filtered = Vec::new(alloc);
    for path in case.list("paths") {
        let Some(text) = path.as_str() else {
            return Err(CaseFault::Missing("paths"));
        };
        push_path(alloc, text, &mut plain, &mut filtered)?;
    }
    let paths = KindPaths::new(Kind::User, plain, filtered);
    Ok(Rule::new(
        case.is_true("allow"),
        one(alloc, ClientName::Everyone)?,
        one(alloc, case.op())?,
        one(alloc, Kind::User)?,
        Vec::new(alloc),
        one(alloc, paths)?,
    ))
}

/// Appends what a path of a rule covers: `*`, or a path as in a PATCH operation.
fn push_path(
    alloc: Global,
    text: &str,
    plain: &mut Vec<PolicyPath>,
    filtered: &mut Vec<FilteredPath>,
) -> Result<(), CaseFault> {
    if text == "*" {
        return Ok(plain.push(PolicyPath::Everything)?);
    }
    match written_path(alloc, Kind::User, text)? {
        Some(WrittenPath::Plain(path)) => Ok(plain.push(covered_by(path.meant)?)?),
        Some(WrittenPath::Filtered(filter, name)) => {
            let sub_attribute = match &name {
                Some(name) => Some(sub_attribute_of(&filter, name.as_str())?),
                None => None,
            };
            Ok(filtered.push(FilteredPath::new(filter, sub_attribute))?)
        }
        None => Err(CaseFault::Missing("paths")),
    }
}

/// Returns the path for the attribute or sub-attribute that a path means.
fn covered_by(meant: Meant) -> Result<PolicyPath, CaseFault> {
    match meant {
        Meant::Nothing => Err(CaseFault::Missing("paths")),
        Meant::Attribute(attribute) => Ok(PolicyPath::Attribute(attribute)),
        Meant::SubAttribute(attribute, sub_attribute) => {
            Ok(PolicyPath::SubAttribute(attribute, sub_attribute))
        }
    }
}

/// Returns the sub-attribute with this name of the attribute before the brackets of a value path.
fn sub_attribute_of(filter: &Filter, name: &str) -> Result<SubAttribute, CaseFault> {
    let Node::Values(path, _) = filter.tree() else {
        return Err(CaseFault::Missing("paths"));
    };
    let Some(attribute) = path.meant.attribute() else {
        return Err(CaseFault::Missing("paths"));
    };
    match sub_attribute_named(attribute, name) {
        Some(sub_attribute) => Ok(sub_attribute),
        None => Err(CaseFault::Missing("paths")),
    }
}

/// Returns a list of one item.
fn one<T: Drop>(alloc: Global, item: T) -> Result<Vec<T>, CaseFault> {
    let mut items = Vec::new(alloc);
    items.push(item)?;
    Ok(items)
}
