//! The policy file of a case.
use crate::arguments::{joined, text_or_json};
use crate::case::Case;
use crate::faults::CaseFault;
use scim_samples::POLICY;
use std::alloc::Global;

/// Returns the text of the policy file of a case.
///
/// If the argument `rules` is given, the file has the rules of this list. Otherwise, if `rule` is given, the
/// file repeats this rule `times` times. Otherwise it is the argument `policy`, a string or a JSON value, by
/// default the sample policy.
pub fn policy_text(case: &Case<'_>) -> Result<String, CaseFault> {
    let alloc = case.alloc;
    if let Some(rules) = case.get("rules") {
        return file_of(alloc, rules.text.as_str());
    }
    if let Some(rule) = case.get("rule") {
        return repeated(alloc, rule.text.as_str(), case.number("times")?);
    }
    text_or_json(case, "policy", POLICY)
}

/// Returns a policy file with the rules of a JSON array.
fn file_of(alloc: Global, rules: &str) -> Result<String, CaseFault> {
    joined(alloc, &["{\"version\":1,\"rules\":", rules, "}"])
}

/// Returns a policy file that repeats one rule `times` times.
fn repeated(alloc: Global, rule: &str, times: i64) -> Result<String, CaseFault> {
    let mut text = String::from_str(alloc, "{\"version\":1,\"rules\":[")?;
    for number in 0..times {
        if number > 0 {
            text.push_str(",")?;
        }
        text.push_str(rule)?;
    }
    text.push_str("]}")?;
    Ok(text)
}
