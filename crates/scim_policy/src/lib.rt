//! Decides which client may do which operation on which attributes of which resources.
//!
//! A policy is a list of rules, numbered from 1. A rule allows or denies some clients some operations on some
//! attributes of some kinds of resources. A rule with a target applies only to resources that match it. The
//! first rule that fits decides; if none fits, rule 0 denies.
//!
//! A rule for reading may cover an attribute at some values only: those that match a value filter. Then the
//! first rule that fits and is for a value decides on reading the value. The rules that may decide, up to the
//! first that covers the leaf at all values, are the pattern of the leaf. On reading a leaf in all its values,
//! the first rule of its pattern that denies decides; if all allow, the first.
//!
//! Cases: `crates/cases/data/policy.jsonl`.
#![tactic(auto)]

mod access_rights;
mod asked_texts;
mod decisions;
mod laws;
mod misfits;
mod opened_reading;
mod patterns;
mod reading_rules;
mod rule_fit;
mod rules;

pub use access_rights::Rights;
pub use decisions::Decisions;
pub use laws::{
    decisions_rest_on_control, patterns_rest_on_control, plain_policies_decide_once,
    positions_are_decided_by_value, wholes_allow_each_value,
};
pub use misfits::Misfit;
pub use patterns::Patterns;
pub use reading_rules::ReadingRules;
pub use rules::{ClientName, Decision, FilteredPath, KindPaths, Policy, PolicyPath, Rule, Target};
