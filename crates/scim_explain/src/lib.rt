//! Explains the decisions of a policy: which rule decided, and why each rule before it didn't.
//!
//! Also prints the decisions on all leaves of a resource with what else an operation rests on, and finds rules
//! that can never decide.
//!
//! Cases: `crates/cases/data/explain.jsonl`.
#![tactic(auto)]

mod decision_table;
mod explanations;
mod inquiries;
mod laws;
mod never_deciding;
mod texts;

pub use decision_table::table;
pub use explanations::{Earlier, Explanation, explain};
pub use inquiries::Obstacle;
pub use laws::{
    each_earlier_rule_has_its_entry, explanations_tell_the_pattern, idle_rules_never_decide,
    tables_tell_what_is_done,
};
pub use never_deciding::{IdleRule, idle_rules, print_idle_rules};
pub use texts::{effect_word, print, rule_line};
