//! Finds rules that can never decide.
ghost use Rattle.std.specs.Prelude.{◌≡◌, ◌<◌, ◌+◌, IfOk, length, position, string_bytes};
ghost use Rattle.std.specs.List.{list_any, list_all};
ghost use denote.Enum.Bare.{sameb};
ghost use Rattle.scim_schema.specs.contracts.Kind.{the_type as the_kind};
ghost use Rattle.scim_schema.specs.contracts.Op.{the_type as the_op};
ghost use Rattle.scim_explain.specs.Idle as spec;

use crate::texts::rule_line;
use scim_policy::{ClientName, FilteredPath, Policy, PolicyPath, Rule};
use scim_schema::{Kind, Op};
use scim_text::{NoMemory, push};
use std::alloc::Global;

/// A rule that can never decide, because an earlier rule without a target covers everything that this rule
/// covers.
#[derive(Clone, Copy, PartialEq, Eq)]
pub struct IdleRule {
    /// The rule's number, from 1.
    pub rule: u32,
    /// The number of the first rule without a target that covers everything that the idle rule covers.
    pub covered_by: u32,
}

/// Finds the rules that can never decide, in order of their numbers.
///
/// A rule is found if a single earlier rule without a target covers its clients, operations and types and, on
/// each of its types, its paths. Only paths without a value filter cover; they cover paths with one too.
/// Other rules that never decide aren't found, such as a rule that is only covered by two rules together, or
/// a rule whose target matches no resource.
///
/// Each rule is compared with all rules before it, which takes quadratic time; a policy has at most
/// 1,000 rules.
pub fn idle_rules(alloc: Global, policy: &Policy) -> Result<Vec<IdleRule>, NoMemory>
    ensures { IfOk result (λ idle. idle.items ≡ spec.idle_rules policy.now) }
{
    let rules = policy.listed();
    let mut idle = Vec::new(alloc);
    for (index, rule) in rules.iter().enumerate() {
        if let Some(found) = idle_behind(&rules[..index], rule) {
            push(&mut idle, found)?;
        }
    }
    Ok(idle)
}

/// The entry for `rule`, which follows the `earlier` rules. `None` if none of the `earlier` rules covers
/// `rule`.
fn idle_behind(earlier: &[Rule], rule: &Rule) -> Option<IdleRule>
    requires { length earlier.now < 1000 }
    ensures { result ≡ spec.idle_behind earlier.now (length earlier.now + 1) rule.now }
{
    let place = first_covering(earlier, rule)?;
    Some(IdleRule {
        rule: earlier.len() as u32 + 1,
        covered_by: place as u32 + 1,
    })
}

/// The index of the first of `rules` that has no target and covers everything that `rule` covers. `None` if
/// there is no such rule.
fn first_covering(rules: &[Rule], rule: &Rule) -> Option<usize>
    ensures { result ≡ position (λ e. spec.covers_rule e rule.now) rules.now }
{
    rules.iter().position(|earlier| covers_rule(earlier, rule))
}

/// Whether `earlier` has no target and covers everything that `rule` covers.
fn covers_rule(earlier: &Rule, rule: &Rule) -> bool
    ensures { result ≡ spec.covers_rule earlier.now rule.now }
{
    earlier.targets().is_empty()
        && covers_clients(earlier.clients(), rule.clients())
        && covers_ops(earlier.ops(), rule.ops())
        && covers_kinds(earlier.kinds(), rule.kinds())
        && covers_on_kinds(earlier, rule)
}

/// Whether each of `names` is covered by one of `others`.
fn covers_clients(others: &[ClientName], names: &[ClientName]) -> bool
    ensures { result ≡ spec.are_covered spec.covers_client others.now names.now }
{
    names.iter().all(|name| covers_name(others, name))
}

/// Whether one of `others` covers `name`.
fn covers_name(others: &[ClientName], name: &ClientName) -> bool
    ensures { result ≡ list_any (λ other. spec.covers_client other name.now) others.now }
{
    others.iter().any(|other| covers_client(other, name))
}

/// Whether `name` covers every client that `other` covers.
fn covers_client(name: &ClientName, other: &ClientName) -> bool
    ensures { result ≡ spec.covers_client name.now other.now }
{
    match (name, other) {
        (ClientName::Everyone, _) => true,
        (ClientName::Named(_), ClientName::Everyone) => false,
        (ClientName::Named(name), ClientName::Named(other)) => name.as_str() == other.as_str(),
    }
}

/// Whether each of `ops` is among `others`.
fn covers_ops(others: &[Op], ops: &[Op]) -> bool
    ensures { result ≡ spec.are_covered (sameb the_op) others.now ops.now }
{
    ops.iter().all(|op| others.contains(op))
}

/// Whether each of `kinds` is among `others`.
fn covers_kinds(others: &[Kind], kinds: &[Kind]) -> bool
    ensures { result ≡ spec.are_covered (sameb the_kind) others.now kinds.now }
{
    kinds.iter().all(|kind| others.contains(kind))
}

/// Whether `earlier` covers at all values, on each kind of `rule`, all leaves that `rule` covers at all values
/// or at some.
fn covers_on_kinds(earlier: &Rule, rule: &Rule) -> bool
    ensures { result ≡ list_all (spec.covers_on_kind earlier.now rule.now) rule.now.kinds }
{
    rule.kinds()
        .iter()
        .all(|kind| covers_on_kind(earlier, rule, *kind))
}

/// Whether `earlier` covers at all values, on `kind`, all leaves that `rule` covers at all values or at some.
fn covers_on_kind(earlier: &Rule, rule: &Rule, kind: Kind) -> bool
    ensures { result ≡ spec.covers_on_kind earlier.now rule.now kind }
{
    let others = earlier.paths_on(kind);
    covers_paths(others, rule.paths_on(kind)) && covers_all_filtered(others, rule.filtered_on(kind))
}

/// Whether each of `paths` is covered by one of `others`.
fn covers_paths(others: &[PolicyPath], paths: &[PolicyPath]) -> bool
    ensures { result ≡ spec.are_covered spec.covers_path others.now paths.now }
{
    paths.iter().all(|path| is_covered(others, *path))
}

/// Whether `others` cover at all values every leaf that one of `paths` covers at some.
fn covers_all_filtered(others: &[PolicyPath], paths: &[FilteredPath]) -> bool
    ensures { result ≡ list_all (spec.covers_filtered others.now) paths.now }
{
    paths.iter().all(|path| covers_filtered(others, path))
}

/// Whether `others` cover at all values every leaf that `path` covers at some. True if `path` is on no
/// attribute, so that it covers nothing.
fn covers_filtered(others: &[PolicyPath], path: &FilteredPath) -> bool
    ensures { result ≡ spec.covers_filtered others.now path.now }
{
    match without_filter(path) {
        Some(path) => is_covered(others, path),
        None => true,
    }
}

/// The path without its value filter. `None` if the filter isn't a value path on an attribute.
fn without_filter(path: &FilteredPath) -> Option<PolicyPath>
    ensures { result ≡ spec.without_filter path.now }
{
    let attribute = path.attribute()?;
    Some(match path.sub_attribute() {
        Some(sub_attribute) => PolicyPath::SubAttribute(attribute, sub_attribute),
        None => PolicyPath::Attribute(attribute),
    })
}

/// Whether one of `others` covers `path`.
fn is_covered(others: &[PolicyPath], path: PolicyPath) -> bool
    ensures { result ≡ list_any (λ other. spec.covers_path other path) others.now }
{
    others.iter().any(|other| covers_path(*other, path))
}

/// Whether `path` covers every leaf that `other` covers.
fn covers_path(path: PolicyPath, other: PolicyPath) -> bool
    ensures { result ≡ spec.covers_path path other }
{
    match (path, other) {
        (PolicyPath::Everything, _) => true,
        (PolicyPath::Attribute(own), PolicyPath::Attribute(attribute)) => own == attribute,
        (PolicyPath::Attribute(own), PolicyPath::SubAttribute(attribute, _)) => own == attribute,
        (PolicyPath::SubAttribute(..), PolicyPath::SubAttribute(..)) => path == other,
        _ => false,
    }
}

/// Prints idle rules, each on a line: `rule M: never decides, see rule N`.
pub fn print_idle_rules(alloc: Global, idle: &[IdleRule]) -> Result<String, NoMemory>
    ensures { IfOk result (λ text. string_bytes text ≡ spec.idle_lines idle.now) }
{
    let mut text = String::new(alloc);
    for rule in idle {
        let line = idle_line(alloc, *rule)?;
        text.push_str(line.as_str())?;
    }
    Ok(text)
}

/// Prints the line for an idle rule, with a line feed at its end.
fn idle_line(alloc: Global, idle: IdleRule) -> Result<String, NoMemory>
    ensures { IfOk result (λ line. string_bytes line ≡ spec.idle_line idle) }
{
    let earlier = idle.covered_by;
    let word = format!(in alloc; "never decides, see rule {earlier}")?;
    rule_line(alloc, idle.rule as usize, word.as_str())
}
