//! Prints warnings, each as a line.
ghost use Rattle.std.specs.Prelude.{◌≡◌, IfOk, string_bytes};
ghost use Rattle.scim_policy_warnings.specs.Texts as spec;

use crate::clients::Client;
use crate::losses::{Loss, Scope};
use crate::needs::Need;
use crate::policy_warnings::Warning;
use scim_audit::leaf_path;
use scim_explain::rule_line;
use scim_schema::{Leaf, Op, Unit, is_multi_valued};
use scim_text::NoMemory;
use std::alloc::Global;

/// Prints warnings, each on a line, such as `rule 2: mail sees no User: it may never read id`.
pub fn print_warnings(alloc: Global, warnings: &[Warning]) -> Result<String, NoMemory>
    ensures { IfOk result (λ text. string_bytes text ≡ spec.warning_lines warnings.now) }
{
    let mut text = String::new(alloc);
    for warning in warnings {
        let line = warning_line(alloc, warning)?;
        text.push_str(line.as_str())?;
    }
    Ok(text)
}

/// Prints the line of a warning, with a line feed at its end.
fn warning_line(alloc: Global, warning: &Warning) -> Result<String, NoMemory>
    ensures { IfOk result (λ line. string_bytes line ≡ spec.warning_line warning.now) }
{
    let words = warning_words(alloc, warning)?;
    rule_line(alloc, warning.rule as usize, words.as_str())
}

/// A warning, without the number of its rule.
fn warning_words(alloc: Global, warning: &Warning) -> Result<String, NoMemory>
    ensures { IfOk result (λ text. string_bytes text ≡ spec.warning_words warning.now) }
{
    let client = client_words(&warning.client);
    let lost = loss_words(alloc, warning)?;
    let reason = reason_words(alloc, &warning.loss)?;
    Ok(format!(in alloc; "{client} {lost}: {reason}")?)
}

/// The name of a client, or `any other client`.
fn client_words(client: &Client) -> &str
    ensures { result.now ≡ spec.client_words client.now }
{
    match client {
        Client::Named(name) => name.as_str(),
        Client::Other => "any other client",
    }
}

/// What a client can't do, such as `sees no User` or `can never modify emails of User`.
fn loss_words(alloc: Global, warning: &Warning) -> Result<String, NoMemory>
    ensures { IfOk result (λ text. string_bytes text
        ≡ spec.loss_words warning.now.op warning.now.kind warning.now.loss.scope) }
{
    let kind = warning.kind.name();
    match warning.loss.scope {
        Scope::Resources => {
            let verb = verb(warning.op);
            Ok(format!(in alloc; "{verb} no {kind}")?)
        }
        Scope::OneUnit(unit, _) => {
            let op = warning.op.name();
            let path = unit_path(alloc, unit)?;
            Ok(format!(in alloc; "can never {op} {path} of {kind}")?)
        }
    }
}

/// What a client does to no resource.
fn verb(op: Op) -> &'static str
    ensures { result.now ≡ spec.verb op }
{
    match op {
        Op::Read => "sees",
        Op::Create => "can create",
        Op::Modify => "can modify",
        Op::Delete => "can delete",
    }
}

/// The path of a unit, as in policies.
fn unit_path(alloc: Global, unit: Unit) -> Result<String, NoMemory>
    ensures { IfOk result (λ text. string_bytes text ≡ spec.unit_path unit) }
{
    leaf_path(
        alloc,
        Leaf {
            attribute: unit.attribute,
            sub_attribute: unit.sub_attribute,
        },
    )
}

/// Why a client can't do it: what it may never do, and how many more units can't be written.
fn reason_words(alloc: Global, loss: &Loss) -> Result<String, NoMemory>
    ensures { IfOk result (λ text. string_bytes text ≡ spec.reason_words loss.now) }
{
    let need = need_words(alloc, &loss.missing)?;
    let more = more_words(alloc, &loss.scope)?;
    Ok(format!(in alloc; "it may never {need}{more}")?)
}

/// What a client may never do, such as `read id` or `read emails.type in all values`.
fn need_words(alloc: Global, need: &Need) -> Result<String, NoMemory>
    ensures { IfOk result (λ text. string_bytes text ≡ spec.need_words need.now) }
{
    let op = need.op.name();
    let leaf = leaf_path(alloc, need.leaf)?;
    let extent = extent_words(need);
    Ok(format!(in alloc; "{op} {leaf}{extent}")?)
}

/// The words for the values that must be read: all of a multi-valued attribute.
fn extent_words(need: &Need) -> &'static str
    ensures { result.now ≡ spec.extent_words need.now }
{
    if need.op == Op::Read && is_multi_valued(need.leaf.attribute) {
        " in all values"
    } else {
        ""
    }
}

/// How many more units can't be written; empty if none.
fn more_words(alloc: Global, scope: &Scope) -> Result<String, NoMemory>
    ensures { IfOk result (λ text. string_bytes text ≡ spec.more_words scope.now) }
{
    match scope {
        Scope::Resources | Scope::OneUnit(_, 0) => Ok(String::new(alloc)),
        Scope::OneUnit(_, more) => Ok(format!(in alloc; " ({more} more like this)")?),
    }
}
