//! Prints the decisions on a whole resource.
ghost use Rattle.std.specs.Prelude.{◌≡◌, IfOk, string_bytes};
ghost use Rattle.scim_explain.specs.Inquiries.{inquiry, obstacle};
ghost use Rattle.scim_explain.specs.Tables as spec;
ghost use Rattle.scim_explain.specs.code.InquiryParts.{inquiry_in};

use crate::inquiries::{Inquiry, Obstacle};
use crate::texts::effect_word;
use scim_audit::leaf_path;
use scim_policy::{Decision, Policy};
use scim_schema::{Attribute, Leaf, Op, leaves};
use scim_text::NoMemory;
use scim_value::Resource;
use std::alloc::Global;

/// Prints what the policy decides on the client's operation on the resource, and what the server does.
///
/// The first line says whether the client sees the resource, such as `resource seen: read id rule 3 allow` or
/// `resource not seen: read id rule 0 deny`. Then there is a line for each leaf of the resource's kind, in order:
/// the path of the leaf as in policy files, the number of the deciding rule or 0, and `allow` or `deny`, such as
/// `userName rule 3 allow`. For reading, it is the decision on the leaf in all its values: the first rule of its
/// pattern that denies decides, or if all allow, the first.
///
/// A line ends in `allow` only where the server does the operation. Where it doesn't although the rule allows, the
/// line goes on with what is in the way, such as
/// `emails.value rule 2 allow, but not written: read emails.type rule 0 deny`.
pub fn table(
    alloc: Global,
    policy: &Policy,
    client: &str,
    op: Op,
    resource: &Resource,
) -> Result<String, NoMemory>
    ensures { IfOk result (λ text. string_bytes text
        ≡ spec.table policy.now client.now op resource.now) }
{
    let inquiry = Inquiry::new(alloc, policy, client, op, resource)?;
    let mut text = seen_line(alloc, &inquiry)?;
    let lines = leaf_lines(alloc, &inquiry, leaves(inquiry.kind()))?;
    text.push_str(lines.as_str())?;
    Ok(text)
}

/// Prints whether the client sees the resource.
fn seen_line(alloc: Global, inquiry: &Inquiry<'_>) -> Result<String, NoMemory>
    ensures { IfOk result (λ line. string_bytes line ≡ spec.seen_line (inquiry_in inquiry.now)) }
{
    let seeing = inquiry.seeing();
    let seen = if seeing.allow { "seen" } else { "not seen" };
    let decision = decision_text(alloc, Leaf::simple(Attribute::Id), seeing)?;
    Ok(format!(in alloc; "resource {seen}: read {decision}\n")?)
}

/// Prints a line for each of `leaves`.
fn leaf_lines(alloc: Global, inquiry: &Inquiry<'_>, leaves: &[Leaf]) -> Result<String, NoMemory>
    ensures { IfOk result (λ text. string_bytes text
        ≡ spec.leaf_lines (inquiry_in inquiry.now) leaves.now) }
{
    let mut text = String::new(alloc);
    for leaf in leaves {
        let line = leaf_line(alloc, inquiry, *leaf)?;
        text.push_str(line.as_str())?;
    }
    Ok(text)
}

/// Prints the decision on a leaf and, where it allows, what else is in the way; with a line feed at the end.
fn leaf_line(alloc: Global, inquiry: &Inquiry<'_>, leaf: Leaf) -> Result<String, NoMemory>
    ensures { IfOk result (λ line. string_bytes line
        ≡ spec.leaf_line (inquiry_in inquiry.now) leaf) }
{
    let decision = inquiry.decision(leaf);
    let text = decision_text(alloc, leaf, decision)?;
    match inquiry.obstacle(leaf) {
        Some(obstacle) if decision.allow => {
            let done = done_word(inquiry.op());
            let reason = obstacle_text(alloc, obstacle)?;
            Ok(format!(in alloc; "{text}, but not {done}: {reason}\n")?)
        }
        _ => Ok(format!(in alloc; "{text}\n")?),
    }
}

/// What is done to a leaf by the operation.
fn done_word(op: Op) -> &'static str
    ensures { result.now ≡ spec.done_word op }
{
    match op {
        Op::Read => "read",
        Op::Create | Op::Modify => "written",
        Op::Delete => "deleted",
    }
}

/// What is in the way of an operation: a denial such as `read emails.type rule 3 deny`, or `readOnly` or
/// `writeOnly`.
fn obstacle_text(alloc: Global, obstacle: Obstacle) -> Result<String, NoMemory>
    ensures { IfOk result (λ text. string_bytes text ≡ spec.obstacle_text obstacle) }
{
    match obstacle {
        Obstacle::Denied(op, leaf, decision) => {
            let name = op.name();
            let text = decision_text(alloc, leaf, decision)?;
            Ok(format!(in alloc; "{name} {text}")?)
        }
        Obstacle::ReadOnly => Ok(String::from_str(alloc, "readOnly")?),
        Obstacle::WriteOnly => Ok(String::from_str(alloc, "writeOnly")?),
    }
}

/// Prints a leaf and the decision on it, such as `userName rule 3 allow`.
fn decision_text(alloc: Global, leaf: Leaf, decision: Decision) -> Result<String, NoMemory>
    ensures { IfOk result (λ text. string_bytes text ≡ spec.decision_text leaf decision) }
{
    let path = leaf_path(alloc, leaf)?;
    let word = effect_word(decision.allow);
    let rule = decision.rule;
    Ok(format!(in alloc; "{path} rule {rule} {word}")?)
}
