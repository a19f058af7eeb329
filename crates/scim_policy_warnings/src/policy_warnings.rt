//! The warnings of a policy.
ghost use Rattle.std.specs.Prelude.{◌≡◌, ◌≤◌, ◌++◌, IfOk, OnOk, length, flat_map};
ghost use Rattle.scim_schema.specs.Names.{operations};
ghost use Rattle.scim_schema.specs.declared.limits.TheConstants.{MOST_RULES};
ghost use Rattle.scim_policy_warnings.specs.Warnings as spec;

use crate::clients::{Client, clients};
use crate::losses::{Loss, Outlook};
use crate::possibilities::is_about;
use scim_policy::{Policy, Rule};
use scim_schema::{Kind, Op};
use scim_text::{NoMemory, push};
use std::alloc::Global;

/// A rule allows a client an operation in vain.
#[derive(Drop)]
pub struct Warning {
    /// The rule's number, from 1.
    pub rule: u32,
    pub client: Client,
    pub op: Op,
    pub kind: Kind,
    /// What the client can't do, and why.
    pub loss: Loss,
}

/// Finds what rules of the policy allow in vain, for each client that it names and for any other client: at most one
/// warning for a rule, a client, an operation and a kind. Each is certain, and not all that is in vain is found.
///
/// A rule allows in vain if it may allow the operation at some leaf, and the client can't do it to any resource of the
/// kind, or can't write a unit of which the rule covers a leaf. It can't because a decision that it needs is never
/// allowed: no rule allows it, on some resource at least, before a rule without a target denies it.
///
/// Takes as much time as there are clients, leaves and rules, multiplied.
pub fn warnings(alloc: Global, policy: &Policy) -> Result<Vec<Warning>, NoMemory>
    ensures { IfOk result (λ found. found.items ≡ spec.warnings policy.now) }
{
    let rules = policy.listed();
    let clients = clients(alloc, rules)?;
    let mut found = Vec::new(alloc);
    for client in &clients {
        push_for(alloc, rules, client, &mut found)?;
    }
    Ok(found)
}

/// Appends the warnings for a client. On an error `found` may have some of them.
fn push_for(
    alloc: Global,
    rules: &[Rule],
    client: &Client,
    found: &mut Vec<Warning>,
) -> Result<(), NoMemory>
    requires { length rules.now ≤ MOST_RULES }
    ensures { OnOk result (found.new.items
        ≡ found.old.items ++ spec.warnings_for rules.now client.now) }
{
    for kind in Kind::all() {
        push_of_kind(alloc, rules, client, *kind, found)?;
    }
    Ok(())
}

/// Appends the warnings for a client and a kind. On an error `found` may have some of them.
fn push_of_kind(
    alloc: Global,
    rules: &[Rule],
    client: &Client,
    kind: Kind,
    found: &mut Vec<Warning>,
) -> Result<(), NoMemory>
    requires { length rules.now ≤ MOST_RULES }
    ensures { OnOk result (found.new.items ≡ found.old.items
        ++ flat_map (spec.warnings_on rules.now client.now kind) operations) }
{
    for op in Op::all() {
        push_on(alloc, rules, client, kind, *op, found)?;
    }
    Ok(())
}

/// Appends the warnings for a client, a kind and an operation. On an error `found` may have some of them.
fn push_on(
    alloc: Global,
    rules: &[Rule],
    client: &Client,
    kind: Kind,
    op: Op,
    found: &mut Vec<Warning>,
) -> Result<(), NoMemory>
    requires { length rules.now ≤ MOST_RULES }
    ensures { OnOk result (found.new.items
        ≡ found.old.items ++ spec.warnings_on rules.now client.now kind op) }
{
    let outlook = Outlook::new(alloc, rules, client, op, kind)?;
    for (index, rule) in rules.iter().enumerate() {
        if rule.allows() && is_about(rule, client, op, kind) {
            if let Some(loss) = outlook.loss(rule) {
                let client = client.copy(alloc)?;
                let rule = index as u32 + 1;
                push(
                    found,
                    Warning {
                        rule,
                        client,
                        op,
                        kind,
                        loss,
                    },
                )?;
            }
        }
    }
    Ok(())
}
