//! Explains single decisions.
ghost use Rattle.std.specs.Prelude.{◌≡◌, None, Some, IfOk, if◌then◌else◌};
ghost use Rattle.scim_policy.specs.Fits.{fits_wholly};
ghost use Rattle.scim_explain.specs.Explain as spec;

use scim_policy::{Decision, Misfit, Policy, Rule};
use scim_schema::{Leaf, Op};
use scim_text::{NoMemory, push};
use scim_value::Resource;
use std::alloc::Global;
use std::marker::Model;

/// The reason that a rule before the deciding one didn't decide.
#[derive(Clone, Copy, Debug, PartialEq, Eq)]
pub enum Earlier {
    /// The rule doesn't fit; this is the first part of it that doesn't.
    Misfit(Misfit),
    /// The rule fits, but covers the leaf at some values only. It decides in part: true if it allows there.
    InPart(bool),
}

/// A decision with its reason: for each rule before the one that decided, why it didn't decide.
///
/// If no rule decided, there is an entry for every rule. In contracts an explanation is the list of entries
/// and the decision.
#[derive(Drop)]
pub struct Explanation {
    entries: Vec<Earlier>,
    decision: Decision,
}

impl Model for Explanation {
    ghost use Rattle.std.specs.Coded.{codes};
    ghost use Rattle.scim_explain.specs.contracts.explanations.Earlier as earlier_type;
    ghost use Rattle.scim_policy.specs.contracts.rules.Decision as decision_type;
    ghost use Rattle.scim_explain.specs.Explain.{Explanation};

    ghost Value = { Explanation };

    ghost coded = { Prim.hlevel (codes, earlier_type.the_row.coded, decision_type.the_row.coded) };

    ghost view = { λ e. record { entries = e.entries.items; decision = e.decision } };
}

impl Explanation {
    /// The entries of the rules before the one that decided, or of all rules if none decided, in order.
    pub fn entries(&self) -> &[Earlier]
        ensures { result.now ≡ self.now.entries }
    {
        self.entries.as_slice()
    }

    /// The decision that is explained.
    pub fn decision(&self) -> Decision
        ensures { result ≡ self.now.decision }
    {
        self.decision
    }
}

/// Explains the policy's decision on the client's operation on a leaf of the resource: the first rule that fits
/// and covers the leaf at all values decides. For reading, rules before it may decide on some values.
///
/// Each rule up to the first that fits and covers the leaf at all values is checked once.
pub fn explain(
    alloc: Global,
    policy: &Policy,
    client: &str,
    op: Op,
    resource: &Resource,
    leaf: Leaf,
) -> Result<Explanation, NoMemory>
    ensures { IfOk result (λ e. e ≡ spec.explained policy.now client.now op resource.now leaf) }
{
    let mut entries = Vec::new(alloc);
    let mut number = 0;
    for rule in policy.listed() {
        number += 1;
        match entry_of(alloc, rule, client, op, resource, leaf)? {
            Some(entry) => push(&mut entries, entry)?,
            None => {
                let decision = Decision {
                    rule: number,
                    allow: rule.allows(),
                };
                return Ok(Explanation { entries, decision });
            }
        }
    }
    let decision = Decision {
        rule: 0,
        allow: false,
    };
    Ok(Explanation { entries, decision })
}

/// The entry of a rule that doesn't decide on the leaf. `None` if the rule fits and covers the leaf at all
/// values, so that it decides.
fn entry_of(
    alloc: Global,
    rule: &Rule,
    client: &str,
    op: Op,
    resource: &Resource,
    leaf: Leaf,
) -> Result<Option<Earlier>, NoMemory>
    ensures { IfOk result (λ o. o
        ≡ (if fits_wholly client.now op resource.now leaf rule.now then None
        else Some (spec.entry_of client.now op resource.now leaf rule.now))) }
{
    Ok(match rule.misfit(alloc, client, op, resource, leaf)? {
        Some(misfit) => Some(Earlier::Misfit(misfit)),
        None if rule.covers(resource.kind(), leaf) => None,
        None => Some(Earlier::InPart(rule.allows())),
    })
}
