//! Selects the rules for a client's reading of a kind once, to compute the patterns of many resources.
ghost use Rattle.std.specs.Prelude.{◌≡◌, true, IfOk};
ghost use Rattle.scim_schema.specs.declared.Leaf.{Leaf};
ghost use Rattle.scim_cell.specs.Content.{Content};
ghost use Rattle.scim_policy.specs.Patterns as spec;
ghost use Rattle.scim_policy.specs.PatternTable.{rules_in};
ghost use Rattle.scim_policy.specs.Fits.{is_target_met};
ghost use Rattle.scim_policy.specs.Selected.{rules_by};
ghost use Rattle.scim_policy.specs.code.Asked.{may_be_met};

use crate::asked_texts::{AskedTexts, is_asked};
use crate::patterns::Patterns;
use crate::rules::{Policy, Rule};
use scim_filter_texts::NeededText;
use scim_schema::{Kind, Leaf, Op};
use scim_text::{NoMemory, push};
use scim_value::Resource;
use std::alloc::Global;
use std::marker::Model;

/// The rules of a policy for a client's reading of a kind, in order.
///
/// On each resource of the kind, these rules give the same patterns as the whole policy. In contracts they are
/// represented by the list of the rules with their numbers.
pub struct ReadingRules<'p> {
    kind: Kind,
    rules: Vec<ReadingRule<'p>>,
    asked: Vec<Leaf>,
}

impl Drop for ReadingRules<'_> {
    fn drop(self) {
        let ReadingRules {
            kind: _kind,
            rules: _rules,
            asked: _asked,
        } = self;
    }
}

/// A rule with its number in the policy, from 1, and texts of which each resource of the kind that meets the
/// rule's target has at least one.
#[derive(Drop)]
struct ReadingRule<'p> {
    number: u32,
    rule: &'p Rule,
    needed: Option<Vec<NeededText<'p>>>,
}

impl<'p> Model for ReadingRules<'p> {
    ghost use Rattle.std.specs.Prelude.{ℕ, List};
    ghost use Rattle.std.specs.Coded.{codes};
    ghost use Rattle.scim_policy.specs.contracts.rules.Rule as rule;
    ghost use Rattle.scim_policy.specs.Rules.{Rule};
    ghost use Rattle.scim_policy.specs.code.Inside.{rules_of, AreSelected};

    ghost Value = { List (ℕ × Rule) };

    ghost coded = { Prim.hlevel (codes, rule.the_row.coded) };

    ghost view = { rules_of };

    ghost invariant = { AreSelected };
}

impl Policy {
    /// Selects the rules that name the client, reading and the kind.
    ///
    /// On each resource of the kind, these rules give the same patterns as the policy. For only one resource,
    /// call [`Policy::patterns`].
    pub fn reading_rules(
        &self,
        alloc: Global,
        client: &str,
        kind: Kind,
    ) -> Result<ReadingRules<'_>, NoMemory>
        ensures { IfOk result (λ rules. (c : Content) → c.kind ≡ kind → (l : Leaf)
            → rules_by rules c l ≡ spec.pattern_rules self.now client.now c l) }
    {
        let mut rules = Vec::new(alloc);
        let mut asked = Vec::new(alloc);
        let mut number = 0;
        for rule in self.listed() {
            number += 1;
            if rule.is_about(client, Op::Read, kind) {
                let needed = rule.needed_texts(alloc, kind)?;
                add_leaves(&mut asked, &needed)?;
                push(
                    &mut rules,
                    ReadingRule {
                        number,
                        rule,
                        needed,
                    },
                )?;
            }
        }
        Ok(ReadingRules { kind, rules, asked })
    }
}

impl<'p> ReadingRules<'p> {
    /// Computes the patterns of these rules on a resource.
    ///
    /// Targets are evaluated in the order of the rules, up to the first rule that matches and covers every leaf
    /// at all values. A target that needs a text that the resource doesn't have isn't evaluated.
    pub fn patterns(&self, alloc: Global, resource: &Resource) -> Result<Patterns<'p>, NoMemory>
        ensures { IfOk result (λ ps. (l : Leaf)
            → rules_in ps l ≡ rules_by self.now resource.now l) }
    {
        let asked = AskedTexts::of(alloc, self.kind, self.asked.as_slice(), resource)?;
        let mut patterns = Patterns::none(alloc);
        for numbered in &self.rules {
            if numbered.is_met(alloc, &asked, resource)? {
                patterns.add_rule(alloc, numbered.rule, resource.kind(), numbered.number)?;
                if patterns.is_complete() {
                    return Ok(patterns);
                }
            }
        }
        Ok(patterns)
    }
}

impl ReadingRule<'_> {
    /// Whether the resource meets the rule's target. The target isn't evaluated if the resource has none of the texts
    /// that it needs.
    #[tactic(auto, using(crate::proofs::AskedLemmas::only_if))]
    fn is_met(
        &self,
        alloc: Global,
        asked: &Option<AskedTexts<'_>>,
        resource: &Resource,
    ) -> Result<bool, NoMemory>
        ensures { IfOk result (λ b.
            (is_target_met resource.now self.now.rule.now ≡ true
            → may_be_met asked.now self.now.needed ≡ true)
            → b ≡ is_target_met resource.now self.now.rule.now) }
    {
        Ok(self.may_be_met(asked) && self.rule.is_target_met(alloc, resource)?)
    }

    /// Whether the rule's target may be met, by the texts that it needs and those that the resource has.
    fn may_be_met(&self, asked: &Option<AskedTexts<'_>>) -> bool
        ensures { result ≡ may_be_met asked.now self.now.needed }
    {
        match (asked, &self.needed) {
            (Some(asked), Some(needed)) => asked.may_have_some(needed.as_slice()),
            _ => true,
        }
    }
}

/// Adds the leaves of the texts that aren't in the list yet.
fn add_leaves(
    leaves: &mut Vec<Leaf>,
    needed: &Option<Vec<NeededText<'_>>>,
) -> Result<(), NoMemory> {
    let Some(needed) = needed else {
        return Ok(());
    };
    for text in needed {
        if !is_asked(leaves.as_slice(), text.leaf) {
            push(leaves, text.leaf)?;
        }
    }
    Ok(())
}
