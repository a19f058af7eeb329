//! Decision tables: for each leaf of a resource, what the first rule decides that covers it at all values.
ghost use Rattle.std.specs.Prelude.{◌≡◌, ◌<◌, ◌≤◌, ℕ, false, length, None, Some, Option, is_some, IfOk, OnOk};
ghost use Rattle.scim_schema.specs.declared.limits.TheConstants.{MOST_RULES};
ghost use Rattle.scim_schema.specs.declared.Leaf.{Leaf};
ghost use Rattle.scim_schema.specs.declared.SubAttribute.{SubAttribute};
ghost use Rattle.scim_policy.specs.Decide as spec;
ghost use Rattle.scim_policy.specs.Fits.{is_reading, paths_on};
ghost use Rattle.scim_policy.specs.Table.{or_else};
ghost use Rattle.scim_policy.specs.Table as table;
ghost use Rattle.scim_policy.specs.code.Walk as walk;
ghost use Rattle.scim_policy.specs.declared.rules.PolicyPath.{PolicyPath};

use crate::rule_fit::is_op;
use crate::rules::{Decision, Policy, PolicyPath, Rule};
use scim_schema::{Attribute, Kind, Leaf, Op, SubAttribute};
use scim_text::{NoMemory, push};
use scim_value::Resource;
use std::alloc::Global;

/// A decision table for a client's operation on one resource.
///
/// It is computed for all leaves at once: a rule that fits the client, the operation and the resource decides
/// every leaf that it covers at all values and that no earlier rule has decided.
pub struct Decisions {
    attributes: Vec<AttributeDecisions>,
    rest: Option<Decision>,
}

impl Drop for Decisions {
    fn drop(self) {
        let Decisions {
            attributes: _attributes,
            rest: _rest,
        } = self;
    }
}

/// The decisions on one attribute: on single sub-attributes, which take precedence, and on the whole
/// attribute.
#[derive(Drop)]
struct AttributeDecisions {
    sub_attributes: Vec<(SubAttribute, Decision)>,
    whole: Option<Decision>,
}

impl Policy {
    /// Computes the decision table for the client's operation on the resource. The operation must not be
    /// reading, which is decided value by value: for reading, call [`Policy::patterns`].
    ///
    /// The first rule that fits decides a leaf; if none fits, rule 0 denies.
    pub fn decisions(
        &self,
        alloc: Global,
        client: &str,
        op: Op,
        resource: &Resource,
    ) -> Result<Decisions, NoMemory>
        requires { is_reading op ≡ false }
        ensures { IfOk result (λ ds. (l : Leaf)
            → table.decision ds l ≡ spec.decide self.now client.now op resource.now l) }
    {
        let mut decisions = Decisions::none(alloc);
        decisions.add_rules(alloc, client, op, resource, self.listed())?;
        Ok(decisions)
    }

    /// Decides whether the client may do the operation on one leaf of the resource, in all its values. For
    /// several leaves, call [`Policy::decisions`] or [`Policy::patterns`] once.
    pub fn decide(
        &self,
        alloc: Global,
        client: &str,
        op: Op,
        resource: &Resource,
        leaf: Leaf,
    ) -> Result<Decision, NoMemory>
        ensures { IfOk result (λ d. d ≡ spec.decide self.now client.now op resource.now leaf) }
    {
        if op == Op::Read {
            return Ok(self.patterns(alloc, client, resource)?.whole(leaf));
        }
        Ok(self.decisions(alloc, client, op, resource)?.of(leaf))
    }
}

impl Decisions {
    /// The decision on a leaf.
    #[tactic(auto, unfolding(crate::specs::Table::decision))]
    pub fn of(&self, leaf: Leaf) -> Decision
        ensures { result ≡ table.decision self.now leaf }
    {
        match self.decided(leaf) {
            Some(decision) => decision,
            None => Decision {
                rule: 0,
                allow: false,
            },
        }
    }

    /// A table without any decisions yet.
    #[tactic(auto, unfolding(crate::specs::Table::decided))]
    pub(crate) fn none(alloc: Global) -> Decisions
        ensures { (l : Leaf) → table.decided result l ≡ None }
    {
        Decisions {
            attributes: Vec::new(alloc),
            rest: None,
        }
    }

    /// The decision made on a leaf so far, if any.
    pub(crate) fn decided(&self, leaf: Leaf) -> Option<Decision>
        ensures { result ≡ table.decided self.now leaf }
    {
        match at_number(
            self.attributes.as_slice(),
            leaf.attribute as usize,
            leaf.sub_attribute,
        ) {
            Some(decision) => Some(decision),
            None => self.rest,
        }
    }

    /// Adds the decisions of `rules`, numbered from 1, for leaves without a decision. Skips rules that aren't
    /// for the client, the operation and the resource.
    fn add_rules(
        &mut self,
        alloc: Global,
        client: &str,
        op: Op,
        resource: &Resource,
        rules: &[Rule],
    ) -> Result<(), NoMemory>
        requires { length rules.now ≤ MOST_RULES }
        ensures { OnOk result ((l : Leaf)
            → table.decided self.new l ≡ or_else (table.decided self.old l)
            (walk.by_rules client.now op resource.now l 1 rules.now)) }
    {
        let mut number = 0;
        for rule in rules {
            number += 1;
            if rule.speaks_of(alloc, client, op, resource)? {
                self.add_rule(alloc, rule, resource.kind(), number)?;
                if self.rest.is_some() {
                    return Ok(());
                }
            }
        }
        Ok(())
    }

    /// Whether there is a decision for all leaves that have no decision of their own. Then every leaf is
    /// decided.
    pub(crate) fn has_rest(&self) -> bool
        ensures { result ≡ is_some self.now.rest }
    {
        self.rest.is_some()
    }

    /// Adds the decisions of `rule` on resources of `kind` for leaves without a decision, if the rule is for
    /// the operation.
    pub(crate) fn add_rule_for(
        &mut self,
        alloc: Global,
        rule: &Rule,
        op: Op,
        kind: Kind,
        number: u32,
    ) -> Result<(), NoMemory>
        ensures { OnOk result (walk.Adds (walk.by_op op kind number rule.now) self.old self.new) }
    {
        if is_op(rule.ops(), op) {
            self.add_rule(alloc, rule, kind, number)?;
        }
        Ok(())
    }

    /// Adds the decisions of `rule` on resources of `kind` for leaves without a decision.
    pub(crate) fn add_rule(
        &mut self,
        alloc: Global,
        rule: &Rule,
        kind: Kind,
        number: u32,
    ) -> Result<(), NoMemory>
        ensures { OnOk result ((l : Leaf)
            → table.decided self.new l ≡ or_else (table.decided self.old l)
            (walk.by_paths (paths_on kind rule.now.paths)
            (record { rule = number; allow = rule.now.allow }) l)) }
    {
        let decision = Decision {
            rule: number,
            allow: rule.allows(),
        };
        self.add_paths(alloc, rule.paths_on(kind), decision)
    }

    /// Adds the decision for the leaves that `paths` cover and that have no decision yet.
    fn add_paths(
        &mut self,
        alloc: Global,
        paths: &[PolicyPath],
        decision: Decision,
    ) -> Result<(), NoMemory>
        ensures { OnOk result ((l : Leaf) → table.decided self.new l
            ≡ or_else (table.decided self.old l) (walk.by_paths paths.now decision l)) }
    {
        for path in paths {
            self.add_path(alloc, *path, decision)?;
        }
        Ok(())
    }

    /// Adds the decision for the leaves that `path` covers and that have no decision yet.
    fn add_path(
        &mut self,
        alloc: Global,
        path: PolicyPath,
        decision: Decision,
    ) -> Result<(), NoMemory>
        ensures { OnOk result ((l : Leaf) → table.decided self.new l
            ≡ or_else (table.decided self.old l) (walk.by_path path decision l)) }
    {
        if self.rest.is_some() {
            return Ok(());
        }
        match path {
            PolicyPath::Everything => self.rest = Some(decision),
            PolicyPath::Attribute(attribute) => self.add_attribute(alloc, attribute, decision)?,
            PolicyPath::SubAttribute(attribute, sub_attribute) => {
                self.add_sub_attribute(alloc, attribute, sub_attribute, decision)?
            }
        }
        Ok(())
    }

    /// Adds the decision for those leaves of `attribute` that have no decision yet. The table must not have a
    /// decision for all other leaves (`rest`) yet.
    fn add_attribute(
        &mut self,
        alloc: Global,
        attribute: Attribute,
        decision: Decision,
    ) -> Result<(), NoMemory>
        requires { self.old.rest ≡ None }
        ensures { OnOk result ((l : Leaf) → table.decided self.new l
            ≡ or_else (table.decided self.old l)
            (walk.by_path (PolicyPath.Attribute attribute) decision l)) }
    {
        let number = attribute as usize;
        grow(alloc, &mut self.attributes, number)?;
        self.attributes[number].add_whole(decision);
        Ok(())
    }

    /// Adds the decision for a sub-attribute, unless it or its whole attribute already has a decision. The
    /// table must not have a decision for all other leaves (`rest`) yet.
    fn add_sub_attribute(
        &mut self,
        alloc: Global,
        attribute: Attribute,
        sub_attribute: SubAttribute,
        decision: Decision,
    ) -> Result<(), NoMemory>
        requires { self.old.rest ≡ None }
        ensures { OnOk result ((l : Leaf) → table.decided self.new l
            ≡ or_else (table.decided self.old l)
            (walk.by_path (PolicyPath.SubAttribute attribute sub_attribute) decision l)) }
    {
        let number = attribute as usize;
        grow(alloc, &mut self.attributes, number)?;
        self.attributes[number].add_alone(sub_attribute, decision)
    }
}

/// The decision on a leaf, from the entry of its attribute: the one at index `number`. `None` if there is no
/// such entry or no decision in it.
fn at_number(
    entries: &[AttributeDecisions],
    number: usize,
    sub_attribute: Option<SubAttribute>,
) -> Option<Decision>
    ensures { result ≡ table.in_attributes number sub_attribute entries.now }
{
    if number < entries.len() {
        entries[number].decided(sub_attribute)
    } else {
        None
    }
}

/// Appends entries without decisions until there is one at `number`.
fn grow(alloc: Global, entries: &mut Vec<AttributeDecisions>, number: usize) -> Result<(), NoMemory>
    ensures long { OnOk result (number < length entries.new.items) }
    ensures same { OnOk result ((n : ℕ) (sub : Option SubAttribute)
        → table.in_attributes n sub entries.new.items
        ≡ table.in_attributes n sub entries.old.items) }
{
    while entries.len() <= number {
        let undecided = AttributeDecisions {
            sub_attributes: Vec::new(alloc),
            whole: None,
        };
        push(entries, undecided)?;
    }
    Ok(())
}

impl AttributeDecisions {
    /// The decision made on a leaf of the attribute so far, if any.
    fn decided(&self, sub_attribute: Option<SubAttribute>) -> Option<Decision>
        ensures { result ≡ table.in_attribute sub_attribute self.now }
    {
        let alone = match sub_attribute {
            Some(sub_attribute) => alone(self.sub_attributes.as_slice(), sub_attribute),
            None => None,
        };
        match alone {
            Some(decision) => Some(decision),
            None => self.whole,
        }
    }

    /// Adds the decision for the whole attribute, unless the whole attribute already has a decision.
    fn add_whole(&mut self, decision: Decision)
        ensures { (sub : Option SubAttribute) → table.in_attribute sub self.new
            ≡ or_else (table.in_attribute sub self.old) (Some decision) }
    {
        if self.whole.is_none() {
            self.whole = Some(decision);
        }
    }

    /// Adds the decision for a sub-attribute, unless it or the whole attribute already has a decision.
    fn add_alone(&mut self, sub_attribute: SubAttribute, decision: Decision) -> Result<(), NoMemory>
        ensures { OnOk result ((sub : Option SubAttribute) → table.in_attribute sub self.new
            ≡ or_else (table.in_attribute sub self.old) (walk.by_name sub_attribute decision sub)) }
    {
        if self.decided(Some(sub_attribute)).is_none() {
            push(&mut self.sub_attributes, (sub_attribute, decision))?;
        }
        Ok(())
    }
}

/// The decision on a single sub-attribute, if any.
fn alone(pairs: &[(SubAttribute, Decision)], sub_attribute: SubAttribute) -> Option<Decision>
    ensures { result ≡ table.at_sub_attribute sub_attribute pairs.now }
{
    for pair in pairs {
        if pair.0 == sub_attribute {
            return Some(pair.1);
        }
    }
    None
}
