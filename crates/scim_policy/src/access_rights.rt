//! A client's rights on an existing resource, and the rights that a change would add.
ghost use Rattle.std.specs.Prelude.{◌≡◌, ◌&&◌, [], None, find, is_some, not, IfOk, OnOk};
ghost use Rattle.scim_schema.specs.declared.Leaf.{Leaf};
ghost use Rattle.scim_policy.specs.Access as spec;
ghost use Rattle.scim_policy.specs.Access.{access};
ghost use Rattle.scim_policy.specs.Fits.{speaks_of};
ghost use Rattle.scim_policy.specs.Opened.{first};
ghost use Rattle.scim_policy.specs.Patterns.{pattern_rules};
ghost use Rattle.scim_policy.specs.PatternTable.{access_in, reading_rules_in, rules_in};
ghost use Rattle.scim_policy.specs.Table as table;
ghost use Rattle.scim_policy.specs.code.PatternWalk.{AddsIf};
ghost use Rattle.scim_policy.specs.code.Walk.{Adds, by_rule};

use crate::decisions::Decisions;
use crate::patterns::Patterns;
use crate::rules::{Decision, Policy, Rule};
use scim_schema::{Kind, Leaf, Op, Unit, is_write_only, leaves, unit_of};
use scim_text::NoMemory;
use scim_value::Resource;
use std::alloc::Global;

/// A client's rights on one resource: the patterns for reading each leaf, and the decisions on modifying and
/// deleting it.
///
/// They are computed in one pass over the rules, which evaluates each rule's target at most once.
pub struct Rights<'p> {
    read: Patterns<'p>,
    modify: Decisions,
    delete: Decisions,
}

impl Drop for Rights<'_> {
    fn drop(self) {
        let Rights {
            read: _read,
            modify: _modify,
            delete: _delete,
        } = self;
    }
}

impl Policy {
    /// Computes the client's rights on the resource.
    pub fn rights(
        &self,
        alloc: Global,
        client: &str,
        resource: &Resource,
    ) -> Result<Rights<'_>, NoMemory>
        ensures access { IfOk result (λ r.
            access_in r ≡ access self.now client.now resource.now) }
        ensures reading { IfOk result (λ r. (l : Leaf)
            → reading_rules_in r l ≡ pattern_rules self.now client.now resource.now l) }
    {
        let mut rights = Rights::none(alloc);
        let mut number = 0;
        for rule in self.listed() {
            number += 1;
            rights.add_rule(alloc, client, resource, rule, number)?;
            if rights.is_complete() {
                return Ok(rights);
            }
        }
        Ok(rights)
    }

    /// Checks whether the client may write `unit` of the resource.
    ///
    /// Returns the first leaf of the unit that the client may not write, and the decision that denies it.
    /// `None` if the client may write the unit.
    pub fn may_write(
        &self,
        alloc: Global,
        client: &str,
        resource: &Resource,
        unit: Unit,
    ) -> Result<Option<(Leaf, Decision)>, NoMemory>
        ensures { IfOk result (λ o. o
            ≡ spec.forbidding resource.now.kind (access self.now client.now resource.now) unit) }
    {
        let rights = self.rights(alloc, client, resource)?;
        Ok(rights.forbidding(resource.kind(), unit))
    }

    /// Checks whether a change adds to the client's own rights on a resource.
    ///
    /// Returns the first right that the change adds: the operation, the leaf, and the decision after the
    /// change; for reading, the first decision of the leaf's pattern after the change that allows. `None` if the
    /// change adds no right.
    pub fn widens(
        &self,
        alloc: Global,
        client: &str,
        before: &Resource,
        after: &Resource,
    ) -> Result<Option<(Op, Leaf, Decision)>, NoMemory>
        ensures { IfOk result (λ o. o ≡ spec.widening after.now.kind
            (access self.now client.now before.now) (access self.now client.now after.now)) }
    {
        let rights = self.rights(alloc, client, before)?;
        let rights_after = self.rights(alloc, client, after)?;
        rights.widening(alloc, after.kind(), &rights_after)
    }
}

impl<'p> Rights<'p> {
    /// The patterns for reading.
    pub fn read(&self) -> &Patterns<'p>
        ensures { (l : Leaf) → rules_in result.now l ≡ reading_rules_in self.now l }
    {
        &self.read
    }

    /// The first leaf of `unit` that may not be written, with the decision that denies it. `None` if the
    /// unit may be written.
    ///
    /// Writing a leaf needs the right to modify it and the right to read it in all its values. A writeOnly leaf
    /// needs only the right to modify it, since it can't be read (RFC 7643 section 2.2).
    #[tactic(auto, unfolding(crate::specs::Access::forbidding))]
    pub fn forbidding(&self, kind: Kind, unit: Unit) -> Option<(Leaf, Decision)>
        ensures { result ≡ spec.forbidding kind (access_in self.now) unit }
    {
        for leaf in leaves(kind) {
            if unit_of(*leaf) == unit {
                let forbidden = self.forbidden(kind, *leaf);
                if forbidden.is_some() {
                    return forbidden;
                }
            }
        }
        None
    }

    /// The first right that `after` has and `self` lacks: the operation, the leaf, and the decision in
    /// `after`; for reading, the first decision of the leaf's pattern in `after` that allows. `None` if there is
    /// no such right.
    ///
    /// Reading comes before modifying, and modifying before deleting.
    #[tactic(auto, unfolding(crate::specs::Access::widening))]
    pub fn widening(
        &self,
        alloc: Global,
        kind: Kind,
        after: &Rights<'_>,
    ) -> Result<Option<(Op, Leaf, Decision)>, NoMemory>
        ensures { IfOk result (λ o. o
            ≡ spec.widening kind (access_in self.now) (access_in after.now)) }
    {
        if let Some(opened) = self.read.first_opened(alloc, kind, &after.read)? {
            return Ok(Some(opened));
        }
        if let Some(opened) = first_opened(kind, Op::Modify, &self.modify, &after.modify) {
            return Ok(Some(opened));
        }
        Ok(first_opened(kind, Op::Delete, &self.delete, &after.delete))
    }

    /// Rights to which no rule was added yet.
    fn none(alloc: Global) -> Rights<'p>
        ensures last { (l : Leaf) → table.decided result.read.last l ≡ None }
        ensures partial { result.read.partial.items ≡ [] }
        ensures modify { (l : Leaf) → table.decided result.modify l ≡ None }
        ensures delete { (l : Leaf) → table.decided result.delete l ≡ None }
    {
        Rights {
            read: Patterns::none(alloc),
            modify: Decisions::none(alloc),
            delete: Decisions::none(alloc),
        }
    }

    /// Whether a rule for each of the three operations covers every leaf at all values. Then no later rule
    /// changes the rights.
    fn is_complete(&self) -> bool
        ensures { result ≡ (is_some self.now.read.last.rest
            && (is_some self.now.modify.rest && is_some self.now.delete.rest)) }
    {
        self.read.is_complete() && self.modify.has_rest() && self.delete.has_rest()
    }

    /// Adds what one rule decides, if the rule is for the client and the resource. Leaves that an earlier rule
    /// covers at all values keep their patterns for reading; leaves with a decision on modifying or deleting
    /// keep that.
    fn add_rule(
        &mut self,
        alloc: Global,
        client: &str,
        resource: &Resource,
        rule: &'p Rule,
        number: u32,
    ) -> Result<(), NoMemory>
        ensures read { OnOk result (AddsIf (speaks_of client.now Op.Read resource.now rule.now)
            resource.now.kind rule.now (record { rule = number; allow = rule.now.allow })
            self.old.read self.new.read) }
        ensures modify { OnOk result (Adds (λ l.
            by_rule client.now Op.Modify resource.now l number rule.now)
            self.old.modify self.new.modify) }
        ensures delete { OnOk result (Adds (λ l.
            by_rule client.now Op.Delete resource.now l number rule.now)
            self.old.delete self.new.delete) }
    {
        if !rule.is_for(alloc, client, resource)? {
            return Ok(());
        }
        let kind = resource.kind();
        self.read.add_rule_for_reading(alloc, rule, kind, number)?;
        self.modify
            .add_rule_for(alloc, rule, Op::Modify, kind, number)?;
        self.delete
            .add_rule_for(alloc, rule, Op::Delete, kind, number)
    }

    /// Returns `leaf` with the decision that denies writing it: the decision on modifying it if that denies,
    /// else the decision on reading all its values. `None` if the leaf may be written.
    fn forbidden(&self, kind: Kind, leaf: Leaf) -> Option<(Leaf, Decision)>
        ensures { result ≡ find (λ d. not d.1.allow) (spec.needed kind (access_in self.now) leaf) }
    {
        let modify = self.modify.of(leaf);
        if !modify.allow {
            return Some((leaf, modify));
        }
        if is_write_only(kind, leaf) {
            return None;
        }
        let read = self.read.whole(leaf);
        if read.allow { None } else { Some((leaf, read)) }
    }
}

/// Finds the first leaf on which `op` is denied before a change and allowed afterwards. Returns `op`, the
/// leaf and the decision after the change; `None` if there is no such leaf.
fn first_opened(
    kind: Kind,
    op: Op,
    before: &Decisions,
    after: &Decisions,
) -> Option<(Op, Leaf, Decision)>
    ensures { result ≡ first (spec.opened kind op (table.decision before.now)
        (table.decision after.now)) }
{
    for leaf in leaves(kind) {
        let decision = after.of(*leaf);
        if decision.allow && !before.of(*leaf).allow {
            return Some((op, *leaf, decision));
        }
    }
    None
}
