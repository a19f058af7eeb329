//! Decides whether a rule fits a request.
ghost use Rattle.std.specs.Prelude.{◌≡◌, ◌||◌, IfOk, IfSome};
ghost use Rattle.std.specs.List.{list_any};
ghost use denote.Enum.Bare.{sameb};
ghost use Rattle.scim_schema.specs.contracts.Kind.{the_type as the_kind};
ghost use Rattle.scim_schema.specs.contracts.Op.{the_type as the_op};
ghost use Rattle.scim_policy.specs.Fits as spec;
ghost use Rattle.scim_policy.specs.code.Asked as needs;
ghost use Rattle.scim_policy.specs.code.Walk as walk;

use crate::rules::{ClientName, FilteredPath, PolicyPath, Rule, Target};
use scim_filter::holds;
use scim_filter_texts::{NeededText, needed_texts};
use scim_schema::{Attribute, Kind, Leaf, Op, SubAttribute, is_multi_valued, leaves};
use scim_text::NoMemory;
use scim_value::Resource;
use std::alloc::Global;

impl Rule {
    /// Whether the rule is for the client, the operation and the resource.
    pub(crate) fn speaks_of(
        &self,
        alloc: Global,
        client: &str,
        op: Op,
        resource: &Resource,
    ) -> Result<bool, NoMemory>
        ensures { IfOk result (λ b. b ≡ spec.speaks_of client.now op resource.now self.now) }
    {
        Ok(self.is_about(client, op, resource.kind()) && self.is_target_met(alloc, resource)?)
    }

    /// Whether the rule names the client, the operation and the kind.
    pub(crate) fn is_about(&self, client: &str, op: Op, kind: Kind) -> bool
        ensures { result ≡ spec.is_about client.now op kind self.now }
    {
        is_op(self.ops(), op) && is_kind(self.kinds(), kind) && is_named(self.clients(), client)
    }

    /// Whether the rule is for the client and the resource, with any operation.
    pub(crate) fn is_for(
        &self,
        alloc: Global,
        client: &str,
        resource: &Resource,
    ) -> Result<bool, NoMemory>
        ensures { IfOk result (λ b. b ≡ walk.is_for client.now resource.now self.now) }
    {
        Ok(
            is_named(self.clients(), client)
                && is_kind(self.kinds(), resource.kind())
                && self.is_target_met(alloc, resource)?,
        )
    }

    /// Whether the rule covers the leaf at all values on resources of the kind.
    pub fn covers(&self, kind: Kind, leaf: Leaf) -> bool
        ensures { result ≡ list_any (spec.covers leaf) (spec.paths_on kind self.now.paths) }
    {
        covers(self.paths_on(kind), leaf)
    }

    /// Whether the rule covers the leaf for the operation: at all values or, for reading, at some.
    pub(crate) fn covers_for(&self, op: Op, resource: &Resource, leaf: Leaf) -> bool
        ensures { result ≡ (spec.covers_in resource.now leaf self.now
            || spec.covers_partly op resource.now leaf self.now) }
    {
        let kind = resource.kind();
        let covers_partly = match op {
            Op::Read => covers_some(self.filtered_on(kind), leaf),
            _ => false,
        };
        covers_partly || self.covers(kind, leaf)
    }

    /// Whether the rule has no target, or its target matches the resource.
    pub(crate) fn is_target_met(&self, alloc: Global, resource: &Resource) -> Result<bool, NoMemory>
        ensures { IfOk result (λ b. b ≡ spec.is_target_met resource.now self.now) }
    {
        let targets = self.targets();
        Ok(targets.is_empty() || holds_on(alloc, targets, resource)?)
    }

    /// Returns texts of which each resource of the kind that meets the rule's target has at least one. `None` if
    /// the rule has no target, or if no such texts are known.
    pub(crate) fn needed_texts(
        &self,
        alloc: Global,
        kind: Kind,
    ) -> Result<Option<Vec<NeededText<'_>>>, NoMemory>
        ensures { IfOk result (λ o. IfSome o (λ texts.
            needs.AreNeeded kind self.now texts.items)) }
    {
        let targets = self.targets();
        if targets.is_empty() {
            return Ok(None);
        }
        needed_by(alloc, targets, kind)
    }
}

/// Returns texts of which each resource of the kind that the target for the kind matches has at least one. `None`
/// if no target is for the kind, or if no such texts are known.
fn needed_by<'p>(
    alloc: Global,
    targets: &'p [Target],
    kind: Kind,
) -> Result<Option<Vec<NeededText<'p>>>, NoMemory>
    ensures { IfOk result (λ o. IfSome o (λ texts.
        needs.AreNeededBy kind targets.now texts.items)) }
{
    for target in targets {
        if kind == target.kind() {
            return needed_texts(alloc, target.filter(), leaves(kind));
        }
    }
    Ok(None)
}

/// Whether the target for the resource's kind matches the resource. False if no target is for that kind.
fn holds_on(alloc: Global, targets: &[Target], resource: &Resource) -> Result<bool, NoMemory>
    ensures { IfOk result (λ b. b ≡ spec.holds_on resource.now targets.now) }
{
    for target in targets {
        if resource.kind() == target.kind() {
            return holds(alloc, target.filter(), resource.part());
        }
    }
    Ok(false)
}

/// Whether any of the names is the client's name, or `*`.
pub(crate) fn is_named(names: &[ClientName], client: &str) -> bool
    ensures { result ≡ list_any (spec.names client.now) names.now }
{
    names.iter().any(|name| name.names(client))
}

/// Whether the operation is in the list.
pub(crate) fn is_op(ops: &[Op], op: Op) -> bool
    ensures { result ≡ list_any (sameb the_op op) ops.now }
{
    ops.iter().any(|own| op == *own)
}

/// Whether the kind is in the list.
pub(crate) fn is_kind(kinds: &[Kind], kind: Kind) -> bool
    ensures { result ≡ list_any (sameb the_kind kind) kinds.now }
{
    kinds.iter().any(|own| kind == *own)
}

/// Whether any path covers the leaf.
fn covers(paths: &[PolicyPath], leaf: Leaf) -> bool
    ensures { result ≡ list_any (spec.covers leaf) paths.now }
{
    paths.iter().any(|path| path.covers(leaf))
}

/// Whether one of the paths covers the leaf at some values.
pub(crate) fn covers_some(paths: &[FilteredPath], leaf: Leaf) -> bool
    ensures { result ≡ list_any (spec.covers_in_part leaf) paths.now }
{
    paths.iter().any(|path| path.covers(leaf))
}

impl ClientName {
    /// Whether this is the client's name, or `*`.
    fn names(&self, client: &str) -> bool
        ensures { result ≡ spec.names client.now self.now }
    {
        match self {
            ClientName::Everyone => true,
            ClientName::Named(name) => name.as_str() == client,
        }
    }
}

impl PolicyPath {
    /// Whether the path covers the leaf: it is `*`, or it names the leaf's attribute or the leaf itself.
    fn covers(self, leaf: Leaf) -> bool
        ensures { result ≡ spec.covers leaf self }
    {
        match self {
            PolicyPath::Everything => true,
            PolicyPath::Attribute(attribute) => leaf.attribute == attribute,
            PolicyPath::SubAttribute(attribute, sub_attribute) => {
                Leaf::of(attribute, sub_attribute) == leaf
            }
        }
    }
}

impl FilteredPath {
    /// Whether the path covers the leaf at some values.
    pub(crate) fn covers(&self, leaf: Leaf) -> bool
        ensures { result ≡ spec.covers_in_part leaf self.now }
    {
        is_multi_valued(leaf.attribute)
            && leaf.attribute != Attribute::Groups
            && self.attribute() == Some(leaf.attribute)
            && is_after(self.sub_attribute(), leaf)
    }
}

/// Whether the leaf is the sub-attribute after the brackets of a path. True if none stands there.
fn is_after(sub_attribute: Option<SubAttribute>, leaf: Leaf) -> bool
    ensures { result ≡ spec.is_after sub_attribute leaf }
{
    match sub_attribute {
        Some(sub_attribute) => leaf.sub_attribute == Some(sub_attribute),
        None => true,
    }
}
