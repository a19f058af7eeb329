//! What the rules of a policy may allow: a test on rules alone, without a resource.
ghost use Rattle.std.specs.Prelude.{◌≡◌};
ghost use Rattle.std.specs.List.{list_any};
ghost use denote.Enum.Bare.{sameb};
ghost use Rattle.scim_schema.specs.contracts.Kind.{the_type as the_kind};
ghost use Rattle.scim_schema.specs.contracts.Op.{the_type as the_op};
ghost use Rattle.scim_policy.specs.Fits.{covers_in_part, is_after};
ghost use Rattle.scim_policy_warnings.specs.MayAllow as spec;

use crate::clients::{Client, is_for};
use scim_policy::{FilteredPath, Rule};
use scim_schema::{Attribute, Kind, Leaf, Op, SubAttribute, is_multi_valued};

/// In which values of a leaf.
#[derive(Clone, Copy, PartialEq, Eq)]
pub(crate) enum Extent {
    EachValue,
    SomeValue,
}

/// Whether the rule is for the client, the operation and the kind.
pub(crate) fn is_about(rule: &Rule, client: &Client, op: Op, kind: Kind) -> bool
    ensures { result ≡ spec.is_about client.now op kind rule.now }
{
    is_op(rule.ops(), op) && is_kind(rule.kinds(), kind) && is_for(rule, client)
}

/// Whether the operation is in the list.
fn is_op(ops: &[Op], op: Op) -> bool
    ensures { result ≡ list_any (sameb the_op op) ops.now }
{
    ops.iter().any(|own| op == *own)
}

/// Whether the kind is in the list.
fn is_kind(kinds: &[Kind], kind: Kind) -> bool
    ensures { result ≡ list_any (sameb the_kind kind) kinds.now }
{
    kinds.iter().any(|own| kind == *own)
}

/// Whether the rule covers the leaf on resources of the kind: in each value or, by a path with a value filter, in
/// some.
pub(crate) fn covers_leaf(rule: &Rule, extent: Extent, op: Op, kind: Kind, leaf: Leaf) -> bool
    ensures { result ≡ spec.covers_leaf extent op kind leaf rule.now }
{
    match extent {
        Extent::EachValue => rule.covers(kind, leaf),
        Extent::SomeValue => {
            rule.covers(kind, leaf) || (op == Op::Read && covers_some(rule.filtered_on(kind), leaf))
        }
    }
}

/// Whether one of the paths covers the leaf in some value.
fn covers_some(paths: &[FilteredPath], leaf: Leaf) -> bool
    ensures { result ≡ list_any (covers_in_part leaf) paths.now }
{
    paths.iter().any(|path| covers_part(path, leaf))
}

/// Whether the path covers the leaf in some value.
fn covers_part(path: &FilteredPath, leaf: Leaf) -> bool
    ensures { result ≡ covers_in_part leaf path.now }
{
    is_multi_valued(leaf.attribute)
        && leaf.attribute != Attribute::Groups
        && path.attribute() == Some(leaf.attribute)
        && is_behind(path.sub_attribute(), leaf)
}

/// Whether the leaf is the sub-attribute after the brackets of a path. True if none stands there.
fn is_behind(sub_attribute: Option<SubAttribute>, leaf: Leaf) -> bool
    ensures { result ≡ is_after sub_attribute leaf }
{
    match sub_attribute {
        Some(sub_attribute) => leaf.sub_attribute == Some(sub_attribute),
        None => true,
    }
}

/// Whether the rules may allow the client the operation at the leaf, on some resource of the kind.
///
/// If this is false for each value, the policy never allows it. If it is true, the targets of rules decide.
pub(crate) fn may_allow(
    extent: Extent,
    rules: &[Rule],
    client: &Client,
    op: Op,
    kind: Kind,
    leaf: Leaf,
) -> bool
    ensures { result ≡ spec.may_allow extent rules.now client.now op kind leaf }
{
    for rule in rules {
        if denies(rule, other(extent), client, op, kind, leaf) {
            return false;
        }
        if allows(rule, extent, client, op, kind, leaf) {
            return true;
        }
    }
    false
}

/// Whether the rule allows the client the operation at the leaf, on some resources of the kind.
fn allows(rule: &Rule, extent: Extent, client: &Client, op: Op, kind: Kind, leaf: Leaf) -> bool
    ensures { result ≡ spec.allows extent client.now op kind leaf rule.now }
{
    rule.allows() && is_about(rule, client, op, kind) && covers_leaf(rule, extent, op, kind, leaf)
}

/// Whether the rule denies the client the operation at the leaf, on all resources of the kind.
fn denies(rule: &Rule, extent: Extent, client: &Client, op: Op, kind: Kind, leaf: Leaf) -> bool
    ensures { result ≡ spec.denies extent client.now op kind leaf rule.now }
{
    !rule.allows()
        && rule.targets().is_empty()
        && is_about(rule, client, op, kind)
        && covers_leaf(rule, extent, op, kind, leaf)
}

/// The other extent: a leaf isn't allowed in each value if it is denied in some, and the other way round.
fn other(extent: Extent) -> Extent
    ensures { result ≡ spec.other extent }
{
    match extent {
        Extent::EachValue => Extent::SomeValue,
        Extent::SomeValue => Extent::EachValue,
    }
}
