//! What a rule allows in vain.
ghost use Rattle.std.specs.Prelude.{◌≡◌, IfOk, filter, find, length};
ghost use Rattle.scim_policy_warnings.specs.declared.possibilities.Extent.TheVariants.{SomeValue};
ghost use Rattle.scim_policy_warnings.specs.MayAllow.{covers_leaf as is_covered};
ghost use Rattle.scim_policy_warnings.specs.Warnings as spec;
ghost use Rattle.scim_policy_warnings.specs.code.OutlookParts.{outlook_in};

use crate::clients::Client;
use crate::needs::{Need, missing, missing_to_write, needed_at_all};
use crate::possibilities::{Extent, covers_leaf, may_allow};
use scim_policy::Rule;
use scim_schema::{
    Kind, Leaf, Mutability, Op, Unit, is_write_only, leaves, mutability_of, unit_of, units,
};
use scim_text::{NoMemory, push};
use std::alloc::Global;

/// What a client can't do, and why.
#[derive(Clone, Copy, PartialEq, Eq)]
pub struct Loss {
    /// What is lost.
    pub scope: Scope,
    /// The first need that is never allowed.
    pub missing: Need,
}

/// What a client can't do anything to.
#[derive(Clone, Copy, PartialEq, Eq)]
pub enum Scope {
    /// All resources of a kind.
    Resources,
    /// A unit of the resources of a kind; and how many more units.
    OneUnit(Unit, usize),
}

/// A unit that can't be written, and the first need for writing it that is never allowed.
#[derive(Clone, Copy, PartialEq, Eq)]
pub(crate) struct LostUnit {
    unit: Unit,
    missing: Need,
}

/// What rules may allow a client by an operation on resources of a kind.
#[derive(Drop)]
pub(crate) struct Outlook {
    op: Op,
    kind: Kind,
    /// The leaves at which the operation has an effect and may be allowed, in some value.
    given: Vec<Leaf>,
    /// The first need of the operation on any resource that is never allowed.
    missing: Option<Need>,
    /// The units that can't be written.
    lost: Vec<LostUnit>,
}

impl Outlook {
    /// Goes through the rules for each leaf of the kind at most three times.
    pub(crate) fn new(
        alloc: Global,
        rules: &[Rule],
        client: &Client,
        op: Op,
        kind: Kind,
    ) -> Result<Outlook, NoMemory>
        ensures { IfOk result (λ o. outlook_in o ≡ spec.outlook rules.now client.now op kind) }
    {
        let given = given_leaves(alloc, rules, client, op, kind)?;
        let lost = lost_units(alloc, rules, client, op, kind)?;
        Ok(Outlook {
            op,
            kind,
            given,
            missing: missing(rules, client, kind, needed_at_all(op)),
            lost,
        })
    }

    /// What the rule allows in vain, if it allows the operation. `None` if nothing.
    pub(crate) fn loss(&self, rule: &Rule) -> Option<Loss>
        ensures { result ≡ spec.loss (outlook_in self.now) rule.now }
    {
        if !self.gives_some(rule) {
            return None;
        }
        match self.missing {
            Some(missing) => Some(Loss {
                scope: Scope::Resources,
                missing,
            }),
            None => self.unit_loss(rule),
        }
    }

    /// The first lost unit of which the rule gives a part, and how many more there are.
    fn unit_loss(&self, rule: &Rule) -> Option<Loss>
        ensures { result ≡ spec.first_lost (filter (spec.gives_part (outlook_in self.now) rule.now)
            self.now.lost.items) }
    {
        let first = self.first_part(rule)?;
        Some(Loss {
            scope: Scope::OneUnit(first.unit, self.parts(rule) - 1),
            missing: first.missing,
        })
    }

    /// The first lost unit of which the rule gives a part.
    fn first_part(&self, rule: &Rule) -> Option<LostUnit>
        ensures { result ≡ find (spec.gives_part (outlook_in self.now) rule.now)
            self.now.lost.items }
    {
        for unit in &self.lost {
            if self.gives_part(rule, unit) {
                return Some(*unit);
            }
        }
        None
    }

    /// The number of lost units of which the rule gives a part.
    fn parts(&self, rule: &Rule) -> usize
        ensures { result ≡ length (filter (spec.gives_part (outlook_in self.now) rule.now)
            self.now.lost.items) }
    {
        self.lost
            .iter()
            .filter(|unit| self.gives_part(rule, unit))
            .count()
    }

    /// Whether the rule covers a leaf that is given, in some value.
    fn gives_some(&self, rule: &Rule) -> bool
        ensures { result ≡ spec.gives_some (outlook_in self.now) rule.now }
    {
        self.given.iter().any(|leaf| self.covers(rule, *leaf))
    }

    /// Whether the rule covers a leaf that is given and is of the unit.
    fn gives_part(&self, rule: &Rule, lost: &LostUnit) -> bool
        ensures { result ≡ spec.gives_part (outlook_in self.now) rule.now lost.now }
    {
        self.given.iter().any(|leaf| unit_of(*leaf) == lost.unit && self.covers(rule, *leaf))
    }

    /// Whether the rule covers the leaf, in some value.
    fn covers(&self, rule: &Rule, leaf: Leaf) -> bool
        ensures { result ≡ is_covered SomeValue self.now.op self.now.kind leaf rule.now }
    {
        covers_leaf(rule, Extent::SomeValue, self.op, self.kind, leaf)
    }
}

/// Whether the operation does anything at the leaf: no client reads what is writeOnly, or writes what is readOnly.
fn has_effect(op: Op, kind: Kind, leaf: Leaf) -> bool
    ensures { result ≡ spec.has_effect op kind leaf }
{
    match op {
        Op::Read => !is_write_only(kind, leaf),
        Op::Create | Op::Modify => mutability_of(kind, unit_of(leaf)) != Mutability::ReadOnly,
        Op::Delete => true,
    }
}

/// The leaves at which the operation has an effect and may be allowed to the client, in some value.
fn given_leaves(
    alloc: Global,
    rules: &[Rule],
    client: &Client,
    op: Op,
    kind: Kind,
) -> Result<Vec<Leaf>, NoMemory>
    ensures { IfOk result (λ given. given.items
        ≡ spec.given_leaves rules.now client.now op kind) }
{
    let mut given = Vec::new(alloc);
    for leaf in leaves(kind) {
        if has_effect(op, kind, *leaf)
            && may_allow(Extent::SomeValue, rules, client, op, kind, *leaf)
        {
            push(&mut given, *leaf)?;
        }
    }
    Ok(given)
}

/// The units that can't be written, in order. Empty for reading and deleting.
fn lost_units(
    alloc: Global,
    rules: &[Rule],
    client: &Client,
    op: Op,
    kind: Kind,
) -> Result<Vec<LostUnit>, NoMemory>
    ensures { IfOk result (λ lost. lost.items ≡ spec.lost_units rules.now client.now op kind) }
{
    let mut lost = Vec::new(alloc);
    for unit in units(kind) {
        if let Some(missing) = missing_to_write(rules, client, op, kind, *unit) {
            push(
                &mut lost,
                LostUnit {
                    unit: *unit,
                    missing,
                },
            )?;
        }
    }
    Ok(lost)
}
