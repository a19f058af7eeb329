//! A client's operation on a resource: what the policy decides at each leaf, and what else it rests on.
ghost use Rattle.std.specs.Prelude.{◌≡◌, IfOk};
ghost use Rattle.scim_schema.specs.Units.{simple};
ghost use Rattle.scim_schema.specs.declared.Attribute.TheVariants as attribute;
ghost use Rattle.scim_explain.specs.Inquiries as spec;
ghost use Rattle.scim_explain.specs.code.InquiryParts.{inquiry_in};

use scim_policy::{Decision, Decisions, Policy, Rights};
use scim_schema::{
    Attribute, Kind, Leaf, Mutability, Op, Unit, is_write_only, leaves, mutability_of, unit_of,
};
use scim_text::NoMemory;
use scim_value::Resource;
use std::alloc::Global;

/// Why the server refuses an operation at a leaf where the policy's decision on the operation allows.
#[derive(Clone, Copy, PartialEq, Eq)]
pub enum Obstacle {
    /// The operation needs another decision too, which denies: its operation, its leaf and the decision.
    Denied(Op, Leaf, Decision),
    /// No client may write the leaf.
    ReadOnly,
    /// No client may read the leaf.
    WriteOnly,
}

/// A client's operation on a resource, with all decisions of the policy that it may rest on.
pub(crate) struct Inquiry<'p> {
    op: Op,
    kind: Kind,
    /// `None` for reading, on which the rights decide.
    decisions: Option<Decisions>,
    rights: Rights<'p>,
}

impl Drop for Inquiry<'_> {
    fn drop(self) {
        let Inquiry {
            op: _op,
            kind: _kind,
            decisions: _decisions,
            rights: _rights,
        } = self;
    }
}

impl<'p> Inquiry<'p> {
    /// Asks the policy about the client's operation on the resource.
    ///
    /// The rules are gone through at most twice.
    pub(crate) fn new(
        alloc: Global,
        policy: &'p Policy,
        client: &str,
        op: Op,
        resource: &Resource,
    ) -> Result<Inquiry<'p>, NoMemory>
        ensures { IfOk result (λ i. inquiry_in i
            ≡ spec.inquiry policy.now client.now op resource.now) }
    {
        let rights = policy.rights(alloc, client, resource)?;
        let decisions = if op == Op::Read {
            None
        } else {
            Some(policy.decisions(alloc, client, op, resource)?)
        };
        Ok(Inquiry {
            op,
            kind: resource.kind(),
            decisions,
            rights,
        })
    }

    /// The operation.
    pub(crate) fn op(&self) -> Op
        ensures { result ≡ (inquiry_in self.now).op }
    {
        self.op
    }

    /// The kind of the resource.
    pub(crate) fn kind(&self) -> Kind
        ensures { result ≡ (inquiry_in self.now).kind }
    {
        self.kind
    }

    /// The policy's decision on the operation at the leaf; for reading, in all its values.
    pub(crate) fn decision(&self, leaf: Leaf) -> Decision
        ensures { result ≡ (inquiry_in self.now).on leaf }
    {
        match &self.decisions {
            Some(decisions) => decisions.of(leaf),
            None => self.rights.read().whole(leaf),
        }
    }

    /// The decision on reading `id`: if it denies, the client doesn't see the resource.
    pub(crate) fn seeing(&self) -> Decision
        ensures { result ≡ (inquiry_in self.now).access.read (simple attribute.Id) }
    {
        self.rights.read().whole(Leaf::simple(Attribute::Id))
    }

    /// Why the server refuses the operation at the leaf, whatever the decision on the operation there. `None`
    /// if nothing else is in the way.
    pub(crate) fn obstacle(&self, leaf: Leaf) -> Option<Obstacle>
        ensures { result ≡ spec.obstacle (inquiry_in self.now) leaf }
    {
        if self.op == Op::Create {
            return self.create_obstacle(leaf);
        }
        let id = Leaf::simple(Attribute::Id);
        let hiding = denial(Op::Read, id, self.seeing());
        if hiding.is_some() {
            return hiding;
        }
        match self.op {
            Op::Read => self.read_obstacle(leaf),
            Op::Delete => denial(Op::Delete, id, self.decision(id)),
            _ => self.modify_obstacle(leaf),
        }
    }

    /// Why a client that sees the resource isn't shown the leaf.
    fn read_obstacle(&self, leaf: Leaf) -> Option<Obstacle>
        ensures { result ≡ spec.read_obstacle (inquiry_in self.now) leaf }
    {
        if is_write_only(self.kind, leaf) {
            Some(Obstacle::WriteOnly)
        } else {
            None
        }
    }

    /// Why a client that sees the resource may not modify the leaf's unit.
    fn modify_obstacle(&self, leaf: Leaf) -> Option<Obstacle>
        ensures { result ≡ spec.modify_obstacle (inquiry_in self.now) leaf }
    {
        let unit = unit_of(leaf);
        if mutability_of(self.kind, unit) == Mutability::ReadOnly {
            return Some(Obstacle::ReadOnly);
        }
        match self.rights.forbidding(self.kind, unit) {
            Some((denied, decision)) if self.decision(denied).allow => {
                Some(Obstacle::Denied(Op::Read, denied, decision))
            }
            Some((denied, decision)) => Some(Obstacle::Denied(Op::Modify, denied, decision)),
            None => None,
        }
    }

    /// Why a body that gives the leaf's unit creates no resource, or why no body gives the unit.
    fn create_obstacle(&self, leaf: Leaf) -> Option<Obstacle>
        ensures { result ≡ spec.create_obstacle (inquiry_in self.now) leaf }
    {
        let id = Leaf::simple(Attribute::Id);
        if leaf == id {
            return None;
        }
        if mutability_of(self.kind, unit_of(leaf)) == Mutability::ReadOnly {
            return Some(Obstacle::ReadOnly);
        }
        let creating = denial(Op::Create, id, self.decision(id));
        if creating.is_some() {
            return creating;
        }
        self.unit_obstacle(leaf)
    }

    /// The denial of creating at the first leaf of the unit of `leaf` where it is denied.
    fn unit_obstacle(&self, leaf: Leaf) -> Option<Obstacle>
        ensures { result ≡ spec.unit_obstacle (inquiry_in self.now) leaf }
    {
        match self.first_denied(unit_of(leaf), leaves(self.kind)) {
            Some(denied) => Some(Obstacle::Denied(Op::Create, denied, self.decision(denied))),
            None => None,
        }
    }

    /// The first of `leaves` that is of the unit and where the operation is denied.
    fn first_denied(&self, unit: Unit, leaves: &[Leaf]) -> Option<Leaf>
        ensures { result ≡ spec.first_denied (inquiry_in self.now) unit leaves.now }
    {
        for leaf in leaves {
            if unit_of(*leaf) == unit && !self.decision(*leaf).allow {
                return Some(*leaf);
            }
        }
        None
    }
}

/// Tells that the decision denies the operation at the leaf; `None` if it allows.
fn denial(op: Op, leaf: Leaf, decision: Decision) -> Option<Obstacle>
    ensures { result ≡ spec.denial op leaf decision }
{
    if decision.allow {
        None
    } else {
        Some(Obstacle::Denied(op, leaf, decision))
    }
}
