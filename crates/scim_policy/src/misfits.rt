//! Explains why a rule doesn't fit.
ghost use Rattle.std.specs.Prelude.{◌≡◌, ◌≤◌, ◌-◌, IfOk, Some, length, not, is_some, option_map, slice_get};
ghost use Rattle.scim_policy.specs.Fits as spec;

use crate::rule_fit::{is_kind, is_named, is_op};
use crate::rules::{Policy, Rule};
use scim_schema::{Leaf, Op};
use scim_text::NoMemory;
use scim_value::Resource;
use std::alloc::Global;

/// The first part of a rule that doesn't fit a request. The parts are checked in this order.
#[derive(Clone, Copy, Debug, PartialEq, Eq)]
pub enum Misfit {
    /// The rule is for other clients.
    Client,
    /// The rule is for other operations.
    Op,
    /// The rule is for other kinds of resources.
    Kind,
    /// The rule doesn't cover the leaf on resources of this kind, neither at all values nor, for reading, at
    /// some.
    Path,
    /// The rule's target doesn't match the resource.
    Target,
}

impl Policy {
    /// Returns the part of a rule that doesn't fit the request; the first one in the order of [`Misfit`] if
    /// several don't fit. `None` if the rule fits.
    ///
    /// `rule` is the rule's number, from 1 to the number of rules.
    pub fn misfit(
        &self,
        alloc: Global,
        rule: usize,
        client: &str,
        op: Op,
        resource: &Resource,
        leaf: Leaf,
    ) -> Result<Option<Misfit>, NoMemory>
        requires numbered { 1 ≤ rule }
        requires there { rule ≤ length self.now }
        ensures { IfOk result (λ o. Some o
            ≡ option_map (spec.misfit_of client.now op resource.now leaf)
            (slice_get self.now (rule - 1))) }
    {
        self.listed()[rule - 1].misfit(alloc, client, op, resource, leaf)
    }
}

impl Rule {
    /// Returns the part of the rule that doesn't fit the request; the first one in the order of [`Misfit`] if
    /// several don't fit.
    ///
    /// `None` if the rule is for the client, the operation and the resource, and covers the leaf at all values
    /// or, for reading, at some.
    #[tactic(auto, unfolding(crate::specs::Fits::speaks_of))]
    pub fn misfit(
        &self,
        alloc: Global,
        client: &str,
        op: Op,
        resource: &Resource,
        leaf: Leaf,
    ) -> Result<Option<Misfit>, NoMemory>
        ensures first { IfOk result (λ o. o
            ≡ spec.misfit_of client.now op resource.now leaf self.now) }
        ensures fits { IfOk result (λ o. is_some o
            ≡ not (spec.fits client.now op resource.now leaf self.now)) }
    {
        Ok(if !is_named(self.clients(), client) {
            Some(Misfit::Client)
        } else if !is_op(self.ops(), op) {
            Some(Misfit::Op)
        } else if !is_kind(self.kinds(), resource.kind()) {
            Some(Misfit::Kind)
        } else if !self.covers_for(op, resource, leaf) {
            Some(Misfit::Path)
        } else if !self.is_target_met(alloc, resource)? {
            Some(Misfit::Target)
        } else {
            None
        })
    }
}
