//! Finds the leaves on which a change of a resource opens reading to a client.
ghost use Rattle.std.specs.Prelude.{◌≡◌, ◌∷◌, [], IfOk, filter};
ghost use Rattle.std.specs.List.{list_all, list_any};
ghost use Rattle.std.specs.Cmp.Lexicographic.{pointwise};
ghost use Rattle.scim_schema.specs.declared.Leaf.{Leaf};
ghost use Rattle.scim_policy.specs.Opened as spec;
ghost use Rattle.scim_policy.specs.Opened.{first};
ghost use Rattle.scim_policy.specs.Patterns.{decisions_of};
ghost use Rattle.scim_policy.specs.PatternTable.{rules_in};

use crate::patterns::Patterns;
use crate::rules::Decision;
use scim_schema::{Kind, Leaf, Op, leaves};
use scim_text::NoMemory;
use std::alloc::Global;

impl Patterns<'_> {
    /// Finds the first leaf on which reading is opened by a change after which the patterns are `after`. Returns
    /// the operation, the leaf, and the first rule of its pattern afterwards that allows. `None` if there is no
    /// such leaf.
    pub fn first_opened(
        &self,
        alloc: Global,
        kind: Kind,
        after: &Patterns<'_>,
    ) -> Result<Option<(Op, Leaf, Decision)>, NoMemory>
        ensures { IfOk result (λ o. o ≡ first (spec.opened_for_reading kind
            (λ l. decisions_of (rules_in self.now l)) (λ l. decisions_of (rules_in after.now l)))) }
    {
        for leaf in leaves(kind) {
            if let Some(decision) = self.opened(alloc, after, *leaf)? {
                return Ok(Some((Op::Read, *leaf, decision)));
            }
        }
        Ok(None)
    }

    /// The first rule of the leaf's pattern afterwards that allows, if reading the leaf is opened.
    ///
    /// Allocates only if one of the two has rules with value filters.
    fn opened(
        &self,
        alloc: Global,
        after: &Patterns<'_>,
        leaf: Leaf,
    ) -> Result<Option<Decision>, NoMemory>
        ensures { IfOk result (λ o. o ≡ spec.opened_at (decisions_of (rules_in self.now leaf))
            (decisions_of (rules_in after.now leaf))) }
    {
        if self.is_plain() && after.is_plain() {
            return Ok(opened_plainly(self.last(leaf), after.last(leaf)));
        }
        let before = self.pattern(alloc, leaf)?;
        let after = after.pattern(alloc, leaf)?;
        Ok(if opens(before.as_slice(), after.as_slice()) {
            first_allowing(after.as_slice())
        } else {
            None
        })
    }
}

/// The decision afterwards, if it allows and the one before denies.
fn opened_plainly(before: Decision, after: Decision) -> Option<Decision>
    ensures { result ≡ spec.opened_at (before ∷ []) (after ∷ []) }
{
    if after.allow && !before.allow {
        Some(after)
    } else {
        None
    }
}

/// Whether a change of a pattern opens reading.
fn opens(before: &[Decision], after: &[Decision]) -> bool
    ensures { result ≡ spec.opens before.now after.now }
{
    !are_same(before, after) && allow_some(after) && !(allow_all(before) && allow_all(after))
}

/// Whether some decision allows.
fn allow_some(decisions: &[Decision]) -> bool
    ensures { result ≡ list_any spec.allows decisions.now }
{
    decisions.iter().any(|decision| decision.allow)
}

/// Whether all decisions allow.
fn allow_all(decisions: &[Decision]) -> bool
    ensures { result ≡ list_all spec.allows decisions.now }
{
    decisions.iter().all(|decision| decision.allow)
}

/// Whether the decisions are equal.
fn are_same(decisions: &[Decision], others: &[Decision]) -> bool
    ensures { result ≡ pointwise spec.is_same_decision decisions.now others.now }
{
    if decisions.len() != others.len() {
        return false;
    }
    for (index, decision) in decisions.iter().enumerate() {
        if !is_same(*decision, others[index]) {
            return false;
        }
    }
    true
}

/// Whether two decisions are equal.
fn is_same(decision: Decision, other: Decision) -> bool
    ensures { result ≡ spec.is_same_decision decision other }
{
    decision.rule == other.rule && decision.allow == other.allow
}

/// The first decision that allows.
fn first_allowing(decisions: &[Decision]) -> Option<Decision>
    ensures { result ≡ first (filter spec.allows decisions.now) }
{
    for decision in decisions {
        if decision.allow {
            return Some(*decision);
        }
    }
    None
}
