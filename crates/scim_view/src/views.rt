//! Computes the part of a resource that a client may see.
ghost use Rattle.std.specs.Prelude.{◌≡◌, ◌&&◌, false, not, IfOk, map};
ghost use Rattle.std.specs.List.{list_any};
ghost use denote.Enum.Bare.{sameb};
ghost use Rattle.scim_schema.specs.contracts.Attribute.{the_type as the_attribute};
ghost use Rattle.scim_schema.specs.declared.Leaf.{Leaf};
ghost use Rattle.scim_schema.specs.Mutability.{is_write_only};
ghost use Rattle.scim_schema.specs.Units.{simple};
ghost use Rattle.scim_policy.specs.Patterns.{decisions_of, whole_decision};
ghost use Rattle.scim_policy.specs.PatternTable.{last_decision, rules_in};
ghost use Rattle.scim_view.specs.View as spec;
ghost use Rattle.scim_view.specs.View.{decision_in};

use crate::viewers::Viewer;
use scim_cell::{Row, RowJudge, RowTest};
use scim_policy::Patterns;
use scim_schema::{Attribute, Kind, Leaf, Op, is_write_only, leaves};
use scim_text::{NoMemory, push};
use scim_value::{Part, Resource};
use std::alloc::Global;

/// A judge that keeps the cells that `patterns` let the client see, in resources of the kind.
#[derive(Clone, Copy)]
pub(crate) struct MayBeSeen<'a> {
    pub(crate) kind: Kind,
    pub(crate) patterns: &'a Patterns<'a>,
}

impl RowJudge for MayBeSeen<'_> {
    ghost use Rattle.scim_policy.specs.PatternTable.{rules_in};
    ghost use Rattle.scim_view.specs.View.{decision_in, may_be_seen};

    ghost keeps = { λ self row leaf. may_be_seen (decision_in (rules_in self.patterns.now)) self.kind row leaf };

    fn kept(&self, alloc: Global, row: &Row) -> Result<Vec<bool>, NoMemory> {
        let allowed = self.patterns.allowed(alloc, row)?;
        let mut kept = Vec::with_capacity(alloc, allowed.len())?;
        for (index, field) in row.fields().iter().enumerate() {
            let is_allowed = allowed[index];
            let is_hidden = is_write_only(self.kind, field.leaf);
            push(&mut kept, !is_hidden && is_allowed)?;
        }
        Ok(kept)
    }
}

/// A judge that keeps the cells of certain attributes that the client may see.
#[derive(Clone, Copy)]
struct MayBeSeenOf<'a> {
    attributes: &'a [Attribute],
    seen: MayBeSeen<'a>,
}

impl RowJudge for MayBeSeenOf<'_> {
    ghost use Rattle.scim_policy.specs.PatternTable.{rules_in};
    ghost use Rattle.scim_view.specs.View.{decision_in, may_be_seen_of};

    ghost keeps = { λ self row leaf. may_be_seen_of self.attributes.now (decision_in (rules_in self.seen.patterns.now)) self.seen.kind row leaf };

    fn kept(&self, alloc: Global, row: &Row) -> Result<Vec<bool>, NoMemory> {
        if belongs_to(row, self.attributes) {
            self.seen.kept(alloc, row)
        } else {
            none_kept(alloc, row)
        }
    }
}

/// Whether the row belongs to one of the attributes.
pub(crate) fn belongs_to(row: &Row, attributes: &[Attribute]) -> bool
    ensures { result ≡ list_any (sameb the_attribute row.now.unit.attribute) attributes.now }
{
    let own = row.unit().attribute;
    attributes.iter().any(|attribute| own == *attribute)
}

/// Returns false for each field of the row.
pub(crate) fn none_kept(alloc: Global, row: &Row) -> Result<Vec<bool>, NoMemory>
    ensures { IfOk result (λ v. v.items ≡ map (λ f. false) row.now.fields) }
{
    let mut kept = Vec::with_capacity(alloc, row.fields().len())?;
    for _ in row.fields() {
        push(&mut kept, false)?;
    }
    Ok(kept)
}

/// A test that keeps the cells that the last rules of `patterns` let the client see, in resources of the kind.
///
/// If [`Patterns::is_plain`] is true, these are the cells that the client may see.
#[derive(Clone, Copy)]
pub(crate) struct MayBeSeenPlainly<'a> {
    pub(crate) kind: Kind,
    pub(crate) patterns: &'a Patterns<'a>,
}

impl MayBeSeenPlainly<'_> {
    /// Whether the last rule of the leaf's pattern lets the client see the leaf.
    pub(crate) fn shows(&self, leaf: Leaf) -> bool
        ensures { result ≡ (not (is_write_only self.now.kind leaf)
            && (last_decision self.now.patterns.now leaf).allow) }
    {
        !is_write_only(self.kind, leaf) && self.patterns.last(leaf).allow
    }
}

impl RowTest for MayBeSeenPlainly<'_> {
    ghost use Rattle.scim_policy.specs.PatternTable.{last_decision};
    ghost use Rattle.scim_view.specs.View.{may_be_seen};

    ghost keeps = { λ self row leaf. may_be_seen (λ r. last_decision self.patterns.now) self.kind row leaf };

    fn is_kept(&self, _row: &Row, leaf: Leaf) -> bool {
        self.shows(leaf)
    }
}

/// A test that keeps the cells of certain attributes that the last rules of patterns let the client see.
///
/// If [`Patterns::is_plain_on`] is true of the attributes, these are the cells that the client may see. The test
/// drops rows of other attributes without looking at their fields.
#[derive(Clone, Copy)]
pub struct MayBeSeenPlainlyOf<'a> {
    attributes: &'a [Attribute],
    seen: MayBeSeenPlainly<'a>,
}

impl<'a> MayBeSeenPlainlyOf<'a> {
    /// Returns a test that keeps the cells of `attributes` that the last rules of `patterns` let the client see,
    /// in resources of the kind.
    pub fn new(
        attributes: &'a [Attribute],
        kind: Kind,
        patterns: &'a Patterns<'a>,
    ) -> MayBeSeenPlainlyOf<'a>
        ensures { result ≡ record {
          attributes = attributes.entry;
          seen =
              record { kind = kind; patterns = patterns.entry };
        } }
    {
        MayBeSeenPlainlyOf {
            attributes,
            seen: MayBeSeenPlainly { kind, patterns },
        }
    }
}

impl RowTest for MayBeSeenPlainlyOf<'_> {
    ghost use Rattle.scim_policy.specs.PatternTable.{last_decision};
    ghost use Rattle.scim_view.specs.View.{may_be_seen_of};

    ghost keeps = { λ self row leaf. may_be_seen_of self.attributes.now (λ r. last_decision self.seen.patterns.now) self.seen.kind row leaf };

    fn is_kept(&self, row: &Row, leaf: Leaf) -> bool {
        belongs_to(row, self.attributes) && self.seen.shows(leaf)
    }

    fn may_keep(&self, row: &Row) -> bool {
        belongs_to(row, self.attributes)
    }
}

impl Viewer<'_> {
    /// Whether the client sees that the resource exists: the policy lets it read the `id`.
    #[tactic(auto, unfolding(crate::specs::View::sees))]
    pub fn sees(&self, alloc: Global, resource: &Resource) -> Result<bool, NoMemory>
        ensures { IfOk result (λ b. b ≡ spec.sees (spec.viewer_of self.now) resource.now) }
    {
        let decision = self.policy.decide(
            alloc,
            self.client,
            Op::Read,
            resource,
            Leaf::simple(Attribute::Id),
        )?;
        Ok(decision.allow)
    }

    /// Returns the part of the resource that the client may see. It has the cells that the policy lets the
    /// client read, except those of writeOnly attributes (RFC 7643 section 7). Values without a visible cell
    /// are left out, and the positions of later values move down.
    pub fn visible(&self, alloc: Global, resource: &Resource) -> Result<Part, NoMemory>
        ensures { IfOk result (λ p. p ≡ spec.visible (spec.viewer_of self.now) resource.now) }
    {
        let patterns = self.patterns(alloc, resource)?;
        self.visible_by(alloc, &patterns, resource)
    }

    /// Like [`Viewer::visible`], but uses the patterns that [`Viewer::patterns`] returned for the resource.
    /// The policy isn't evaluated again.
    pub fn visible_by(
        &self,
        alloc: Global,
        patterns: &Patterns<'_>,
        resource: &Resource,
    ) -> Result<Part, NoMemory>
        requires { (l : Leaf) → rules_in patterns.now l
            ≡ spec.read_rules (spec.viewer_of self.now) resource.now l }
        ensures { IfOk result (λ p. p ≡ spec.visible (spec.viewer_of self.now) resource.now) }
    {
        visible_by(alloc, patterns, resource)
    }

    /// Like [`Viewer::visible`], but `None` if the client doesn't see that the resource exists. Evaluates the
    /// policy once.
    pub fn view(&self, alloc: Global, resource: &Resource) -> Result<Option<Part>, NoMemory>
        ensures { IfOk result (λ o. o ≡ spec.view (spec.viewer_of self.now) resource.now) }
    {
        let patterns = self.patterns(alloc, resource)?;
        view_by(alloc, &patterns, resource)
    }
}

/// Like [`visible_by`], but `None` if `patterns` don't let the client read the `id`.
#[tactic(auto, unfolding(crate::specs::View::view_by))]
fn view_by(
    alloc: Global,
    patterns: &Patterns<'_>,
    resource: &Resource,
) -> Result<Option<Part>, NoMemory>
    ensures { IfOk result (λ o. o ≡ spec.view_by (rules_in patterns.now) resource.now) }
{
    if shows_id(patterns) {
        Ok(Some(visible_by(alloc, patterns, resource)?))
    } else {
        Ok(None)
    }
}

/// Whether `patterns` let the client read the `id`, so that it sees that the resource exists.
pub fn shows_id(patterns: &Patterns<'_>) -> bool
    ensures { result ≡ (whole_decision (decisions_of (rules_in patterns.now
        (simple Attribute.Id)))).allow }
{
    patterns.whole(Leaf::simple(Attribute::Id)).allow
}

/// Returns the part of the resource that `patterns` let the client see.
pub(crate) fn visible_by(
    alloc: Global,
    patterns: &Patterns<'_>,
    resource: &Resource,
) -> Result<Part, NoMemory>
    ensures { IfOk result (λ p. p
        ≡ spec.visible_by (decision_in (rules_in patterns.now)) resource.now) }
{
    let kind = resource.kind();
    if patterns.is_plain() {
        let test = MayBeSeenPlainly { kind, patterns };
        return resource.part().restrict(alloc, &test);
    }
    let judge = MayBeSeen { kind, patterns };
    resource.part().restrict_by(alloc, &judge)
}

/// Returns the resource with only the cells of `attributes` that `patterns` let the client see.
pub fn visible_attributes(
    alloc: Global,
    attributes: &[Attribute],
    patterns: &Patterns<'_>,
    resource: &Resource,
) -> Result<Part, NoMemory>
    ensures { IfOk result (λ p. p ≡ spec.visible_attributes attributes.now
        (decision_in (rules_in patterns.now)) resource.now) }
{
    let kind = resource.kind();
    let seen = MayBeSeen { kind, patterns };
    let judge = MayBeSeenOf { attributes, seen };
    resource.part().restrict_by(alloc, &judge)
}

/// Whether `patterns` may let the client see some leaf of the attribute in a resource of the kind.
///
/// If not, [`visible_attributes`] keeps no cell of the attribute. If true, it may still keep none: no value need
/// match a rule's filter.
pub fn shows_some(patterns: &Patterns<'_>, kind: Kind, attribute: Attribute) -> bool
    ensures { result ≡ spec.shows_some (λ l. decisions_of (rules_in patterns.now l)) kind
        attribute }
{
    leaves(kind).iter().any(|leaf| {
        leaf.attribute == attribute && !is_write_only(kind, *leaf) && patterns.allows_some(*leaf)
    })
}
