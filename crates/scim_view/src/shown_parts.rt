//! Copies the part of a resource that a reply shows, without what the reply leaves out.
ghost use Rattle.std.specs.Prelude.{◌≡◌, IfOk, List, map};
ghost use Rattle.scim_schema.specs.declared.Leaf.{Leaf};
ghost use Rattle.scim_cell.specs.Content.{Content};
ghost use Rattle.scim_cell.specs.Rows.{restricted};
ghost use Rattle.scim_value.specs.Changes.{restricted_part};
ghost use Rattle.scim_policy.specs.PatternTable.{rules_in};
ghost use Rattle.scim_view.specs.View.{decision_in, read_rules, viewer_of};
ghost use Rattle.scim_view.specs.Groups.{membership_at, visible_with, with_groups};
ghost use Rattle.scim_view.specs.Listings.{AreListing};
ghost use Rattle.scim_view.specs.Shown as spec;
ghost use Rattle.scim_view.specs.code.ShownCells as cells;
ghost use Rattle.scim_view.specs.code.ShownCells.{seen_and_shown};

use crate::computed_groups::{SeenGroup, memberships, put_in_order, references};
use crate::listing_groups::ListingGroups;
use crate::projection::{Shown, Wanted, project_rows};
use crate::viewers::Viewer;
use crate::views::{MayBeSeen, MayBeSeenPlainly, belongs_to, none_kept};
use scim_cell::{Row, RowJudge, RowTest};
use scim_policy::Patterns;
use scim_schema::{Attribute, Kind, Leaf, Unit, attributes};
use scim_text::{NoMemory, push};
use scim_value::{Part, Resource};
use std::alloc::Global;

/// A judge that keeps the cells that the client may see and the reply shows, except those of `unshown`.
#[derive(Clone, Copy)]
struct SeenAndShown<'a> {
    unshown: &'a [Attribute],
    seen: MayBeSeen<'a>,
    wanted: &'a Wanted,
}

impl RowJudge for SeenAndShown<'_> {
    ghost use Rattle.scim_policy.specs.PatternTable.{rules_in};
    ghost use Rattle.scim_view.specs.View.{decision_in};
    ghost use Rattle.scim_view.specs.code.ShownCells.{shown_except};

    ghost keeps = { λ self row leaf. shown_except self.unshown.now (decision_in (rules_in self.seen.patterns.now)) self.seen.kind self.wanted.now row leaf };

    fn kept(&self, alloc: Global, row: &Row) -> Result<Vec<bool>, NoMemory> {
        if belongs_to(row, self.unshown) {
            none_kept(alloc, row)
        } else {
            self.kept_beside(alloc, row)
        }
    }
}

impl SeenAndShown<'_> {
    /// Returns for each field of the row whether the client may see it and the reply shows it.
    fn kept_beside(&self, alloc: Global, row: &Row) -> Result<Vec<bool>, NoMemory>
        ensures { IfOk result (λ v. v.items
            ≡ map (λ f. seen_and_shown (decision_in (rules_in self.now.seen.patterns.now))
            self.now.seen.kind self.now.wanted.now row.now f.leaf) row.now.fields) }
    {
        let seen = self.seen.kept(alloc, row)?;
        let mut kept = Vec::with_capacity(alloc, seen.len())?;
        for (index, field) in row.fields().iter().enumerate() {
            let is_seen = seen[index];
            let is_shown = self.wanted.shows(self.seen.kind, field.leaf);
            push(&mut kept, is_seen && is_shown)?;
        }
        Ok(kept)
    }
}

/// A test that keeps the cells that the last rules of patterns let the client see and the reply shows, except
/// those of `unshown`. The test drops rows of these attributes without looking at their fields.
///
/// If [`Patterns::is_plain`] is true, the last rules let the client see what it may see.
#[derive(Clone, Copy)]
struct SeenAndShownPlainly<'a> {
    unshown: &'a [Attribute],
    seen: MayBeSeenPlainly<'a>,
    wanted: &'a Wanted,
}

impl RowTest for SeenAndShownPlainly<'_> {
    ghost use Rattle.scim_policy.specs.PatternTable.{last_decision};
    ghost use Rattle.scim_view.specs.code.ShownCells.{shown_except};

    ghost keeps = { λ self row leaf. shown_except self.unshown.now (λ r. last_decision self.seen.patterns.now) self.seen.kind self.wanted.now row leaf };

    fn is_kept(&self, row: &Row, leaf: Leaf) -> bool {
        !belongs_to(row, self.unshown)
            && self.seen.shows(leaf)
            && self.wanted.shows(self.seen.kind, leaf)
    }

    fn may_keep(&self, row: &Row) -> bool {
        !belongs_to(row, self.unshown)
    }
}

/// Returns attributes of the kind of which no leaf is shown: all if the client names attributes, and none if it wants
/// the default attributes, which leave out few.
fn unshown_attributes(
    alloc: Global,
    wanted: &Wanted,
    kind: Kind,
) -> Result<Vec<Attribute>, NoMemory>
    ensures { IfOk result (λ v. cells.AreUnshown wanted.now kind v.items) }
{
    let mut unshown = Vec::new(alloc);
    if matches!(wanted, Wanted::Default) {
        return Ok(unshown);
    }
    for attribute in attributes(kind) {
        if !wanted.shows_attribute(kind, *attribute) {
            push(&mut unshown, *attribute)?;
        }
    }
    Ok(unshown)
}

/// Returns the part of the resource that `patterns` let the client see and the reply shows.
fn shown_by(
    alloc: Global,
    patterns: &Patterns<'_>,
    wanted: &Wanted,
    resource: &Resource,
) -> Result<Part, NoMemory>
    ensures { IfOk result (λ p. p
        ≡ restricted_part (seen_and_shown (decision_in (rules_in patterns.now)) resource.now.kind
        wanted.now) resource.now) }
{
    let kind = resource.kind();
    let attributes = unshown_attributes(alloc, wanted, kind)?;
    let unshown = attributes.as_slice();
    let part = resource.part();
    if patterns.is_plain() {
        let seen = MayBeSeenPlainly { kind, patterns };
        let test = SeenAndShownPlainly {
            unshown,
            seen,
            wanted,
        };
        return part.restrict(alloc, &test);
    }
    let seen = MayBeSeen { kind, patterns };
    let judge = SeenAndShown {
        unshown,
        seen,
        wanted,
    };
    part.restrict_by(alloc, &judge)
}

/// Returns the values of a user's `groups` that the reply shows, each with the fields that `patterns` let the
/// client see and the reply shows.
fn shown_memberships(
    alloc: Global,
    patterns: &Patterns<'_>,
    wanted: &Wanted,
    groups: &[&SeenGroup],
    base: &str,
) -> Result<Vec<Row>, NoMemory>
    ensures { IfOk result (λ v. v.items
        ≡ restricted (seen_and_shown (decision_in (rules_in patterns.now)) Kind.User wanted.now)
        (map (membership_at base.now) groups.now)) }
{
    let values = memberships(alloc, patterns, groups, base)?;
    let shown = Shown {
        wanted,
        kind: Kind::User,
    };
    project_rows(alloc, values, &shown)
}

/// Returns the part of the resource that `patterns` let the client see and the reply shows, with `groups`
/// computed. The `groups` of a user are made from the argument `groups`, in the given order. For a group, the
/// argument is ignored.
fn shown_with(
    alloc: Global,
    patterns: &Patterns<'_>,
    wanted: &Wanted,
    resource: &Resource,
    groups: &[&SeenGroup],
    base: &str,
) -> Result<Part, NoMemory>
    ensures { IfOk result (λ p. p ≡ spec.shown wanted.now
        (visible_with (decision_in (rules_in patterns.now))
        (map (membership_at base.now) groups.now) resource.now)) }
{
    let part = shown_by(alloc, patterns, wanted, resource)?;
    if resource.part().kind() == Kind::User {
        let values = shown_memberships(alloc, patterns, wanted, groups, base)?;
        part.put(Unit::whole(Attribute::Groups), values)
    } else {
        Ok(part)
    }
}

impl Viewer<'_> {
    /// Like [`Viewer::with_groups_by`], projected to what a reply shows, as [`crate::project`] does. Copies only the
    /// cells that the reply shows.
    pub fn shown_with_groups(
        &self,
        alloc: Global,
        patterns: &Patterns<'_>,
        groups: &ListingGroups,
        resource: &Resource,
        wanted: &Wanted,
    ) -> Result<Part, NoMemory>
        ensures { IfOk result (λ p. (gs : List Content)
            → ((l : Leaf) → rules_in patterns.now l
            ≡ read_rules (viewer_of self.now) resource.now l)
            → AreListing (viewer_of self.now) resource.now.id gs groups.now
            → p ≡ spec.shown wanted.now (with_groups (viewer_of self.now) gs resource.now)) }
    {
        let mut lent = references(alloc, groups.as_slice())?;
        put_in_order(&mut lent)?;
        shown_with(
            alloc,
            patterns,
            wanted,
            resource,
            lent.as_slice(),
            self.base,
        )
    }
}
