//! Computes the `groups` of users as a client sees them (RFC 7643 section 4.1.2).
ghost use Rattle.std.specs.Prelude.{◌≡◌, ℕ, true, List, IfOk, OnOk, map};
ghost use Rattle.std.specs.Option.{option_copied};
ghost use Rattle.std.specs.List.{list_any};
ghost use Rattle.scim_schema.specs.declared.Leaf.{Leaf};
ghost use Rattle.scim_schema.specs.Units.{whole, leaf_at};
ghost use Rattle.scim_cell.specs.Content.{Content};
ghost use Rattle.scim_cell.specs.Ids.{id_text};
ghost use Rattle.scim_cell.specs.Rows.{rows, values, atom_in, restricted};
ghost use Rattle.scim_policy.specs.PatternTable.{rules_in};
ghost use Rattle.scim_view.specs.View as seeing;
ghost use Rattle.scim_view.specs.View.{decision_in, viewer_of, visible_by};
ghost use Rattle.scim_view.specs.code.Memberships as kept;
ghost use Rattle.scim_view.specs.Sorted.{sorted_by};
ghost use Rattle.scim_value.specs.Members as members;
ghost use Rattle.scim_view.specs.Groups as spec;
ghost use Rattle.scim_view.specs.Listings.{AreListing};

use crate::listing_groups::ListingGroups;
use crate::memberships::membership;
use crate::viewers::Viewer;
use crate::views::{MayBeSeenPlainly, shows_id, visible_by};
use scim_cell::{Atom, Id, Row, Text};
use scim_policy::Patterns;
use scim_schema::{Attribute, Kind, Leaf, SubAttribute, Unit};
use scim_text::{NoMemory, push};
use scim_value::{Part, Resource};
use std::alloc::Global;

/// The parts of a group that appear in the `groups` of its members, as a client sees them.
#[derive(Drop)]
pub(crate) struct SeenGroup {
    id: Id,
    /// The `displayName`; `None` if the group has none or the client may not read it.
    display: Option<Text>,
}

/// Returns the parts of a group that appear in the `groups` of its members.
/// `patterns` are those for reading the group.
pub(crate) fn seen_group(
    alloc: Global,
    patterns: &Patterns<'_>,
    group: &Resource,
) -> Result<SeenGroup, NoMemory>
    ensures id { IfOk result (λ g. g.id ≡ group.now.id) }
    ensures display { IfOk result (λ g. g.display
        ≡ spec.display_of (visible_by (decision_in (rules_in patterns.now)) group.now)) }
{
    let display = seen_name(alloc, patterns, group)?;
    Ok(SeenGroup {
        id: group.id(),
        display,
    })
}

/// Returns the `displayName` of a group; `None` if it has none or `patterns` don't let the client read it. No value
/// filter covers `displayName`, which has one value, so the last rule of its pattern decides.
fn seen_name(
    alloc: Global,
    patterns: &Patterns<'_>,
    group: &Resource,
) -> Result<Option<Text>, NoMemory>
    ensures { IfOk result (λ n. n
        ≡ spec.display_of (visible_by (decision_in (rules_in patterns.now)) group.now)) }
{
    let name = Leaf::simple(Attribute::DisplayName);
    let shown = MayBeSeenPlainly {
        kind: group.kind(),
        patterns,
    };
    let part = group.part();
    if shown.shows(name) {
        text_of(alloc, part.get(name, 0))
    } else {
        Ok(None)
    }
}

/// Copies the text of an atom; `None` if there is no atom or it isn't a text.
fn text_of(alloc: Global, atom: Option<&Atom>) -> Result<Option<Text>, NoMemory>
    ensures { IfOk result (λ t. t ≡ spec.text_in (option_copied atom.entry)) }
{
    match atom {
        Some(Atom::Text(text)) => Ok(Some(text.try_copy(alloc)?)),
        _ => Ok(None),
    }
}

/// Returns the part of a resource that `patterns` let the client read, with `groups` computed.
/// The `groups` of a user are made from the argument `groups`, in the given order. For a group, the argument
/// is ignored.
pub(crate) fn visible_with(
    alloc: Global,
    patterns: &Patterns<'_>,
    resource: &Resource,
    groups: &[&SeenGroup],
    base: &str,
) -> Result<Part, NoMemory>
    ensures { IfOk result (λ p. p ≡ spec.visible_with (decision_in (rules_in patterns.now))
        (map (spec.membership_at base.now) groups.now) resource.now) }
{
    let part = visible_by(alloc, patterns, resource)?;
    if resource.part().kind() == Kind::User {
        let values = memberships(alloc, patterns, groups, base)?;
        part.put(Unit::whole(Attribute::Groups), values)
    } else {
        Ok(part)
    }
}

/// Returns the values of a user's `groups`, each with the fields that `patterns` let the client read.
/// Values without a readable field are left out.
pub(crate) fn memberships(
    alloc: Global,
    patterns: &Patterns<'_>,
    groups: &[&SeenGroup],
    base: &str,
) -> Result<Vec<Row>, NoMemory>
    ensures { IfOk result (λ v. v.items
        ≡ restricted (seeing.may_be_seen (decision_in (rules_in patterns.now)) Kind.User)
        (map (spec.membership_at base.now) groups.now)) }
{
    let shown = MayBeSeenPlainly {
        kind: Kind::User,
        patterns,
    };
    let mut values = Vec::new(alloc);
    for group in groups {
        let value = membership(alloc, &shown, base, group.id, group.display.as_ref())?;
        if !value.fields().is_empty() {
            push(&mut values, value)?;
        }
    }
    Ok(values)
}

impl Viewer<'_> {
    /// Like [`Viewer::visible`], but with the `groups` of a user computed (RFC 7643 section 4.1.2). This
    /// attribute has a value for each of the given groups that the client sees, and sees to list the user as a
    /// member. The values are in ascending order of the groups' ids. The policy decides on `groups` as on any
    /// other attribute.
    pub fn with_groups(
        &self,
        alloc: Global,
        groups: &[Resource],
        resource: &Resource,
    ) -> Result<Part, NoMemory>
        ensures { IfOk result (λ p. p
            ≡ spec.with_groups (viewer_of self.now) groups.now resource.now) }
    {
        let patterns = self.patterns(alloc, resource)?;
        let listing = ListingGroups::of(alloc, self, groups, resource)?;
        self.with_groups_by(alloc, &patterns, &listing, resource)
    }

    /// Like [`Viewer::with_groups`], with patterns and groups that the caller has computed. `patterns` must
    /// come from [`Viewer::patterns`] for this resource, and `groups` must have been gathered for it;
    /// otherwise the result is unspecified. The policy isn't evaluated again.
    pub fn with_groups_by(
        &self,
        alloc: Global,
        patterns: &Patterns<'_>,
        groups: &ListingGroups,
        resource: &Resource,
    ) -> Result<Part, NoMemory>
        ensures { IfOk result (λ p. (gs : List Content)
            → ((l : Leaf) → rules_in patterns.now l
            ≡ seeing.read_rules (viewer_of self.now) resource.now l)
            → AreListing (viewer_of self.now) resource.now.id gs groups.now
            → p ≡ spec.with_groups (viewer_of self.now) gs resource.now) }
    {
        visible_among(alloc, patterns, resource, groups.as_slice(), self.base)
    }

    /// Like [`Viewer::with_groups`], but returns `None` if the client doesn't see the resource at all.
    /// Evaluates the policy once for the resource, and once for each group that lists it.
    pub fn view_with_groups(
        &self,
        alloc: Global,
        groups: &[Resource],
        resource: &Resource,
    ) -> Result<Option<Part>, NoMemory>
        ensures { IfOk result (λ o. o
            ≡ spec.view_with_groups (viewer_of self.now) groups.now resource.now) }
    {
        let patterns = self.patterns(alloc, resource)?;
        if !shows_id(&patterns) {
            return Ok(None);
        }
        let listing = ListingGroups::of(alloc, self, groups, resource)?;
        let part = self.with_groups_by(alloc, &patterns, &listing, resource)?;
        Ok(Some(part))
    }
}

/// Like [`visible_with`], but sorts the groups by id first.
fn visible_among(
    alloc: Global,
    patterns: &Patterns<'_>,
    resource: &Resource,
    groups: &[SeenGroup],
    base: &str,
) -> Result<Part, NoMemory>
    ensures { IfOk result (λ p. p ≡ spec.visible_with (decision_in (rules_in patterns.now))
        (map (λ g. spec.membership_of base.now g.id g.display) (sorted_by kept.kept_cmp groups.now))
        resource.now) }
{
    let mut lent = references(alloc, groups)?;
    put_in_order(&mut lent)?;
    visible_with(alloc, patterns, resource, lent.as_slice(), base)
}

/// Returns a reference to each of the groups, in their order.
pub(crate) fn references(alloc: Global, groups: &[SeenGroup]) -> Result<Vec<&SeenGroup>, NoMemory>
    ensures { IfOk result (λ v. map (λ g. g.now) v.items ≡ groups.now) }
{
    let mut lent = Vec::with_capacity(alloc, groups.len())?;
    for group in groups {
        push(&mut lent, group)?;
    }
    Ok(lent)
}

/// Sorts groups by id, stably.
pub(crate) fn put_in_order(groups: &mut Vec<&SeenGroup>) -> Result<(), NoMemory>
    ensures { OnOk result (map (λ g. g.now) groups.new.items
        ≡ sorted_by kept.kept_cmp (map (λ g. g.now) groups.old.items)) }
{
    groups.sort_by(|a, b| a.id.cmp(&b.id))?;
    Ok(())
}

/// Whether `patterns` let the client see the group, and in it a member whose `value` is `member`. The caller must
/// know that the group has such a member: if no value filter is on `members`, its members aren't looked at.
pub(crate) fn tells_of(
    alloc: Global,
    patterns: &Patterns<'_>,
    group: &Part,
    member: &str,
) -> Result<bool, NoMemory>
    ensures { IfOk result (λ b. (id : List ℕ) → member.now ≡ id_text id
        → members.lists id group.now ≡ true
        → b ≡ kept.tells_of (rules_in patterns.now) id group.now) }
{
    if !shows_id(patterns) {
        return Ok(false);
    }
    if patterns.is_plain_on(&[Attribute::Members]) {
        let kind = group.kind();
        let shown = MayBeSeenPlainly { kind, patterns };
        return Ok(shown.shows(Leaf::of(Attribute::Members, SubAttribute::Value)));
    }
    lists_shown(alloc, patterns, group, member)
}

/// Whether the group has a member whose `value` is `member` and is one that `patterns` let the client see.
fn lists_shown(
    alloc: Global,
    patterns: &Patterns<'_>,
    group: &Part,
    member: &str,
) -> Result<bool, NoMemory>
    ensures { IfOk result (λ b. (id : List ℕ) → member.now ≡ id_text id
        → b ≡ kept.lists_shown (decision_in (rules_in patterns.now)) id group.now) }
{
    let value = Leaf::of(Attribute::Members, SubAttribute::Value);
    for row in group.values(Unit::whole(Attribute::Members)) {
        if is_text(member, row.get(value)) && patterns.decide_in(alloc, value, row)?.allow {
            return Ok(true);
        }
    }
    Ok(false)
}

/// Whether the group has a member whose `value` is `member`.
pub(crate) fn lists(group: &Part, member: &str) -> bool
    ensures { result ≡ list_any (λ m.
        members.is_text member.now (atom_in
        (leaf_at Attribute.Members SubAttribute.Value) m.fields))
        (values (whole Attribute.Members) (rows group.now)) }
{
    let value = Leaf::of(Attribute::Members, SubAttribute::Value);
    group
        .values(Unit::whole(Attribute::Members))
        .iter()
        .any(|row| is_text(member, row.get(value)))
}

/// Whether the atom is a text equal to `text`.
fn is_text(text: &str, atom: Option<&Atom>) -> bool
    ensures { result ≡ members.is_text text.now (option_copied atom.entry) }
{
    match atom {
        Some(Atom::Text(own)) => text == own.as_str(),
        _ => false,
    }
}
