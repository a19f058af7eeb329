//! The groups that list one resource as a member, gathered one by one.
ghost use Rattle.std.specs.Prelude.{◌≡◌, ◌++◌, ◌∷◌, [], ℕ, List, true, IfOk, OnOk};
ghost use Rattle.scim_schema.specs.declared.Leaf.{Leaf};
ghost use Rattle.scim_cell.specs.Content.{Content};
ghost use Rattle.scim_value.specs.Members.{lists};
ghost use Rattle.scim_policy.specs.PatternTable.{rules_in};
ghost use Rattle.scim_view.specs.View.{Viewer as SpecViewer, read_rules, viewer_of};
ghost use Rattle.scim_view.specs.Listings.{AreListing};
ghost use Rattle.scim_view.specs.code.Memberships.{telling};

use crate::computed_groups::{SeenGroup, lists, seen_group, tells_of};
use crate::viewers::Viewer;
use scim_cell::Id;
use scim_policy::Patterns;
use scim_schema::Kind;
use scim_text::{NoMemory, push};
use scim_value::Resource;
use std::alloc::Global;

/// The groups that appear in a resource's `groups`.
/// They are the groups in which the client sees the resource as a member. Groups are added one by
/// one, so a caller can borrow them from a store.
#[derive(Drop)]
pub struct ListingGroups {
    /// The id of the resource.
    member: Id,
    groups: Vec<SeenGroup>,
}

impl ListingGroups {
    /// Returns an empty list for the resource with the id `member`, without allocating.
    pub fn new(alloc: Global, member: Id) -> ListingGroups
        ensures { (v : SpecViewer) → AreListing v member [] result }
    {
        ListingGroups {
            member,
            groups: Vec::new(alloc),
        }
    }

    /// Adds a group that lists the resource, if the viewer sees the group, and the resource among its members.
    /// The caller must know that the group lists the resource: its members are looked at only if a value filter is
    /// on them. `patterns` must come from [`Viewer::patterns`] for the group, or from [`Viewer::patterns_on_all`]
    /// for groups. After `NoMemory` the list is unusable.
    pub fn push(
        &mut self,
        alloc: Global,
        patterns: &Patterns<'_>,
        group: &Resource,
    ) -> Result<(), NoMemory>
        ensures { OnOk result ((v : SpecViewer) (id : List ℕ) (groups : List Content)
            → ((l : Leaf) → rules_in patterns.now l ≡ read_rules v group.now l)
            → lists id group.now ≡ true
            → AreListing v id groups self.old
            → AreListing v id (groups ++ group.now ∷ []) self.new) }
    {
        let mut buffer = [0; Id::TEXT_LENGTH];
        let member = self.member.write(&mut buffer);
        if tells_of(alloc, patterns, group.part(), member)? {
            push(&mut self.groups, seen_group(alloc, patterns, group)?)?;
        }
        Ok(())
    }

    /// Returns the groups among `groups` in which the viewer sees the resource as a member.
    /// Empty if the resource isn't a user. Evaluates the policy only for groups that list the
    /// resource.
    pub(crate) fn of(
        alloc: Global,
        viewer: &Viewer<'_>,
        groups: &[Resource],
        resource: &Resource,
    ) -> Result<ListingGroups, NoMemory>
        ensures { IfOk result (λ listing.
            AreListing (viewer_of viewer.now) resource.now.id
            (telling resource.now groups.now) listing) }
    {
        match resource.kind() {
            Kind::User => ListingGroups::of_id(alloc, viewer, groups, resource.id()),
            Kind::Group => Ok(ListingGroups::new(alloc, resource.id())),
        }
    }

    /// Returns the groups among `groups` in which the viewer sees the resource `id` as a member.
    fn of_id(
        alloc: Global,
        viewer: &Viewer<'_>,
        groups: &[Resource],
        id: Id,
    ) -> Result<ListingGroups, NoMemory>
        ensures { IfOk result (λ listing. AreListing (viewer_of viewer.now) id groups.now listing) }
    {
        let mut buffer = [0; Id::TEXT_LENGTH];
        let member = id.write(&mut buffer);
        let mut listing = ListingGroups::new(alloc, id);
        for group in groups {
            if lists(group.part(), member) {
                let patterns = viewer.patterns(alloc, group)?;
                listing.push(alloc, &patterns, group)?;
            }
        }
        Ok(listing)
    }

    /// Returns the groups, in the order in which they were added.
    pub(crate) fn as_slice(&self) -> &[SeenGroup]
        ensures { result.now ≡ self.now.groups.items }
    {
        self.groups.as_slice()
    }
}
