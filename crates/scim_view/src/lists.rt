//! Computes a client's view of many resources.
ghost use Rattle.std.specs.Prelude.{◌≡◌, ℕ, IfOk, List, map};
ghost use Rattle.scim_schema.specs.declared.Leaf.{Leaf};
ghost use Rattle.scim_cell.specs.Content.{Content};
ghost use Rattle.scim_policy.specs.PatternTable.{rules_in};
ghost use Rattle.scim_view.specs.View.{read_rules, viewer_of};
ghost use Rattle.scim_view.specs.Groups as spec;
ghost use Rattle.scim_view.specs.Indexes.{IsIndexOf};
ghost use Rattle.scim_view.specs.code.Index.{Indexes};

use crate::computed_groups::{SeenGroup, put_in_order, visible_with};
use crate::group_index::GroupIndex;
use crate::viewers::Viewer;
use crate::views::shows_id;
use scim_policy::Patterns;
use scim_schema::Kind;
use scim_text::{NoMemory, push};
use scim_value::{Part, Resource};
use std::alloc::Global;

impl Viewer<'_> {
    /// Returns the view of each of `resources` that the client sees, in the given order.
    /// Each view is what [`Viewer::view_with_groups`] returns. Evaluates the policy once for each resource
    /// and once for each group.
    pub fn views(
        &self,
        alloc: Global,
        groups: &[Resource],
        resources: &[Resource],
    ) -> Result<Vec<Part>, NoMemory>
        ensures { IfOk result (λ v. v.items
            ≡ spec.views (viewer_of self.now) groups.now resources.now) }
    {
        let index = GroupIndex::of(alloc, self, groups)?;
        let mut views = Vec::new(alloc);
        for resource in resources {
            let patterns = self.patterns(alloc, resource)?;
            let view = self.view_by_index(alloc, &patterns, &index, resource)?;
            if let Some(view) = view {
                push(&mut views, view)?;
            }
        }
        Ok(views)
    }

    /// Like [`Viewer::view_with_groups`], but takes the groups from the index. `None` if the client doesn't
    /// see the resource. `patterns` must come from [`Viewer::patterns`] for the resource, or from
    /// [`Viewer::patterns_on_all`] for its kind; otherwise the result is unspecified. The policy isn't
    /// evaluated again.
    pub fn view_by_index(
        &self,
        alloc: Global,
        patterns: &Patterns<'_>,
        index: &GroupIndex,
        resource: &Resource,
    ) -> Result<Option<Part>, NoMemory>
        ensures { IfOk result (λ o. (groups : List Content)
            → ((l : Leaf) → rules_in patterns.now l
            ≡ read_rules (viewer_of self.now) resource.now l)
            → IsIndexOf (viewer_of self.now) groups index.now
            → o ≡ spec.view_with_groups (viewer_of self.now) groups resource.now) }
    {
        if !shows_id(patterns) {
            return Ok(None);
        }
        let groups = groups_beside(alloc, index, resource)?;
        let view = visible_with(alloc, patterns, resource, groups.as_slice(), self.base)?;
        Ok(Some(view))
    }
}

/// Returns the groups that the index has for a resource, in ascending order of their ids.
/// Empty if the resource isn't a user, since only users have `groups`.
fn groups_beside<'i>(
    alloc: Global,
    index: &'i GroupIndex,
    resource: &Resource,
) -> Result<Vec<&'i SeenGroup>, NoMemory>
    ensures { (gs : List Content) → Indexes gs index.now → IfOk result (λ v. (base : List ℕ)
        → spec.rows_with (map (spec.membership_at base) v.items) resource.now
        ≡ spec.rows_with (spec.memberships base gs resource.now.id) resource.now) }
{
    let part = resource.part();
    match part.kind() {
        Kind::User => {
            let mut groups = index.groups_of(alloc, part.id())?;
            put_in_order(&mut groups)?;
            Ok(groups)
        }
        Kind::Group => Ok(Vec::new(alloc)),
    }
}
