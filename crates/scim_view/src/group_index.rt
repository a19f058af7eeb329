//! An index of groups by the ids of their members.
ghost use Rattle.std.specs.Prelude.{◌≡◌, ◌++◌, ◌∷◌, [], false, ℕ, List, cond, map, vec_len, IfOk, IfSome, OnOk, if◌then◌else◌};
ghost use Rattle.std.specs.List.{list_any};
ghost use Rattle.std.specs.Ordering.{nat_cmp, is_eq};
ghost use Rattle.std.specs.Cmp.Lexicographic.{slice_cmp};
ghost use Rattle.scim_schema.specs.declared.Leaf.{Leaf};
ghost use Rattle.scim_cell.specs.Content.{Content};
ghost use Rattle.scim_cell.specs.Ids.{IsId};
ghost use Rattle.scim_cell.specs.Rows.{rows};
ghost use Rattle.scim_value.specs.Members.{lists};
ghost use Rattle.scim_policy.specs.PatternTable.{rules_in};
ghost use Rattle.scim_view.specs.View.{Viewer as SpecViewer, decision_in, read_rules, viewer_of, visible_by};
ghost use Rattle.scim_view.specs.Groups.{has_groups, seen, with_groups};
ghost use Rattle.scim_view.specs.code.Index as spec;
ghost use Rattle.scim_view.specs.Indexes.{IsIndexOf};
ghost use Rattle.scim_view.specs.code.Index.{IsMadeOf};
ghost use Rattle.scim_view.specs.code.Memberships.{names_id};

use crate::computed_groups::{SeenGroup, seen_group};
use crate::viewers::Viewer;
use crate::views::shows_id;
use scim_cell::{Atom, Id, Row};
use scim_policy::Patterns;
use scim_schema::{Attribute, Leaf, SubAttribute, Unit};
use scim_text::{NoMemory, push};
use scim_value::Resource;
use std::alloc::Global;
use std::collections::BTreeMap;

/// An index of the groups that a client sees, by the ids of the members that the client sees in each group.
///
/// Groups are added one by one, and [`Viewer::view_by_index`] looks up one resource at a time, so a caller
/// can stream groups and users from a store without holding lists of them.
#[derive(Drop)]
pub struct GroupIndex {
    groups: Vec<SeenGroup>,
    /// For each id, the distinct positions, in ascending order, of the groups in `groups` in which the client
    /// sees the id as a member.
    by_member: BTreeMap<Id, Vec<usize>>,
}

impl GroupIndex {
    /// Returns an empty index, without allocating.
    pub fn new(alloc: Global) -> GroupIndex
        ensures { (v : SpecViewer) → IsIndexOf v [] result }
    {
        GroupIndex {
            groups: Vec::new(alloc),
            by_member: BTreeMap::new(alloc),
        }
    }

    /// Adds a group, if the viewer sees it.
    /// `patterns` must come from [`Viewer::patterns`] for the group, or from [`Viewer::patterns_on_all`]
    /// for groups. After `NoMemory` the index is unusable.
    pub fn push(
        &mut self,
        alloc: Global,
        patterns: &Patterns<'_>,
        group: &Resource,
    ) -> Result<(), NoMemory>
        ensures { OnOk result ((v : SpecViewer) (groups : List Content)
            → ((l : Leaf) → rules_in patterns.now l ≡ read_rules v group.now l)
            → IsIndexOf v groups self.old → IsIndexOf v (groups ++ group.now ∷ []) self.new) }
    {
        if !shows_id(patterns) {
            return Ok(());
        }
        self.add(alloc, patterns, group)?;
        Ok(())
    }

    /// Returns an index of the groups among `groups` that the viewer sees.
    pub(crate) fn of(
        alloc: Global,
        viewer: &Viewer<'_>,
        groups: &[Resource],
    ) -> Result<GroupIndex, NoMemory>
        ensures { IfOk result (λ index. IsIndexOf (viewer_of viewer.now) groups.now index) }
    {
        let mut index = GroupIndex::new(alloc);
        for group in groups {
            let patterns = viewer.patterns(alloc, group)?;
            index.push(alloc, &patterns, group)?;
        }
        Ok(index)
    }

    /// Returns the groups in which the client sees `id` as a member, in the order in which they were added.
    pub(crate) fn groups_of(&self, alloc: Global, id: Id) -> Result<Vec<&SeenGroup>, NoMemory>
        ensures { IfOk result (λ v. map (λ g. g.now) v.items ≡ spec.groups_of self.now id) }
    {
        let mut groups = Vec::new(alloc);
        for position in self.positions_of(id) {
            if let Some(group) = self.groups.get(*position) {
                push(&mut groups, group)?;
            }
        }
        Ok(groups)
    }

    /// Whether the client sees the resource as a member of a group of the index. If not, the resource has no value of
    /// `groups` in the client's view.
    pub fn has_groups(&self, resource: &Resource) -> bool
        ensures listed { (v : SpecViewer) (groups : List Content) → IsIndexOf v groups self.now
            → result ≡ list_any (lists resource.now.id) (seen v groups) }
        ensures none { result ≡ false → (v : SpecViewer) (groups : List Content)
            → IsIndexOf v groups self.now
            → has_groups (rows (with_groups v groups resource.now)) ≡ false }
    {
        let part = resource.part();
        !self.positions_of(part.id()).is_empty()
    }

    /// Returns the positions in `groups` of the groups in which the client sees `id` as a member.
    fn positions_of(&self, id: Id) -> &[usize]
        ensures { result.now ≡ spec.positions_of self.now id }
    {
        match self.by_member.get(&id) {
            Some(positions) => positions.as_slice(),
            None => &[],
        }
    }

    /// Adds a group that the client sees, with the parts that `patterns` let it read.
    /// After `NoMemory` the index is unusable.
    fn add(
        &mut self,
        alloc: Global,
        patterns: &Patterns<'_>,
        group: &Resource,
    ) -> Result<(), NoMemory>
        ensures { (gs : List Content) → IsMadeOf gs self.old
            → OnOk result (IsMadeOf (gs ++ visible_by (decision_in (rules_in patterns.now)) group.now
            ∷ []) self.new) }
    {
        let seen = seen_group(alloc, patterns, group)?;
        let members = group.part().values(Unit::whole(Attribute::Members));
        let value = Leaf::of(Attribute::Members, SubAttribute::Value);
        if !patterns.is_plain_on(&[Attribute::Members]) {
            self.add_shown_members(alloc, patterns, members)?;
        } else if patterns.last(value).allow {
            self.add_members(alloc, members)?;
        }
        push(&mut self.groups, seen)?;
        Ok(())
    }

    /// Records the position of the next group for each of the members.
    fn add_members(&mut self, alloc: Global, members: &[Row]) -> Result<(), NoMemory>
        ensures groups { self.new.groups ≡ self.old.groups }
        ensures positions { OnOk result ((id : List ℕ) → IsId id → spec.positions_of self.new id
            ≡ (if list_any (names_id id) members.now
            then spec.noted (vec_len self.old.groups)
            (spec.positions_of self.old id) else spec.positions_of self.old id)) }
    {
        for member in members {
            if let Some(id) = member_id(member) {
                self.add_member(alloc, id)?;
            }
        }
        Ok(())
    }

    /// Records the position of the next group for each of the members whose `value` `patterns` let the client
    /// read.
    fn add_shown_members(
        &mut self,
        alloc: Global,
        patterns: &Patterns<'_>,
        members: &[Row],
    ) -> Result<(), NoMemory>
        ensures groups { self.new.groups ≡ self.old.groups }
        ensures positions { OnOk result ((id : List ℕ) → IsId id → spec.positions_of self.new id
            ≡ (if list_any (spec.names_shown (decision_in (rules_in patterns.now)) id) members.now
            then spec.noted (vec_len self.old.groups)
            (spec.positions_of self.old id) else spec.positions_of self.old id)) }
    {
        let value = Leaf::of(Attribute::Members, SubAttribute::Value);
        for member in members {
            if let Some(id) = member_id(member) {
                if patterns.decide_in(alloc, value, member)?.allow {
                    self.add_member(alloc, id)?;
                }
            }
        }
        Ok(())
    }

    /// Records the position of the next group for one member.
    fn add_member(&mut self, alloc: Global, id: Id) -> Result<(), NoMemory>
        ensures groups { self.new.groups ≡ self.old.groups }
        ensures positions { OnOk result ((other : List ℕ) → spec.positions_of self.new other
            ≡ cond (is_eq (slice_cmp nat_cmp id other))
            (spec.noted (vec_len self.old.groups) (spec.positions_of self.old other))
            (spec.positions_of self.old other)) }
    {
        let position = self.groups.len();
        if let Some(positions) = self.by_member.get_mut(&id) {
            return note(positions, position);
        }
        let mut positions = Vec::new(alloc);
        push(&mut positions, position)?;
        self.by_member.insert(id, positions)?;
        Ok(())
    }
}

/// Returns the id in the `value` of a member; `None` if its `value` isn't the text of an id (RFC 7643 section 4.2).
pub fn member_id(member: &Row) -> Option<Id>
    ensures id { (id : List ℕ) → IsId id
        → names_id id member.now ≡ spec.is_found id result }
{
    match member.get(Leaf::of(Attribute::Members, SubAttribute::Value)) {
        Some(Atom::Text(text)) => Id::read(text.as_str()),
        _ => None,
    }
}

/// Appends the position, unless it is already the last one.
fn note(positions: &mut Vec<usize>, position: usize) -> Result<(), NoMemory>
    ensures { OnOk result (positions.new.items ≡ spec.noted position positions.old.items) }
{
    if positions.last().copied() != Some(position) {
        push(positions, position)?;
    }
    Ok(())
}
