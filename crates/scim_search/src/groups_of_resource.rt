//! The groups of one resource, and the client's view of the resource with them.
ghost use Rattle.std.specs.Prelude.{◌≡◌, ℕ, List, [], IfOk};
ghost use Rattle.scim_schema.specs.declared.Kind.{Kind};
ghost use Rattle.scim_cell.specs.Content.{Content};
ghost use Rattle.scim_cell.specs.Kinds.{of_kind};
ghost use Rattle.scim_view.specs.Groups.{view_with_groups};
ghost use Rattle.scim_view.specs.Listings.{AreListing};
ghost use Rattle.scim_view.specs.View.{Viewer as SpecViewer, viewer_of};
ghost use Rattle.scim_shelf.specs.Shelves.{Answers, IsReadFrom, OnlyReads};
ghost use Rattle.scim_shelf.specs.Stores.{IsStore};
ghost use Rattle.scim_search.specs.GroupsBeside as spec;
ghost use Rattle.scim_search.specs.ReadPatterns.{AreFor};
ghost use Rattle.scim_search.specs.Visits.{Tells};

use crate::visitors::ListingVisitor;
use scim_cell::Id;
use scim_policy::Patterns;
use scim_schema::Kind;
use scim_shelf::{Shelf, ShelfFault};
use scim_text::Failed;
use scim_value::{Part, Resource};
use scim_view::{ListingGroups, Viewer, shows_id};
use std::alloc::Global;

/// Returns the groups that appear in the `groups` of a resource: the groups in which the client sees the
/// resource as a member, or no groups if the resource isn't a user (RFC 7643 section 4.1.2). Reads only the
/// groups that list the resource, and a shelf in memory copies none of them.
///
/// Fails with the errors of the shelf.
pub fn groups_beside<S: Shelf>(
    alloc: Global,
    viewer: &Viewer<'_>,
    shelf: &mut S,
    resource: &Resource,
) -> Result<ListingGroups, Failed<ShelfFault>>
    ensures groups { IsReadFrom S.stands S.is_honest shelf.old shelf.new result (λ store groups.
        spec.TellGroups (viewer_of viewer.now) store.resources resource.now groups) }
    ensures read { OnlyReads S.stands S.is_honest S.failures S.has_round shelf.old shelf.new result }
{
    let id = resource.id();
    let mut listing = ListingVisitor::new(alloc, viewer, id)?;
    gather_groups(alloc, &mut listing, shelf, resource.kind(), id)?;
    Ok(listing.end())
}

/// Clears the visitor, then gathers the groups that appear in the `groups` of the resource of the kind with the id.
/// Fails with the errors of the shelf.
pub(crate) fn gather_groups<S: Shelf>(
    alloc: Global,
    listing: &mut ListingVisitor<'_>,
    shelf: &mut S,
    kind: Kind,
    id: Id,
) -> Result<(), Failed<ShelfFault>>
    ensures groups { IfOk result (Answers S.stands S.is_honest shelf.old shelf.new
        (λ store _. (base : List ℕ) (v : SpecViewer) (c : Content) → IsStore base store
        → c.kind ≡ kind → c.id ≡ id
        → Tells v store.resources listing.old → Tells v store.resources listing.new
        × spec.TellGroups v store.resources c listing.new.groups)) }
    ensures read { OnlyReads S.stands S.is_honest S.failures S.has_round shelf.old shelf.new result }
{
    listing.clear(alloc, id);
    match kind {
        Kind::User => gather_listing(alloc, listing, shelf, id),
        Kind::Group => Ok(()),
    }
}

/// Gathers the groups that list the resource with the id as a member. The resource may be a user or a group. The
/// visitor must have no groups yet. Fails with the errors of the shelf.
fn gather_listing<S: Shelf>(
    alloc: Global,
    listing: &mut ListingVisitor<'_>,
    shelf: &mut S,
    id: Id,
) -> Result<(), Failed<ShelfFault>>
    ensures groups { IfOk result (Answers S.stands S.is_honest shelf.old shelf.new
        (λ store _. (base : List ℕ) (v : SpecViewer) (c : Content) → IsStore base store
        → c.id ≡ id
        → Tells v store.resources listing.old → AreListing v id [] listing.old.groups
        → Tells v store.resources listing.new
        × spec.TellGroups v store.resources c listing.new.groups)) }
    ensures read { OnlyReads S.stands S.is_honest S.failures S.has_round shelf.old shelf.new result }
{
    let mut buffer = [0; Id::TEXT_LENGTH];
    let value = id.write(&mut buffer);
    shelf.groups_with(alloc, value, listing)
}

/// Returns the part of the resource that `patterns` let the client see, with its computed `groups`; `None`
/// if the client may not read the `id`.
pub(crate) fn view_beside<S: Shelf>(
    alloc: Global,
    viewer: &Viewer<'_>,
    patterns: &Patterns<'_>,
    listing: &mut ListingVisitor<'_>,
    shelf: &mut S,
    resource: &Resource,
) -> Result<Option<Part>, Failed<ShelfFault>>
    ensures part { IsReadFrom S.stands S.is_honest shelf.old shelf.new result (λ store part.
        AreFor (viewer_of viewer.now) resource.now patterns.now
        → Tells (viewer_of viewer.now) store.resources listing.old
        → Tells (viewer_of viewer.now) store.resources listing.new
        × (part ≡ view_with_groups (viewer_of viewer.now)
        (of_kind Kind.Group store.resources) resource.now)) }
    ensures read { OnlyReads S.stands S.is_honest S.failures S.has_round shelf.old shelf.new result }
{
    if !shows_id(patterns) {
        return Ok(None);
    }
    gather_groups(alloc, listing, shelf, resource.kind(), resource.id())?;
    let part = viewer.with_groups_by(alloc, patterns, listing.groups(), resource)?;
    Ok(Some(part))
}
