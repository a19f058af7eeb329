//! Pages over the resources with some ids, found without reading any other resource of the kind.
ghost use Rattle.std.specs.Prelude.{◌≡◌, ◌∷◌, [], ℕ, List, IfOk, OnOk, filter};
ghost use Rattle.std.specs.List.Sorted.{IsStrictlySortedBy};
ghost use Rattle.std.specs.Ordering.{nat_cmp};
ghost use Rattle.std.specs.Cmp.Lexicographic.{slice_cmp};
ghost use Rattle.scim_schema.specs.declared.Kind.{Kind};
ghost use Rattle.scim_cell.specs.Kinds.{of_kind};
ghost use Rattle.scim_filter_texts.specs.Needed.{AreAt};
ghost use Rattle.scim_view.specs.View.{viewer_of};
ghost use Rattle.scim_view.specs.Groups.{and_those, view_with_groups, views};
ghost use Rattle.scim_query.specs.ClientSearches.{IsShownPage};
ghost use Rattle.scim_query.specs.Needed.{NeedsSome};
ghost use Rattle.scim_query.specs.Pagers.{query_of};
ghost use Rattle.scim_query.specs.Pages.{IsPage};
ghost use Rattle.scim_shelf.specs.Shelves.{Answers, IsReadFrom, OnlyReads};
ghost use Rattle.scim_shelf.specs.Stores.{IsStore};
ghost use Rattle.scim_search.specs.PagesById as spec;
ghost use Rattle.scim_search.specs.PossibleIds.{has_id, possible_leaves};
ghost use Rattle.scim_search.specs.ReadPatterns.{ArePatterns};
ghost use Rattle.scim_search.specs.Visits.{Tells};

use crate::groups_of_resource::view_beside;
use crate::possible_ids::possible_ids;
use crate::read_patterns::ReadPatterns;
use crate::visitors::ListingVisitor;
use scim_cell::Id;
use scim_filter_texts::NeededText;
use scim_query::{Page, Pager, Query, shown_page};
use scim_schema::Kind;
use scim_shelf::{Shelf, ShelfFault};
use scim_text::{Failed, NoMemory, push};
use scim_value::{Part, Resource};
use scim_view::Viewer;
use std::alloc::Global;
use std::collections::BTreeSet;

/// Returns the ids of the set, in ascending order.
fn in_order(alloc: Global, ids: &BTreeSet<Id>) -> Result<Vec<Id>, NoMemory>
    ensures ids { IfOk result (λ listed. listed.items ≡ ids.now.keys) }
    ensures ascending { IfOk result (λ listed.
        IsStrictlySortedBy (slice_cmp nat_cmp) listed.items) }
{
    let mut listed = Vec::with_capacity(alloc, ids.len())?;
    for id in ids {
        push(&mut listed, *id)?;
    }
    Ok(listed)
}

/// Passes the part to the pager, if there is one.
fn push_if_seen(part: Option<Part>, pager: &mut Pager<'_>) -> Result<(), NoMemory>
    ensures query { query_of pager.new ≡ query_of pager.old }
    ensures taken { OnOk result (spec.TakesParts pager.old (and_those part []) pager.new) }
{
    match part {
        Some(part) => {
            pager.push(part)?;
            Ok(())
        }
        None => Ok(()),
    }
}

/// Returns the part of the resource that the client sees, with its computed `groups`; `None` if the client doesn't
/// see the resource. The resource must be of the kind of the patterns.
fn seen_part<S: Shelf>(
    alloc: Global,
    viewer: &Viewer<'_>,
    patterns: &ReadPatterns<'_>,
    listing: &mut ListingVisitor<'_>,
    shelf: &mut S,
    resource: &Resource,
) -> Result<Option<Part>, Failed<ShelfFault>>
    requires { ArePatterns (viewer_of viewer.now) patterns.now }
    ensures part { IsReadFrom S.stands S.is_honest shelf.old shelf.new result (λ store part.
        Tells (viewer_of viewer.now) store.resources listing.old
        → Tells (viewer_of viewer.now) store.resources listing.new
        × (part ≡ view_with_groups (viewer_of viewer.now)
        (of_kind Kind.Group store.resources) resource.now)) }
    ensures read { OnlyReads S.stands S.is_honest S.failures S.has_round shelf.old shelf.new result }
{
    match patterns.on_all(resource) {
        Some(own) => view_beside(alloc, viewer, own, listing, shelf, resource),
        None => {
            let own = patterns.on(alloc, viewer, resource)?;
            view_beside(alloc, viewer, &own, listing, shelf, resource)
        }
    }
}

/// Passes the part of the resource that the client sees to the pager, if there is a resource and the client sees it.
fn push_resource<S: Shelf>(
    alloc: Global,
    viewer: &Viewer<'_>,
    patterns: &ReadPatterns<'_>,
    listing: &mut ListingVisitor<'_>,
    shelf: &mut S,
    found: Option<Resource>,
    pager: &mut Pager<'_>,
) -> Result<(), Failed<ShelfFault>>
    requires { ArePatterns (viewer_of viewer.now) patterns.now }
    ensures query { query_of pager.new ≡ query_of pager.old }
    ensures taken { IfOk result (Answers S.stands S.is_honest shelf.old shelf.new
        (λ store _. (base : List ℕ) → IsStore base store
        → spec.TakesViews (viewer_of viewer.now) store.resources (and_those found [])
        listing.old listing.new pager.old pager.new)) }
    ensures read { OnlyReads S.stands S.is_honest S.failures S.has_round shelf.old shelf.new result }
{
    let Some(resource) = found else {
        return Ok(());
    };
    let part = seen_part(alloc, viewer, patterns, listing, shelf, &resource)?;
    Ok(push_if_seen(part, pager)?)
}

/// Passes the parts of the resources of the kind with these ids that the client sees to the pager, in the order of
/// the ids. Recurses on each half, so the depth is logarithmic in the number of ids.
///
/// Fails with the errors of the shelf.
fn push_with_ids<S: Shelf>(
    alloc: Global,
    viewer: &Viewer<'_>,
    patterns: &ReadPatterns<'_>,
    listing: &mut ListingVisitor<'_>,
    shelf: &mut S,
    ids: &[Id],
    pager: &mut Pager<'_>,
) -> Result<(), Failed<ShelfFault>>
    requires { ArePatterns (viewer_of viewer.now) patterns.now }
    ensures query { query_of pager.new ≡ query_of pager.old }
    ensures taken { IfOk result (Answers S.stands S.is_honest shelf.old shelf.new
        (λ store _. (base : List ℕ) → IsStore base store
        → spec.TakesViews (viewer_of viewer.now) store.resources
        (spec.at_ids patterns.now.kind ids.now store.resources)
        listing.old listing.new pager.old pager.new)) }
    ensures read { OnlyReads S.stands S.is_honest S.failures S.has_round shelf.old shelf.new result }
{
    match ids {
        [] => Ok(()),
        [id] => {
            let found = shelf.by_id(alloc, patterns.kind(), *id)?;
            push_resource(alloc, viewer, patterns, listing, shelf, found, pager)
        }
        _ => {
            let (first, second) = ids.split_at(ids.len() / 2);
            push_with_ids(alloc, viewer, patterns, listing, shelf, first, pager)?;
            push_with_ids(alloc, viewer, patterns, listing, shelf, second, pager)
        }
    }
}

/// Returns the page of the query over the resources of the kind of the patterns whose ids are in the set. Each
/// resource is let go before the next is read; only the parts on the page or, with a sort key, before it are held.
///
/// Fails with the errors of the shelf.
fn page_of_ids<S: Shelf>(
    alloc: Global,
    viewer: &Viewer<'_>,
    patterns: &ReadPatterns<'_>,
    shelf: &mut S,
    ids: &BTreeSet<Id>,
    query: &Query,
) -> Result<Page, Failed<ShelfFault>>
    requires { ArePatterns (viewer_of viewer.now) patterns.now }
    ensures page { IsReadFrom S.stands S.is_honest shelf.old shelf.new result (λ store page.
        IsPage (views (viewer_of viewer.now) (of_kind Kind.Group store.resources)
        (filter (λ c. has_id ids.now c.id) (of_kind patterns.now.kind store.resources)))
        query.now page) }
    ensures read { OnlyReads S.stands S.is_honest S.failures S.has_round shelf.old shelf.new result }
{
    let listed = in_order(alloc, ids)?;
    let ids = listed.as_slice();
    let [first, ..] = ids else {
        return Ok(Pager::new(alloc, query).end()?);
    };
    let mut listing = ListingVisitor::new(alloc, viewer, *first)?;
    let mut pager = Pager::new(alloc, query);
    push_with_ids(
        alloc,
        viewer,
        patterns,
        &mut listing,
        shelf,
        ids,
        &mut pager,
    )?;
    Ok(pager.end()?)
}

/// Returns the page of the client's query over the resources of a kind, with whole items, where each match must have
/// one of the texts at its leaf. If no resource of the kind can match, none is read. Otherwise only the resources that
/// have one of the texts, those whose ids are found by the texts, and the groups that list them are read.
///
/// Fails with the errors of the shelf.
fn whole_page_of_texts<S: Shelf>(
    alloc: Global,
    viewer: &Viewer<'_>,
    shelf: &mut S,
    kind: Kind,
    texts: &[NeededText<'_>],
    query: &Query,
) -> Result<Page, Failed<ShelfFault>>
    requires needed { NeedsSome query.now.filter texts.now }
    requires leaves { AreAt (possible_leaves kind) texts.now }
    ensures page { IsReadFrom S.stands S.is_honest shelf.old shelf.new result (λ store page.
        IsPage (views (viewer_of viewer.now) (of_kind Kind.Group store.resources)
        (of_kind kind store.resources)) query.now page) }
    ensures read { OnlyReads S.stands S.is_honest S.failures S.has_round shelf.old shelf.new result }
{
    let patterns = ReadPatterns::of(alloc, viewer, kind)?;
    if !patterns.may_find(query) {
        return Ok(Pager::new(alloc, query).end()?);
    }
    let ids = possible_ids(alloc, shelf, kind, texts)?;
    page_of_ids(alloc, viewer, &patterns, shelf, &ids, query)
}

/// Returns the page of the client's query over the resources of a kind, where each match must have one of the texts
/// at its leaf. Items are projected to what the query wants. If no resource of the kind can match, none is read.
/// Otherwise only the resources that have one of the texts, those whose ids are found by the texts, and the groups
/// that list them are read.
///
/// Fails with the errors of the shelf.
pub(crate) fn page_of_texts<S: Shelf>(
    alloc: Global,
    viewer: &Viewer<'_>,
    shelf: &mut S,
    kind: Kind,
    texts: &[NeededText<'_>],
    query: &Query,
) -> Result<Page, Failed<ShelfFault>>
    requires needed { NeedsSome query.now.filter texts.now }
    requires leaves { AreAt (possible_leaves kind) texts.now }
    ensures page { IsReadFrom S.stands S.is_honest shelf.old shelf.new result (λ store page.
        IsShownPage (views (viewer_of viewer.now) (of_kind Kind.Group store.resources)
        (of_kind kind store.resources)) query.now page) }
    ensures read { OnlyReads S.stands S.is_honest S.failures S.has_round shelf.old shelf.new result }
{
    let whole = whole_page_of_texts(alloc, viewer, shelf, kind, texts, query)?;
    Ok(shown_page(alloc, whole, &query.wanted)?)
}
