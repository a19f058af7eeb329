//! The page of a client's query.
ghost use Rattle.scim_schema.specs.declared.Kind.{Kind};
ghost use Rattle.scim_cell.specs.Kinds.{of_kind};
ghost use Rattle.scim_view.specs.View.{viewer_of};
ghost use Rattle.scim_view.specs.Groups.{views};
ghost use Rattle.scim_query.specs.ClientSearches.{IsShownPage};
ghost use Rattle.scim_shelf.specs.Shelves.{IsReadFrom, OnlyReads};

use crate::lookups::{needed_id, needed_name, page_named, page_with_id};
use crate::pages_by_id::page_of_texts;
use crate::possible_ids::possible_texts;
use crate::walks::{Walk, page_of_walk};
use scim_query::{Page, Query};
use scim_schema::Kind;
use scim_shelf::{Shelf, ShelfFault};
use scim_text::Failed;
use scim_view::Viewer;
use std::alloc::Global;

/// Returns the page of the client's query over the resources of a kind, where the query requires neither an id nor a
/// unique name. Items are projected to what the query wants.
///
/// Fails with the errors of the shelf, and with `NoMemory`.
fn page_unnamed<S: Shelf>(
    alloc: Global,
    viewer: &Viewer<'_>,
    shelf: &mut S,
    kind: Kind,
    query: &Query,
) -> Result<Page, Failed<ShelfFault>>
    ensures page { IsReadFrom S.stands S.is_honest shelf.old shelf.new result (λ store page.
        IsShownPage (views (viewer_of viewer.now) (of_kind Kind.Group store.resources)
        (of_kind kind store.resources)) query.now page) }
    ensures read { OnlyReads S.stands S.is_honest S.failures S.has_round shelf.old shelf.new result }
{
    let walk = Walk::of(alloc, kind, query)?;
    if walk.reads_all() {
        if let Some(texts) = possible_texts(alloc, kind, query)? {
            return page_of_texts(alloc, viewer, shelf, kind, texts.as_slice(), query);
        }
    }
    page_of_walk(alloc, viewer, shelf, &walk, query)
}

/// Returns the page of the client's query over the client's view of the resources of a kind (RFC 7644 section
/// 3.4.2), with each item projected to the attributes that the query wants. If the query requires an id or a unique
/// name, only the resource with that id or name and the groups that list it are read. Otherwise, if each match must
/// have one of some texts at indexed leaves, only the resources of the kind that have one of these texts are searched.
/// If each match must have one of some ids, unique names and such texts, or be in one of some groups, only the
/// resources that are found by these, these groups, and the groups that list the resources are read. Else all
/// resources of the kind are searched. If the query has no filter and no sort key, and the client sees all resources of
/// the kind, only the items of the page are read.
///
/// Fails with the errors of the shelf, and with `NoMemory`.
pub fn page_of_query<S: Shelf>(
    alloc: Global,
    viewer: &Viewer<'_>,
    shelf: &mut S,
    kind: Kind,
    query: &Query,
) -> Result<Page, Failed<ShelfFault>>
    ensures page { IsReadFrom S.stands S.is_honest shelf.old shelf.new result (λ store page.
        IsShownPage (views (viewer_of viewer.now) (of_kind Kind.Group store.resources)
        (of_kind kind store.resources)) query.now page) }
    ensures read { OnlyReads S.stands S.is_honest S.failures S.has_round shelf.old shelf.new result }
{
    if let Some(id) = needed_id(query) {
        return page_with_id(alloc, viewer, shelf, kind, id, query);
    }
    match needed_name(alloc, kind, query)? {
        Some(name) => page_named(alloc, viewer, shelf, kind, &name, query),
        None => page_unnamed(alloc, viewer, shelf, kind, query),
    }
}
