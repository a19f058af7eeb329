//! Searches whose filter requires an id or a unique name. The only possible match is looked up by the id or
//! the name.
ghost use Rattle.std.specs.Prelude.{◌≡◌, ◌∷◌, [], IfOk, IfSome};
ghost use Rattle.scim_schema.specs.declared.Kind.{Kind};
ghost use Rattle.scim_schema.specs.Characteristics.{is_case_exact};
ghost use Rattle.scim_cell.specs.Kinds.{of_kind};
ghost use Rattle.scim_value.specs.Uniqueness.{name_of};
ghost use Rattle.scim_filter.specs.Relation.{cased};
ghost use Rattle.scim_view.specs.View.{viewer_of};
ghost use Rattle.scim_view.specs.Groups.{and_those, views};
ghost use Rattle.scim_query.specs.ClientSearches.{IsShownPage};
ghost use Rattle.scim_query.specs.Pages.{IsPage};
ghost use Rattle.scim_shelf.specs.Shelves.{IsReadFrom, OnlyReads};
ghost use Rattle.scim_shelf.specs.Stores.{has_name, is_at};
ghost use Rattle.scim_search.specs.Lookups as spec;

use crate::groups_of_resource::view_beside;
use crate::id_matches::{empty_page, page_of_id};
use crate::read_patterns::ReadPatterns;
use crate::visitors::ListingVisitor;
use scim_cell::Id;
use scim_filter_grammar::StringLiteral;
use scim_filter_texts::compared_text;
use scim_query::{Page, Pager, Query, shown_page};
use scim_schema::{Attribute, Kind, Leaf, unique_leaves};
use scim_shelf::{Shelf, ShelfFault};
use scim_text::{Failed, NoMemory};
use scim_value::{Part, Resource, UniqueName};
use scim_view::Viewer;
use std::alloc::Global;

/// Returns the unique name for a text at a leaf, as comparisons use it.
pub(crate) fn known_name(
    alloc: Global,
    leaf: Leaf,
    text: &StringLiteral,
) -> Result<UniqueName, NoMemory>
    ensures leaf { IfOk result (λ name. name.leaf ≡ leaf) }
    ensures text { IfOk result (λ name. (name_of name).text ≡ cased (is_case_exact leaf) text.now) }
{
    Ok(UniqueName {
        leaf,
        text: String::from_str(alloc, compared_text(leaf, text))?,
    })
}

/// Returns a unique name that every match of the kind must have; `None` if the query requires no name.
pub(crate) fn needed_name(
    alloc: Global,
    kind: Kind,
    query: &Query,
) -> Result<Option<UniqueName>, NoMemory>
    ensures { IfOk result (λ o. IfSome o (λ name.
        spec.OnlyThose kind query.now.filter (has_name (name_of name)))) }
{
    for leaf in unique_leaves(kind) {
        if let Some(text) = query.needed_text(*leaf) {
            return Ok(Some(known_name(alloc, *leaf, text)?));
        }
    }
    Ok(None)
}

/// Returns the id that every match must have; `None` if the query requires no id, or requires a text that
/// isn't an id.
pub(crate) fn needed_id(query: &Query) -> Option<Id>
    ensures { IfSome result (λ id. (kind : Kind)
        → spec.OnlyThose kind query.now.filter (is_at kind id)) }
{
    let text = query.needed_text(Leaf::simple(Attribute::Id))?;
    Id::read(text.as_str())
}

/// Returns the part of the resource that the client sees, with its computed `groups`; `None` if the resource
/// isn't of the kind, or the client doesn't see it.
fn seen_part<S: Shelf>(
    alloc: Global,
    viewer: &Viewer<'_>,
    shelf: &mut S,
    kind: Kind,
    resource: &Resource,
) -> Result<Option<Part>, Failed<ShelfFault>>
    ensures part { IsReadFrom S.stands S.is_honest shelf.old shelf.new result (λ store part.
        and_those part [] ≡ views (viewer_of viewer.now) (of_kind Kind.Group store.resources)
        (of_kind kind (resource.now ∷ []))) }
    ensures read { OnlyReads S.stands S.is_honest S.failures S.has_round shelf.old shelf.new result }
{
    if resource.kind() != kind {
        return Ok(None);
    }
    let patterns = viewer.patterns(alloc, resource)?;
    let mut listing = ListingVisitor::new(alloc, viewer, resource.id())?;
    view_beside(alloc, viewer, &patterns, &mut listing, shelf, resource)
}

/// Returns the part of the found resource that the client sees, with its computed `groups`; `None` if no
/// resource was found, if the resource isn't of the kind, or if the client doesn't see it.
fn seen_if_found<S: Shelf>(
    alloc: Global,
    viewer: &Viewer<'_>,
    shelf: &mut S,
    kind: Kind,
    found: Option<Resource>,
) -> Result<Option<Part>, Failed<ShelfFault>>
    ensures part { IsReadFrom S.stands S.is_honest shelf.old shelf.new result (λ store part.
        and_those part [] ≡ views (viewer_of viewer.now) (of_kind Kind.Group store.resources)
        (of_kind kind (and_those found []))) }
    ensures read { OnlyReads S.stands S.is_honest S.failures S.has_round shelf.old shelf.new result }
{
    match found {
        Some(resource) => seen_part(alloc, viewer, shelf, kind, &resource),
        None => Ok(None),
    }
}

/// Returns the page of the query over the list that has only this part.
fn page_of_one(alloc: Global, part: Part, query: &Query) -> Result<Page, NoMemory>
    ensures { IfOk result (λ page. IsPage (part ∷ []) query.now page) }
{
    let mut pager = Pager::new(alloc, query);
    pager.push(part)?;
    pager.end()
}

/// Returns the page of the query over the list that has only this part, or over the empty list if there is
/// no part.
fn page_of(alloc: Global, part: Option<Part>, query: &Query) -> Result<Page, NoMemory>
    ensures { IfOk result (λ page. IsPage (and_those part []) query.now page) }
{
    match part {
        Some(part) => page_of_one(alloc, part, query),
        None => Pager::new(alloc, query).end(),
    }
}

/// Returns the page of the query over the list that has only the found resource, or over the empty list if no
/// resource was found, if it isn't of the kind, or if the client doesn't see it. Items are projected to what the
/// query wants.
fn page_found<S: Shelf>(
    alloc: Global,
    viewer: &Viewer<'_>,
    shelf: &mut S,
    kind: Kind,
    found: Option<Resource>,
    query: &Query,
) -> Result<Page, Failed<ShelfFault>>
    ensures page { IsReadFrom S.stands S.is_honest shelf.old shelf.new result (λ store page.
        IsShownPage (views (viewer_of viewer.now) (of_kind Kind.Group store.resources)
        (of_kind kind (and_those found []))) query.now page) }
    ensures read { OnlyReads S.stands S.is_honest S.failures S.has_round shelf.old shelf.new result }
{
    let part = seen_if_found(alloc, viewer, shelf, kind, found)?;
    let whole = page_of(alloc, part, query)?;
    Ok(shown_page(alloc, whole, &query.wanted)?)
}

/// Returns the page of the client's query over the resources of a kind. Only the resource with the unique
/// name can match. Reads only that resource and the groups that list it.
pub(crate) fn page_named<S: Shelf>(
    alloc: Global,
    viewer: &Viewer<'_>,
    shelf: &mut S,
    kind: Kind,
    name: &UniqueName,
    query: &Query,
) -> Result<Page, Failed<ShelfFault>>
    requires { spec.OnlyThose kind query.now.filter (has_name (name_of name.now)) }
    ensures page { IsReadFrom S.stands S.is_honest shelf.old shelf.new result (λ store page.
        IsShownPage (views (viewer_of viewer.now) (of_kind Kind.Group store.resources)
        (of_kind kind store.resources)) query.now page) }
    ensures read { OnlyReads S.stands S.is_honest S.failures S.has_round shelf.old shelf.new result }
{
    let owner = shelf.name_owner(alloc, name)?;
    page_found(alloc, viewer, shelf, kind, owner, query)
}

/// Returns the page of the client's query over the resources of a kind. Only the resource with the id can
/// match. Reads only that resource and the groups that list it. A shelf in memory copies the whole resource only if
/// the query names `groups`; see [`page_of_id`] for what it copies otherwise.
pub(crate) fn page_with_id<S: Shelf>(
    alloc: Global,
    viewer: &Viewer<'_>,
    shelf: &mut S,
    kind: Kind,
    id: Id,
    query: &Query,
) -> Result<Page, Failed<ShelfFault>>
    requires { spec.OnlyThose kind query.now.filter (is_at kind id) }
    ensures page { IsReadFrom S.stands S.is_honest shelf.old shelf.new result (λ store page.
        IsShownPage (views (viewer_of viewer.now) (of_kind Kind.Group store.resources)
        (of_kind kind store.resources)) query.now page) }
    ensures read { OnlyReads S.stands S.is_honest S.failures S.has_round shelf.old shelf.new result }
{
    let attributes = query.attributes(alloc)?;
    if attributes.contains(&Attribute::Groups) {
        let owner = shelf.by_id(alloc, kind, id)?;
        return page_found(alloc, viewer, shelf, kind, owner, query);
    }
    let patterns = ReadPatterns::of(alloc, viewer, kind)?;
    if !patterns.may_find(query) {
        return Ok(empty_page(alloc, query));
    }
    let attributes = attributes.as_slice();
    page_of_id(alloc, viewer, &patterns, shelf, id, attributes, query)
}
