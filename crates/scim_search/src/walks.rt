//! Searches that read all resources of a kind, or those that have one of some texts.
ghost use Rattle.std.specs.Prelude.{◌≡◌, false, true, ℕ, List, [], IfOk, OnOk};
ghost use Rattle.std.specs.List.{FoldsTo};
ghost use Rattle.scim_schema.specs.declared.Kind.{Kind};
ghost use Rattle.scim_cell.specs.Content.{Content};
ghost use Rattle.scim_cell.specs.Kinds.{of_kind};
ghost use Rattle.scim_view.specs.View.{viewer_of};
ghost use Rattle.scim_view.specs.Groups.{views};
ghost use Rattle.scim_view.specs.Indexes.{IsIndexOf};
ghost use Rattle.scim_query.specs.NamedAttributes.{attributes_of, names_groups};
ghost use Rattle.scim_query.specs.ClientSearches.{IsShownPage};
ghost use Rattle.scim_query.specs.Pages.{IsPage};
ghost use Rattle.scim_shelf.specs.Shelves.{Answers, IsReadFrom, OnlyReads};
ghost use Rattle.scim_shelf.specs.Stores.{Store, IsStore};
ghost use Rattle.scim_search.specs.Lookups.{OnlyThose};
ghost use Rattle.scim_search.specs.PatternCache.{Recalls};
ghost use Rattle.scim_search.specs.ReadPatterns.{ArePatterns};
ghost use Rattle.scim_search.specs.ViewBuilders as sights;
ghost use Rattle.scim_search.specs.Visits.{TakesResource};
ghost use Rattle.scim_search.specs.Walks as spec;

use crate::read_patterns::ReadPatterns;
use crate::shown_items::{ItemBuilder, shown_items};
use crate::texts::searched_texts;
use crate::unfiltered::{is_of_all, page_of_window};
use crate::view_builders::{ViewBuilder, ViewScope};
use crate::visitors::{Found, GroupVisitor, SearchVisitor};
use scim_query::{Page, Pager, Query, shown_page};
use scim_schema::{Attribute, Kind};
use scim_shelf::{LeafText, Shelf, ShelfFault};
use scim_text::{Failed, NoMemory};
use scim_view::{GroupIndex, Viewer};
use std::alloc::Global;

/// Which resources of a kind a search reads.
#[derive(Drop)]
enum WalkScope<'a> {
    /// All resources of the kind.
    WholeKind,
    /// Those that have one of the texts at its leaf.
    SomeText(Vec<LeafText<'a>>),
}

/// The resources that a search reads.
#[derive(Drop)]
pub(crate) struct Walk<'a> {
    kind: Kind,
    scope: WalkScope<'a>,
}

impl<'a> Walk<'a> {
    /// Returns the resources of the kind that a search with this query reads. No other resource of the kind can
    /// match.
    pub(crate) fn of(alloc: Global, kind: Kind, query: &'a Query) -> Result<Walk<'a>, NoMemory>
        ensures kind { IfOk result (λ walk. walk.kind ≡ kind) }
        ensures only { IfOk result (λ walk.
            OnlyThose kind query.now.filter (spec.is_walked walk.scope)) }
    {
        match searched_texts(alloc, kind, query)? {
            Some(texts) => Ok(Walk {
                kind,
                scope: WalkScope::SomeText(texts),
            }),
            None => Ok(Walk {
                kind,
                scope: WalkScope::WholeKind,
            }),
        }
    }

    /// Whether the search reads all resources of the kind.
    pub(crate) fn reads_all(&self) -> bool
        ensures { result ≡ true → self.now.scope ≡ WalkScope.WholeKind }
    {
        matches!(self.scope, WalkScope::WholeKind)
    }

    /// Passes the resources to the visitor, in order of id.
    ///
    /// Fails with the errors of the shelf.
    fn show<S: Shelf>(
        &self,
        alloc: Global,
        shelf: &mut S,
        visitor: &mut SearchVisitor<'_>,
    ) -> Result<(), Failed<ShelfFault>>
        ensures answer { OnOk result ((store : Store) → S.stands shelf.old store
            → S.is_honest shelf.new
            → FoldsTo TakesResource visitor.old (spec.walked self.now store.resources)
            visitor.new) }
        ensures read { OnlyReads S.stands S.is_honest S.failures S.has_round shelf.old shelf.new result }
    {
        match &self.scope {
            WalkScope::WholeKind => shelf.each(alloc, self.kind, visitor),
            WalkScope::SomeText(texts) => {
                shelf.each_of(alloc, self.kind, texts.as_slice(), visitor)
            }
        }
    }
}

/// Returns an index, by member, of the groups that the client sees.
fn seen_groups<S: Shelf>(
    alloc: Global,
    viewer: &Viewer<'_>,
    shelf: &mut S,
) -> Result<GroupIndex, Failed<ShelfFault>>
    ensures index { IfOk result (Answers S.stands S.is_honest shelf.old shelf.new (λ store index.
        IsIndexOf (viewer_of viewer.now) (of_kind Kind.Group store.resources) index)) }
    ensures read { OnlyReads S.stands S.is_honest S.failures S.has_round shelf.old shelf.new result }
{
    let mut groups = GroupVisitor::new(alloc, viewer)?;
    shelf.each(alloc, Kind::Group, &mut groups)?;
    Ok(groups.end())
}

/// Returns an index of the groups that may appear in the `groups` of resources of a kind. For users, these
/// are the groups that the client sees. For groups, which have no `groups`, the index is empty.
fn groups_for<S: Shelf>(
    alloc: Global,
    viewer: &Viewer<'_>,
    shelf: &mut S,
    kind: Kind,
) -> Result<GroupIndex, Failed<ShelfFault>>
    ensures index { IfOk result (Answers S.stands S.is_honest shelf.old shelf.new (λ store index.
        spec.IndexTells (viewer_of viewer.now) kind store.resources index)) }
    ensures read { OnlyReads S.stands S.is_honest S.failures S.has_round shelf.old shelf.new result }
{
    match kind {
        Kind::User => seen_groups(alloc, viewer, shelf),
        Kind::Group => Ok(GroupIndex::new(alloc)),
    }
}

/// Returns the page of the query over the parts that the builder builds, and the cached patterns. The
/// builder builds one part for each resource of the walk that its viewer sees.
fn page_made<'a, S: Shelf>(
    alloc: Global,
    builder: ViewBuilder<'a>,
    shelf: &mut S,
    walk: &Walk<'_>,
    query: &'a Query,
) -> Result<Found<'a>, Failed<ShelfFault>>
    ensures page { IfOk result (Answers S.stands S.is_honest shelf.old shelf.new
        (λ store found. (groups : List Content) (base : List ℕ)
        → sights.IsViewBuilder groups builder.entry → IsStore base store
        → IsPage (spec.made_of_walk groups builder.entry walk.now store.resources) query.now
        found.page
        × Recalls (viewer_of builder.entry.viewer.now) walk.now.kind store.resources
        found.cached)) }
    ensures read { OnlyReads S.stands S.is_honest S.failures S.has_round shelf.old shelf.new result }
{
    let mut search = SearchVisitor::new(alloc, builder, query);
    walk.show(alloc, shelf, &mut search)?;
    Ok(search.end()?)
}

/// Returns the page of a query that names the attribute `groups`. `groups` is computed for every
/// resource.
fn page_by_groups<S: Shelf>(
    alloc: Global,
    viewer: &Viewer<'_>,
    patterns: &ReadPatterns<'_>,
    shelf: &mut S,
    walk: &Walk<'_>,
    query: &Query,
) -> Result<Page, Failed<ShelfFault>>
    requires { ArePatterns (viewer_of viewer.now) patterns.now }
    ensures page { IsReadFrom S.stands S.is_honest shelf.old shelf.new result (λ store page.
        IsShownPage (views (viewer_of viewer.now) (of_kind Kind.Group store.resources)
        (spec.walked walk.now store.resources)) query.now page) }
    ensures read { OnlyReads S.stands S.is_honest S.failures S.has_round shelf.old shelf.new result }
{
    let index = groups_for(alloc, viewer, shelf, walk.kind)?;
    let builder = ViewBuilder::new(viewer, patterns, ViewScope::Whole(&index));
    let found = page_made(alloc, builder, shelf, walk, query)?;
    Ok(shown_page(alloc, found.page, &query.wanted)?)
}

/// Returns the page of a query that names only `attributes`, and not `groups`. The search evaluates only
/// these attributes of each resource. Then it reads the resources of the page again, to make their items.
fn page_by_named<S: Shelf>(
    alloc: Global,
    viewer: &Viewer<'_>,
    patterns: &ReadPatterns<'_>,
    shelf: &mut S,
    walk: &Walk<'_>,
    attributes: &[Attribute],
    query: &Query,
) -> Result<Page, Failed<ShelfFault>>
    requires patterns { ArePatterns (viewer_of viewer.now) patterns.now }
    requires named { attributes.now ≡ attributes_of query.now }
    requires no_groups { names_groups query.now ≡ false }
    ensures page { IsReadFrom S.stands S.is_honest shelf.old shelf.new result (λ store page.
        IsShownPage (views (viewer_of viewer.now) (of_kind Kind.Group store.resources)
        (spec.walked walk.now store.resources)) query.now page) }
    ensures read { OnlyReads S.stands S.is_honest S.failures S.has_round shelf.old shelf.new result }
{
    let builder = ViewBuilder::new(viewer, patterns, ViewScope::Named(attributes));
    let found = page_made(alloc, builder, shelf, walk, query)?;
    if found.page.items.as_slice().is_empty() {
        return Ok(found.page);
    }
    let builder = ItemBuilder::new(viewer, walk.kind, patterns, &found.cached, &query.wanted);
    let items = shown_items(alloc, builder, shelf, found.page.items.as_slice())?;
    Ok(Page {
        total: found.page.total,
        start: found.page.start,
        items,
    })
}

/// Returns the page of the client's query over the resources of the walk, with each item projected to what the query
/// wants. If no resource of the kind can match, none is read. If the client sees all resources of the kind and all
/// match, only the items are read.
pub(crate) fn page_of_walk<S: Shelf>(
    alloc: Global,
    viewer: &Viewer<'_>,
    shelf: &mut S,
    walk: &Walk<'_>,
    query: &Query,
) -> Result<Page, Failed<ShelfFault>>
    ensures page { IsReadFrom S.stands S.is_honest shelf.old shelf.new result (λ store page.
        IsShownPage (views (viewer_of viewer.now) (of_kind Kind.Group store.resources)
        (spec.walked walk.now store.resources)) query.now page) }
    ensures read { OnlyReads S.stands S.is_honest S.failures S.has_round shelf.old shelf.new result }
{
    let patterns = ReadPatterns::of(alloc, viewer, walk.kind)?;
    if !patterns.may_find(query) {
        let none = Pager::new(alloc, query).end()?;
        return Ok(shown_page(alloc, none, &query.wanted)?);
    }
    if walk.reads_all() && is_of_all(&patterns, query) {
        return page_of_window(alloc, viewer, &patterns, shelf, walk.kind, query);
    }
    let attributes = query.attributes(alloc)?;
    if attributes.contains(&Attribute::Groups) {
        return page_by_groups(alloc, viewer, &patterns, shelf, walk, query);
    }
    let attributes = attributes.as_slice();
    page_by_named(alloc, viewer, &patterns, shelf, walk, attributes, query)
}
