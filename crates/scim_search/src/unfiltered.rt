//! Pages of queries that match all resources of a kind. Only the items of the page are read.
ghost use Rattle.std.specs.Prelude.{◌≡◌, true};
ghost use Rattle.scim_schema.specs.declared.Kind.{Kind};
ghost use Rattle.scim_cell.specs.Kinds.{of_kind};
ghost use Rattle.scim_view.specs.View.{viewer_of};
ghost use Rattle.scim_view.specs.Groups.{views};
ghost use Rattle.scim_query.specs.ClientSearches.{IsShownPage};
ghost use Rattle.scim_shelf.specs.Shelves.{IsReadFrom, OnlyReads};
ghost use Rattle.scim_search.specs.ReadPatterns.{ArePatterns};
ghost use Rattle.scim_search.specs.Unfiltered as spec;

use crate::pattern_cache::PatternCache;
use crate::read_patterns::ReadPatterns;
use crate::shown_items::{ItemBuilder, shown_items};
use scim_query::{Page, Query};
use scim_schema::Kind;
use scim_shelf::{Shelf, ShelfFault, Visitor};
use scim_text::{Failed, NoMemory, push};
use scim_value::{Part, Resource};
use scim_view::Viewer;
use std::alloc::Global;

/// A visitor that keeps the ids of the resources, as parts without attributes.
#[derive(Drop)]
struct IdVisitor {
    items: Vec<Part>,
}

impl Visitor for IdVisitor {
    ghost takes = { spec.TakesId };

    fn take(&mut self, alloc: Global, resource: &Resource) -> Result<(), NoMemory> {
        let item = Part::of_rows(resource.kind(), resource.id(), Vec::new(alloc));
        push(&mut self.items, item)
    }
}

/// Whether the query has no filter and no sort key, and the client sees all resources of the kind by the patterns.
/// False if the patterns differ by resource.
pub(crate) fn is_of_all(patterns: &ReadPatterns<'_>, query: &Query) -> bool
    ensures { result ≡ true → spec.IsOfAll patterns.now query.now }
{
    query.filter.is_none() && query.sort_by.is_none() && patterns.show_all()
}

/// Returns the page of a query without a filter and without a sort key, for a client that sees all resources of the
/// kind. Reads only the items of the page and the groups that list them, if the shelf counts its resources.
pub(crate) fn page_of_window<S: Shelf>(
    alloc: Global,
    viewer: &Viewer<'_>,
    patterns: &ReadPatterns<'_>,
    shelf: &mut S,
    kind: Kind,
    query: &Query,
) -> Result<Page, Failed<ShelfFault>>
    requires patterns { ArePatterns (viewer_of viewer.now) patterns.now }
    requires kind { patterns.now.kind ≡ kind }
    requires all { spec.IsOfAll patterns.now query.now }
    ensures page { IsReadFrom S.stands S.is_honest shelf.old shelf.new result (λ store page.
        IsShownPage (views (viewer_of viewer.now) (of_kind Kind.Group store.resources)
        (of_kind kind store.resources)) query.now page) }
    ensures read { OnlyReads S.stands S.is_honest S.failures S.has_round shelf.old shelf.new result }
{
    let mut ids = IdVisitor {
        items: Vec::new(alloc),
    };
    let skipped = query.start.saturating_sub(1);
    let total = shelf.each_from(alloc, kind, skipped, query.count, &mut ids)?;
    let cached = PatternCache::new(alloc);
    let builder = ItemBuilder::new(viewer, kind, patterns, &cached, &query.wanted);
    let items = shown_items(alloc, builder, shelf, ids.items.as_slice())?;
    Ok(Page {
        total,
        start: query.start.max(1),
        items,
    })
}
