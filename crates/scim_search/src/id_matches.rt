//! The page of a query that requires an id and doesn't name `groups`. The query is evaluated on the resource that the
//! shelf lends, and the item of the page is copied from it.
ghost use Rattle.std.specs.Prelude.{◌≡◌, ◌∷◌, [], false, map, IfOk, if◌then◌else◌};
ghost use Rattle.scim_schema.specs.declared.Kind.{Kind};
ghost use Rattle.scim_cell.specs.Kinds.{of_kind};
ghost use Rattle.scim_view.specs.View.{Viewer as SpecViewer, viewer_of};
ghost use Rattle.scim_view.specs.Groups.{views};
ghost use Rattle.scim_query.specs.NamedAttributes.{attributes_of, names_groups};
ghost use Rattle.scim_query.specs.ClientSearches.{IsShownPage};
ghost use Rattle.scim_query.specs.Pages.{first_position};
ghost use Rattle.scim_shelf.specs.Shelves.{IsReadFrom, OnlyReads};
ghost use Rattle.scim_shelf.specs.Stores.{those_at};
ghost use Rattle.scim_search.specs.ReadPatterns.{AreFor, ArePatterns};
ghost use Rattle.scim_search.specs.IdMatches as spec;

use crate::pattern_cache::PatternCache;
use crate::read_patterns::ReadPatterns;
use crate::shown_items::{ItemBuilder, shown_items};
use scim_cell::Id;
use scim_policy::Patterns;
use scim_query::{Page, Query, slice_of};
use scim_schema::{Attribute, Kind};
use scim_shelf::{Shelf, ShelfFault, Visitor};
use scim_text::{Failed, NoMemory, push};
use scim_value::{Part, Resource};
use scim_view::{MayBeSeenPlainlyOf, Viewer, shows_id, visible_attributes};
use std::alloc::Global;

/// A visitor that notes whether the client sees the resource that it is shown, and the resource matches the query.
#[derive(Drop)]
struct MatchVisitor<'a> {
    viewer: &'a Viewer<'a>,
    patterns: &'a ReadPatterns<'a>,
    /// The attributes that the query names.
    attributes: &'a [Attribute],
    query: &'a Query,
    /// Whether the resource matches. False if no resource is shown.
    matches: bool,
    /// The cached patterns on the resource, if it matches.
    cached: PatternCache<'a>,
}

impl Visitor for MatchVisitor<'_> {
    ghost takes = { spec.TakesMatch };

    fn take(&mut self, alloc: Global, resource: &Resource) -> Result<(), NoMemory> {
        let attributes = self.attributes;
        if let Some(patterns) = self.patterns.on_all(resource) {
            self.matches = is_seen_match(alloc, patterns, attributes, self.query, resource)?;
            return Ok(());
        }
        let patterns = self.patterns.on(alloc, self.viewer, resource)?;
        self.matches = is_seen_match(alloc, &patterns, attributes, self.query, resource)?;
        if self.matches {
            self.cached.keep(resource.id(), patterns)?;
        }
        Ok(())
    }
}

/// Whether the client may read the `id` by `patterns`, and the visible part of these attributes matches the query.
///
/// If no value filter is on these attributes, nothing is copied. Otherwise the part is copied, since asking a value
/// filter may want memory.
fn is_seen_match(
    alloc: Global,
    patterns: &Patterns<'_>,
    attributes: &[Attribute],
    query: &Query,
    resource: &Resource,
) -> Result<bool, NoMemory>
    ensures { IfOk result (λ b. (v : SpecViewer) → AreFor v resource.now patterns.now
        → b ≡ spec.is_seen_match v attributes.now query.now.filter resource.now) }
{
    if !shows_id(patterns) {
        return Ok(false);
    }
    if patterns.is_plain_on(attributes) {
        let test = MayBeSeenPlainlyOf::new(attributes, resource.kind(), patterns);
        return query.matches_where(alloc, resource.part(), &test);
    }
    let part = visible_attributes(alloc, attributes, patterns, resource)?;
    query.matches(alloc, &part)
}

/// Returns the list that has only a part with the id and without attributes, if the resource with the id matches;
/// otherwise the empty list.
fn matched_part(alloc: Global, kind: Kind, id: Id, matches: bool) -> Result<Vec<Part>, NoMemory>
    ensures { IfOk result (λ parts. map (λ p. p.id) parts.items
        ≡ (if matches then id ∷ [] else [])) }
{
    let mut parts = Vec::new(alloc);
    if matches {
        push(&mut parts, Part::of_rows(kind, id, Vec::new(alloc)))?;
    }
    Ok(parts)
}

/// Returns the page with these items, and with the query's start.
fn page_of_items(query: &Query, total: usize, items: Vec<Part>) -> Page
    ensures total { result.total ≡ total }
    ensures start { result.start ≡ first_position query.now.start }
    ensures items { result.items ≡ items }
{
    Page {
        total,
        start: query.start.max(1),
        items,
    }
}

/// Returns the page of the query over the empty list, without allocating.
pub(crate) fn empty_page(alloc: Global, query: &Query) -> Page
    ensures { IsShownPage [] query.now result }
{
    page_of_items(query, 0, Vec::new(alloc))
}

/// Returns the page of a query that names only `attributes`, and not `groups`, over the list that has only the
/// resource with the id, or over the empty list if there is none. The resource is of the kind of `patterns`. It is read
/// again to make its item, if it matches and is on the page. A shelf in memory copies the item, and the visible part of
/// the named attributes if a value filter is on one of them.
pub(crate) fn page_of_id<S: Shelf>(
    alloc: Global,
    viewer: &Viewer<'_>,
    patterns: &ReadPatterns<'_>,
    shelf: &mut S,
    id: Id,
    attributes: &[Attribute],
    query: &Query,
) -> Result<Page, Failed<ShelfFault>>
    requires patterns { ArePatterns (viewer_of viewer.now) patterns.now }
    requires named { attributes.now ≡ attributes_of query.now }
    requires no_groups { names_groups query.now ≡ false }
    ensures page { IsReadFrom S.stands S.is_honest shelf.old shelf.new result (λ store page.
        IsShownPage (views (viewer_of viewer.now) (of_kind Kind.Group store.resources)
        (those_at patterns.now.kind id store.resources)) query.now page) }
    ensures read { OnlyReads S.stands S.is_honest S.failures S.has_round shelf.old shelf.new result }
{
    let kind = patterns.kind();
    let mut visitor = MatchVisitor {
        viewer,
        patterns,
        attributes,
        query,
        matches: false,
        cached: PatternCache::new(alloc),
    };
    shelf.lend_by_id(alloc, kind, id, &mut visitor)?;
    let matched = matched_part(alloc, kind, id, visitor.matches)?;
    let shown = slice_of(matched.as_slice(), query.start, query.count);
    let builder = ItemBuilder::new(viewer, kind, patterns, &visitor.cached, &query.wanted);
    let items = shown_items(alloc, builder, shelf, shown)?;
    Ok(page_of_items(query, matched.len(), items))
}
