//! Visitors that take the resources of a store one by one.
ghost use Rattle.std.specs.Prelude.{◌≡◌, ℕ, List, [], IfOk};
ghost use Rattle.scim_schema.specs.declared.Kind.{Kind as SpecKind};
ghost use Rattle.scim_cell.specs.Content.{Content};
ghost use Rattle.scim_view.specs.Indexes.{IsIndexOf};
ghost use Rattle.scim_view.specs.View.{Viewer as SpecViewer, viewer_of};
ghost use Rattle.scim_query.specs.Pages.{IsPage};
ghost use Rattle.scim_query.specs.Pagers.{HasTaken, ComeInOrder, query_of};
ghost use Rattle.scim_search.specs.ReadPatterns.{ArePatterns};
ghost use Rattle.scim_view.specs.Listings.{AreListing};
ghost use Rattle.scim_search.specs.PatternCache.{Recalls};
ghost use Rattle.scim_search.specs.Visits.{SkipsOnlyUnmatched, TakesGroup, TakesListing};
ghost use Rattle.scim_search.specs.Visits.{TakesResource, Tells};

use crate::pattern_cache::PatternCache;
use crate::read_patterns::ReadPatterns;
use crate::view_builders::ViewBuilder;
use scim_cell::Id;
use scim_query::{Page, Pager, Query};
use scim_schema::Kind;
use scim_shelf::Visitor;
use scim_text::NoMemory;
use scim_value::Resource;
use scim_view::{GroupIndex, ListingGroups, Viewer};
use std::alloc::Global;

/// A visitor that adds the groups that a client sees to an index.
#[derive(Drop)]
pub(crate) struct GroupVisitor<'a> {
    viewer: &'a Viewer<'a>,
    patterns: ReadPatterns<'a>,
    index: GroupIndex,
}

impl<'a> GroupVisitor<'a> {
    /// Returns a visitor with an empty index.
    pub(crate) fn new(alloc: Global, viewer: &'a Viewer<'a>) -> Result<GroupVisitor<'a>, NoMemory>
        ensures viewer { IfOk result (λ visitor. visitor.viewer ≡ viewer.entry) }
        ensures patterns { IfOk result (λ visitor.
            ArePatterns (viewer_of viewer.entry.now) visitor.patterns) }
        ensures index { IfOk result (λ visitor. (v : SpecViewer) → IsIndexOf v [] visitor.index) }
    {
        let patterns = ReadPatterns::of(alloc, viewer, Kind::Group)?;
        Ok(GroupVisitor {
            viewer,
            patterns,
            index: GroupIndex::new(alloc),
        })
    }

    /// Consumes the visitor and returns the index.
    pub(crate) fn end(self) -> GroupIndex
        ensures { result ≡ self.entry.index }
    {
        self.index
    }
}

impl<'a> Visitor for GroupVisitor<'a> {
    ghost takes = { TakesGroup };

    fn take(&mut self, alloc: Global, resource: &Resource) -> Result<(), NoMemory> {
        match self.patterns.on_all(resource) {
            Some(patterns) => self.index.push(alloc, patterns, resource),
            None => {
                let patterns = self.patterns.on(alloc, self.viewer, resource)?;
                self.index.push(alloc, &patterns, resource)
            }
        }
    }
}

/// A visitor that gathers the groups in which a client sees a resource as a member. One visitor serves all
/// resources of a request, so the policy isn't evaluated twice on a group whose patterns are still cached
/// ([`PatternCache`]).
#[derive(Drop)]
pub(crate) struct ListingVisitor<'a> {
    viewer: &'a Viewer<'a>,
    patterns: ReadPatterns<'a>,
    cached: PatternCache<'a>,
    groups: ListingGroups,
}

impl<'a> ListingVisitor<'a> {
    /// Returns a visitor without groups, for the resource with the id `member`.
    pub(crate) fn new(
        alloc: Global,
        viewer: &'a Viewer<'a>,
        member: Id,
    ) -> Result<ListingVisitor<'a>, NoMemory>
        ensures { IfOk result (λ listing. (cs : List Content)
            → Tells (viewer_of viewer.entry.now) cs listing) }
    {
        let patterns = ReadPatterns::of(alloc, viewer, Kind::Group)?;
        Ok(ListingVisitor {
            viewer,
            patterns,
            cached: PatternCache::new(alloc),
            groups: ListingGroups::new(alloc, member),
        })
    }

    /// Drops the gathered groups, so that the groups of the resource with the id `member` can be gathered. Doesn't
    /// allocate.
    pub(crate) fn clear(&mut self, alloc: Global, member: Id)
        ensures tells { (v : SpecViewer) (cs : List Content) → Tells v cs self.old
            → Tells v cs self.new }
        ensures groups { (v : SpecViewer) → AreListing v member [] self.new.groups }
    {
        self.groups = ListingGroups::new(alloc, member);
    }

    /// Returns the gathered groups.
    pub(crate) fn groups(&self) -> &ListingGroups
        ensures { result.now ≡ self.now.groups }
    {
        &self.groups
    }

    /// Consumes the visitor and returns the gathered groups.
    pub(crate) fn end(self) -> ListingGroups
        ensures { result ≡ self.entry.groups }
    {
        self.groups
    }
}

impl<'a> Visitor for ListingVisitor<'a> {
    ghost takes = { TakesListing };

    fn take(&mut self, alloc: Global, resource: &Resource) -> Result<(), NoMemory> {
        if let Some(patterns) = self.patterns.known(&self.cached, resource) {
            return self.groups.push(alloc, patterns, resource);
        }
        let patterns = self.patterns.on(alloc, self.viewer, resource)?;
        self.groups.push(alloc, &patterns, resource)?;
        self.cached.keep(resource.id(), patterns)
    }
}

/// A visitor that passes the parts of the resources that a client sees to a pager.
#[derive(Drop)]
pub(crate) struct SearchVisitor<'a> {
    builder: ViewBuilder<'a>,
    pager: Pager<'a>,
    /// Whether only parts with a value of `groups` match, so that resources in no group are skipped.
    needs_groups: bool,
    /// The cached patterns on resources that the pager holds or has held.
    cached: PatternCache<'a>,
}

/// The result of a search over the resources that it reads.
#[derive(Drop)]
pub(crate) struct Found<'a> {
    pub(crate) page: Page,
    /// The cached patterns on resources that may be on the page.
    pub(crate) cached: PatternCache<'a>,
}

impl<'a> SearchVisitor<'a> {
    /// Returns a visitor that has taken no resource, without allocating.
    pub(crate) fn new(
        alloc: Global,
        builder: ViewBuilder<'a>,
        query: &'a Query,
    ) -> SearchVisitor<'a>
        ensures builder { result.builder ≡ builder.entry }
        ensures query { query_of result.pager ≡ query.entry }
        ensures skips { SkipsOnlyUnmatched result }
        ensures taken { HasTaken [] result.pager }
        ensures cached { (v : SpecViewer) (kind : SpecKind) (cs : List Content)
            → Recalls v kind cs result.cached }
    {
        SearchVisitor {
            builder,
            pager: Pager::new(alloc, query),
            needs_groups: query.needs_groups(),
            cached: PatternCache::new(alloc),
        }
    }

    /// Consumes the visitor and returns the page and the cached patterns.
    pub(crate) fn end(self) -> Result<Found<'a>, NoMemory>
        ensures page { IfOk result (λ found. (parts : List Content)
            → HasTaken parts self.entry.pager
            → ComeInOrder (query_of self.entry.pager).now parts
            → IsPage parts (query_of self.entry.pager).now found.page) }
        ensures cached { IfOk result (λ found. found.cached ≡ self.entry.cached) }
    {
        let page = self.pager.end()?;
        Ok(Found {
            page,
            cached: self.cached,
        })
    }
}

impl<'a> Visitor for SearchVisitor<'a> {
    ghost takes = { TakesResource };

    fn take(&mut self, alloc: Global, resource: &Resource) -> Result<(), NoMemory> {
        if self.needs_groups && !self.builder.may_have_groups(resource) {
            return Ok(());
        }
        if let Some(patterns) = self.builder.on_all(resource) {
            self.builder
                .show(alloc, patterns, resource, &mut self.pager)?;
            return Ok(());
        }
        let patterns = self.builder.on(alloc, resource)?;
        if self
            .builder
            .show(alloc, &patterns, resource, &mut self.pager)?
        {
            self.cached.keep(resource.id(), patterns)?;
        }
        Ok(())
    }
}
