//! Makes the items of a page, which are what a reply shows of the resources that a search found.
ghost use Rattle.std.specs.Prelude.{◌≡◌, ◌∷◌, ◌++◌, [], ℕ, Some, List, map, find, IfOk, OnOk};
ghost use Rattle.scim_schema.specs.declared.Kind.{Kind};
ghost use Rattle.scim_cell.specs.Content.{Content, IsPart};
ghost use Rattle.scim_cell.specs.Kinds.{of_kind};
ghost use Rattle.scim_view.specs.Groups.{and_those};
ghost use Rattle.scim_view.specs.Listings.{AreListing};
ghost use Rattle.scim_view.specs.View.{Viewer as SpecViewer, viewer_of};
ghost use Rattle.scim_shelf.specs.Shelves.{Answers, IsReadFrom, OnlyReads};
ghost use Rattle.scim_shelf.specs.Stores.{IsStore, is_at};
ghost use Rattle.scim_search.specs.ReadPatterns.{AreFor};
ghost use Rattle.scim_search.specs.ShownItems as spec;
ghost use Rattle.scim_search.specs.ShownItems.{TakesItem};
ghost use Rattle.scim_search.specs.Visits.{Tells};

use crate::groups_of_resource::gather_groups;
use crate::pattern_cache::PatternCache;
use crate::read_patterns::ReadPatterns;
use crate::visitors::ListingVisitor;
use scim_cell::Id;
use scim_policy::Patterns;
use scim_schema::{Attribute, Kind};
use scim_shelf::{Shelf, ShelfFault, Visitor};
use scim_text::{Failed, NoMemory, push};
use scim_value::{Part, Resource};
use scim_view::{ListingGroups, Viewer, Wanted, shows_id};
use std::alloc::Global;

/// A builder of the items of a page, which are parts of resources of one kind. It has the viewer, the patterns on
/// the kind, the cached patterns on some resources, and the attributes that the reply shows.
#[derive(Clone, Copy)]
pub(crate) struct ItemBuilder<'a> {
    viewer: &'a Viewer<'a>,
    kind: Kind,
    patterns: &'a ReadPatterns<'a>,
    cached: &'a PatternCache<'a>,
    wanted: &'a Wanted,
}

impl<'a> ItemBuilder<'a> {
    /// Returns a builder for this viewer and kind, with these patterns and shown attributes.
    pub(crate) fn new(
        viewer: &'a Viewer<'a>,
        kind: Kind,
        patterns: &'a ReadPatterns<'a>,
        cached: &'a PatternCache<'a>,
        wanted: &'a Wanted,
    ) -> ItemBuilder<'a>
        ensures { result ≡ record {
          viewer = viewer.entry;
          kind = kind;
          patterns = patterns.entry;
          cached = cached.entry;
          wanted = wanted.entry;
        } }
    {
        ItemBuilder {
            viewer,
            kind,
            patterns,
            cached,
            wanted,
        }
    }

    /// Returns the item for the resource, with these groups; `None` if the client doesn't see the resource.
    fn item(
        &self,
        alloc: Global,
        groups: &ListingGroups,
        resource: &Resource,
    ) -> Result<Option<Part>, NoMemory>
        ensures { IfOk result (λ item. (cs gathered : List Content)
            → spec.IsItemBuilder cs self.now
            → find (is_at self.now.kind resource.now.id) cs ≡ Some resource.now
            → AreListing (viewer_of self.now.viewer.now) resource.now.id gathered groups.now
            → item ≡ spec.item_if_seen (viewer_of self.now.viewer.now) self.now.wanted.now
            gathered resource.now) }
    {
        match self.patterns.known(self.cached, resource) {
            Some(patterns) => self.item_by(alloc, patterns, groups, resource),
            None => {
                let patterns = self.patterns.on(alloc, self.viewer, resource)?;
                self.item_by(alloc, &patterns, groups, resource)
            }
        }
    }

    /// Returns the item for the resource, with these groups, as `patterns` let the client see it; `None` if the client
    /// may not read the `id`.
    fn item_by(
        &self,
        alloc: Global,
        patterns: &Patterns<'_>,
        groups: &ListingGroups,
        resource: &Resource,
    ) -> Result<Option<Part>, NoMemory>
        ensures { IfOk result (λ item. (gathered : List Content)
            → AreFor (viewer_of self.now.viewer.now) resource.now patterns.now
            → AreListing (viewer_of self.now.viewer.now) resource.now.id gathered groups.now
            → item ≡ spec.item_if_seen (viewer_of self.now.viewer.now) self.now.wanted.now
            gathered resource.now) }
    {
        if !shows_id(patterns) {
            return Ok(None);
        }
        let viewer = self.viewer;
        let item = viewer.shown_with_groups(alloc, patterns, groups, resource, self.wanted)?;
        Ok(Some(item))
    }
}

/// A visitor that makes the item for the resource that it is shown, with these groups.
#[derive(Drop)]
struct ItemVisitor<'a> {
    builder: ItemBuilder<'a>,
    groups: &'a ListingGroups,
    item: Option<Part>,
}

impl Visitor for ItemVisitor<'_> {
    ghost takes = { TakesItem };

    fn take(&mut self, alloc: Global, resource: &Resource) -> Result<(), NoMemory> {
        self.item = self.builder.item(alloc, self.groups, resource)?;
        Ok(())
    }
}

impl ItemVisitor<'_> {
    /// Consumes the visitor and returns the item; `None` if it was shown no resource, or one that the client doesn't
    /// see.
    fn end(self) -> Option<Part>
        ensures { result ≡ self.entry.item }
    {
        self.item
    }
}

/// Clears `listing`, then gathers the groups that the item for the resource with the id shows. Reads no group if items
/// show no `groups`.
fn gather_shown<S: Shelf>(
    alloc: Global,
    builder: ItemBuilder<'_>,
    listing: &mut ListingVisitor<'_>,
    shelf: &mut S,
    id: Id,
) -> Result<(), Failed<ShelfFault>>
    ensures groups { IfOk result (Answers S.stands S.is_honest shelf.old shelf.new
        (λ store _. (base : List ℕ) (v : SpecViewer) (c : Content) → IsStore base store
        → IsPart c → c.kind ≡ builder.entry.kind → c.id ≡ id
        → Tells v store.resources listing.old
        → Tells v store.resources listing.new
        × spec.TellShownGroups v builder.entry.wanted.now store.resources c listing.new.groups)) }
    ensures read { OnlyReads S.stands S.is_honest S.failures S.has_round shelf.old shelf.new result }
{
    let wanted = builder.wanted;
    if wanted.shows_attribute(builder.kind, Attribute::Groups) {
        return gather_groups(alloc, listing, shelf, builder.kind, id);
    }
    listing.clear(alloc, id);
    Ok(())
}

/// Appends the item to `items`, if there is one.
fn push_if_seen(item: Option<Part>, items: &mut Vec<Part>) -> Result<(), NoMemory>
    ensures { OnOk result (items.new.items ≡ items.old.items ++ and_those item []) }
{
    match item {
        Some(item) => push(items, item),
        None => Ok(()),
    }
}

/// Appends the item for the resource with the id to `items`, if there is a resource and the client sees it.
/// A shelf in memory doesn't copy the resource.
fn push_item<S: Shelf>(
    alloc: Global,
    builder: ItemBuilder<'_>,
    listing: &mut ListingVisitor<'_>,
    shelf: &mut S,
    id: Id,
    items: &mut Vec<Part>,
) -> Result<(), Failed<ShelfFault>>
    ensures items { IfOk result (Answers S.stands S.is_honest shelf.old shelf.new
        (λ store _. (base : List ℕ)
        (x : spec.SeenResource
        (viewer_of builder.entry.viewer.now) builder.entry.kind store.resources)
        → IsStore base store → spec.IsItemBuilder store.resources builder.entry
        → x.own.id ≡ id
        → Tells (viewer_of builder.entry.viewer.now) store.resources listing.old
        → Tells (viewer_of builder.entry.viewer.now) store.resources listing.new
        × (items.new.items ≡ items.old.items
        ++ spec.item (viewer_of builder.entry.viewer.now) builder.entry.wanted.now
        (of_kind Kind.Group store.resources) x.own ∷ []))) }
    ensures read { OnlyReads S.stands S.is_honest S.failures S.has_round shelf.old shelf.new result }
{
    gather_shown(alloc, builder, listing, shelf, id)?;
    let mut visitor = ItemVisitor {
        builder,
        groups: listing.groups(),
        item: None,
    };
    shelf.lend_by_id(alloc, builder.kind, id, &mut visitor)?;
    Ok(push_if_seen(visitor.end(), items)?)
}

/// Appends the items for the resources with the ids of `parts` to `items`, in order. Recurses once per part, at most
/// 200 times per request.
fn push_items<S: Shelf>(
    alloc: Global,
    builder: ItemBuilder<'_>,
    listing: &mut ListingVisitor<'_>,
    shelf: &mut S,
    parts: &[Part],
    items: &mut Vec<Part>,
) -> Result<(), Failed<ShelfFault>>
    ensures items { IfOk result (Answers S.stands S.is_honest shelf.old shelf.new
        (λ store _. (base : List ℕ)
        (found : List (spec.SeenResource
        (viewer_of builder.entry.viewer.now) builder.entry.kind store.resources))
        → IsStore base store → spec.IsItemBuilder store.resources builder.entry
        → Tells (viewer_of builder.entry.viewer.now) store.resources listing.old
        → map (λ p. p.id) parts.now ≡ map (λ x. x.own.id) found
        → items.new.items ≡ items.old.items
        ++ map (λ x. spec.item (viewer_of builder.entry.viewer.now) builder.entry.wanted.now
        (of_kind Kind.Group store.resources) x.own) found)) }
    ensures read { OnlyReads S.stands S.is_honest S.failures S.has_round shelf.old shelf.new result }
{
    match parts {
        [] => Ok(()),
        [item, rest @ ..] => {
            push_item(alloc, builder, listing, shelf, item.id(), items)?;
            push_items(alloc, builder, listing, shelf, rest, items)
        }
    }
}

/// Returns the items for the resources with the ids of `parts`, in order. Patterns on resources or groups that are
/// still cached ([`PatternCache`]) aren't computed again.
pub(crate) fn shown_items<S: Shelf>(
    alloc: Global,
    builder: ItemBuilder<'_>,
    shelf: &mut S,
    parts: &[Part],
) -> Result<Vec<Part>, Failed<ShelfFault>>
    ensures items { IsReadFrom S.stands S.is_honest shelf.old shelf.new result (λ store items.
        spec.IsItemBuilder store.resources builder.entry
        → spec.AreItems (viewer_of builder.entry.viewer.now) builder.entry.wanted.now
        builder.entry.kind store.resources parts.now items.items) }
    ensures read { OnlyReads S.stands S.is_honest S.failures S.has_round shelf.old shelf.new result }
{
    let [first, ..] = parts else {
        return Ok(Vec::new(alloc));
    };
    let mut listing = ListingVisitor::new(alloc, builder.viewer, first.id())?;
    let mut items = Vec::with_capacity(alloc, parts.len())?;
    push_items(alloc, builder, &mut listing, shelf, parts, &mut items)?;
    Ok(items)
}
