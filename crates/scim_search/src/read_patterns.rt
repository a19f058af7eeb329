//! The patterns of a client's reading of the resources of a kind.
ghost use Rattle.std.specs.Prelude.{◌≡◌, false, true, Some, IfOk, IfSome, List, find};
ghost use Rattle.scim_schema.specs.declared.Kind.{Kind as SpecKind};
ghost use Rattle.scim_cell.specs.Content.{Content, IsPart};
ghost use Rattle.scim_view.specs.View.{Viewer as SpecViewer, sees, viewer_of};
ghost use Rattle.scim_view.specs.Groups.{with_groups};
ghost use Rattle.scim_query.specs.Pages.{is_match};
ghost use Rattle.scim_shelf.specs.Stores.{is_at};
ghost use Rattle.scim_search.specs.PatternCache.{Recalls};
ghost use Rattle.scim_search.specs.ReadPatterns.{AreFor, ArePatterns, ShowAll};

use crate::pattern_cache::PatternCache;
use scim_policy::{Patterns, ReadingRules};
use scim_query::Query;
use scim_schema::Kind;
use scim_text::NoMemory;
use scim_value::Resource;
use scim_view::{Viewer, shows_id};
use std::alloc::Global;

/// How the patterns of the resources of a kind are found.
#[derive(Drop)]
enum Form<'a> {
    /// The patterns are the same for all resources of the kind.
    Alike(Patterns<'a>),
    /// The patterns depend on the resource, because some of these rules have targets.
    ByTarget(ReadingRules<'a>),
}

/// The patterns of a client's reading of the resources of a kind. If they are the same for all resources, they are
/// computed once. Otherwise the rules for the client and the kind are selected once, and evaluated on each
/// resource.
#[derive(Drop)]
pub(crate) struct ReadPatterns<'a> {
    kind: Kind,
    form: Form<'a>,
}

impl<'a> ReadPatterns<'a> {
    /// Returns the patterns for a client and a kind.
    pub(crate) fn of(
        alloc: Global,
        viewer: &'a Viewer<'a>,
        kind: Kind,
    ) -> Result<ReadPatterns<'a>, NoMemory>
        ensures patterns { IfOk result (λ patterns.
            ArePatterns (viewer_of viewer.entry.now) patterns) }
        ensures kind { IfOk result (λ patterns. patterns.kind ≡ kind) }
    {
        let form = match viewer.patterns_on_all(alloc, kind)? {
            Some(patterns) => Form::Alike(patterns),
            None => {
                let rules = viewer.policy.reading_rules(alloc, viewer.client, kind)?;
                Form::ByTarget(rules)
            }
        };
        Ok(ReadPatterns { kind, form })
    }

    /// Returns the kind of the resources.
    pub(crate) fn kind(&self) -> Kind
        ensures { result ≡ self.now.kind }
    {
        self.kind
    }

    /// Returns the patterns on all resources of the kind; `None` if they differ by resource, or if this
    /// resource isn't of the kind.
    pub(crate) fn on_all(&self, resource: &Resource) -> Option<&Patterns<'a>>
        ensures { (v : SpecViewer) → ArePatterns v self.now
            → IfSome result (λ patterns. AreFor v resource.now patterns.now) }
    {
        match &self.form {
            Form::Alike(patterns) if resource.kind() == self.kind => Some(patterns),
            _ => None,
        }
    }

    /// Returns the patterns on the resource if they are already known: the patterns on all resources of the
    /// kind, or cached ones. Returns `None` otherwise.
    pub(crate) fn known<'d>(
        &'d self,
        cache: &'d PatternCache<'a>,
        resource: &Resource,
    ) -> Option<&'d Patterns<'a>>
        ensures { (v : SpecViewer) (kind : SpecKind) (cs : List Content) → ArePatterns v self.now
            → Recalls v kind cs cache.now
            → find (is_at kind resource.now.id) cs ≡ Some resource.now
            → IfSome result (λ patterns. AreFor v resource.now patterns.now) }
    {
        match self.on_all(resource) {
            Some(patterns) => Some(patterns),
            None => cache.of(resource.id()),
        }
    }

    /// Returns the patterns on the resource, without using the cache.
    pub(crate) fn on(
        &self,
        alloc: Global,
        viewer: &Viewer<'a>,
        resource: &Resource,
    ) -> Result<Patterns<'a>, NoMemory>
        ensures { IfOk result (λ patterns. ArePatterns (viewer_of viewer.now) self.now
            → AreFor (viewer_of viewer.now) resource.now patterns) }
    {
        match &self.form {
            Form::ByTarget(rules) if resource.kind() == self.kind => {
                rules.patterns(alloc, resource)
            }
            _ => viewer.patterns(alloc, resource),
        }
    }

    /// Whether the client sees all resources of the kind. False if the patterns differ by resource.
    pub(crate) fn show_all(&self) -> bool
        ensures { result ≡ true → ShowAll self.now }
    {
        match &self.form {
            Form::Alike(patterns) => shows_id(patterns),
            Form::ByTarget(_) => false,
        }
    }

    /// Whether the query may find a resource of the kind for the client. False only if the patterns are the
    /// same for all resources of the kind, and no resource can match by these patterns.
    pub(crate) fn may_find(&self, query: &Query) -> bool
        ensures { result ≡ false → (v : SpecViewer) (groups : List Content) (c : Content)
            → ArePatterns v self.now
            → IsPart c → c.kind ≡ self.now.kind → sees v c ≡ true
            → is_match query.now.filter (with_groups v groups c) ≡ false }
    {
        match &self.form {
            Form::Alike(patterns) => shows_id(patterns) && query.may_match(self.kind, patterns),
            Form::ByTarget(_) => true,
        }
    }
}
