//! Builds the part of each resource on which a search evaluates its query.
ghost use Rattle.std.specs.Prelude.{◌≡◌, ◌++◌, [], false, List, IfOk, IfSome, OnOk};
ghost use Rattle.scim_cell.specs.Content.{Content};
ghost use Rattle.scim_cell.specs.Rows.{rows};
ghost use Rattle.scim_view.specs.View.{Viewer as SpecViewer, read_in, visible_attributes as seen_attributes, viewer_of};
ghost use Rattle.scim_view.specs.Groups.{and_those, has_groups};
ghost use Rattle.scim_query.specs.Pagers.{HasTaken, query_of};
ghost use Rattle.scim_search.specs.ReadPatterns.{AreFor};
ghost use Rattle.scim_search.specs.ViewBuilders as spec;

use crate::read_patterns::ReadPatterns;
use scim_policy::Patterns;
use scim_query::Pager;
use scim_schema::Attribute;
use scim_text::NoMemory;
use scim_value::{Part, Resource};
use scim_view::{GroupIndex, MayBeSeenPlainlyOf, Viewer, shows_id, visible_attributes};
use std::alloc::Global;

/// Which part of each resource is built.
#[derive(Clone, Copy)]
pub(crate) enum ViewScope<'a> {
    /// The visible part of these attributes only.
    Named(&'a [Attribute]),
    /// The whole visible part, with `groups` computed from this index.
    Whole(&'a GroupIndex),
}

/// A builder of the parts of resources that a viewer sees.
#[derive(Clone, Copy)]
pub(crate) struct ViewBuilder<'a> {
    viewer: &'a Viewer<'a>,
    patterns: &'a ReadPatterns<'a>,
    scope: ViewScope<'a>,
}

impl<'a> ViewBuilder<'a> {
    /// Returns a builder for this viewer and scope. `patterns` are those of the viewer's reading of the resources
    /// of a kind.
    pub(crate) fn new(
        viewer: &'a Viewer<'a>,
        patterns: &'a ReadPatterns<'a>,
        scope: ViewScope<'a>,
    ) -> ViewBuilder<'a>
        ensures { result ≡ record {
          viewer = viewer.entry;
          patterns = patterns.entry;
          scope =
              scope.entry;
        } }
    {
        ViewBuilder {
            viewer,
            patterns,
            scope,
        }
    }

    /// Returns the patterns on all resources of the kind; `None` if they differ by resource, or if this
    /// resource isn't of the kind.
    pub(crate) fn on_all(&self, resource: &Resource) -> Option<&Patterns<'a>>
        ensures { (groups : List Content) → spec.IsViewBuilder groups self.now
            → IfSome result (λ patterns.
            AreFor (viewer_of self.now.viewer.now) resource.now patterns.now) }
    {
        self.patterns.on_all(resource)
    }

    /// Returns the patterns on the resource, without using a cache.
    pub(crate) fn on(&self, alloc: Global, resource: &Resource) -> Result<Patterns<'a>, NoMemory>
        ensures { IfOk result (λ patterns. (groups : List Content)
            → spec.IsViewBuilder groups self.now
            → AreFor (viewer_of self.now.viewer.now) resource.now patterns) }
    {
        self.patterns.on(alloc, self.viewer, resource)
    }

    /// Whether the part that is built of the resource may have a value of `groups`. Doesn't evaluate the policy.
    pub(crate) fn may_have_groups(&self, resource: &Resource) -> bool
        ensures { result ≡ false → (groups : List Content) → spec.IsViewBuilder groups self.now
            → has_groups (rows (spec.made (viewer_of self.now.viewer.now) groups self.now.scope
            resource.now)) ≡ false }
    {
        match self.scope {
            ViewScope::Named(_) => true,
            ViewScope::Whole(index) => index.has_groups(resource),
        }
    }

    /// Builds the part of the resource and passes it to the pager, if `patterns` let the client see the
    /// resource. Returns whether the pager now holds a part with only the named attributes, so that the
    /// patterns will be needed again.
    pub(crate) fn show(
        &self,
        alloc: Global,
        patterns: &Patterns<'_>,
        resource: &Resource,
        pager: &mut Pager<'_>,
    ) -> Result<bool, NoMemory>
        ensures query { query_of pager.new ≡ query_of pager.old }
        ensures taken { OnOk result ((groups parts : List Content)
            → spec.IsViewBuilder groups self.now
            → AreFor (viewer_of self.now.viewer.now) resource.now patterns.now
            → HasTaken parts pager.old
            → HasTaken (parts ++ and_those (spec.part_of groups self.now resource.now) [])
            pager.new) }
    {
        match self.scope {
            ViewScope::Named(attributes) => {
                show_named(alloc, patterns, attributes, resource, pager)
            }
            ViewScope::Whole(index) => {
                let part = self.viewer.view_by_index(alloc, patterns, index, resource)?;
                show_if_seen(part, pager)
            }
        }
    }
}

/// Passes the visible part of these attributes to the pager, if the client may read the `id` by `patterns`.
/// Returns whether the pager now holds the part.
///
/// If no value filter is on these attributes, the part is copied only in that case. Otherwise it is made first,
/// since asking a value filter may want memory.
fn show_named(
    alloc: Global,
    patterns: &Patterns<'_>,
    attributes: &[Attribute],
    resource: &Resource,
    pager: &mut Pager<'_>,
) -> Result<bool, NoMemory>
    ensures query { query_of pager.new ≡ query_of pager.old }
    ensures taken { OnOk result ((v : SpecViewer) (parts : List Content)
        → AreFor v resource.now patterns.now → HasTaken parts pager.old
        → HasTaken (parts ++ and_those
        (spec.made_part (λ c. seen_attributes attributes.now (read_in v c) c) v
        resource.now) []) pager.new) }
{
    if !shows_id(patterns) {
        return Ok(false);
    }
    if patterns.is_plain_on(attributes) {
        let test = MayBeSeenPlainlyOf::new(attributes, resource.kind(), patterns);
        return pager.push_where(resource.part(), &test);
    }
    let part = visible_attributes(alloc, attributes, patterns, resource)?;
    pager.push(part)
}

/// Passes a whole part to the pager, if there is one. Always returns false: the patterns aren't needed
/// again.
fn show_if_seen(part: Option<Part>, pager: &mut Pager<'_>) -> Result<bool, NoMemory>
    ensures query { query_of pager.new ≡ query_of pager.old }
    ensures taken { OnOk result ((parts : List Content) → HasTaken parts pager.old
        → HasTaken (parts ++ and_those part []) pager.new) }
{
    if let Some(part) = part {
        pager.push(part)?;
    }
    Ok(false)
}
