//! Searches resources as a client sees them.
ghost use Rattle.std.specs.Prelude.{IfOk};
ghost use Rattle.scim_view.specs.View.{viewer_of};
ghost use Rattle.scim_view.specs.Groups.{views};
ghost use Rattle.scim_query.specs.ClientSearches as spec;

use crate::queries::{Page, Query, search};
use crate::shown_pages::shown_page;
use scim_text::NoMemory;
use scim_value::Resource;
use scim_view::Viewer;
use std::alloc::Global;

/// Returns the query's page of the resources of one kind that the client sees.
/// The query reads only the client's view of each resource, with a user's `groups` computed from `groups`. So
/// the matches, their order and the total reveal nothing that the client may not read. Each item is projected
/// to the attributes that the query wants.
///
/// Evaluates the policy once for each resource and once for each group.
pub fn search_view(
    alloc: Global,
    viewer: &Viewer<'_>,
    groups: &[Resource],
    resources: &[Resource],
    query: &Query,
) -> Result<Page, NoMemory>
    ensures { IfOk result (λ page. spec.IsShownPage
        (views (viewer_of viewer.now) groups.now resources.now) query.now page) }
{
    let view = viewer.views(alloc, groups, resources)?;
    let found = search(alloc, view.as_slice(), query)?;
    shown_page(alloc, found, &query.wanted)
}
