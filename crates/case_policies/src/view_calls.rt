//! The calls of `scim_view`.
use crate::policy_calls::policy;
use case_values::{Case, CaseFault, named, push_all, resources, said, texts, truth};
use scim_policy::Policy;
use scim_samples::{BASE, part_text};
use scim_schema::Kind;
use scim_value::{Part, Resource};
use scim_view::{Names, Viewer, Wanted, project};
use std::alloc::Global;

/// A call of `scim_view`.
#[derive(Clone, Copy)]
enum ViewCall {
    OnResource(OfView),
    Views,
    Project,
    Includes,
}

/// A call on the view of a resource.
#[derive(Clone, Copy)]
enum OfView {
    Sees,
    Visible,
    View,
    WithGroups,
    ViewWithGroups,
}

static CALLS: [(&str, ViewCall); 8] = [
    ("sees", ViewCall::OnResource(OfView::Sees)),
    ("visible", ViewCall::OnResource(OfView::Visible)),
    ("view", ViewCall::OnResource(OfView::View)),
    ("with_groups", ViewCall::OnResource(OfView::WithGroups)),
    (
        "view_with_groups",
        ViewCall::OnResource(OfView::ViewWithGroups),
    ),
    ("views", ViewCall::Views),
    ("project", ViewCall::Project),
    ("includes", ViewCall::Includes),
];

/// Returns the result of the case's call, or `None` if it isn't a call of `scim_view`.
pub fn answer(case: &Case<'_>, call: &str) -> Option<Result<String, CaseFault>> {
    let call = named(&CALLS, call)?;
    Some(match call {
        ViewCall::OnResource(told) => view_call(case, told),
        ViewCall::Views => views_call(case),
        ViewCall::Project => project_call(case),
        ViewCall::Includes => includes_call(case),
    })
}

/// Returns a viewer for this policy and the client in the argument `client`.
pub fn viewer<'c>(case: &'c Case<'_>, policy: &'c Policy) -> Result<Viewer<'c>, CaseFault> {
    Ok(Viewer {
        policy,
        client: case.text("client")?,
        base: BASE,
    })
}

/// Returns the result of a call on the client's view of the resource.
fn view_call(case: &Case<'_>, told: OfView) -> Result<String, CaseFault> {
    let policy = policy(case)?;
    seen_by(case, told, &policy)
}

fn seen_by(case: &Case<'_>, told: OfView, policy: &Policy) -> Result<String, CaseFault> {
    let viewer = viewer(case, policy)?;
    let resource = case.resource()?;
    told_of_view(case, told, &viewer, &resource)
}

fn told_of_view(
    case: &Case<'_>,
    told: OfView,
    viewer: &Viewer<'_>,
    resource: &Resource,
) -> Result<String, CaseFault> {
    let alloc = case.alloc;
    match told {
        OfView::Sees => truth(alloc, viewer.sees(alloc, resource)?),
        OfView::Visible => cells_text(alloc, &viewer.visible(alloc, resource)?),
        OfView::View => seen_text(alloc, viewer.view(alloc, resource)?),
        OfView::WithGroups => with_groups(case, viewer, resource),
        OfView::ViewWithGroups => view_with_groups(case, viewer, resource),
    }
}

fn with_groups(
    case: &Case<'_>,
    viewer: &Viewer<'_>,
    resource: &Resource,
) -> Result<String, CaseFault> {
    let groups = groups(case)?;
    let seen = viewer.with_groups(case.alloc, groups.as_slice(), resource)?;
    cells_text(case.alloc, &seen)
}

fn view_with_groups(
    case: &Case<'_>,
    viewer: &Viewer<'_>,
    resource: &Resource,
) -> Result<String, CaseFault> {
    let groups = groups(case)?;
    let seen = viewer.view_with_groups(case.alloc, groups.as_slice(), resource)?;
    seen_text(case.alloc, seen)
}

fn cells_text(alloc: Global, part: &Part) -> Result<String, CaseFault> {
    Ok(part_text(alloc, part)?)
}

/// Returns the cells of the visible part, or `unseen` if the client doesn't see the resource.
pub(crate) fn seen_text(alloc: Global, part: Option<Part>) -> Result<String, CaseFault> {
    match part {
        Some(part) => cells_text(alloc, &part),
        None => said(alloc, "unseen"),
    }
}

/// Returns the groups in the list `groups`.
fn groups(case: &Case<'_>) -> Result<Vec<Resource>, CaseFault> {
    resources(case, Kind::Group, "groups")
}

/// Returns the visible parts of the resources in the list `resources`, with ` | ` after each.
fn views_call(case: &Case<'_>) -> Result<String, CaseFault> {
    let parts = seen_parts(case)?;
    parts_text(case.alloc, parts.as_slice())
}

fn seen_parts(case: &Case<'_>) -> Result<Vec<Part>, CaseFault> {
    let policy = policy(case)?;
    views_by(case, &policy)
}

fn views_by(case: &Case<'_>, policy: &Policy) -> Result<Vec<Part>, CaseFault> {
    let viewer = viewer(case, policy)?;
    let groups = groups(case)?;
    views_among(case, &viewer, groups.as_slice())
}

fn views_among(
    case: &Case<'_>,
    viewer: &Viewer<'_>,
    groups: &[Resource],
) -> Result<Vec<Part>, CaseFault> {
    let resources = resources(case, case.kind(), "resources")?;
    Ok(viewer.views(case.alloc, groups, resources.as_slice())?)
}

fn parts_text(alloc: Global, parts: &[Part]) -> Result<String, CaseFault> {
    let mut text = String::new(alloc);
    for part in parts {
        push_part(alloc, part, &mut text)?;
    }
    Ok(text)
}

fn push_part(alloc: Global, part: &Part, text: &mut String) -> Result<(), CaseFault> {
    let cells = part_text(alloc, part)?;
    push_all(text, &[cells.as_str(), " | "])
}

/// Reads the argument `list` as a list of attribute names.
fn names(case: &Case<'_>, list: &'static str) -> Result<Names, CaseFault> {
    let texts = texts(case, list)?;
    Ok(Names::of(case.alloc, case.kind(), texts.as_slice())?)
}

/// Returns the attributes that a response contains: those in the list `attributes`, all except those in the
/// list `excludedAttributes`, or the default attributes.
pub fn wanted(case: &Case<'_>) -> Result<Wanted, CaseFault> {
    if case.has("attributes") {
        return Ok(Wanted::Only(names(case, "attributes")?));
    }
    if case.has("excludedAttributes") {
        return Ok(Wanted::Without(names(case, "excludedAttributes")?));
    }
    Ok(Wanted::Default)
}

fn project_call(case: &Case<'_>) -> Result<String, CaseFault> {
    let wanted = wanted(case)?;
    let shown = shown_part(case, &wanted)?;
    cells_text(case.alloc, &shown)
}

fn shown_part(case: &Case<'_>, wanted: &Wanted) -> Result<Part, CaseFault> {
    let part = case.part()?;
    Ok(project(case.alloc, part, wanted)?)
}

/// Whether the list `attributes` includes the leaf.
fn includes_call(case: &Case<'_>) -> Result<String, CaseFault> {
    let leaf = case.leaf("leaf")?;
    let names = names(case, "attributes")?;
    truth(case.alloc, names.includes(leaf))
}
