//! The calls of `scim_query`.
use crate::policy_calls::policy;
use crate::view_calls::{viewer, wanted};
use case_filters::filter_of;
use case_values::{
    Case, CaseFault, between, joined, named, parts_of, push_all, resources_of, said, shown,
    spaced_text,
};
use scim_filter_grammar::Filter;
use scim_json::to_json;
use scim_policy::Policy;
use scim_query::{Page, Pager, Query, read_sort_by, search, search_view};
use scim_samples::{atom_text, leaf_text, read_leaf, sample_groups};
use scim_schema::Leaf;
use scim_value::{Part, Resource};
use scim_view::Viewer;
use std::alloc::Global;

/// A call of `scim_query`.
#[derive(Clone, Copy)]
enum QueryCall {
    Search,
    Pager,
    SearchView,
    ReadSortBy,
}

static CALLS: [(&str, QueryCall); 4] = [
    ("search", QueryCall::Search),
    ("pager", QueryCall::Pager),
    ("search_view", QueryCall::SearchView),
    ("read_sort_by", QueryCall::ReadSortBy),
];

/// Returns the result of the case's call, or `None` if it isn't a call of `scim_query`.
pub fn answer(case: &Case<'_>, call: &str) -> Option<Result<String, CaseFault>> {
    let call = named(&CALLS, call)?;
    Some(match call {
        QueryCall::Search => found_page(case),
        QueryCall::Pager => paged(case),
        QueryCall::SearchView => seen_page(case),
        QueryCall::ReadSortBy => read_sort_by_call(case),
    })
}

/// Returns the leaf that the `sortBy` parameter in the argument `text` names, or `none` if it names no leaf.
fn read_sort_by_call(case: &Case<'_>) -> Result<String, CaseFault> {
    let text = spaced_text(case, "text")?;
    match read_sort_by(case.kind(), text.as_str()) {
        Some(leaf) => Ok(leaf_text(case.alloc, leaf)?),
        None => said(case.alloc, "none"),
    }
}

/// Returns the filter in the argument `filter`, or `None` if it isn't given. Fails with `Missing` if it is
/// invalid.
fn wanted_filter(case: &Case<'_>) -> Result<Option<Filter>, CaseFault> {
    if case.text("filter").is_err() {
        return Ok(None);
    }
    match filter_of(case)? {
        Ok(filter) => Ok(Some(filter)),
        Err(_) => Err(CaseFault::Missing("filter")),
    }
}

/// Returns the leaf that the argument `sortBy` names, or `None` if it isn't given or doesn't name a leaf.
fn sort_leaf(case: &Case<'_>) -> Option<Leaf> {
    read_sort_by(case.kind(), case.text("sortBy").ok()?)
}

/// Returns the query of a case. By default it asks for the first 100 resources in order of id.
pub fn query_of(case: &Case<'_>) -> Result<Query, CaseFault> {
    let wanted = wanted(case)?;
    Ok(Query {
        filter: wanted_filter(case)?,
        sort_by: sort_leaf(case),
        descending: case.is_true("descending"),
        start: case.count("startIndex").unwrap_or(1),
        count: case.count("count").unwrap_or(100),
        wanted,
    })
}

/// Returns the page that the query finds among the parts in the list `parts`.
fn found_page(case: &Case<'_>) -> Result<String, CaseFault> {
    let query = query_of(case)?;
    found_by(case, &query)
}

fn found_by(case: &Case<'_>, query: &Query) -> Result<String, CaseFault> {
    let parts = parts_of(case)?;
    found_among(case, parts.as_slice(), query)
}

fn found_among(case: &Case<'_>, parts: &[Part], query: &Query) -> Result<String, CaseFault> {
    let page = search(case.alloc, parts, query)?;
    page_text(case, &page)
}

/// Returns the parts in the list `parts`. If it is empty, returns the parts of the resources from
/// [`resources_of`].
fn pushed_parts(case: &Case<'_>) -> Result<Vec<Part>, CaseFault> {
    if !case.list("parts").is_empty() {
        return parts_of(case);
    }
    let resources = resources_of(case)?;
    Ok(
        resources
            .into_iter()
            .map(Resource::into_part)
            .collect(case.alloc)?,
    )
}

/// Pushes the parts to a pager one by one. Returns its page, and the maximum number of parts that it held
/// after a push.
fn paged(case: &Case<'_>) -> Result<String, CaseFault> {
    let query = query_of(case)?;
    paged_by(case, &query)
}

fn paged_by(case: &Case<'_>, query: &Query) -> Result<String, CaseFault> {
    let parts = pushed_parts(case)?;
    let mut pager = Pager::new(case.alloc, query);
    let most = push_parts(&mut pager, parts)?;
    let page = pager.end()?;
    told_page(case, &page, most)
}

/// Pushes the parts to the pager. Returns the maximum number of parts that the pager held after a push.
fn push_parts(pager: &mut Pager<'_>, parts: Vec<Part>) -> Result<usize, CaseFault> {
    let mut most = 0;
    for part in parts {
        pager.push(part)?;
        most = pager.held().max(most);
    }
    Ok(most)
}

fn told_page(case: &Case<'_>, page: &Page, most: usize) -> Result<String, CaseFault> {
    let text = page_text(case, page)?;
    let held = between(case.alloc, ", held ", &most, "")?;
    joined(case.alloc, &[text.as_str(), held.as_str()])
}

/// Returns the page that the query finds in the client's view, as text.
fn seen_page(case: &Case<'_>) -> Result<String, CaseFault> {
    let page = page_of_view(case)?;
    page_text(case, &page)
}

/// Returns the page that the query finds in the client's view.
fn page_of_view(case: &Case<'_>) -> Result<Page, CaseFault> {
    let query = query_of(case)?;
    page_for(case, &query)
}

fn page_for(case: &Case<'_>, query: &Query) -> Result<Page, CaseFault> {
    let policy = policy(case)?;
    page_by(case, &policy, query)
}

fn page_by(case: &Case<'_>, policy: &Policy, query: &Query) -> Result<Page, CaseFault> {
    let viewer = viewer(case, policy)?;
    let groups = sample_groups(case.alloc)?;
    page_among(case, &viewer, groups.as_slice(), query)
}

fn page_among(
    case: &Case<'_>,
    viewer: &Viewer<'_>,
    groups: &[Resource],
    query: &Query,
) -> Result<Page, CaseFault> {
    let resources = resources_of(case)?;
    Ok(search_view(case.alloc, viewer, groups, resources.as_slice(), query)?)
}

/// Prints a page: its total, its start and its items. An item is printed as JSON or, if the argument `tell`
/// names a leaf, as the atom at this leaf.
fn page_text(case: &Case<'_>, page: &Page) -> Result<String, CaseFault> {
    let mut text = page_head(case.alloc, page)?;
    for item in &page.items {
        push_item(case, item, &mut text)?;
    }
    Ok(text)
}

fn page_head(alloc: Global, page: &Page) -> Result<String, CaseFault> {
    let total = shown(alloc, &page.total)?;
    let start = shown(alloc, &page.start)?;
    joined(alloc, &[total.as_str(), " from ", start.as_str(), ":"])
}

fn push_item(case: &Case<'_>, item: &Part, text: &mut String) -> Result<(), CaseFault> {
    let told = item_text(case, item)?;
    push_all(text, &[" ", told.as_str()])
}

fn item_text(case: &Case<'_>, item: &Part) -> Result<String, CaseFault> {
    match case.text("tell") {
        Ok(path) => Ok(atom_text(case.alloc, item.get(read_leaf(path)?, 0))?),
        Err(_) => Ok(to_json(case.alloc, item)?),
    }
}
