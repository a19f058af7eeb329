//! The calls of `scim_route`.
use case_values::{Case, CaseFault, debugged, joined, push_all, said};
use scim_cell::{Id, Text};
use scim_route::{Found, Parameters, Route, Routes};
use scim_text::{Failed, NoMemory};
use std::alloc::Global;

/// Returns the result of the case's call, or `None` if it isn't a call of `scim_route`.
pub fn answer(case: &Case<'_>, call: &str) -> Option<Result<String, CaseFault>> {
    match call {
        "find" => Some(find_call(case)),
        "parameters" => Some(parameters_call(case)),
        _ => None,
    }
}

/// Returns the route that the arguments `method` and `target` select, or the refusal if they select none.
fn find_call(case: &Case<'_>) -> Result<String, CaseFault> {
    let method = case.text_or("method", "GET").as_bytes();
    let target = case.text("target")?.as_bytes();
    let routes = Routes::new(case.alloc)?;
    match routes.find(case.alloc, method, target) {
        Ok(found) => found_text(case.alloc, &found),
        Err(Failed::Because(refusal)) => debugged(case.alloc, &refusal),
        Err(Failed::NoMemory) => Err(CaseFault::NoMemory),
    }
}

/// Returns the discovery page or the route as text, followed by `?` and the query.
fn found_text(alloc: Global, found: &Found<'_>) -> Result<String, CaseFault> {
    match found {
        Found::Discovery(page, query) => {
            let text = debugged(alloc, page)?;
            with_query(text, *query)
        }
        Found::Resource(route) => with_query(route_text(alloc, route)?, route.query),
    }
}

/// Returns the form, the operation, the kind and the id of a route as text. The id is `-` if the route has no
/// id.
fn route_text(alloc: Global, route: &Route<'_>) -> Result<String, CaseFault> {
    let form = debugged(alloc, &route.form)?;
    let op = debugged(alloc, &route.op)?;
    let kind = debugged(alloc, &route.kind)?;
    let id = id_text(alloc, route.id)?;
    let words = [
        form.as_str(),
        " ",
        op.as_str(),
        " ",
        kind.as_str(),
        " ",
        id.as_str(),
    ];
    joined(alloc, &words)
}

fn id_text(alloc: Global, id: Option<Id>) -> Result<String, CaseFault> {
    match id {
        Some(id) => Ok(id.text(alloc)?.into_string()),
        None => said(alloc, "-"),
    }
}

fn with_query(mut text: String, query: Option<&[u8]>) -> Result<String, CaseFault> {
    if let Some(query) = query {
        push_all(
            &mut text,
            &[" ?", str::from_utf8(query).unwrap_or("no UTF-8")],
        )?;
    }
    Ok(text)
}

/// Returns the parameters of a query string, each as `NAME=VALUE;`.
fn parameters_call(case: &Case<'_>) -> Result<String, CaseFault> {
    let query = query_of(case)?;
    let parameters = parameters_in(case.alloc, query.as_ref())?;
    parameters_text(case.alloc, &parameters)
}

fn parameters_in(alloc: Global, query: Option<&Vec<u8>>) -> Result<Parameters, NoMemory> {
    match query {
        Some(query) => Parameters::read(alloc, Some(query.as_slice())),
        None => Parameters::read(alloc, None),
    }
}

/// Returns the query string from the argument `query`, or in hex from the argument `query_hex`. Returns
/// `None` if neither is given, or if `query_hex` isn't valid hex.
fn query_of(case: &Case<'_>) -> Result<Option<Vec<u8>>, CaseFault> {
    if let Ok(digits) = case.text("query_hex") {
        return Ok(hex::decode(case.alloc, digits).ok());
    }
    match case.text("query") {
        Ok(query) => Ok(Some(query.as_bytes().to_vec(case.alloc)?)),
        Err(_) => Ok(None),
    }
}

fn parameters_text(alloc: Global, parameters: &Parameters) -> Result<String, CaseFault> {
    let mut text = String::new(alloc);
    for (name, value) in [
        ("attributes", &parameters.attributes),
        ("excludedAttributes", &parameters.excluded_attributes),
        ("filter", &parameters.filter),
        ("sortBy", &parameters.sort_by),
        ("sortOrder", &parameters.sort_order),
        ("startIndex", &parameters.start_index),
        ("count", &parameters.count),
    ] {
        push_parameter(name, value.as_ref(), &mut text)?;
    }
    Ok(text)
}

fn push_parameter(name: &str, value: Option<&Text>, text: &mut String) -> Result<(), CaseFault> {
    match value {
        Some(value) => push_all(text, &[name, "=", value.as_str(), ";"]),
        None => Ok(()),
    }
}
