//! Reads arguments that are lists, such as lists of texts, parts and resources.
use crate::arguments::{between, joined, said};
use crate::case::Case;
use crate::faults::CaseFault;
use crate::forms::Argument;
use scim_samples::{part, resource, sample, sample_groups, sample_users};
use scim_schema::Kind;
use scim_text::push;
use scim_value::{Part, Resource};
use std::alloc::Global;

/// Returns the strings in a list. Fails with `Missing` if an item isn't a string.
pub fn texts<'c>(case: &'c Case<'_>, name: &'static str) -> Result<Vec<&'c str>, CaseFault> {
    let mut texts = Vec::new(case.alloc);
    for value in case.list(name) {
        let Some(text) = value.as_str() else {
            return Err(CaseFault::Missing("texts"));
        };
        push(&mut texts, text)?;
    }
    Ok(texts)
}

/// Returns the text of an argument, with as many spaces appended as the argument `spaces` says, by default 0.
pub fn spaced_text(case: &Case<'_>, name: &'static str) -> Result<String, CaseFault> {
    let mut text = said(case.alloc, case.text(name)?)?;
    for _ in 0..case.number("spaces").unwrap_or(0) {
        text.push(' ')?;
    }
    Ok(text)
}

/// Returns the parts in the list `parts`. Each is given as the last two digits of its id, a space, and its
/// cells.
pub fn parts_of(case: &Case<'_>) -> Result<Vec<Part>, CaseFault> {
    let mut parts = Vec::new(case.alloc);
    for value in case.list("parts") {
        push(&mut parts, part_of(case, value.as_str().unwrap_or(""))?)?;
    }
    Ok(parts)
}

/// Reads a part from `DIGITS CELLS`. The digits are the last two of its id.
fn part_of(case: &Case<'_>, text: &str) -> Result<Part, CaseFault> {
    let (digits, cells) = text.split_once(' ').unwrap_or((text, ""));
    let id = joined(case.alloc, &["00000000-0000-4000-8000-0000000000", digits])?;
    Ok(part(case.alloc, case.kind(), id.as_str(), cells)?)
}

/// Returns the resources in a list. Each item is the name of a sample, or an object with `id` and `cells`.
pub fn resources(
    case: &Case<'_>,
    kind: Kind,
    name: &'static str,
) -> Result<Vec<Resource>, CaseFault> {
    let mut resources = Vec::new(case.alloc);
    for value in case.list(name) {
        push(&mut resources, resource_of(case, kind, value)?)?;
    }
    Ok(resources)
}

fn resource_of(case: &Case<'_>, kind: Kind, value: &Argument) -> Result<Resource, CaseFault> {
    if let Some(name) = value.as_str() {
        return match sample(case.alloc, name)? {
            Some(resource) => Ok(resource),
            None => Err(CaseFault::Missing("a sample")),
        };
    }
    let inner = case.inner(value);
    match (inner.text("id"), inner.text("cells")) {
        (Ok(id), Ok(cells)) => Ok(resource(case.alloc, kind, id, cells)?),
        _ => Err(CaseFault::Missing("id and cells")),
    }
}

/// Returns as many users as the argument `users` says. If it isn't given, returns the sample resources of the
/// argument `kind`.
pub fn resources_of(case: &Case<'_>) -> Result<Vec<Resource>, CaseFault> {
    if let Ok(number) = case.number("users") {
        return numbered_users(case.alloc, number);
    }
    match case.kind() {
        Kind::User => Ok(sample_users(case.alloc)?),
        Kind::Group => Ok(sample_groups(case.alloc)?),
    }
}

/// Returns `number` users with the names `user0`, `user1` and so on.
fn numbered_users(alloc: Global, number: i64) -> Result<Vec<Resource>, CaseFault> {
    let mut users = Vec::new(alloc);
    for index in 0..number {
        push(&mut users, numbered_user(alloc, index)?)?;
    }
    Ok(users)
}

/// Returns the id of a numbered user without its last digits, which are the decimal digits of `number`. The
/// number must be at most 999.
fn id_before(number: i64) -> &'static str {
    if number < 10 {
        "00000000-0000-4000-8000-00000000000"
    } else if number < 100 {
        "00000000-0000-4000-8000-0000000000"
    } else {
        "00000000-0000-4000-8000-000000000"
    }
}

fn numbered_user(alloc: Global, index: i64) -> Result<Resource, CaseFault> {
    let id = between(alloc, id_before(index), &index, "")?;
    let cells = between(alloc, "userName=user", &index, "")?;
    Ok(resource(alloc, Kind::User, id.as_str(), cells.as_str())?)
}
