//! The names in a filter, and the first that no type of a rule has.
use crate::unknown_names::{UnknownName, unknown_path, unknown_sub_name};
use scim_filter_grammar::{AttributePath, Filter, Meant, Node};
use scim_schema::{Attribute, Kind};
use scim_text::{NoMemory, push};
use std::alloc::Global;

/// A name in a filter.
#[derive(Clone, Copy)]
pub(crate) struct FilterName<'f> {
    path: &'f AttributePath,
    /// What the path before the brackets around the name means; `None` outside of brackets.
    before: Option<Meant>,
}

/// Lists the names in a filter in the order of its text, those in brackets too.
fn names_in<'f>(alloc: Global, filter: &'f Filter) -> Result<Vec<FilterName<'f>>, NoMemory> {
    let mut names = Vec::new(alloc);
    push_names(filter.tree(), None, &mut names)?;
    Ok(names)
}

/// Appends the names in a tree. `before` is what the path before the brackets around it means.
fn push_names<'f>(
    node: &'f Node,
    before: Option<Meant>,
    names: &mut Vec<FilterName<'f>>,
) -> Result<(), NoMemory> {
    match node {
        Node::Or(first, second) | Node::And(first, second) => {
            push_names(first, before, names)?;
            push_names(second, before, names)
        }
        Node::Not(inner) => push_names(inner, before, names),
        Node::Present(path) | Node::Compare(path, _, _) => push(names, FilterName { path, before }),
        Node::Values(path, inner) => {
            push(names, FilterName { path, before })?;
            push_names(inner, Some(path.meant), names)
        }
    }
}

/// Returns the first name of a filter that is unknown. `kinds` are the types of the rule, for a name outside
/// of brackets.
pub(crate) fn first_unknown(
    alloc: Global,
    kinds: &'static [Kind],
    filter: &Filter,
) -> Result<Option<UnknownName>, NoMemory> {
    let names = names_in(alloc, filter)?;
    let lists = vec![in alloc; names]?;
    unknown_among(alloc, kinds, &lists)
}

/// Returns the first name of a filter that none of the kinds has. `filters` are the filter as it is read for
/// each of the kinds.
pub(crate) fn first_unknown_on_all(
    alloc: Global,
    kinds: &'static [Kind],
    filters: &[Filter],
) -> Result<Option<UnknownName>, NoMemory> {
    let mut lists = Vec::new(alloc);
    for filter in filters {
        push(&mut lists, names_in(alloc, filter)?)?;
    }
    unknown_among(alloc, kinds, &lists)
}

/// Returns the first name that isn't known in any of the lists. Each list has the names of a filter, as read
/// for one of the kinds.
fn unknown_among(
    alloc: Global,
    kinds: &'static [Kind],
    lists: &[Vec<FilterName<'_>>],
) -> Result<Option<UnknownName>, NoMemory> {
    let [first, ..] = lists else {
        return Ok(None);
    };
    for (place, name) in first.iter().enumerate() {
        if !is_known(lists, place) {
            return described(alloc, kinds, name, list_before(lists, place));
        }
    }
    Ok(None)
}

/// Whether the name at an index is known in one of the lists.
fn is_known(lists: &[Vec<FilterName<'_>>], place: usize) -> bool {
    lists.iter().any(|names| match names.get(place) {
        Some(name) => name.path.meant != Meant::Nothing,
        None => false,
    })
}

/// The attribute before the brackets around the name at an index, in the first list in which it is one.
fn list_before(lists: &[Vec<FilterName<'_>>], place: usize) -> Option<Attribute> {
    lists
        .iter()
        .find_map(|names| names.get(place)?.before?.attribute())
}

/// Describes a name that none of the kinds has. `list` is the attribute before the brackets around it.
fn described(
    alloc: Global,
    kinds: &'static [Kind],
    name: &FilterName<'_>,
    list: Option<Attribute>,
) -> Result<Option<UnknownName>, NoMemory> {
    match (name.before, list) {
        (None, _) => Ok(Some(unknown_path(alloc, kinds, name.path)?)),
        (Some(_), Some(attribute)) => {
            let name = name.path.name.as_str();
            Ok(Some(unknown_sub_name(alloc, attribute, name)?))
        }
        (Some(_), None) => Ok(None),
    }
}
