//! One pass over the rows of resources, which shows them to a visitor if all rows are valid.

ghost use Rattle.std.specs.Prelude.{◌≡◌, ◌+◌, true, length, IfOk, IfSome, IsUtf8};
ghost use Rattle.std.specs.Option.{option_copied, option_to_list};
ghost use Rattle.scim_store.specs.code.Passing as spec;

use crate::damage::{
    ResourceRows, are_apart, are_members, are_names, are_secrets, listed_values, ordered_names,
    read_resource, str_at,
};
use crate::row_owners::has_text;
use scim_cell::Id;
use scim_json::door_code_of;
use scim_shelf::Visitor;
use scim_store_tables::Version;
use scim_text::NoMemory;
use scim_value::Resource;
use sqlite::Row;
use std::alloc::Global;
use std::cmp::Ordering;

/// The place of the pass.
#[derive(Clone, Copy)]
struct Passed {
    /// The id of the last resource; `None` at the beginning.
    last: Option<Id>,
    /// How many rows of unique names belong to the resources so far.
    names: usize,
    /// How many rows of members belong to the resources so far.
    members: usize,
    /// How many rows of door codes belong to the resources so far.
    secrets: usize,
}

/// Whether the id is above the last one, if there is one.
fn is_above(id: Id, last: Option<Id>) -> bool
    ensures { result ≡ true → spec.IsAbove id last }
{
    match last {
        Some(last) => last.cmp(&id) == Ordering::Less,
        None => true,
    }
}

/// Returns `count` rows from the place on. Returns `None` if there are fewer.
fn next_rows(rows: &[Row], place: usize, count: usize) -> Option<&[Row]>
    ensures { IfSome result (λ next. spec.AreNext rows.now place next.now (place + count)) }
{
    if place > rows.len() || count > rows.len() - place {
        return None;
    }
    Some(&rows[place..place + count])
}

/// Returns the door code in the row of `secret` at the place, if the row has the same first column as this row
/// of `resource`, and its second column is a text in UTF-8.
fn code_at<'r>(row: &Row, secrets: &'r [Row], place: usize) -> Option<&'r str>
    ensures { IfSome (option_copied result) IsUtf8 }
{
    if place >= secrets.len() {
        return None;
    }
    let id = str_at(row, 0)?;
    if !has_text(&secrets[place], 0, id) {
        return None;
    }
    str_at(&secrets[place], 1)
}

/// Returns how many rows of `secret` a user has, by its door code.
fn code_count(door_code: Option<&str>) -> usize
    ensures { result ≡ length (option_to_list (option_copied door_code.entry)) }
{
    match door_code {
        Some(_) => 1,
        None => 0,
    }
}

/// Returns the place behind the rows of the resource. Returns `None` if its id isn't above the last one, or
/// the next rows aren't exactly those of its unique names, of its member values and of its door code.
fn behind(
    alloc: Global,
    tables: &ResourceRows,
    resource: &Resource,
    passed: Passed,
) -> Result<Option<Passed>, NoMemory>
    ensures { IfOk result (λ found. IfSome found (spec.Follows tables.now resource.now passed)) }
{
    if !is_above(resource.id(), passed.last) {
        return Ok(None);
    }
    let unique = ordered_names(alloc, resource)?;
    let Some(names) = next_rows(tables.names.as_slice(), passed.names, unique.len()) else {
        return Ok(None);
    };
    let values = listed_values(alloc, resource)?;
    let Some(members) = next_rows(tables.members.as_slice(), passed.members, values.len()) else {
        return Ok(None);
    };
    let door_code = door_code_of(resource);
    let count = code_count(door_code);
    let Some(secrets) = next_rows(tables.secrets.as_slice(), passed.secrets, count) else {
        return Ok(None);
    };
    let mut buffer = [0; Id::TEXT_LENGTH];
    let id = resource.id().write(&mut buffer);
    if !are_names(names, id, unique.as_slice()) || !are_members(members, id, values.as_slice()) {
        return Ok(None);
    }
    if !are_secrets(secrets, id, door_code) {
        return Ok(None);
    }
    Ok(Some(Passed {
        last: Some(resource.id()),
        names: passed.names + unique.len(),
        members: passed.members + values.len(),
        secrets: passed.secrets + count,
    }))
}

/// Shows the resource of a row to the visitor, and returns the place behind its rows. Returns `None` if the
/// row isn't that of a valid resource with a location below the base URI, the tables of the version can't have
/// it, or its other rows don't follow.
fn pass_row<V: Visitor>(
    alloc: Global,
    version: Version,
    base: &str,
    tables: &ResourceRows,
    row: &Row,
    passed: Passed,
    visitor: &mut V,
) -> Result<Option<Passed>, NoMemory>
    ensures { IfOk result (λ found. IfSome found (λ next. spec.Passes V.Visitor.takes version
        base.now tables.now row.now passed next visitor.old visitor.new)) }
{
    let door_code = code_at(row, tables.secrets.as_slice(), passed.secrets);
    let Some(resource) = read_resource(alloc, version, base, row, door_code)? else {
        return Ok(None);
    };
    let Some(next) = behind(alloc, tables, &resource, passed)? else {
        return Ok(None);
    };
    visitor.take(alloc, &resource)?;
    Ok(Some(next))
}

/// Shows the resources of the rows to the visitor, in order. Returns the place behind their rows, and `None`
/// if one of them doesn't pass.
fn pass_rows<V: Visitor>(
    alloc: Global,
    version: Version,
    base: &str,
    tables: &ResourceRows,
    rows: &[Row],
    visitor: &mut V,
) -> Result<Option<Passed>, NoMemory>
    ensures { IfOk result (λ found. IfSome found (λ next. spec.PassesAll V.Visitor.takes version
        base.now tables.now rows.now next visitor.old visitor.new)) }
{
    let mut passed = Passed {
        last: None,
        names: 0,
        members: 0,
        secrets: 0,
    };
    for row in rows {
        match pass_row(alloc, version, base, tables, row, passed, visitor)? {
            Some(next) => passed = next,
            None => return Ok(None),
        }
    }
    Ok(Some(passed))
}

/// Whether the rows of names, members and door codes all belong to the resources so far.
fn is_at_end(tables: &ResourceRows, passed: Passed) -> bool
    ensures { result ≡ true → spec.IsAtEnd tables.now passed }
{
    passed.names == tables.names.len()
        && passed.members == tables.members.len()
        && passed.secrets == tables.secrets.len()
}

/// Shows the resources of the tables of a version to the visitor, in order of id. Returns whether the rows are
/// exactly those of valid resources with locations below the base URI. If they aren't, or if this function
/// can't tell, it returns false, and the visitor has taken some of the resources.
pub(crate) fn show_sound<V: Visitor>(
    alloc: Global,
    version: Version,
    base: &str,
    tables: &ResourceRows,
    visitor: &mut V,
) -> Result<bool, NoMemory>
    ensures { IfOk result (λ sound. sound ≡ true
        → spec.ShowsSound V.Visitor.takes version base.now tables.now visitor.old visitor.new) }
{
    let resources = tables.resources.as_slice();
    match pass_rows(alloc, version, base, tables, resources, visitor)? {
        Some(end) if is_at_end(tables, end) => are_apart(alloc, tables.names.as_slice()),
        _ => Ok(false),
    }
}
