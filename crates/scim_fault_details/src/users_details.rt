//! What is wrong with a users file.
use crate::document_checks::check_document;
use crate::document_details::DocumentDetail;
use crate::earlier_items::{Repeat, find_repeat};
use crate::json_places::{JsonPlace, parse};
use scim_json::{Damaged, read_stored};
use scim_text::{Failed, NoMemory};
use serde_json::Value;
use std::alloc::Global;
use std::fmt;

/// What is wrong with a users file or with an item of it.
#[derive(Clone, Copy)]
enum UsersDetail<'v> {
    /// The text isn't JSON from this place on.
    NoJson(JsonPlace),
    /// The file isn't a JSON list.
    NoList,
    /// The item isn't a stored document.
    Document(DocumentDetail<'v>),
    /// The item repeats something of an earlier one.
    Repeat(Repeat),
}

impl fmt::Display for UsersDetail<'_> {
    fn fmt<W: fmt::Write>(&self, f: &mut fmt::Formatter<W>) -> fmt::Result {
        match self {
            UsersDetail::NoJson(place) => write!(f, "{place}"),
            UsersDetail::NoList => f.write_str("the file is no JSON list"),
            UsersDetail::Document(detail) => write!(f, "{detail}"),
            UsersDetail::Repeat(repeat) => write!(f, "{repeat}"),
        }
    }
}

/// Returns what is wrong with a users file of resources below `base`, in which the item with this number,
/// from 1, is damaged, or which isn't a JSON list if the number is 0. The text is such as `value 2 of
/// "emails.type" is no string`.
pub fn users_detail(
    alloc: Global,
    base: &str,
    text: &str,
    item: usize,
) -> Result<Option<String>, NoMemory> {
    match parse(alloc, text) {
        Ok(file) => detail_text(alloc, find_detail(alloc, base, text, item, &file)?),
        Err(Failed::Because(place)) => detail_text(alloc, Some(UsersDetail::NoJson(place))),
        Err(Failed::NoMemory) => Err(NoMemory),
    }
}

/// Returns the text of a detail.
fn detail_text(alloc: Global, detail: Option<UsersDetail<'_>>) -> Result<Option<String>, NoMemory> {
    match detail {
        Some(detail) => Ok(Some(detail.to_string(alloc)?)),
        None => Ok(None),
    }
}

/// Returns what is wrong with a users file with this text, whose JSON is `file`.
fn find_detail<'v>(
    alloc: Global,
    base: &str,
    text: &str,
    item: usize,
    file: &'v Value,
) -> Result<Option<UsersDetail<'v>>, NoMemory> {
    let Some(items) = file.as_array() else {
        return Ok(Some(UsersDetail::NoList));
    };
    match item.checked_sub(1).and_then(|index| items.get(index)) {
        Some(value) => find_item_detail(alloc, base, text, item, value),
        None => Ok(None),
    }
}

/// Returns what is wrong with the item with this number and this JSON.
fn find_item_detail<'v>(
    alloc: Global,
    base: &str,
    text: &str,
    item: usize,
    value: &'v Value,
) -> Result<Option<UsersDetail<'v>>, NoMemory> {
    let document = value.to_string(alloc)?;
    match read_stored(alloc, base, document.as_str()) {
        Ok(resource) => {
            match find_repeat(alloc, base, text, item, &resource)? {
                Some(repeat) => Ok(Some(UsersDetail::Repeat(repeat))),
                None => Ok(None),
            }
        }
        Err(Failed::Because(Damaged)) => find_document_detail(alloc, value),
        Err(Failed::NoMemory) => Err(NoMemory),
    }
}

/// Returns why a value isn't a stored document.
fn find_document_detail<'v>(
    alloc: Global,
    value: &'v Value,
) -> Result<Option<UsersDetail<'v>>, NoMemory> {
    match check_document(alloc, value) {
        Ok(()) => Ok(None),
        Err(Failed::Because(detail)) => Ok(Some(UsersDetail::Document(detail))),
        Err(Failed::NoMemory) => Err(NoMemory),
    }
}
