//! The calls of `scim_json`, and cases of users files.
use case_values::{Case, CaseFault, between, file_text, joined, named, said};
use scim_json::{
    Damaged, DamagedItem, kept_parts, read_documents, read_kept, read_stored, stored_text, to_json,
};
use scim_samples::{BASE, part_text};
use scim_text::Failed;
use scim_value::Resource;
use std::alloc::Global;

/// A call of `scim_json`.
#[derive(Clone, Copy)]
enum JsonCall {
    ToJson,
    StoredText,
    ReadStored,
    StoredAgain,
    ReadsBack,
    KeptParts,
    ReadKept,
    UsersFile,
}

static CALLS: [(&str, JsonCall); 8] = [
    ("to_json", JsonCall::ToJson),
    ("stored_text", JsonCall::StoredText),
    ("read_stored", JsonCall::ReadStored),
    ("stored_again", JsonCall::StoredAgain),
    ("reads_back", JsonCall::ReadsBack),
    ("kept_parts", JsonCall::KeptParts),
    ("read_kept", JsonCall::ReadKept),
    ("users_file", JsonCall::UsersFile),
];

/// Returns the result of the case's call, or `None` if it isn't a call of `scim_json`.
pub fn answer(case: &Case<'_>, call: &str) -> Option<Result<String, CaseFault>> {
    let call = named(&CALLS, call)?;
    Some(match call {
        JsonCall::ToJson => to_json_call(case),
        JsonCall::StoredText => stored_text_call(case),
        JsonCall::ReadStored => read_stored_call(case, false),
        JsonCall::StoredAgain => read_stored_call(case, true),
        JsonCall::ReadsBack => reads_back(case),
        JsonCall::KeptParts => kept_parts_call(case),
        JsonCall::ReadKept => read_kept_call(case),
        JsonCall::UsersFile => users_file(case),
    })
}

fn to_json_call(case: &Case<'_>) -> Result<String, CaseFault> {
    let part = case.part()?;
    Ok(to_json(case.alloc, &part)?)
}

fn stored_text_call(case: &Case<'_>) -> Result<String, CaseFault> {
    let resource = case.resource()?;
    Ok(stored_text(case.alloc, &resource)?)
}

/// Reads a stored document. Returns its resource as cells, or as a document if `again` is true. Returns
/// `Damaged` if the document is invalid.
fn read_stored_call(case: &Case<'_>, again: bool) -> Result<String, CaseFault> {
    match read_stored(case.alloc, case.text_or("base", BASE), case.text("text")?) {
        Ok(resource) => resource_text(case.alloc, again, &resource),
        Err(Failed::Because(Damaged)) => said(case.alloc, "Damaged"),
        Err(Failed::NoMemory) => Err(CaseFault::NoMemory),
    }
}

fn resource_text(alloc: Global, again: bool, resource: &Resource) -> Result<String, CaseFault> {
    if again {
        Ok(stored_text(alloc, resource)?)
    } else {
        Ok(part_text(alloc, resource.part())?)
    }
}

/// Whether a resource is unchanged after it is written as a stored document and read again.
fn reads_back(case: &Case<'_>) -> Result<String, CaseFault> {
    let resource = case.resource()?;
    read_again(case.alloc, &resource)
}

fn read_again(alloc: Global, resource: &Resource) -> Result<String, CaseFault> {
    let text = stored_text(alloc, resource)?;
    match read_stored(alloc, BASE, text.as_str()) {
        Ok(again) if again == *resource => said(alloc, "true"),
        Ok(_) => said(alloc, "another resource"),
        Err(_) => said(alloc, "Damaged"),
    }
}

/// Returns the document that a database keeps of a resource, with the door code and ` beside ` before it if the
/// resource has one.
fn kept_parts_call(case: &Case<'_>) -> Result<String, CaseFault> {
    let resource = case.resource()?;
    let (text, code) = kept_parts(case.alloc, &resource)?;
    match code {
        Some(code) => joined(case.alloc, &[code.as_str(), " beside ", text.as_str()]),
        None => Ok(text),
    }
}

/// Reads a document and the door code that a database keeps beside it, if any. Returns the resource's cells, or
/// `Damaged` if they belong to no resource.
fn read_kept_call(case: &Case<'_>) -> Result<String, CaseFault> {
    let base = case.text_or("base", BASE);
    match read_kept(case.alloc, base, case.text("text")?, case.text("code").ok()) {
        Ok(resource) => resource_text(case.alloc, false, &resource),
        Err(Failed::Because(Damaged)) => said(case.alloc, "Damaged"),
        Err(Failed::NoMemory) => Err(CaseFault::NoMemory),
    }
}

/// Returns `ok, N resources`, or `item N` with the number of the first invalid item, counted from 1. Returns
/// `item 0` if the file isn't UTF-8 or isn't a JSON list.
fn users_file(case: &Case<'_>) -> Result<String, CaseFault> {
    match file_text(case, "users", "users_hex")? {
        Some(text) => users_told(case, text.as_str()),
        None => said(case.alloc, "item 0"),
    }
}

fn users_told(case: &Case<'_>, text: &str) -> Result<String, CaseFault> {
    match read_documents(case.alloc, case.text_or("base", BASE), text) {
        Ok(resources) => between(case.alloc, "ok, ", &resources.len(), " resources"),
        Err(Failed::Because(DamagedItem(item))) => between(case.alloc, "item ", &item, ""),
        Err(Failed::NoMemory) => Err(CaseFault::NoMemory),
    }
}
