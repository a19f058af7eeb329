//! The calls of `scim_path`.
use crate::filter_calls::push_tree;
use case_values::{Case, CaseFault, push_all, said, spaced_text, urn_of};
use scim_path::{Path, PathFault, ValuePath, extension_named, read_path};
use scim_samples::leaf_text;
use scim_schema::Leaf;
use scim_text::Failed;
use std::alloc::Global;

/// Returns the result of the case's call, or `None` if it isn't a call of `scim_path`.
pub fn answer(case: &Case<'_>, call: &str) -> Option<Result<String, CaseFault>> {
    match call {
        "read_path" => Some(read_path_call(case)),
        "extension_named" => Some(extension_named_call(case)),
        _ => None,
    }
}

/// Returns what the path names: an attribute or leaf such as `emails.value`, the URN of an extension, or the
/// attribute, filter and sub-attribute of a value path. Returns `Syntax` or `Unknown` if the path is invalid.
fn read_path_call(case: &Case<'_>) -> Result<String, CaseFault> {
    let text = spaced_text(case, "text")?;
    path_read(case, text.as_str())
}

fn path_read(case: &Case<'_>, text: &str) -> Result<String, CaseFault> {
    match read_path(case.alloc, case.kind(), text) {
        Ok(path) => path_text(case.alloc, &path),
        Err(Failed::Because(PathFault::Syntax)) => said(case.alloc, "Syntax"),
        Err(Failed::Because(PathFault::Unknown)) => said(case.alloc, "Unknown"),
        Err(Failed::NoMemory) => Err(CaseFault::NoMemory),
    }
}

fn path_text(alloc: Global, path: &Path) -> Result<String, CaseFault> {
    match path {
        Path::Extension(schema) => said(alloc, schema.urn()),
        Path::Attribute(attribute) => said(alloc, attribute.name()),
        Path::SubAttribute(attribute, sub_attribute) => {
            Ok(leaf_text(alloc, Leaf::of(*attribute, *sub_attribute))?)
        }
        Path::Values(values) => {
            let mut text = said(alloc, values.attribute.name())?;
            push_values(alloc, values, &mut text)?;
            Ok(text)
        }
    }
}

fn push_values(alloc: Global, values: &ValuePath, text: &mut String) -> Result<(), CaseFault> {
    text.push_str(": ")?;
    push_tree(alloc, values.filter.tree(), text)?;
    match values.sub_attribute {
        Some(sub_attribute) => push_all(text, &[".", sub_attribute.name()]),
        None => Ok(()),
    }
}

fn extension_named_call(case: &Case<'_>) -> Result<String, CaseFault> {
    let text = spaced_text(case, "text")?;
    let found = extension_named(case.kind(), text.as_str());
    said(case.alloc, urn_of(found))
}
