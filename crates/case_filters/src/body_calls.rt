//! The call of `scim_body`.
use case_values::{Case, CaseFault, kind_of, push_all, said};
use scim_body::{BodyFault, Draft, UseFor, read_body};
use scim_cell::Row;
use scim_samples::row_text;
use scim_schema::{Kind, Unit};
use scim_text::Failed;
use std::alloc::Global;

/// Returns the result of the case's call, or `None` if it isn't `read_body`.
pub fn answer(case: &Case<'_>, call: &str) -> Option<Result<String, CaseFault>> {
    match call {
        "read_body" => Some(body_call(case)),
        _ => None,
    }
}

/// Returns the kind of resource that the body describes: the argument `body_kind`, by default the argument
/// `kind`.
pub fn body_kind(case: &Case<'_>) -> Kind {
    kind_of(case.text_or("body_kind", case.text_or("kind", "User")))
}

/// Returns what the body is used for: the argument `use`, which is `creating` or `replacing`, by default
/// `creating`.
pub fn use_for(case: &Case<'_>) -> UseFor {
    match case.text_or("use", "creating") {
        "replacing" => UseFor::Replacing,
        _ => UseFor::Creating,
    }
}

/// Returns the units in the body and the rows of their values, or the name of the error if the body is
/// invalid.
fn body_call(case: &Case<'_>) -> Result<String, CaseFault> {
    match read_body(
        case.alloc,
        body_kind(case),
        use_for(case),
        case.text("body")?,
    ) {
        Ok(draft) => draft_text(case.alloc, &draft),
        Err(Failed::Because(BodyFault::Syntax)) => said(case.alloc, "Syntax"),
        Err(Failed::Because(BodyFault::Value)) => said(case.alloc, "Value"),
        Err(Failed::NoMemory) => Err(CaseFault::NoMemory),
    }
}

fn draft_text(alloc: Global, draft: &Draft) -> Result<String, CaseFault> {
    let mut text = said(alloc, "given")?;
    for unit in draft.given() {
        push_unit(*unit, &mut text)?;
    }
    for row in draft.rows() {
        push_row(alloc, row, &mut text)?;
    }
    Ok(text)
}

fn push_unit(unit: Unit, text: &mut String) -> Result<(), CaseFault> {
    push_all(text, &[" ", unit.attribute.name()])?;
    match unit.sub_attribute {
        Some(sub_attribute) => push_all(text, &[".", sub_attribute.name()]),
        None => Ok(()),
    }
}

fn push_row(alloc: Global, row: &Row, text: &mut String) -> Result<(), CaseFault> {
    let row = row_text(alloc, row)?;
    push_all(text, &["; ", row.as_str()])
}
