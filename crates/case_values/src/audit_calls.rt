//! The calls of `scim_audit`.
use crate::arguments::{debugged, joined, push_all, said, shown};
use crate::case::Case;
use crate::faults::CaseFault;
use crate::tables::named;
use scim_audit::{AuditRow, Decided, Methods, Refusal, leaf_path, print_row};
use scim_cell::{Id, Text};
use scim_text::read_printed_moment;
use std::alloc::Global;

/// The refusals with `BadMethod` that [`Refusal::all`] doesn't contain.
const OTHER_METHODS: [Refusal; 3] = [
    Refusal::BadMethod(Methods::Search),
    Refusal::BadMethod(Methods::Resource),
    Refusal::BadMethod(Methods::Discovery),
];

/// A call of `scim_audit`.
#[derive(Clone, Copy)]
enum AuditCall {
    RefusalBody,
    LeafPath,
    PrintRow,
    CopiedRow,
}

static CALLS: [(&str, AuditCall); 4] = [
    ("refusal_body", AuditCall::RefusalBody),
    ("leaf_path", AuditCall::LeafPath),
    ("print_row", AuditCall::PrintRow),
    ("copied_audit_row", AuditCall::CopiedRow),
];

/// Returns the result of the case's call, or `None` if it isn't a call of `scim_audit`.
pub fn answer(case: &Case<'_>, call: &str) -> Option<Result<String, CaseFault>> {
    let call = named(&CALLS, call)?;
    Some(match call {
        AuditCall::RefusalBody => refusal_body(case),
        AuditCall::LeafPath => leaf_path_call(case),
        AuditCall::PrintRow => row_line(case),
        AuditCall::CopiedRow => copied_row_line(case),
    })
}

/// Returns the refusal that the argument `refusal` names, such as `NotFound` or `BadMethod(Search)`.
pub fn refusal_of(case: &Case<'_>) -> Result<Refusal, CaseFault> {
    let name = case.text("refusal")?;
    if let Some(refusal) = refusal_named(case.alloc, Refusal::all(), name)? {
        return Ok(refusal);
    }
    let Some(refusal) = refusal_named(case.alloc, &OTHER_METHODS, name)? else {
        return Err(CaseFault::Missing("refusal"));
    };
    Ok(refusal)
}

fn refusal_named(
    alloc: Global,
    refusals: &[Refusal],
    name: &str,
) -> Result<Option<Refusal>, CaseFault> {
    for refusal in refusals {
        if is_named(alloc, *refusal, name)? {
            return Ok(Some(*refusal));
        }
    }
    Ok(None)
}

fn is_named(alloc: Global, refusal: Refusal, name: &str) -> Result<bool, CaseFault> {
    let own = debugged(alloc, &refusal)?;
    Ok(own.as_str() == name)
}

fn refusal_body(case: &Case<'_>) -> Result<String, CaseFault> {
    said(case.alloc, refusal_of(case)?.body())
}

fn leaf_path_call(case: &Case<'_>) -> Result<String, CaseFault> {
    Ok(leaf_path(case.alloc, case.leaf("leaf")?)?)
}

/// Returns the decision that the argument `decided` names, by default `Allow`.
fn decided(case: &Case<'_>) -> Result<Decided, CaseFault> {
    let name = case.text_or("decided", "Allow");
    for decided in Decided::all() {
        if decided.name() == name {
            return Ok(*decided);
        }
    }
    Err(CaseFault::Missing("decided"))
}

/// Returns the argument `rule`, or `None` if it isn't given or isn't an unsigned integer of 32 bits.
fn rule(case: &Case<'_>) -> Option<u32> {
    u32::try_from(case.number("rule").ok()?).ok()
}

/// Returns the audit row that the arguments describe. An optional field is absent if its argument isn't
/// given or is invalid.
fn row(case: &Case<'_>) -> Result<AuditRow, CaseFault> {
    let Some(moment) = read_printed_moment(case.alloc, case.text("moment")?)? else {
        return Err(CaseFault::Missing("moment"));
    };
    let decided = decided(case)?;
    let client = Text::copy_of(case.alloc, case.text("client")?)?;
    Ok(AuditRow {
        moment,
        client,
        op: case.op(),
        kind: case.kind(),
        id: Id::read(case.text_or("id", "")),
        decided,
        rule: rule(case),
        leaf: case.leaf("leaf").ok(),
        refusal: refusal_of(case).ok(),
    })
}

/// Returns the argument `number`, by default 1. Returns 0 if the argument is negative.
fn number(case: &Case<'_>) -> u64 {
    u64::try_from(case.number("number").unwrap_or(1)).unwrap_or(0)
}

/// Returns the audit row of the arguments, printed as a line.
fn row_line(case: &Case<'_>) -> Result<String, CaseFault> {
    let row = row(case)?;
    line_of(case, &row)
}

/// Returns a copy of the audit row of the arguments, printed as a line.
fn copied_row_line(case: &Case<'_>) -> Result<String, CaseFault> {
    let row = row(case)?;
    copy_line(case, &row)
}

fn copy_line(case: &Case<'_>, row: &AuditRow) -> Result<String, CaseFault> {
    let copy = row.try_copy(case.alloc)?;
    line_of(case, &copy)
}

fn line_of(case: &Case<'_>, row: &AuditRow) -> Result<String, CaseFault> {
    Ok(print_row(case.alloc, number(case), row)?)
}

/// Appends a line for each audit row, with a `;` after each. The rows are numbered from `known` + 1.
pub fn push_rows_after(
    alloc: Global,
    known: u64,
    rows: &[AuditRow],
    text: &mut String,
) -> Result<(), CaseFault> {
    let mut number = known;
    for row in rows {
        number = number.saturating_add(1);
        let line = print_row(alloc, number, row)?;
        push_all(text, &[line.as_str(), ";"])?;
    }
    Ok(())
}
