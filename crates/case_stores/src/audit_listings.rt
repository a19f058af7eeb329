//! The listings of the audit that cases ask for.
use case_values::{Case, CaseFault, said, shown};
use scim_audit_listing::{AuditFilter, LineFormat, Listing, Portion, refusal_named};
use scim_text::{Moment, read_printed_moment};

/// Returns the listing of the arguments `from` (default 1), `count` (default 100) or `last`, `client`, `refusal` and
/// `json`, since this moment.
pub(crate) fn listing<'a>(case: &'a Case<'_>, since: Option<Moment>) -> Listing<'a> {
    Listing {
        from: number_or(case, "from", 1),
        filter: AuditFilter {
            client: client(case),
            since,
            refusal: refusal(case),
        },
        portion: portion(case),
        format: format(case),
    }
}

/// Returns the argument `name`, or `other` if it isn't given as a number.
fn number_or(case: &Case<'_>, name: &'static str, other: u64) -> u64 {
    match case.count(name) {
        Ok(number) => number as u64,
        Err(_) => other,
    }
}

fn client<'a>(case: &'a Case<'_>) -> Option<&'a str> {
    case.text("client").ok()
}

/// Returns the argument `since_moment`, if it is given.
pub(crate) fn since(case: &Case<'_>) -> Result<Option<Moment>, CaseFault> {
    if !case.has("since_moment") {
        return Ok(None);
    }
    match read_printed_moment(case.alloc, case.text("since_moment")?)? {
        Some(moment) => Ok(Some(moment)),
        None => Err(CaseFault::Missing("since_moment")),
    }
}

fn refusal(case: &Case<'_>) -> Option<u8> {
    refusal_named(case.text_or("refusal", ""))
}

fn portion(case: &Case<'_>) -> Portion {
    if case.has("last") {
        Portion::Last(number_or(case, "last", 0))
    } else {
        Portion::First(number_or(case, "count", 100))
    }
}

fn format(case: &Case<'_>) -> LineFormat {
    if case.is_true("json") {
        LineFormat::Json
    } else {
        LineFormat::Words
    }
}

/// Returns the number of the refusal that the argument `text` names, or `nothing`.
pub(crate) fn refusal_named_call(case: &Case<'_>) -> Result<String, CaseFault> {
    match refusal_named(case.text("text")?) {
        Some(number) => shown(case.alloc, &number),
        None => said(case.alloc, "nothing"),
    }
}
