//! The options of `audit` as texts.
use case_values::{CaseFault, between, joined, push_all};
use scim_audit_listing::{AuditFilter, LineFormat, Portion};
use scim_command::AuditOptions;
use scim_text::print_moment;
use std::alloc::Global;

/// Returns the options of `audit`: those that are given, and `from` and the portion.
pub(crate) fn audit_text(alloc: Global, options: &AuditOptions<'_>) -> Result<String, CaseFault> {
    let from = between(alloc, ", from ", &options.listing.from, "")?;
    let portion = portion_text(alloc, options.listing.portion)?;
    let words = ["db ", options.database, from.as_str(), portion.as_str()];
    let mut text = joined(alloc, &words)?;
    push_filter(alloc, &options.listing.filter, &mut text)?;
    if options.listing.format == LineFormat::Json {
        push_all(&mut text, &[", json"])?;
    }
    Ok(text)
}

fn portion_text(alloc: Global, portion: Portion) -> Result<String, CaseFault> {
    match portion {
        Portion::First(count) => between(alloc, ", count ", &count, ""),
        Portion::Last(count) => between(alloc, ", last ", &count, ""),
    }
}

fn push_filter(
    alloc: Global,
    filter: &AuditFilter<'_>,
    text: &mut String,
) -> Result<(), CaseFault> {
    if let Some(client) = filter.client {
        push_all(text, &[", client ", client])?;
    }
    if let Some(since) = filter.since {
        let since = print_moment(alloc, since)?;
        push_all(text, &[", since ", since.as_str()])?;
    }
    if let Some(refusal) = filter.refusal {
        let refusal = between(alloc, ", refusal ", &refusal, "")?;
        push_all(text, &[refusal.as_str()])?;
    }
    Ok(())
}
