//! Reads searches and attribute lists from query strings (RFC 7644 sections 3.4.2 and 3.9).
ghost use Rattle.std.specs.Prelude.{◌≡◌, ◌==◌, IfOk, slice_index};
ghost use Rattle.std.specs.Option.{option_copied};
ghost use Rattle.scim_text.specs.Failures.{UnlessMemory};
ghost use Rattle.scim_exchange.specs.Refused.{Tells};
ghost use Rattle.scim_exchange.specs.Searches.{IsQuery, sought};
ghost use Rattle.scim_exchange.specs.QueryStrings as spec;
ghost use Rattle.scim_exchange.specs.code.Views.{texts_in, lists_in, settings_in};

use crate::attribute_lists::AttributeLists;
use crate::paging::{Arrangement, arranged};
use crate::searches::{Settings, filter_of, is_blank, query_of};
use scim_audit::Refusal;
use scim_cell::Text;
use scim_query::Query;
use scim_route::Parameters;
use scim_schema::Kind;
use scim_text::{Failed, NoMemory};
use std::alloc::Global;

/// Returns the text of a parameter, if given.
fn text_of(parameter: &Option<Text>) -> Option<&str>
    ensures { option_copied result ≡ parameter.now }
{
    match parameter {
        Some(text) => Some(text.as_str()),
        None => None,
    }
}

/// Returns the parts of a comma-separated list that aren't blank.
fn parts<'r>(alloc: Global, text: &'r str) -> Result<Vec<&'r str>, NoMemory>
    ensures { IfOk result (λ v. texts_in v ≡ spec.parts text.now) }
{
    Ok(
        text.split(',')
            .filter(|part| !is_blank(part))
            .collect(alloc)?,
    )
}

/// Returns the parts of a comma-separated list that aren't blank; empty for `None`.
fn parts_of<'r>(alloc: Global, text: Option<&'r str>) -> Result<Vec<&'r str>, NoMemory>
    ensures { IfOk result (λ v. texts_in v ≡ spec.parts_of (option_copied text.entry)) }
{
    match text {
        Some(text) => parts(alloc, text),
        None => Ok(Vec::new(alloc)),
    }
}

/// Returns the attribute lists of the parameters.
pub(crate) fn lists_of(
    alloc: Global,
    parameters: &Parameters,
) -> Result<AttributeLists<'_>, NoMemory>
    ensures { IfOk result (λ lists. lists_in lists ≡ spec.lists_of parameters.now) }
{
    let attributes = parts_of(alloc, text_of(&parameters.attributes))?;
    let excluded = parts_of(alloc, text_of(&parameters.excluded_attributes))?;
    Ok(AttributeLists {
        attributes,
        excluded,
    })
}

/// Whether a text begins with `+`. Such a number isn't allowed in a parameter, although `parse` accepts it.
fn starts_with_plus(text: &str) -> bool
    ensures { result ≡ (slice_index text.now 0 == 43) }
{
    matches!(text.as_bytes(), [b'+', ..])
}

/// Parses a signed 64-bit number; `None` if the text isn't one.
fn integer_in(text: &str) -> Option<i64>
    ensures { result ≡ spec.integer_in text.now }
{
    if starts_with_plus(text) {
        return None;
    }
    match text.parse::<i64>() {
        Ok(number) => Some(number),
        Err(_) => None,
    }
}

/// Parses the number of a parameter, if given. Fails with `MessageValue` if it isn't a signed 64-bit number.
#[tactic(auto, unfolding(crate::specs::QueryStrings::integer_of))]
fn integer_of(text: Option<&str>) -> Result<Option<i64>, Refusal>
    ensures { result ≡ spec.integer_of (option_copied text.entry) }
{
    let Some(text) = text else {
        return Ok(None);
    };
    match integer_in(text) {
        Some(number) => Ok(Some(number)),
        None => Err(Refusal::MessageValue),
    }
}

/// Returns the sorting and paging that the parameters ask for. Fails with `MessageValue` if a value isn't
/// allowed for its parameter.
#[tactic(auto, unfolding(crate::specs::QueryStrings::arrangement_of))]
fn arrangement_of(kind: Kind, parameters: &Parameters) -> Result<Arrangement, Refusal>
    ensures { result ≡ spec.arrangement_of kind parameters.now }
{
    let start_index = integer_of(text_of(&parameters.start_index))?;
    let count = integer_of(text_of(&parameters.count))?;
    let sort_by = text_of(&parameters.sort_by);
    let sort_order = text_of(&parameters.sort_order);
    arranged(kind, sort_by, sort_order, start_index, count)
}

/// Returns the settings of the search: its attribute lists, sorting and paging.
///
/// Fails with `MessageValue` if a value isn't allowed for its parameter.
#[tactic(auto, unfolding(crate::specs::QueryStrings::settings_of))]
fn settings_of(
    alloc: Global,
    kind: Kind,
    parameters: &Parameters,
) -> Result<Settings<'_>, Failed<Refusal>>
    ensures { UnlessMemory (Tells (λ due settings. settings_in settings ≡ due)
        (spec.settings_of kind parameters.now)) result }
{
    match arrangement_of(kind, parameters) {
        Ok(arrangement) => {
            let lists = lists_of(alloc, parameters)?;
            Ok(Settings { lists, arrangement })
        }
        Err(refusal) => Err(Failed::Because(refusal)),
    }
}

/// Returns the query that the parameters ask for.
///
/// Fails with `Filter` if the filter is invalid. Otherwise fails with `MessageValue` if another value isn't
/// allowed for its parameter, or if both attribute lists are given.
pub(crate) fn search_by(
    alloc: Global,
    kind: Kind,
    parameters: &Parameters,
) -> Result<Query, Failed<Refusal>>
    ensures { UnlessMemory (Tells (IsQuery kind) (sought kind (spec.search_of kind parameters.now)))
        result }
{
    let filter = filter_of(alloc, kind, text_of(&parameters.filter))?;
    let settings = settings_of(alloc, kind, parameters)?;
    query_of(alloc, kind, filter, &settings)
}
