//! Builds the query of a search (RFC 7644 sections 3.4.2 and 3.4.3).
ghost use Rattle.std.specs.Prelude.{◌≡◌, option_map, ok_or};
ghost use Rattle.std.specs.Option.{option_copied};
ghost use Rattle.scim_text.specs.Failures.{UnlessMemory};
ghost use Rattle.scim_filter_grammar.specs.Tree.{tree_of};
ghost use Rattle.scim_filter_grammar.specs.Spelled.{filter_in};
ghost use Rattle.scim_audit.specs.declared.refusals.Refusal.TheVariants.{Filter as FilterRefused};
ghost use Rattle.scim_exchange.specs.Refused.{Tells};
ghost use Rattle.scim_exchange.specs.Searches as spec;
ghost use Rattle.scim_exchange.specs.code.Views.{settings_in};

use crate::attribute_lists::{AttributeLists, wanted_by};
use crate::paging::Arrangement;
use scim_audit::Refusal;
use scim_filter_grammar::{Filter, read_filter};
use scim_query::Query;
use scim_schema::Kind;
use scim_text::Failed;
use std::alloc::Global;

/// The settings of a search: its attribute lists, sorting and paging.
#[derive(Drop)]
pub(crate) struct Settings<'r> {
    pub(crate) lists: AttributeLists<'r>,
    pub(crate) arrangement: Arrangement,
}

/// Whether a text is empty or consists of spaces.
pub(crate) fn is_blank(text: &str) -> bool
    ensures { result ≡ spec.is_blank text.now }
{
    text.as_bytes().iter().all(|b| *b == b' ')
}

/// Parses a filter.
///
/// Fails with `Filter` if the text isn't a valid filter.
fn spelled(alloc: Global, kind: Kind, text: &str) -> Result<Filter, Failed<Refusal>>
    ensures { UnlessMemory (Tells (λ tree f. tree_of f ≡ tree)
        (ok_or (filter_in kind text.now) FilterRefused)) result }
{
    match read_filter(alloc, kind, text) {
        Ok(filter) => Ok(filter),
        Err(Failed::NoMemory) => Err(Failed::NoMemory),
        Err(Failed::Because(_)) => Err(Failed::Because(Refusal::Filter)),
    }
}

/// Parses the filter of a search. Returns `None` if the filter isn't given or is blank.
///
/// Fails with `Filter` if the text isn't a valid filter.
#[tactic(auto, unfolding(crate::specs::Searches::filter_of))]
pub(crate) fn filter_of(
    alloc: Global,
    kind: Kind,
    text: Option<&str>,
) -> Result<Option<Filter>, Failed<Refusal>>
    ensures { UnlessMemory (Tells (λ tree f. option_map tree_of f ≡ tree)
        (spec.filter_of kind (option_copied text.entry))) result }
{
    let Some(text) = text else {
        return Ok(None);
    };
    if is_blank(text) {
        return Ok(None);
    }
    Ok(Some(spelled(alloc, kind, text)?))
}

/// Returns the query with this filter and these settings.
///
/// Fails with `MessageValue` if both attribute lists are given.
pub(crate) fn query_of(
    alloc: Global,
    kind: Kind,
    filter: Option<Filter>,
    settings: &Settings<'_>,
) -> Result<Query, Failed<Refusal>>
    ensures { UnlessMemory (Tells (spec.IsQuery kind)
        (spec.sought_with (option_map tree_of filter) (settings_in settings.now))) result }
{
    let wanted = wanted_by(alloc, kind, &settings.lists)?;
    let arrangement = settings.arrangement;
    Ok(Query {
        filter,
        sort_by: arrangement.sort_by,
        descending: arrangement.descending,
        start: arrangement.start,
        count: arrangement.count,
        wanted,
    })
}
