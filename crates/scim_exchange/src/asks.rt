//! Reads what a routed request asks for from its query string and body (RFC 7644 sections 3.3 to 3.6).
ghost use Rattle.std.specs.Prelude.{◌≡◌};
ghost use Rattle.std.specs.Option.{option_copied};
ghost use Rattle.scim_text.specs.Failures.{UnlessMemory};
ghost use Rattle.scim_patch_steps.specs.Kept.{patch_of};
ghost use Rattle.scim_route.specs.declared.routes.Form.{Form};
ghost use Rattle.scim_route.specs.Parameters.{parameters_of};
ghost use Rattle.scim_exchange.specs.Refused.{Tells};
ghost use Rattle.scim_exchange.specs.AttributeLists.{Wants, one_of};
ghost use Rattle.scim_exchange.specs.Searches.{IsQuery, sought};
ghost use Rattle.scim_exchange.specs.QueryStrings.{lists_of, search_of};
ghost use Rattle.scim_exchange.specs.Asks as spec;
ghost use Rattle.scim_exchange.specs.Asks.{Asks, IsAsk};

use crate::attribute_lists::wanted_by;
use crate::query_strings::{lists_of, search_by};
use crate::search_bodies::search_by_body;
use scim_audit::Refusal;
use scim_body::{BodyFault, Draft, UseFor, read_body};
use scim_patch_message::{PatchFault, read_patch};
use scim_patch_steps::Patch;
use scim_query::Query;
use scim_route::{Form, Parameters, Route};
use scim_schema::Kind;
use scim_service::Ask;
use scim_text::Failed;
use scim_view::Wanted;
use std::alloc::Global;
use std::str;

/// Returns the attributes that the parameters' attribute lists select.
///
/// Fails with `MessageValue` if both lists are given.
fn wanted_of(alloc: Global, kind: Kind, parameters: &Parameters) -> Result<Wanted, Failed<Refusal>>
    ensures { UnlessMemory (Tells (Wants kind) (one_of (lists_of parameters.now))) result }
{
    let lists = lists_of(alloc, parameters)?;
    wanted_by(alloc, kind, &lists)
}

/// Returns the attributes that the client asks for in the attribute lists of the query string.
///
/// Fails with `MessageValue` if both lists are given.
fn wanted_by_query(
    alloc: Global,
    kind: Kind,
    query: Option<&[u8]>,
) -> Result<Wanted, Failed<Refusal>>
    ensures { UnlessMemory (Tells (Wants kind) (spec.lists_asked (option_copied query.entry)))
        result }
{
    let parameters = Parameters::read(alloc, query)?;
    wanted_of(alloc, kind, &parameters)
}

/// Returns the query that a query string asks for.
///
/// Fails with `Filter` if the filter is invalid. Otherwise fails with `MessageValue` if another value isn't
/// allowed for its parameter, or if both attribute lists are given.
fn listed(alloc: Global, kind: Kind, query: Option<&[u8]>) -> Result<Query, Failed<Refusal>>
    ensures { UnlessMemory (Tells (IsQuery kind)
        (sought kind (search_of kind (parameters_of (option_copied query.entry))))) result }
{
    let parameters = Parameters::read(alloc, query)?;
    search_by(alloc, kind, &parameters)
}

/// Reads the draft of a resource from a JSON text.
///
/// Fails with `Syntax` if [`read_body`] fails with `BodyFault::Syntax`, and with `MessageValue` if it fails
/// with `BodyFault::Value`.
#[tactic(auto, unfolding(crate::specs::Asks::draft_in))]
fn draft_in(
    alloc: Global,
    use_for: UseFor,
    kind: Kind,
    text: &str,
) -> Result<Draft, Failed<Refusal>>
    ensures { UnlessMemory (Tells (λ due d. d ≡ due) (spec.draft_in use_for kind text.now)) result }
{
    match read_body(alloc, kind, use_for, text) {
        Ok(draft) => Ok(draft),
        Err(Failed::NoMemory) => Err(Failed::NoMemory),
        Err(Failed::Because(BodyFault::Syntax)) => Err(Failed::Because(Refusal::Syntax)),
        Err(Failed::Because(BodyFault::Value)) => Err(Failed::Because(Refusal::MessageValue)),
    }
}

/// Reads the draft of a resource from a body.
///
/// Fails with `Syntax` if the body isn't UTF-8, or if [`read_body`] fails with `BodyFault::Syntax`. Fails
/// with `MessageValue` if [`read_body`] fails with `BodyFault::Value`.
fn draft_of(
    alloc: Global,
    use_for: UseFor,
    kind: Kind,
    body: &[u8],
) -> Result<Draft, Failed<Refusal>>
    ensures { UnlessMemory (Tells (λ due d. d ≡ due) (spec.draft_asked use_for kind body.now))
        result }
{
    match str::from_utf8(body) {
        Ok(text) => draft_in(alloc, use_for, kind, text),
        Err(_) => Err(Failed::Because(Refusal::Syntax)),
    }
}

/// Reads a request that creates a resource.
///
/// Fails with `Syntax` or `MessageValue` if the body isn't a valid draft. Otherwise fails with `MessageValue`
/// if the query string contains both attribute lists.
fn creation(
    alloc: Global,
    kind: Kind,
    query: Option<&[u8]>,
    body: &[u8],
) -> Result<Ask, Failed<Refusal>>
    ensures { UnlessMemory (Tells (IsAsk kind)
        (spec.asked Form.Create kind (option_copied query.entry) body.now)) result }
{
    let draft = draft_of(alloc, UseFor::Creating, kind, body)?;
    Ok(Ask::Create(draft, wanted_by_query(alloc, kind, query)?))
}

/// Reads a request that replaces a resource.
///
/// Fails with `Syntax` or `MessageValue` if the body isn't a valid draft. Otherwise fails with `MessageValue`
/// if the query string contains both attribute lists.
fn replacement(
    alloc: Global,
    kind: Kind,
    query: Option<&[u8]>,
    body: &[u8],
) -> Result<Ask, Failed<Refusal>>
    ensures { UnlessMemory (Tells (IsAsk kind)
        (spec.asked Form.Replace kind (option_copied query.entry) body.now)) result }
{
    let draft = draft_of(alloc, UseFor::Replacing, kind, body)?;
    Ok(Ask::Replace(draft, wanted_by_query(alloc, kind, query)?))
}

/// Reads a patch from a JSON text.
///
/// Fails with `Syntax`, `Path` or `MessageValue` if [`read_patch`] fails with `PatchFault::Syntax`,
/// `PatchFault::Path` or `PatchFault::Value`.
#[tactic(auto, unfolding(crate::specs::Asks::patch_in_text))]
fn patch_in_text(alloc: Global, kind: Kind, text: &str) -> Result<Patch, Failed<Refusal>>
    ensures { UnlessMemory (Tells (λ due p. patch_of p ≡ due) (spec.patch_in_text kind text.now))
        result }
{
    match read_patch(alloc, kind, text) {
        Ok(patch) => Ok(patch),
        Err(Failed::NoMemory) => Err(Failed::NoMemory),
        Err(Failed::Because(PatchFault::Syntax)) => Err(Failed::Because(Refusal::Syntax)),
        Err(Failed::Because(PatchFault::Path)) => Err(Failed::Because(Refusal::Path)),
        Err(Failed::Because(PatchFault::Value)) => Err(Failed::Because(Refusal::MessageValue)),
    }
}

/// Reads a patch from a body.
///
/// Fails with `Syntax` if the body isn't UTF-8. Otherwise fails with `Syntax`, `Path` or `MessageValue` if
/// [`read_patch`] fails with `PatchFault::Syntax`, `PatchFault::Path` or `PatchFault::Value`.
fn patch_by(alloc: Global, kind: Kind, body: &[u8]) -> Result<Patch, Failed<Refusal>>
    ensures { UnlessMemory (Tells (λ due p. patch_of p ≡ due) (spec.patch_asked kind body.now))
        result }
{
    match str::from_utf8(body) {
        Ok(text) => patch_in_text(alloc, kind, text),
        Err(_) => Err(Failed::Because(Refusal::Syntax)),
    }
}

/// Reads a request that patches a resource.
///
/// Fails with `Syntax`, `Path` or `MessageValue` if the body isn't a valid patch. Otherwise fails with
/// `MessageValue` if the query string contains both attribute lists.
fn change(
    alloc: Global,
    kind: Kind,
    query: Option<&[u8]>,
    body: &[u8],
) -> Result<Ask, Failed<Refusal>>
    ensures { UnlessMemory (Tells (IsAsk kind)
        (spec.asked Form.Patch kind (option_copied query.entry) body.now)) result }
{
    let patch = patch_by(alloc, kind, body)?;
    Ok(Ask::Patch(patch, wanted_by_query(alloc, kind, query)?))
}

/// Reads what a request asks for, from its route's query string and its body.
///
/// Requests that get, create, replace, patch or remove one resource use only the attribute lists of the
/// query string (RFC 7644 section 3.9). A GET of a list uses the whole query string (section 3.4.2). A posted
/// search uses only the body (section 3.4.3). The body is read only for create, replace, patch and posted
/// searches.
///
/// Parameters and keys match in any ASCII case. An attribute list whose texts name no attribute counts as
/// given: if `attributes` names no attribute, the client gets only the attributes that are always returned. A
/// list without a text counts as not given; in a query string, blank parts of a list are dropped. A blank
/// filter and a `sortBy` that names no leaf count as not given. A `startIndex` that is missing or below 1
/// counts as 1. A `count` below 0 counts as 0, a `count` above 200 as 200, and a missing `count` as 100.
///
/// Fails with the first of these refusals that applies:
///
/// - `Syntax`: a body that is read isn't UTF-8 or isn't a JSON object of the expected form, or has a key in
///   two spellings;
/// - `Filter`: the filter is invalid;
/// - `Path`: a path of a patch is invalid or names no attribute;
/// - `MessageValue`: any other value has the wrong type or isn't allowed for its parameter, both
///   attribute lists are given, or the body isn't a valid draft.
pub fn ask(alloc: Global, route: &Route<'_>, body: &[u8]) -> Result<Ask, Failed<Refusal>>
    ensures { UnlessMemory (Asks route.now body.now) result }
{
    let kind = route.kind;
    let query = route.query;
    match route.form {
        Form::Get => Ok(Ask::Get(wanted_by_query(alloc, kind, query)?)),
        Form::ListGet => Ok(Ask::Search(listed(alloc, kind, query)?)),
        Form::SearchPost => Ok(Ask::Search(search_by_body(alloc, kind, body)?)),
        Form::Create => creation(alloc, kind, query, body),
        Form::Remove => {
            wanted_by_query(alloc, kind, query)?;
            Ok(Ask::Remove)
        }
        Form::Replace => replacement(alloc, kind, query, body),
        Form::Patch => change(alloc, kind, query, body),
    }
}
