//! The replies to requests for discovery pages (RFC 7644 section 4).
ghost use Rattle.std.specs.Prelude.{◌≡◌, IfOk};
ghost use Rattle.std.specs.Option.{option_copied};
ghost use Rattle.serde_json.specs.View.{view};
ghost use Rattle.serde_json.specs.Written.{compact_text};
ghost use Rattle.scim_text.specs.Failures.{UnlessMemory};
ghost use Rattle.scim_discovery.specs.Pages as spec;
ghost use Rattle.scim_discovery.specs.Pages.{Replies};

use crate::lists::list_value;
use crate::resource_types::{resource_type_value, resource_type_values};
use crate::schemas::{schema_value, schema_values};
use crate::service_provider_config::service_provider_config_value;
use scim_audit::Refusal;
use scim_cell::Text;
use scim_route::{DiscoveryPage, Parameters};
use scim_text::{Failed, NoMemory};
use serde_json::Value;
use std::alloc::Global;

/// Whether a text has a character other than a space.
fn is_given(text: &str) -> bool
    ensures { result ≡ spec.is_given text.now }
{
    text.as_bytes().iter().any(|byte| *byte != b' ')
}

/// Whether a query string has a `filter` that isn't blank.
fn has_filter(alloc: Global, query: Option<&[u8]>) -> Result<bool, NoMemory>
    ensures { IfOk result (λ b. b ≡ spec.has_filter (option_copied query.entry)) }
{
    let parameters = Parameters::read(alloc, query)?;
    Ok(match &parameters.filter {
        Some(filter) => is_given(filter.as_str()),
        None => false,
    })
}

/// Returns the JSON value of a page.
fn page_value(alloc: Global, page: DiscoveryPage) -> Result<Value, NoMemory>
    ensures { IfOk result (λ v. view v ≡ spec.page_data page) }
{
    match page {
        DiscoveryPage::ServiceProviderConfig => service_provider_config_value(alloc),
        DiscoveryPage::ResourceTypes => list_value(alloc, resource_type_values(alloc)?),
        DiscoveryPage::ResourceType(kind) => resource_type_value(alloc, kind),
        DiscoveryPage::Schemas => list_value(alloc, schema_values(alloc)?),
        DiscoveryPage::Schema(schema) => schema_value(alloc, schema),
    }
}

/// Returns the JSON text of a page.
#[tactic(auto, using(crate::proofs::FloatLemmas::page_has_no_float))]
fn page_text(alloc: Global, page: DiscoveryPage) -> Result<Text, NoMemory>
    ensures { IfOk result (λ text. text ≡ compact_text (spec.page_data page)) }
{
    let value = page_value(alloc, page)?;
    Ok(Text::new(value.to_string(alloc)?))
}

/// Returns the body of the reply, with status 200, to a request for a page (RFC 7644 section 4).
///
/// `query` is the query string of the request's target, if it has one. The body is JSON without spaces, and
/// the keys of each object are in byte order.
///
/// Fails with `Denied` if the query string has a filter. Only the first parameter named `filter`, in any
/// ASCII case, counts. If its value is empty or only spaces, there is no filter.
pub fn page_reply(
    alloc: Global,
    page: DiscoveryPage,
    query: Option<&[u8]>,
) -> Result<Text, Failed<Refusal>>
    ensures { UnlessMemory (Replies page (option_copied query.entry)) result }
{
    if has_filter(alloc, query)? {
        return Err(Failed::Because(Refusal::Denied));
    }
    Ok(page_text(alloc, page)?)
}
