//! Describes the server's features (RFC 7643 section 5).
ghost use Rattle.std.specs.Prelude.{◌≡◌, IfOk, OnOk};
ghost use Rattle.serde_json.specs.Data.{put as with};
ghost use Rattle.serde_json.specs.View.{view, members_view};
ghost use Rattle.scim_discovery.specs.ServiceProviderConfig as spec;

use scim_text::NoMemory;
use serde_json::{Map, Value, json, put};
use std::alloc::Global;

/// Returns the supported authentication schemes: only bearer tokens.
fn authentication_schemes_value(alloc: Global) -> Result<Value, NoMemory>
    ensures { IfOk result (λ v. view v ≡ spec.authentication_schemes) }
{
    Ok(json!(in alloc; [{
        "description": "Bearer token",
        "name": "OAuth Bearer Token",
        "type": "oauthbearertoken"
    }])?)
}

/// Returns the value of `schemas`: the list with the URN of the schema of service provider configurations.
fn schemas_value(alloc: Global) -> Result<Value, NoMemory>
    ensures { IfOk result (λ v. view v ≡ spec.config_schemas) }
{
    Ok(json!(in alloc; ["urn:ietf:params:scim:schemas:core:2.0:ServiceProviderConfig"])?)
}

/// Returns the description of bulk operations, which aren't supported.
fn bulk_value(alloc: Global) -> Result<Value, NoMemory>
    ensures { IfOk result (λ v. view v ≡ spec.bulk) }
{
    Ok(json!(in alloc; {"maxOperations": 0u64, "maxPayloadSize": 0u64, "supported": false})?)
}

/// Returns the description of filters: they are supported, and a page has at most 200 resources.
fn filter_value(alloc: Global) -> Result<Value, NoMemory>
    ensures { IfOk result (λ v. view v ≡ spec.filter) }
{
    Ok(json!(in alloc; {"maxResults": 200u64, "supported": true})?)
}

/// Inserts under `key` a JSON object that says whether a feature is supported.
fn put_supported(
    map: &mut Map<String, Value>,
    alloc: Global,
    key: &str,
    is_supported: bool,
) -> Result<(), NoMemory>
    ensures { OnOk result (members_view map.new.entries
        ≡ with key.now (spec.supported is_supported) (members_view map.old.entries)) }
{
    let value = json!(in alloc; {"supported": is_supported})?;
    Ok(put(map, alloc, key, value)?)
}

/// Returns the page about the server's features.
#[tactic(auto, unfolding(crate::specs::ServiceProviderConfig::service_provider_config))]
pub(crate) fn service_provider_config_value(alloc: Global) -> Result<Value, NoMemory>
    ensures { IfOk result (λ v. view v ≡ spec.service_provider_config) }
{
    let mut map = Map::new(alloc);
    let schemes = authentication_schemes_value(alloc)?;
    put(&mut map, alloc, "authenticationSchemes", schemes)?;
    put(&mut map, alloc, "bulk", bulk_value(alloc)?)?;
    put_supported(&mut map, alloc, "changePassword", false)?;
    put_supported(&mut map, alloc, "etag", false)?;
    put(&mut map, alloc, "filter", filter_value(alloc)?)?;
    put_supported(&mut map, alloc, "patch", true)?;
    put(&mut map, alloc, "schemas", schemas_value(alloc)?)?;
    put_supported(&mut map, alloc, "sort", true)?;
    Ok(Value::Object(map))
}
