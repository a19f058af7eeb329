//! Describes resource types (RFC 7643 section 6).
ghost use Rattle.std.specs.Prelude.{◌≡◌, IfOk, map, None};
ghost use Rattle.serde_json.specs.View.{view, members_view};
ghost use Rattle.scim_schema.specs.Names.{kinds};
ghost use Rattle.scim_discovery.specs.ResourceTypes as spec;

use crate::members::put_text;
use scim_schema::{Kind, Schema, core_schema, extensions};
use scim_text::{NoMemory, push};
use serde_json::{Map, Value, json, put};
use std::alloc::Global;

/// Returns the JSON object that describes a schema extension of a resource type. Extensions are never
/// required.
fn extension_value(alloc: Global, schema: Schema) -> Result<Value, NoMemory>
    ensures { IfOk result (λ v. view v ≡ spec.extension_data schema) }
{
    Ok(json!(in alloc; {"required": false, "schema": schema.urn()})?)
}

/// Returns the JSON objects that describe these schema extensions, in order.
fn extension_values(alloc: Global, schemas: &[Schema]) -> Result<Vec<Value>, NoMemory>
    ensures { IfOk result (λ values. map view values.items ≡ map spec.extension_data schemas.now) }
{
    let mut values = Vec::new(alloc);
    for schema in schemas {
        push(&mut values, extension_value(alloc, *schema)?)?;
    }
    Ok(values)
}

/// Returns the members of a resource type, without its schema extensions.
fn members_for(alloc: Global, kind: Kind) -> Result<Map<String, Value>, NoMemory>
    ensures { IfOk result (λ map. members_view map.entries ≡ spec.members_for kind None) }
{
    let mut map = Map::new(alloc);
    put_text(&mut map, alloc, "endpoint", kind.endpoint())?;
    put_text(&mut map, alloc, "id", kind.name())?;
    put_text(&mut map, alloc, "name", kind.name())?;
    put_text(&mut map, alloc, "schema", core_schema(kind).urn())?;
    let schemas = json!(in alloc; ["urn:ietf:params:scim:schemas:core:2.0:ResourceType"])?;
    put(&mut map, alloc, "schemas", schemas)?;
    Ok(map)
}

/// Returns the JSON object that describes the resource type of a kind.
#[tactic(auto, unfolding(crate::specs::ResourceTypes::resource_type_data))]
pub(crate) fn resource_type_value(alloc: Global, kind: Kind) -> Result<Value, NoMemory>
    ensures { IfOk result (λ v. view v ≡ spec.resource_type_data kind) }
{
    let mut map = members_for(alloc, kind)?;
    let extensions = extensions(kind);
    if extensions.is_empty() {
        return Ok(Value::Object(map));
    }
    let values = extension_values(alloc, extensions)?;
    put(&mut map, alloc, "schemaExtensions", Value::Array(values))?;
    Ok(Value::Object(map))
}

/// Returns the JSON objects that describe all resource types.
pub(crate) fn resource_type_values(alloc: Global) -> Result<Vec<Value>, NoMemory>
    ensures { IfOk result (λ values. map view values.items ≡ map spec.resource_type_data kinds) }
{
    let mut values = Vec::new(alloc);
    for kind in Kind::all() {
        push(&mut values, resource_type_value(alloc, *kind)?)?;
    }
    Ok(values)
}
