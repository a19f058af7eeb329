//! Describes schemas (RFC 7643 section 7).
ghost use Rattle.std.specs.Prelude.{◌≡◌, IfOk, map};
ghost use Rattle.serde_json.specs.View.{view};
ghost use Rattle.scim_schema.specs.Schemas.{schemas};
ghost use Rattle.scim_discovery.specs.Attributes.{attribute_data};
ghost use Rattle.scim_discovery.specs.Schemas as spec;
ghost use Rattle.scim_discovery.specs.code.Listed as listed;

use crate::attributes::attribute_value;
use scim_schema::{Attribute, Kind, Schema, attributes, schema_of};
use scim_text::{NoMemory, push};
use serde_json::{Value, json};
use std::alloc::Global;

/// Returns the kind whose resources have the schema.
fn kind_with(schema: Schema) -> Kind
    ensures { result ≡ spec.kind_with schema }
{
    match schema {
        Schema::User | Schema::EnterpriseUser | Schema::SiteUser => Kind::User,
        Schema::Group => Kind::Group,
    }
}

/// Returns the name of a schema.
fn schema_name(schema: Schema) -> &'static str
    ensures { result.now ≡ spec.schema_name schema }
{
    match schema {
        Schema::User => "User",
        Schema::Group => "Group",
        Schema::EnterpriseUser => "EnterpriseUser",
        Schema::SiteUser => "Site",
    }
}

/// Whether the attribute is common to all resources, whatever their schemas (RFC 7643 section 3.1).
fn is_common(attribute: Attribute) -> bool
    ensures { result ≡ listed.is_common attribute }
{
    matches!(
        attribute,
        Attribute::Id | Attribute::ExternalId | Attribute::Meta
    )
}

/// Returns the descriptions of the schema's attributes, in the order of the attribute table. Leaves out the
/// attributes that are common to all resources.
fn attribute_values(alloc: Global, schema: Schema) -> Result<Vec<Value>, NoMemory>
    ensures { IfOk result (λ values. map view values.items
        ≡ map (attribute_data (spec.kind_with schema)) (spec.attributes_in schema)) }
{
    let kind = kind_with(schema);
    let mut values = Vec::new(alloc);
    for attribute in attributes(kind) {
        if !is_common(*attribute) && schema_of(kind, *attribute) == schema {
            push(&mut values, attribute_value(alloc, kind, *attribute)?)?;
        }
    }
    Ok(values)
}

/// Returns the description of a schema, with its attributes.
#[tactic(auto, unfolding(crate::specs::Schemas::schema_data))]
pub(crate) fn schema_value(alloc: Global, schema: Schema) -> Result<Value, NoMemory>
    ensures { IfOk result (λ v. view v ≡ spec.schema_data schema) }
{
    let attributes = attribute_values(alloc, schema)?;
    Ok(json!(in alloc; {
        "attributes": attributes,
        "id": schema.urn(),
        "name": schema_name(schema),
        "schemas": ["urn:ietf:params:scim:schemas:core:2.0:Schema"]
    })?)
}

/// Returns the descriptions of all schemas.
#[tactic(auto, unfolding(crate::specs::Schemas::schema_data))]
pub(crate) fn schema_values(alloc: Global) -> Result<Vec<Value>, NoMemory>
    ensures { IfOk result (λ values. map view values.items ≡ map spec.schema_data schemas) }
{
    let mut values = Vec::new(alloc);
    for schema in Schema::all() {
        push(&mut values, schema_value(alloc, *schema)?)?;
    }
    Ok(values)
}
