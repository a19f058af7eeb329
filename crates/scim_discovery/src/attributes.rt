//! Describes attributes and sub-attributes in schemas (RFC 7643 section 7).
ghost use Rattle.std.specs.Prelude.{◌≡◌, IfOk, OnOk, map, None};
ghost use Rattle.serde_json.specs.Data.{array, no_members};
ghost use Rattle.serde_json.specs.View.{view, items_of, items_view, members_view};
ghost use Rattle.scim_schema.specs.Table.{sub_attributes};
ghost use Rattle.scim_discovery.specs.Attributes as spec;

use crate::members::{put_text, put_truth};
use scim_schema::{
    Attribute, AttributeType, Characteristics, Kind, SubAttribute, attribute_characteristics,
    sub_attribute_characteristics, sub_attributes,
};
use scim_text::{NoMemory, push};
use serde_json::{Map, Value, put};
use std::alloc::Global;

/// Returns the JSON members that describe an attribute or sub-attribute: its name and its characteristics.
fn members_for(
    alloc: Global,
    name: &str,
    characteristics: Characteristics,
) -> Result<Map<String, Value>, NoMemory>
    ensures { IfOk result (λ map. members_view map.entries
        ≡ spec.members_for name.now characteristics None) }
{
    let mut map = Map::new(alloc);
    put_members(&mut map, alloc, name, characteristics)?;
    Ok(map)
}

/// Fills the empty `map` with the JSON members that describe an attribute or sub-attribute: its name and its
/// characteristics.
///
/// The map is borrowed so that no early return has to drop it. On an error it may have some of the members.
fn put_members(
    map: &mut Map<String, Value>,
    alloc: Global,
    name: &str,
    characteristics: Characteristics,
) -> Result<(), NoMemory>
    requires { members_view map.old.entries ≡ no_members }
    ensures { OnOk result (members_view map.new.entries
        ≡ spec.members_for name.now characteristics None) }
{
    let Characteristics {
        attribute_type,
        multi_valued,
        required,
        case_exact,
        mutability,
        returned,
        uniqueness,
    } = characteristics;
    put_truth(map, alloc, "caseExact", case_exact)?;
    put_truth(map, alloc, "multiValued", multi_valued)?;
    put_text(map, alloc, "mutability", mutability.name())?;
    put_text(map, alloc, "name", name)?;
    put_truth(map, alloc, "required", required)?;
    put_text(map, alloc, "returned", returned.name())?;
    put_text(map, alloc, "type", attribute_type.name())?;
    put_text(map, alloc, "uniqueness", uniqueness.name())
}

/// Returns the JSON object that describes a sub-attribute.
fn sub_attribute_value(
    alloc: Global,
    attribute: Attribute,
    sub_attribute: SubAttribute,
) -> Result<Value, NoMemory>
    ensures { IfOk result (λ v. view v ≡ spec.sub_attribute_data attribute sub_attribute) }
{
    let characteristics = sub_attribute_characteristics(attribute, sub_attribute);
    let map = members_for(alloc, sub_attribute.name(), characteristics)?;
    Ok(Value::Object(map))
}

/// Returns the JSON objects that describe the sub-attributes of a complex attribute, in the order of the
/// attribute table.
fn sub_attribute_values(alloc: Global, attribute: Attribute) -> Result<Vec<Value>, NoMemory>
    ensures { IfOk result (λ values. map view values.items
        ≡ map (spec.sub_attribute_data attribute) (sub_attributes attribute)) }
{
    let mut values = Vec::new(alloc);
    for sub_attribute in sub_attributes(attribute) {
        let value = sub_attribute_value(alloc, attribute, *sub_attribute)?;
        push(&mut values, value)?;
    }
    Ok(values)
}

/// Returns the JSON object that describes an attribute of the kind: its name, its characteristics, and its
/// sub-attributes if it is complex.
pub(crate) fn attribute_value(
    alloc: Global,
    kind: Kind,
    attribute: Attribute,
) -> Result<Value, NoMemory>
    ensures { IfOk result (λ v. view v ≡ spec.attribute_data kind attribute) }
{
    let characteristics = attribute_characteristics(kind, attribute);
    let mut map = members_for(alloc, attribute.name(), characteristics)?;
    match characteristics.attribute_type {
        AttributeType::Complex => {
            let values = sub_attribute_values(alloc, attribute)?;
            put(&mut map, alloc, "subAttributes", Value::Array(values))?;
            Ok(Value::Object(map))
        }
        _ => Ok(Value::Object(map)),
    }
}
