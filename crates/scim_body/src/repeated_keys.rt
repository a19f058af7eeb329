//! Finds clashing keys in a body: two keys of one object that differ only in case, so that it isn't clear
//! which value counts. If a key is repeated exactly, the last value counts (`trees`).
ghost use Rattle.std.specs.Prelude.{◌≡◌};
ghost use Rattle.std.specs.List.{list_any};
ghost use Rattle.scim_body.specs.View.{view, items_view, members_view};
ghost use Rattle.scim_body.specs.BodyNames as spec;

use crate::object_members::{is_twice, value_named};
use crate::trees::{Member, Tree};
use scim_schema::{
    Attribute, Kind, Leaf, Schema, attributes, extension_of, extensions, is_multi_valued,
    is_read_only, sub_attributes,
};

/// Whether two keys of an object name the same sub-attribute of `attribute`.
fn sub_attributes_clash(members: &[Member<'_>], attribute: Attribute) -> bool
    ensures { result ≡ spec.sub_attributes_clash attribute (members_view members.now) }
{
    for sub_attribute in sub_attributes(attribute) {
        if is_twice(members, sub_attribute.name()) {
            return true;
        }
    }
    false
}

/// Whether `value` is an object in which two keys name the same sub-attribute of `attribute`.
pub fn value_clashes(value: &Tree<'_>, attribute: Attribute) -> bool
    ensures { result ≡ spec.value_clashes attribute (view value.now) }
{
    match value.as_object() {
        Some(members) => sub_attributes_clash(members, attribute),
        None => false,
    }
}

/// Whether any of `values` is an object in which two keys name the same sub-attribute of `attribute`.
fn any_clashes(values: &[Tree<'_>], attribute: Attribute) -> bool
    ensures { result ≡ list_any (spec.value_clashes attribute)
        (spec.items_list (items_view values.now)) }
{
    for value in values {
        if value_clashes(value, attribute) {
            return true;
        }
    }
    false
}

/// Whether two keys of one object in the value of `attribute` name the same sub-attribute.
///
/// For a multi-valued attribute, every item of the list is checked, including items that count as absent.
pub fn values_clash(value: &Tree<'_>, attribute: Attribute) -> bool
    ensures { result ≡ spec.values_clash attribute (view value.now) }
{
    if !is_multi_valued(attribute) {
        return value_clashes(value, attribute);
    }
    match value.as_array() {
        Some(values) => any_clashes(values, attribute),
        None => value_clashes(value, attribute),
    }
}

/// Whether two keys name `attribute`, or two keys in its value name the same sub-attribute.
///
/// The value of a readOnly attribute is ignored, so it isn't checked.
#[tactic(auto, unfolding(crate::specs::BodyNames::attribute_clashes))]
fn attribute_clashes(members: &[Member<'_>], kind: Kind, attribute: Attribute) -> bool
    ensures { result ≡ spec.attribute_clashes kind (members_view members.now) attribute }
{
    if is_twice(members, attribute.name()) {
        return true;
    }
    if is_read_only(kind, Leaf::simple(attribute)) {
        return false;
    }
    match value_named(members, attribute.name()) {
        Some(value) => values_clash(value, attribute),
        None => false,
    }
}

/// Whether keys clash for any attribute of the extension `schema`, or of the core schema if it is `None`.
fn schema_clashes(members: &[Member<'_>], kind: Kind, schema: Option<Schema>) -> bool
    ensures { result ≡ spec.schema_clashes kind schema (members_view members.now) }
{
    for attribute in attributes(kind) {
        if extension_of(*attribute) == schema && attribute_clashes(members, kind, *attribute) {
            return true;
        }
    }
    false
}

/// Whether two keys are the URN of the extension `schema`, or keys clash in the extension's object.
fn extension_clashes(members: &[Member<'_>], kind: Kind, schema: Schema) -> bool
    ensures { result ≡ spec.extension_clashes kind (members_view members.now) schema }
{
    if is_twice(members, schema.urn()) {
        return true;
    }
    match value_named(members, schema.urn()).and_then(Tree::as_object) {
        Some(extended) => schema_clashes(extended, kind, Some(schema)),
        None => false,
    }
}

/// Whether keys clash for any of the extensions `schemas`.
fn any_extension_clashes(members: &[Member<'_>], kind: Kind, schemas: &[Schema]) -> bool
    ensures { result ≡ list_any (spec.extension_clashes kind (members_view members.now))
        schemas.now }
{
    for schema in schemas {
        if extension_clashes(members, kind, *schema) {
            return true;
        }
    }
    false
}

/// Whether two different keys name one attribute of `kind`, one extension, or one sub-attribute in a value
/// of an attribute that isn't readOnly, anywhere in a body.
#[tactic(auto, unfolding(crate::specs::BodyNames::body_clashes))]
pub(crate) fn body_clashes(members: &[Member<'_>], kind: Kind) -> bool
    ensures { result ≡ spec.body_clashes kind (members_view members.now) }
{
    schema_clashes(members, kind, None) || any_extension_clashes(members, kind, extensions(kind))
}
