//! Finds out why a JSON value isn't the stored document of a resource.
use crate::document_details::{DocumentDetail, KeyPlace};
use crate::value_checks::{Checked, check_attribute, check_keys};
use crate::value_places::{ValueForm, ValuePlace};
use scim_cell::Id;
use scim_schema::{
    Attribute, JsonForm, JsonKey, Kind, Leaf, Schema, SubAttribute, attributes, extension_keys,
    extension_of, extensions, is_dropped, keys,
};
use scim_text::{Failed, NoMemory, push};
use serde_json::Value;
use std::alloc::Global;

/// Checks that a JSON value is the stored document of a resource.
///
/// Fails with a reason why it isn't one.
pub(crate) fn check_document<'v>(alloc: Global, value: &'v Value) -> Checked<'v> {
    if !value.is_object() {
        return Err(Failed::Because(DocumentDetail::NoObject));
    }
    if value.get("schemas").is_some() {
        return Err(Failed::Because(DocumentDetail::Schemas));
    }
    let kind = kind_in(value)?;
    let names = document_keys(alloc, kind)?;
    check_keys(alloc, value, KeyPlace::Document(kind), &names)?;
    check_id(value)?;
    check_required(value, kind)?;
    for schema in extensions(kind) {
        check_extension(alloc, value, *schema)?;
    }
    check_attributes(alloc, value, kind)
}

/// The kind that `meta.resourceType` names. Fails with the reason if it names none.
fn kind_in(value: &Value) -> Result<Kind, Failed<DocumentDetail<'_>>> {
    let place = ValuePlace::of(Attribute::Meta);
    let meta = found(value.get(Attribute::Meta.name()), place)?;
    if !meta.is_object() {
        return Err(Failed::Because(DocumentDetail::OtherType(place, ValueForm::Object)));
    }
    let place = place.within(SubAttribute::ResourceType);
    let name = text_at(meta.get(SubAttribute::ResourceType.name()), place)?;
    match Kind::named(name) {
        Some(kind) => Ok(kind),
        None => Err(Failed::Because(DocumentDetail::NoKind)),
    }
}

/// The value at a place. Fails with `Missing` if there is none.
fn found<'v>(
    value: Option<&'v Value>,
    place: ValuePlace,
) -> Result<&'v Value, Failed<DocumentDetail<'v>>> {
    match value {
        Some(value) => Ok(value),
        None => Err(Failed::Because(DocumentDetail::Missing(place))),
    }
}

/// The text at a place. Fails with `Missing` or `OtherType` if there is none.
fn text_at<'v>(
    value: Option<&'v Value>,
    place: ValuePlace,
) -> Result<&'v str, Failed<DocumentDetail<'v>>> {
    match found(value, place)?.as_str() {
        Some(text) => Ok(text),
        None => Err(Failed::Because(DocumentDetail::OtherType(place, ValueForm::Text))),
    }
}

/// Returns the keys that the stored document of a resource of this kind may have.
fn document_keys(alloc: Global, kind: Kind) -> Result<Vec<&'static str>, NoMemory> {
    let mut names = Vec::new(alloc);
    for key in keys(JsonForm::Stored, kind) {
        if !is_dropped_key(*key) {
            push(&mut names, key.text())?;
        }
    }
    Ok(names)
}

/// Whether the key is that of an attribute that no resource has.
fn is_dropped_key(key: JsonKey) -> bool {
    match key {
        JsonKey::Of(attribute) => is_dropped(Leaf::simple(attribute)),
        JsonKey::Schemas | JsonKey::Extension(_) => false,
    }
}

/// Checks that `id` is the text of an id.
fn check_id(value: &Value) -> Checked<'_> {
    let place = ValuePlace::of(Attribute::Id);
    match Id::read(text_at(value.get(Attribute::Id.name()), place)?) {
        Some(_) => Ok(()),
        None => Err(Failed::Because(DocumentDetail::NoId)),
    }
}

/// Checks that a resource of this kind has its moments, and a user a `userName` that isn't empty, a group a
/// `displayName`. The value has `meta`.
fn check_required(value: &Value, kind: Kind) -> Checked<'_> {
    check_moment(value, SubAttribute::Created)?;
    check_moment(value, SubAttribute::LastModified)?;
    match kind {
        Kind::User => {
            let place = ValuePlace::of(Attribute::UserName);
            if text_at(value.get(Attribute::UserName.name()), place)?.is_empty() {
                return Err(Failed::Because(DocumentDetail::Empty(place)));
            }
            Ok(())
        }
        Kind::Group => {
            let place = ValuePlace::of(Attribute::DisplayName);
            found(value.get(Attribute::DisplayName.name()), place)?;
            Ok(())
        }
    }
}

/// Checks that `meta` has this sub-attribute.
fn check_moment(value: &Value, sub_attribute: SubAttribute) -> Checked<'_> {
    let place = ValuePlace::of(Attribute::Meta).within(sub_attribute);
    let meta = value.get(Attribute::Meta.name());
    found(meta.and_then(|meta| meta.get(sub_attribute.name())), place)?;
    Ok(())
}

/// Checks the keys of the object of an extension, if it is there, and that it has one.
fn check_extension<'v>(alloc: Global, value: &'v Value, schema: Schema) -> Checked<'v> {
    let Some(found) = value.get(schema.urn()) else {
        return Ok(());
    };
    if found.as_object().is_none_or(|members| members.is_empty()) {
        return Err(Failed::Because(DocumentDetail::NoExtension(schema)));
    }
    let names = names_of(alloc, extension_keys(schema))?;
    check_keys(alloc, found, KeyPlace::Extension(schema), &names)
}

/// Returns the names of the attributes.
fn names_of(alloc: Global, attributes: &[Attribute]) -> Result<Vec<&'static str>, NoMemory> {
    let mut names = Vec::new(alloc);
    for attribute in attributes {
        push(&mut names, attribute.name())?;
    }
    Ok(names)
}

/// Checks the values of all attributes.
fn check_attributes<'v>(alloc: Global, value: &'v Value, kind: Kind) -> Checked<'v> {
    for attribute in attributes(kind) {
        if let Some(found) = attribute_in(value, *attribute) {
            check_attribute(alloc, found, kind, *attribute)?;
        }
    }
    Ok(())
}

/// The JSON value of an attribute, which for one of an extension is in the extension's object.
fn attribute_in(value: &Value, attribute: Attribute) -> Option<&Value> {
    let object = match extension_of(attribute) {
        Some(schema) => value.get(schema.urn())?,
        None => value,
    };
    object.get(attribute.name())
}
