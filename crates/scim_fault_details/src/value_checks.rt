//! Finds out why a JSON value isn't the value of an attribute in a stored document.
use crate::document_details::{DocumentDetail, KeyPlace};
use crate::nearest::{is_among, nearest};
use crate::value_places::{ValueForm, ValuePlace};
use scim_json::atom_of;
use scim_schema::{
    Attribute, JsonForm, JsonShape, Kind, LONGEST_VALUE, Leaf, MOST_VALUES, SubAttribute,
    characteristics_of, ordered_sub_attributes, shape_of,
};
use scim_text::{Failed, NoMemory, push};
use serde_json::Value;
use std::alloc::Global;

/// The result of a check: an error has the reason why the value isn't what it should be.
pub(crate) type Checked<'v> = Result<(), Failed<DocumentDetail<'v>>>;

/// Checks that an object has no other keys. A value that isn't an object passes.
pub(crate) fn check_keys<'v>(
    alloc: Global,
    value: &'v Value,
    place: KeyPlace,
    names: &[&'static str],
) -> Checked<'v> {
    let Some(members) = value.as_object() else {
        return Ok(());
    };
    for key in members.keys() {
        if !is_among(key.as_str(), names) {
            let near = nearest(alloc, key.as_str(), names)?;
            return Err(Failed::Because(DocumentDetail::UnknownKey(key.as_str(), place, near)));
        }
    }
    Ok(())
}

/// Checks the value of an attribute.
pub(crate) fn check_attribute<'v>(
    alloc: Global,
    value: &'v Value,
    kind: Kind,
    attribute: Attribute,
) -> Checked<'v> {
    let place = ValuePlace::of(attribute);
    match shape_of(attribute) {
        JsonShape::Simple => check_leaf(alloc, value, kind, Leaf::simple(attribute), place),
        JsonShape::Complex => check_object(alloc, value, kind, attribute, place),
        JsonShape::MultiValued => check_list(alloc, value, kind, attribute),
    }
}

/// Checks that a value has the type of the leaf, and isn't too long.
fn check_leaf<'v>(
    alloc: Global,
    value: &'v Value,
    kind: Kind,
    leaf: Leaf,
    place: ValuePlace,
) -> Checked<'v> {
    let attribute_type = characteristics_of(kind, leaf).attribute_type;
    let text = value.as_str();
    if atom_of(alloc, value.as_bool(), text, attribute_type)?.is_none() {
        let form = ValueForm::of(attribute_type);
        return Err(Failed::Because(DocumentDetail::OtherType(place, form)));
    }
    if text.is_some_and(|text| text.len() > LONGEST_VALUE) {
        return Err(Failed::Because(DocumentDetail::TooLong(place)));
    }
    Ok(())
}

/// Checks one value of a complex attribute: that it is an object with a sub-attribute and with no other keys,
/// and the values of the sub-attributes.
fn check_object<'v>(
    alloc: Global,
    value: &'v Value,
    kind: Kind,
    attribute: Attribute,
    place: ValuePlace,
) -> Checked<'v> {
    let Some(members) = value.as_object() else {
        return Err(Failed::Because(DocumentDetail::OtherType(place, ValueForm::Object)));
    };
    if members.is_empty() {
        return Err(Failed::Because(DocumentDetail::Empty(place)));
    }
    let sub_attributes = ordered_sub_attributes(JsonForm::Stored, attribute);
    let names = names_of(alloc, sub_attributes)?;
    check_keys(alloc, value, KeyPlace::Value(place), &names)?;
    for sub_attribute in sub_attributes {
        if let Some(found) = value.get(sub_attribute.name()) {
            let leaf = Leaf::of(attribute, *sub_attribute);
            check_leaf(alloc, found, kind, leaf, place.within(*sub_attribute))?;
        }
    }
    Ok(())
}

/// Returns the names of the sub-attributes.
fn names_of(alloc: Global, sub_attributes: &[SubAttribute]) -> Result<Vec<&'static str>, NoMemory> {
    let mut names = Vec::new(alloc);
    for sub_attribute in sub_attributes {
        push(&mut names, sub_attribute.name())?;
    }
    Ok(names)
}

/// Checks the values of a multi-valued attribute: that they are a list, that there are some and not too many,
/// each of them, and that at most one is primary.
fn check_list<'v>(
    alloc: Global,
    value: &'v Value,
    kind: Kind,
    attribute: Attribute,
) -> Checked<'v> {
    let place = ValuePlace::of(attribute);
    let Some(items) = value.as_array() else {
        return Err(Failed::Because(DocumentDetail::OtherType(place, ValueForm::List)));
    };
    if items.is_empty() {
        return Err(Failed::Because(DocumentDetail::Empty(place)));
    }
    if items.len() > MOST_VALUES {
        return Err(Failed::Because(DocumentDetail::TooMany(attribute)));
    }
    for (index, item) in items.iter().enumerate() {
        check_item(alloc, item, kind, attribute, index + 1)?;
    }
    if items.iter().filter(|item| is_primary(item)).count() > 1 {
        return Err(Failed::Because(DocumentDetail::TwoPrimary(attribute)));
    }
    Ok(())
}

/// Checks the value with this number, from 1, of a multi-valued attribute. A member must have a `value`.
fn check_item<'v>(
    alloc: Global,
    item: &'v Value,
    kind: Kind,
    attribute: Attribute,
    number: usize,
) -> Checked<'v> {
    let place = ValuePlace::item(attribute, number);
    check_object(alloc, item, kind, attribute, place)?;
    if attribute == Attribute::Members && item.get(SubAttribute::Value.name()).is_none() {
        let place = place.within(SubAttribute::Value);
        return Err(Failed::Because(DocumentDetail::Missing(place)));
    }
    Ok(())
}

/// Whether `primary` of the value is true.
fn is_primary(item: &Value) -> bool {
    match item.get(SubAttribute::Primary.name()) {
        Some(primary) => primary.as_bool() == Some(true),
        None => false,
    }
}
