//! Reads the values of a body (RFC 7643 sections 2.3 to 2.5).
ghost use Rattle.std.specs.Prelude.{◌≡◌, ◌∷◌, [], IfOk, OnOk, Some, None, option_map, count_by};
ghost use Rattle.std.specs.List.{list_any};
ghost use Rattle.scim_body.specs.View.{view, items_view, members_view};
ghost use Rattle.scim_text.specs.Failures.{OnFault};
ghost use Rattle.scim_body.specs.BodyNames.{items_list};
ghost use Rattle.scim_cell.specs.Rows.{is_primary};
ghost use Rattle.scim_cell.specs.SameValues.{is_nameless};
ghost use Rattle.scim_body.specs.BodyValues as spec;
ghost use Rattle.scim_body.specs.Given.{after};

use crate::absent_values::{given_named, is_absent};
use crate::trees::{Member, Tree};
use scim_cell::{Atom, Field, Row, is_nameless, sub_attributes_by_place, with_values};
use scim_json::atom_of;
use scim_schema::{
    Attribute, AttributeType, Kind, LONGEST_VALUE, Leaf, MOST_VALUES, SubAttribute, Unit,
    characteristics_of, is_read_only, sub_attributes,
};
use scim_text::{Failed, push, same_name};
use std::alloc::Global;
use std::slice;

/// The error for a refused value in a body: it has the wrong type, is over a limit, or is required but
/// missing.
#[derive(Clone, Copy, PartialEq, Eq)]
pub struct WrongValue;

/// Reads a boolean, or a text that is `true` or `false` in any case. `None` for any other value.
fn read_truth(value: &Tree<'_>) -> Option<bool>
    ensures { result ≡ spec.truth_of (view value.now) }
{
    if let Some(truth) = value.as_bool() {
        return Some(truth);
    }
    let text = value.as_str()?;
    if same_name(text, "true") {
        return Some(true);
    }
    if same_name(text, "false") {
        return Some(false);
    }
    None
}

/// Whether an atom is within the size limit: a text has at most 65,536 bytes.
fn is_short(atom: &Atom) -> bool
    ensures { result ≡ spec.is_short atom.now }
{
    match atom {
        Atom::Text(text) => text.as_str().len() <= LONGEST_VALUE,
        Atom::Truth(_) | Atom::Moment(_) => true,
    }
}

/// Reads a value as an atom of the given type.
///
/// Fails with `WrongValue` if the value has another type, or is a text over 65,536 bytes.
pub(crate) fn read_atom(
    alloc: Global,
    value: &Tree<'_>,
    attribute_type: AttributeType,
) -> Result<Atom, Failed<WrongValue>>
    ensures given { IfOk result (λ a. spec.given_atom attribute_type (view value.now) ≡ Some a) }
    ensures wrong { OnFault result (spec.given_atom attribute_type (view value.now) ≡ None) }
{
    if attribute_type == AttributeType::Boolean {
        return match read_truth(value) {
            Some(truth) => Ok(Atom::Truth(truth)),
            None => Err(Failed::Because(WrongValue)),
        };
    }
    let Some(atom) = atom_of(alloc, value.as_bool(), value.as_str(), attribute_type)? else {
        return Err(Failed::Because(WrongValue));
    };
    if is_short(&atom) {
        Ok(atom)
    } else {
        Err(Failed::Because(WrongValue))
    }
}

/// Reads the field of `sub_attribute` from its value.
///
/// Fails with `WrongValue` if the value has the wrong type or is a text over 65,536 bytes.
pub fn read_field(
    alloc: Global,
    value: &Tree<'_>,
    kind: Kind,
    attribute: Attribute,
    sub_attribute: SubAttribute,
) -> Result<Field, Failed<WrongValue>>
    ensures given { IfOk result
        (λ f. spec.field_with kind attribute sub_attribute (view value.now) ≡ Some (f ∷ [])) }
    ensures wrong { OnFault result (spec.field_with kind attribute sub_attribute (view value.now)
        ≡ None) }
{
    let leaf = Leaf::of(attribute, sub_attribute);
    let atom = read_atom(alloc, value, characteristics_of(kind, leaf).attribute_type)?;
    Ok(Field { leaf, atom })
}

/// Appends the field of `sub_attribute`, if the object has a value for it. Appends nothing if
/// `sub_attribute` is readOnly.
///
/// Fails with `WrongValue` if the value has the wrong type or is a text over 65,536 bytes; `fields` is then
/// unchanged.
fn read_sub_attribute(
    alloc: Global,
    members: &[Member<'_>],
    kind: Kind,
    attribute: Attribute,
    sub_attribute: SubAttribute,
    fields: &mut Vec<Field>,
) -> Result<(), Failed<WrongValue>>
    ensures given { OnOk result
        (after fields.old.items
        (spec.field_in kind attribute (members_view members.now) sub_attribute)
        ≡ Some fields.new.items) }
    ensures wrong { OnFault result
        (spec.field_in kind attribute (members_view members.now) sub_attribute ≡ None) }
{
    if is_read_only(kind, Leaf::of(attribute, sub_attribute)) {
        return Ok(());
    }
    let Some(value) = given_named(members, sub_attribute.name()) else {
        return Ok(());
    };
    let field = read_field(alloc, value, kind, attribute, sub_attribute)?;
    push(fields, field)?;
    Ok(())
}

/// Reads the fields of an object, in the order in which their cells are stored. Ignores unknown keys.
///
/// Fails with `WrongValue` if a value has the wrong type or is a text over 65,536 bytes.
fn read_object(
    alloc: Global,
    members: &[Member<'_>],
    kind: Kind,
    attribute: Attribute,
) -> Result<Vec<Field>, Failed<WrongValue>>
    ensures given { IfOk result
        (λ v. spec.fields_in kind attribute (members_view members.now) ≡ Some v.items) }
    ensures wrong { OnFault result
        (spec.fields_in kind attribute (members_view members.now) ≡ None) }
{
    let mut fields = Vec::new(alloc);
    for sub_attribute in sub_attributes_by_place(attribute) {
        read_sub_attribute(alloc, members, kind, attribute, *sub_attribute, &mut fields)?;
    }
    Ok(fields)
}

/// Whether the attribute has a sub-attribute `value`.
fn has_value(attribute: Attribute) -> bool
    ensures { result ≡ spec.has_value attribute }
{
    for sub_attribute in sub_attributes(attribute) {
        if *sub_attribute == SubAttribute::Value {
            return true;
        }
    }
    false
}

/// Reads a value that isn't an object as the sub-attribute `value`.
///
/// Fails with `WrongValue` if the value has the wrong type or is a text over 65,536 bytes, or if the
/// attribute has no sub-attribute `value`.
fn read_alone(
    alloc: Global,
    value: &Tree<'_>,
    kind: Kind,
    attribute: Attribute,
) -> Result<Vec<Field>, Failed<WrongValue>>
    ensures given { IfOk result (λ v. spec.value_alone kind attribute (view value.now)
        ≡ Some v.items) }
    ensures wrong { OnFault result (spec.value_alone kind attribute (view value.now) ≡ None) }
{
    if !has_value(attribute) {
        return Err(Failed::Because(WrongValue));
    }
    let mut fields = Vec::new(alloc);
    let field = read_field(alloc, value, kind, attribute, SubAttribute::Value)?;
    push(&mut fields, field)?;
    Ok(fields)
}

/// Reads the fields of a value of a complex attribute, in the order in which their cells are stored.
///
/// Fails with `WrongValue` if the value or one of its fields has the wrong type, or a text is over 65,536
/// bytes.
pub fn read_fields(
    alloc: Global,
    value: &Tree<'_>,
    kind: Kind,
    attribute: Attribute,
) -> Result<Vec<Field>, Failed<WrongValue>>
    ensures given { IfOk result (λ v. spec.fields_of kind attribute (view value.now)
        ≡ Some v.items) }
    ensures wrong { OnFault result (spec.fields_of kind attribute (view value.now) ≡ None) }
{
    match value.as_object() {
        Some(members) => read_object(alloc, members, kind, attribute),
        None => read_alone(alloc, value, kind, attribute),
    }
}

/// Appends the value read from an item of a list, unless the item counts as absent or has no known
/// sub-attribute.
///
/// Fails with `WrongValue` if the item or one of its fields has the wrong type, or a text is over 65,536
/// bytes; `values` is then unchanged.
fn read_value(
    alloc: Global,
    value: &Tree<'_>,
    kind: Kind,
    attribute: Attribute,
    values: &mut Vec<Row>,
) -> Result<(), Failed<WrongValue>>
    ensures given { OnOk result
        (after values.old.items (spec.value_of kind attribute (view value.now))
        ≡ Some values.new.items) }
    ensures wrong { OnFault result (spec.value_of kind attribute (view value.now) ≡ None) }
{
    if is_absent(value) {
        return Ok(());
    }
    let fields = read_fields(alloc, value, kind, attribute)?;
    if fields.is_empty() {
        return Ok(());
    }
    push(values, Row::new(Unit::whole(attribute), fields))?;
    Ok(())
}

/// Reads the values of a multi-valued attribute (RFC 7643 section 2.4) from a list or a single value.
///
/// Skips null, `[]` and values without known sub-attributes, but keeps repeated values.
///
/// Fails with `WrongValue` if a value has the wrong type, or a text is over 65,536 bytes.
pub fn read_listed(
    alloc: Global,
    value: &Tree<'_>,
    kind: Kind,
    attribute: Attribute,
) -> Result<Vec<Row>, Failed<WrongValue>>
    ensures given { IfOk result (λ v. spec.listed_values kind attribute (view value.now)
        ≡ Some v.items) }
    ensures wrong { OnFault result (spec.listed_values kind attribute (view value.now) ≡ None) }
{
    match value.as_array() {
        Some(items) => read_items(alloc, items, kind, attribute),
        None => read_items(alloc, slice::from_ref(value), kind, attribute),
    }
}

/// Reads the items of a list as values of a multi-valued attribute.
///
/// Fails with `WrongValue` if an item or one of its fields has the wrong type, or a text is over 65,536
/// bytes.
fn read_items(
    alloc: Global,
    items: &[Tree<'_>],
    kind: Kind,
    attribute: Attribute,
) -> Result<Vec<Row>, Failed<WrongValue>>
    ensures given { IfOk result
        (λ v. spec.collected (spec.value_of kind attribute) (items_list (items_view items.now))
        ≡ Some v.items) }
    ensures wrong { OnFault result
        (spec.collected (spec.value_of kind attribute) (items_list (items_view items.now)) ≡ None) }
{
    let mut values = Vec::new(alloc);
    for item in items {
        read_value(alloc, item, kind, attribute, &mut values)?;
    }
    Ok(values)
}

/// Whether the values of an attribute are refused: two are primary (RFC 7643 section 2.4), there are more
/// than 10,000, or a group member has no `value` (section 4.2).
fn are_refused(attribute: Attribute, values: &[Row]) -> bool
    ensures { result ≡ spec.are_refused attribute values.now }
{
    count_primary(values) > 1 || values.len() > MOST_VALUES || any_nameless(attribute, values)
}

/// The number of values marked as primary.
fn count_primary(values: &[Row]) -> usize
    ensures { result ≡ count_by is_primary values.now }
{
    values.iter().filter(|value| value.is_primary()).count()
}

/// Whether any value is a group member without a `value`.
fn any_nameless(attribute: Attribute, values: &[Row]) -> bool
    ensures { result ≡ list_any (is_nameless attribute) values.now }
{
    for value in values {
        if is_nameless(attribute, value) {
            return true;
        }
    }
    false
}

/// Reads the values of a multi-valued attribute from a list or a single value, and drops repeated values.
///
/// Fails with `WrongValue` if a value has the wrong type, a text is over 65,536 bytes, two values are
/// primary, there are more than 10,000, or a group member has no `value`.
pub(crate) fn read_values(
    alloc: Global,
    value: &Tree<'_>,
    kind: Kind,
    attribute: Attribute,
) -> Result<Vec<Row>, Failed<WrongValue>>
    ensures given { IfOk result (λ v. spec.values_of kind attribute (view value.now)
        ≡ Some v.items) }
    ensures wrong { OnFault result (spec.values_of kind attribute (view value.now) ≡ None) }
{
    let read = read_listed(alloc, value, kind, attribute)?;
    let values = with_values(alloc, attribute, Vec::new(alloc), read)?;
    if are_refused(attribute, values.as_slice()) {
        return Err(Failed::Because(WrongValue));
    }
    Ok(values)
}
