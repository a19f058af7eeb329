//! Reads a stored document whose text is exactly what the server writes, which is the usual case.
//!
//! The private functions guess the resource from a JSON tree that borrows from the text. A guess is
//! accepted only if [`stored_text`] writes exactly the same text for the guessed resource, so most of
//! these functions need no contracts. This takes half the time of the general reader in `stored_documents`.
ghost use Rattle.std.specs.Prelude.{◌≡◌, IfOk, IfSome, IsTrue, Some};
ghost use Rattle.serde_json.specs.Read.{read};
ghost use Rattle.scim_value.specs.Resource.{HasBase};
ghost use Rattle.scim_json.specs.PartData.{stored_data};
ghost use Rattle.scim_json.specs.Stored.{IsDocumentText};

use crate::atoms::atom_of;
use crate::writing::stored_text;
use json::{Error, Scratch, Value};
use scim_cell::{Atom, Cell, Id, sub_attributes_by_place};
use scim_schema::{
    Attribute, JsonShape, Kind, Leaf, SubAttribute, attributes, characteristics_of, extension_of,
    shape_of,
};
use scim_text::{Failed, NoMemory, push};
use scim_value::{Invalid, Part, Resource, location};
use std::alloc::Global;

/// Returns the resource below the base for which [`stored_text`] writes exactly this text, or `None` if no
/// such resource is found.
pub(crate) fn read_as_written(
    alloc: Global,
    base: &str,
    text: &str,
) -> Result<Option<Resource>, NoMemory>
    ensures { IfOk result (λ found. IfSome found (IsDocumentText base.now text.now)) }
{
    let mut scratch = Scratch::new(alloc);
    match Value::parse(alloc, text, &mut scratch) {
        Ok(value) => resource_with(alloc, base, &value, text),
        Err(Error::OutOfMemory) => Err(NoMemory),
        Err(_) => Ok(None),
    }
}

/// Guesses a resource below the base from the value. Returns the resource if its stored text is `text`,
/// otherwise `None`.
pub(crate) fn resource_with(
    alloc: Global,
    base: &str,
    value: &Value<'_>,
    text: &str,
) -> Result<Option<Resource>, NoMemory>
    ensures { IfOk result (λ found. IfSome found (IsDocumentText base.now text.now)) }
{
    let Some(resource) = guessed(alloc, base, value)? else {
        return Ok(None);
    };
    if is_stored_text(alloc, &resource, text)? {
        Ok(Some(resource))
    } else {
        Ok(None)
    }
}

/// Whether [`stored_text`] writes this text for the resource.
fn is_stored_text(alloc: Global, resource: &Resource, text: &str) -> Result<bool, NoMemory>
    ensures { IfOk result (λ b. IsTrue b → read text.now ≡ Some (stored_data resource.now)) }
{
    Ok(stored_text(alloc, resource)?.as_str() == text)
}

/// Makes a resource below the base from the cells in `value`. Returns `None` if the cells don't form a
/// resource. `value` isn't necessarily the stored document of the returned resource.
fn guessed(alloc: Global, base: &str, value: &Value<'_>) -> Result<Option<Resource>, NoMemory>
    ensures { IfOk result (λ found. IfSome found (HasBase base.now)) }
{
    let Some((kind, id)) = kind_and_id(value) else {
        return Ok(None);
    };
    let cells = cells_in(alloc, base, kind, id, value)?;
    match Part::of_sorted(alloc, kind, id, cells) {
        Ok(part) => Ok(Resource::of(part, base).ok()),
        Err(Failed::Because(Invalid)) => Ok(None),
        Err(Failed::NoMemory) => Err(NoMemory),
    }
}

/// The kind that `meta.resourceType` names, and the id. `None` if one of them is missing or invalid.
fn kind_and_id(value: &Value<'_>) -> Option<(Kind, Id)> {
    let meta = value.get(Attribute::Meta.name())?;
    let kind = Kind::named(meta.get(SubAttribute::ResourceType.name())?.as_str()?)?;
    let id = Id::read(value.get(Attribute::Id.name())?.as_str()?)?;
    Some((kind, id))
}

/// Reads the cells in the value, and appends the cell of `meta.location`.
fn cells_in(
    alloc: Global,
    base: &str,
    kind: Kind,
    id: Id,
    value: &Value<'_>,
) -> Result<Vec<Cell>, NoMemory> {
    let mut cells = Vec::new(alloc);
    push_attributes(alloc, value, kind, &mut cells)?;
    let cell = Cell {
        leaf: Leaf::of(Attribute::Meta, SubAttribute::Location),
        position: 0,
        atom: Atom::Text(location(alloc, base, kind, id)?),
    };
    push(&mut cells, cell)?;
    Ok(cells)
}

/// Appends the cells of all attributes.
fn push_attributes(
    alloc: Global,
    value: &Value<'_>,
    kind: Kind,
    cells: &mut Vec<Cell>,
) -> Result<(), NoMemory> {
    for attribute in attributes(kind) {
        if let Some(found) = attribute_in(value, *attribute) {
            push_attribute(alloc, found, kind, *attribute, cells)?;
        }
    }
    Ok(())
}

/// The JSON value of an attribute, or `None` if it is missing. Looks for an attribute of an extension in the
/// object of the extension.
fn attribute_in<'a, 'b>(value: &'a Value<'b>, attribute: Attribute) -> Option<&'a Value<'b>> {
    match extension_of(attribute) {
        Some(schema) => value.get(schema.urn())?.get(attribute.name()),
        None => value.get(attribute.name()),
    }
}

/// Appends the cells of an attribute.
fn push_attribute(
    alloc: Global,
    found: &Value<'_>,
    kind: Kind,
    attribute: Attribute,
    cells: &mut Vec<Cell>,
) -> Result<(), NoMemory> {
    match (shape_of(attribute), found) {
        (JsonShape::Simple, _) => {
            push_cell(alloc, found, kind, Leaf::simple(attribute), 0, cells)
        }
        (JsonShape::Complex, _) => push_object(alloc, found, kind, attribute, 0, cells),
        (JsonShape::MultiValued, Value::Array(items)) => {
            push_items(alloc, items.as_slice(), kind, attribute, cells)
        }
        (JsonShape::MultiValued, _) => Ok(()),
    }
}

/// Appends the cells of the values of a multi-valued attribute.
fn push_items(
    alloc: Global,
    items: &[Value<'_>],
    kind: Kind,
    attribute: Attribute,
    cells: &mut Vec<Cell>,
) -> Result<(), NoMemory> {
    for (position, item) in items.iter().enumerate() {
        push_object(alloc, item, kind, attribute, position, cells)?;
    }
    Ok(())
}

/// Appends the cells of one value of a complex attribute.
fn push_object(
    alloc: Global,
    object: &Value<'_>,
    kind: Kind,
    attribute: Attribute,
    position: usize,
    cells: &mut Vec<Cell>,
) -> Result<(), NoMemory> {
    for sub_attribute in sub_attributes_by_place(attribute) {
        if let Some(found) = object.get(sub_attribute.name()) {
            let leaf = Leaf::of(attribute, *sub_attribute);
            push_cell(alloc, found, kind, leaf, position, cells)?;
        }
    }
    Ok(())
}

/// Appends the cell of a leaf, if the value has the type of the leaf.
fn push_cell(
    alloc: Global,
    found: &Value<'_>,
    kind: Kind,
    leaf: Leaf,
    position: usize,
    cells: &mut Vec<Cell>,
) -> Result<(), NoMemory> {
    let attribute_type = characteristics_of(kind, leaf).attribute_type;
    if let Some(atom) = atom_of(alloc, found.as_bool(), found.as_str(), attribute_type)? {
        let cell = Cell {
            leaf,
            position,
            atom,
        };
        push(cells, cell)?;
    }
    Ok(())
}
