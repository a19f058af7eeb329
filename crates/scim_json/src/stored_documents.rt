//! Reads a stored document into a resource.
ghost use Rattle.std.specs.Prelude.{◌≡◌, ◌≤◌, ◌↔◌, ◌++◌, List, ℕ, IsTrue, IfOk, IfSome, OnOk, None, Some, Err, option_map};
ghost use Rattle.std.specs.List.{flat_map};
ghost use Rattle.serde_json.specs.Data.{depth};
ghost use Rattle.serde_json.specs.Read.{read, max_depth};
ghost use Rattle.serde_json.specs.View.{view, items_view};
ghost use Rattle.scim_schema.specs.declared.Kind.{Kind};
ghost use Rattle.scim_schema.specs.Names.{kind_name};
ghost use Rattle.scim_cell.specs.Ids.{IsId, id_text};
ghost use Rattle.std.specs.FinMap.{entries};
ghost use Rattle.scim_cell.specs.Content.{Content, entries_of, AreSortedPartCells};
ghost use Rattle.scim_value.specs.Resource.{HasBase};
ghost use Rattle.scim_text.specs.Failures.{UnlessMemory, OnFault};
ghost use Rattle.scim_json.specs.PartData.{stored_data};
ghost use Rattle.scim_json.specs.Found as spec;
ghost use Rattle.scim_json.specs.Stored.{IsDocument, GivesStored};

use crate::atoms::atom_of;
use crate::fast_path::read_as_written;
use crate::faults::Damaged;
use crate::writing::stored_text;
use scim_cell::{Atom, Cell, Id, sub_attributes_by_place};
use scim_schema::{
    Attribute, JsonShape, Kind, Leaf, SubAttribute, attributes, characteristics_of, extension_of,
    shape_of,
};
use scim_text::{Failed, NoMemory, push};
use scim_value::{Invalid, Part, Resource, location};
use serde_json::Value;
use std::alloc::Global;

/// Reads a stored document: JSON with the value that [`stored_text`] writes. Spaces, escape sequences
/// and the order of keys may differ. `meta.location`, which isn't stored, is computed below `base`, such as
/// `http://127.0.0.1:8080`.
///
/// Fails with `Damaged` if the text isn't a stored document. Examples are texts with unknown keys, keys in
/// another letter case, null, empty lists or objects, values of a wrong type, or a dateTime in another form
/// than [`scim_text::print_moment`] prints, and texts whose cells don't form a resource.
pub fn read_stored(alloc: Global, base: &str, text: &str) -> Result<Resource, Failed<Damaged>>
    ensures { UnlessMemory (GivesStored base.now text.now) result }
{
    match read_as_written(alloc, base, text)? {
        Some(resource) => Ok(resource),
        None => read_spelled(alloc, base, text),
    }
}

/// Reads a stored document with any spaces, escape sequences and order of keys.
///
/// Fails with `Damaged` if the text isn't the stored document of a resource below the base.
pub(crate) fn read_spelled(
    alloc: Global,
    base: &str,
    text: &str,
) -> Result<Resource, Failed<Damaged>>
    ensures { UnlessMemory (GivesStored base.now text.now) result }
{
    let value = parse(alloc, text)?;
    read_document(alloc, base, &value)
}

/// Parses the JSON value of a text (RFC 8259). Fails with `Damaged` if the text isn't JSON.
pub(crate) fn parse(alloc: Global, text: &str) -> Result<Value, Failed<Damaged>>
    ensures value { IfOk result (λ v. read text.now ≡ Some (view v)) }
    ensures nests { IfOk result (λ v. depth (view v) ≤ max_depth) }
    ensures damaged { OnFault result (read text.now ≡ None) }
{
    match Value::from_str(alloc, text) {
        Ok(value) => Ok(value),
        Err(error) => {
            if error.is_memory() {
                Err(Failed::NoMemory)
            } else {
                Err(Failed::Because(Damaged))
            }
        }
    }
}

/// Returns the resource below the base whose stored document has this JSON value.
///
/// Fails with `Damaged` if there is no such resource.
pub(crate) fn read_document(
    alloc: Global,
    base: &str,
    value: &Value,
) -> Result<Resource, Failed<Damaged>>
    requires { depth (view value.now) ≤ max_depth }
    ensures document { IfOk result (IsDocument base.now (view value.now)) }
    ensures damaged { OnFault result ((c : Content) → ¬ IsDocument base.now (view value.now) c) }
{
    let resource = resource_in(alloc, base, value)?;
    if is_kept_of(alloc, &resource, value)? {
        Ok(resource)
    } else {
        Err(Failed::Because(Damaged))
    }
}

/// Whether the value is the stored JSON of the resource.
fn is_kept_of(alloc: Global, resource: &Resource, value: &Value) -> Result<bool, NoMemory>
    requires { depth (view value.now) ≤ max_depth }
    ensures { IfOk result (λ b. IsTrue b ↔ (view value.now ≡ stored_data resource.now)) }
{
    let kept = stored_text(alloc, resource)?;
    let written = value.to_string(alloc)?;
    Ok(kept.as_str() == written.as_str())
}

/// Returns the only resource below the base whose stored JSON can be `value`. Fails with `Damaged` if there
/// is no such resource. The caller must still check that `value` is the stored JSON of this resource.
fn resource_in(alloc: Global, base: &str, value: &Value) -> Result<Resource, Failed<Damaged>>
    ensures below { IfOk result (HasBase base.now) }
    ensures only { IfOk result
        (λ r. (c : Content) → IsDocument base.now (view value.now) c → r ≡ c) }
    ensures damaged { OnFault result ((c : Content) → ¬ IsDocument base.now (view value.now) c) }
{
    let Some(kind) = kind_in(value) else {
        return Err(Failed::Because(Damaged));
    };
    let Some(id) = id_in(value) else {
        return Err(Failed::Because(Damaged));
    };
    let part = part_in(alloc, base, kind, id, value)?;
    match Resource::of(part, base) {
        Ok(resource) => Ok(resource),
        Err(Invalid) => Err(Failed::Because(Damaged)),
    }
}

/// The kind that `meta.resourceType` names, or `None` if it is missing or isn't the name of a kind.
fn kind_in(value: &Value) -> Option<Kind>
    ensures { (kind : Kind) → (result ≡ Some kind)
        ↔ (spec.resource_type_in (view value.now) ≡ Some (kind_name kind)) }
{
    let meta = attribute_in(value, Attribute::Meta)?;
    Kind::named(meta.get(SubAttribute::ResourceType.name())?.as_str()?)
}

/// The id in the attribute `id`, or `None` if the attribute is missing or isn't the text of an id.
fn id_in(value: &Value) -> Option<Id>
    ensures { (id : List ℕ) → IsId id → (result ≡ Some id)
        ↔ (spec.id_in (view value.now) ≡ Some (id_text id)) }
{
    Id::read(attribute_in(value, Attribute::Id)?.as_str()?)
}

/// Makes a part from the cells in `value` and the cell of `meta.location`. Fails with `Damaged` if these
/// aren't the cells of a part, in order of place.
#[tactic(auto, unfolding(crate::specs::Found::found_cells))]
fn part_in(
    alloc: Global,
    base: &str,
    kind: Kind,
    id: Id,
    value: &Value,
) -> Result<Part, Failed<Damaged>>
    ensures kind { IfOk result (λ p. p.kind ≡ kind) }
    ensures id { IfOk result (λ p. p.id ≡ id) }
    ensures cells { IfOk result
        (λ p. entries p.cells ≡ spec.cells_below base.now kind id (view value.now)) }
    ensures damaged { OnFault result
        (¬ AreSortedPartCells kind (spec.cells_below base.now kind id (view value.now))) }
{
    let mut cells = Vec::new(alloc);
    read_attributes(alloc, value, kind, attributes(kind), &mut cells)?;
    let cell = Cell {
        leaf: Leaf::of(Attribute::Meta, SubAttribute::Location),
        position: 0,
        atom: Atom::Text(location(alloc, base, kind, id)?),
    };
    push(&mut cells, cell)?;
    match Part::of_sorted(alloc, kind, id, cells) {
        Ok(part) => Ok(part),
        Err(Failed::Because(Invalid)) => Err(Failed::Because(Damaged)),
        Err(Failed::NoMemory) => Err(Failed::NoMemory),
    }
}

/// Appends the cells that the resource object `value` contains for these attributes.
fn read_attributes(
    alloc: Global,
    value: &Value,
    kind: Kind,
    attributes: &[Attribute],
    cells: &mut Vec<Cell>,
) -> Result<(), NoMemory>
    ensures { OnOk result (entries_of cells.new.items
        ≡ entries_of cells.old.items
        ++ flat_map (spec.found_attribute kind (view value.now)) attributes.now) }
{
    for attribute in attributes {
        read_attribute(alloc, value, kind, *attribute, cells)?;
    }
    Ok(())
}

/// The JSON value of an attribute, or `None` if it is missing. Looks for an attribute of an extension in the
/// object of the extension.
fn attribute_in(value: &Value, attribute: Attribute) -> Option<&Value>
    ensures { option_map (λ v. view v.now) result ≡ spec.attribute_in attribute (view value.now) }
{
    let object = match extension_of(attribute) {
        Some(schema) => value.get(schema.urn())?,
        None => value,
    };
    object.get(attribute.name())
}

/// Appends the cells of an attribute.
fn read_attribute(
    alloc: Global,
    value: &Value,
    kind: Kind,
    attribute: Attribute,
    cells: &mut Vec<Cell>,
) -> Result<(), NoMemory>
    ensures { OnOk result (entries_of cells.new.items
        ≡ entries_of cells.old.items ++ spec.found_attribute kind (view value.now) attribute) }
{
    let Some(found) = attribute_in(value, attribute) else {
        return Ok(());
    };
    match shape_of(attribute) {
        JsonShape::Simple => read_cell(alloc, found, kind, Leaf::simple(attribute), 0, cells),
        JsonShape::Complex => read_object(alloc, found, kind, attribute, 0, cells),
        JsonShape::MultiValued => match found.as_array() {
            Some(items) => read_items(alloc, items, kind, attribute, cells),
            None => Ok(()),
        },
    }
}

/// Appends the cells of the values of a multi-valued attribute.
fn read_items(
    alloc: Global,
    items: &[Value],
    kind: Kind,
    attribute: Attribute,
    cells: &mut Vec<Cell>,
) -> Result<(), NoMemory>
    ensures { OnOk result (entries_of cells.new.items
        ≡ entries_of cells.old.items ++ spec.found_items kind attribute 0 (items_view items.now)) }
{
    for (position, item) in items.iter().enumerate() {
        read_object(alloc, item, kind, attribute, position, cells)?;
    }
    Ok(())
}

/// Appends the cells of one value of a complex attribute.
fn read_object(
    alloc: Global,
    value: &Value,
    kind: Kind,
    attribute: Attribute,
    position: usize,
    cells: &mut Vec<Cell>,
) -> Result<(), NoMemory>
    ensures { OnOk result (entries_of cells.new.items
        ≡ entries_of cells.old.items
        ++ spec.found_object kind attribute position (view value.now)) }
{
    for sub_attribute in sub_attributes_by_place(attribute) {
        if let Some(found) = value.get(sub_attribute.name()) {
            let leaf = Leaf::of(attribute, *sub_attribute);
            read_cell(alloc, found, kind, leaf, position, cells)?;
        }
    }
    Ok(())
}

/// Appends the cell of a leaf, if the value has the type of the leaf.
fn read_cell(
    alloc: Global,
    value: &Value,
    kind: Kind,
    leaf: Leaf,
    position: usize,
    cells: &mut Vec<Cell>,
) -> Result<(), NoMemory>
    ensures { OnOk result (entries_of cells.new.items
        ≡ entries_of cells.old.items ++ spec.found_value kind leaf position (view value.now)) }
{
    let attribute_type = characteristics_of(kind, leaf).attribute_type;
    if let Some(atom) = atom_of(alloc, value.as_bool(), value.as_str(), attribute_type)? {
        let cell = Cell {
            leaf,
            position,
            atom,
        };
        push(cells, cell)?;
    }
    Ok(())
}
