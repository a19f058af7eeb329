//! The calls of `scim_cell`.
use crate::arguments::{beside, order, push_all, said, shown, truth};
use crate::case::Case;
use crate::faults::CaseFault;
use crate::row_tests::OfSubAttribute;
use crate::tables::named;
use scim_cell::{
    Atom, Cell, Field, Id, Row, Text, are_values, compare_units, has_type, sub_attributes_by_place,
    uuid_of,
};
use scim_samples::{atom_text, leaf_text, read_cells, read_leaf, row_text};
use scim_schema::{characteristics_of, unit_of};
use scim_text::push;
use std::alloc::Global;

/// A call of `scim_cell`.
#[derive(Clone, Copy)]
enum CellCall {
    Id(OfId),
    OrderOfIds,
    CopiedText,
    SameText,
    CopiedAtom,
    SameAtom,
    HasType,
    Place,
    OrderOfPlaces,
    OrderOfUnits,
    SubAttributesByPlace,
    Row(OfRow),
    AreValues,
    SameField,
}

/// A call on an id: its text as a new string or in a buffer, or its bytes in hex.
#[derive(Clone, Copy)]
enum OfId {
    Text,
    Written,
    Bytes,
}

/// A call on a row.
#[derive(Clone, Copy)]
enum OfRow {
    Copied,
    CopiedFields,
    Atom,
    Same,
    Restricted,
}

static CALLS: [(&str, CellCall); 20] = [
    ("id", CellCall::Id(OfId::Text)),
    ("written_id", CellCall::Id(OfId::Written)),
    ("id_bytes", CellCall::Id(OfId::Bytes)),
    ("order_of_ids", CellCall::OrderOfIds),
    ("copied_text", CellCall::CopiedText),
    ("same_text", CellCall::SameText),
    ("copied_atom", CellCall::CopiedAtom),
    ("same_atom", CellCall::SameAtom),
    ("has_type", CellCall::HasType),
    ("place", CellCall::Place),
    ("order_of_places", CellCall::OrderOfPlaces),
    ("order_of_units", CellCall::OrderOfUnits),
    ("sub_attributes_by_place", CellCall::SubAttributesByPlace),
    ("copied_row", CellCall::Row(OfRow::Copied)),
    ("copied_fields", CellCall::Row(OfRow::CopiedFields)),
    ("atom_of_row", CellCall::Row(OfRow::Atom)),
    ("same_row", CellCall::Row(OfRow::Same)),
    ("restricted_row", CellCall::Row(OfRow::Restricted)),
    ("are_values", CellCall::AreValues),
    ("same_field", CellCall::SameField),
];

/// Returns the result of the case's call, or `None` if it isn't a call of `scim_cell`.
pub fn answer(case: &Case<'_>, call: &str) -> Option<Result<String, CaseFault>> {
    let call = named(&CALLS, call)?;
    Some(match call {
        CellCall::Id(told) => id_call(case, told),
        CellCall::OrderOfIds => order_of_ids(case),
        CellCall::CopiedText => copied_text(case),
        CellCall::SameText => same_text(case),
        CellCall::CopiedAtom => copied_atom(case),
        CellCall::SameAtom => same_atom(case),
        CellCall::HasType => has_type_call(case),
        CellCall::Place => place(case),
        CellCall::OrderOfPlaces => order_of_places(case),
        CellCall::OrderOfUnits => order_of_units(case),
        CellCall::SubAttributesByPlace => sub_attributes_call(case),
        CellCall::Row(told) => row_call(case, told),
        CellCall::AreValues => are_values_call(case),
        CellCall::SameField => same_field(case),
    })
}

/// Returns the text or the bytes of the id in the argument `text`, or `none` if it isn't an id.
fn id_call(case: &Case<'_>, told: OfId) -> Result<String, CaseFault> {
    let Some(id) = Id::read(case.text("text")?) else {
        return said(case.alloc, "none");
    };
    match told {
        OfId::Text => Ok(id.text(case.alloc)?.into_string()),
        OfId::Bytes => Ok(hex::encode(case.alloc, uuid_of(id).into_bytes())?),
        OfId::Written => {
            let mut buffer = [0; 40];
            said(case.alloc, id.write(&mut buffer))
        }
    }
}

/// Returns the order of two ids, or `none` if one of the arguments isn't an id.
fn order_of_ids(case: &Case<'_>) -> Result<String, CaseFault> {
    let first = Id::read(case.text("text")?);
    let second = Id::read(case.text("other")?);
    let (Some(first), Some(second)) = (first, second) else {
        return said(case.alloc, "none");
    };
    order(case.alloc, first.cmp(&second))
}

fn copied_text(case: &Case<'_>) -> Result<String, CaseFault> {
    let text = Text::new(String::from_str(case.alloc, case.text("text")?)?);
    Ok(text.try_copy(case.alloc)?.into_string())
}

fn same_text(case: &Case<'_>) -> Result<String, CaseFault> {
    let first = Text::copy_of(case.alloc, case.text("text")?)?;
    let second = Text::copy_of(case.alloc, case.text("other")?)?;
    truth(case.alloc, first == second)
}

/// Returns the last cell in an argument.
pub fn cell(case: &Case<'_>, name: &'static str) -> Result<Cell, CaseFault> {
    let mut cells = read_cells(case.alloc, case.text(name)?)?;
    match cells.pop() {
        Some(cell) => Ok(cell),
        None => Err(CaseFault::Missing(name)),
    }
}

fn copied_atom(case: &Case<'_>) -> Result<String, CaseFault> {
    let atom = cell(case, "cell")?.atom.try_copy(case.alloc)?;
    Ok(atom_text(case.alloc, Some(&atom))?)
}

fn same_atom(case: &Case<'_>) -> Result<String, CaseFault> {
    let first = cell(case, "cell")?;
    let second = cell(case, "other")?;
    truth(case.alloc, first.atom == second.atom)
}

/// Whether the atom of the argument `cell` has the type of the argument `leaf`.
fn has_type_call(case: &Case<'_>) -> Result<String, CaseFault> {
    let leaf = case.leaf("leaf")?;
    let cell = cell(case, "cell")?;
    let attribute_type = characteristics_of(case.kind(), leaf).attribute_type;
    truth(case.alloc, has_type(attribute_type, &cell.atom))
}

/// Returns the leaf and the position of a cell.
fn place(case: &Case<'_>) -> Result<String, CaseFault> {
    let place = cell(case, "cell")?.place();
    let path = leaf_text(case.alloc, place.leaf())?;
    let position = shown(case.alloc, &place.position)?;
    beside(case.alloc, path.as_str(), position.as_str())
}

fn order_of_places(case: &Case<'_>) -> Result<String, CaseFault> {
    let first = cell(case, "cell")?.place();
    let second = cell(case, "other")?.place();
    order(case.alloc, first.compare(second))
}

/// Returns the order of the units of two leaves.
fn order_of_units(case: &Case<'_>) -> Result<String, CaseFault> {
    let first = unit_of(case.leaf("leaf")?);
    let second = unit_of(case.leaf("other")?);
    order(case.alloc, compare_units(first, second))
}

/// Returns the names of an attribute's sub-attributes in order of place, with a space after each.
fn sub_attributes_call(case: &Case<'_>) -> Result<String, CaseFault> {
    let leaf = case.leaf("attribute")?;
    let mut text = String::new(case.alloc);
    for sub_attribute in sub_attributes_by_place(leaf.attribute) {
        push_all(&mut text, &[sub_attribute.name(), " "])?;
    }
    Ok(text)
}

fn field_of(cell: Cell) -> Field {
    let Cell { leaf, atom, .. } = cell;
    Field { leaf, atom }
}

/// Reads cells from a text and returns their fields.
fn fields(alloc: Global, text: &str) -> Result<Vec<Field>, CaseFault> {
    let mut fields = Vec::new(alloc);
    for cell in read_cells(alloc, text)? {
        push(&mut fields, field_of(cell))?;
    }
    Ok(fields)
}

/// Reads a row such as `emails.value|emails.type=work`: a leaf of its unit, a `|`, and its cells.
fn row(alloc: Global, text: &str) -> Result<Row, CaseFault> {
    let Some((path, cells)) = text.split_once('|') else {
        return Err(CaseFault::Missing("row"));
    };
    Ok(Row::new(unit_of(read_leaf(path)?), fields(alloc, cells)?))
}

/// Returns the rows in the list `rows`.
pub fn rows(case: &Case<'_>) -> Result<Vec<Row>, CaseFault> {
    let mut rows = Vec::new(case.alloc);
    for value in case.list("rows") {
        if let Some(text) = value.as_str() {
            push(&mut rows, row(case.alloc, text)?)?;
        }
    }
    Ok(rows)
}

/// Returns the result of a call on the row in the argument `row`.
fn row_call(case: &Case<'_>, told: OfRow) -> Result<String, CaseFault> {
    let row = row(case.alloc, case.text("row")?)?;
    told_of_row(case, told, &row)
}

fn told_of_row(case: &Case<'_>, told: OfRow, row: &Row) -> Result<String, CaseFault> {
    match told {
        OfRow::Copied => fields_text(case.alloc, &row.try_copy(case.alloc)?),
        OfRow::CopiedFields => copied_fields(case.alloc, row),
        OfRow::Atom => atom_of_row(case, row),
        OfRow::Same => same_row(case, row),
        OfRow::Restricted => restricted_row(case, row),
    }
}

fn fields_text(alloc: Global, row: &Row) -> Result<String, CaseFault> {
    Ok(row_text(alloc, row)?)
}

/// Copies the fields of the row one by one, and returns the row that they make.
fn copied_fields(alloc: Global, row: &Row) -> Result<String, CaseFault> {
    let mut copies = Vec::new(alloc);
    for field in row.fields() {
        push(&mut copies, field.try_copy(alloc)?)?;
    }
    fields_text(alloc, &Row::new(row.unit(), copies))
}

/// Returns the atom of a row at the argument `leaf`, or `none` if the row has no atom there.
fn atom_of_row(case: &Case<'_>, row: &Row) -> Result<String, CaseFault> {
    let atom = row.get(case.leaf("leaf")?);
    Ok(atom_text(case.alloc, atom)?)
}

fn same_row(case: &Case<'_>, one: &Row) -> Result<String, CaseFault> {
    let other = row(case.alloc, case.text("other")?)?;
    truth(case.alloc, *one == other)
}

/// Returns the row restricted to the sub-attribute of the leaf in the argument `keep`.
fn restricted_row(case: &Case<'_>, row: &Row) -> Result<String, CaseFault> {
    let test = of_sub_attribute(case)?;
    let rest = row.restrict(case.alloc, &test)?;
    fields_text(case.alloc, &rest)
}

/// Whether the rows are values of a leaf's unit.
fn are_values_call(case: &Case<'_>) -> Result<String, CaseFault> {
    let unit = unit_of(case.leaf("leaf")?);
    let rows = rows(case)?;
    truth(case.alloc, are_values(case.kind(), unit, rows.as_slice()))
}

/// Whether the fields of two cells are equal.
fn same_field(case: &Case<'_>) -> Result<String, CaseFault> {
    let first = field_of(cell(case, "cell")?);
    let second = field_of(cell(case, "other")?);
    truth(case.alloc, first == second)
}

/// Returns the test that keeps the sub-attribute of the leaf in the argument `keep`. Fails with `Missing` if
/// the leaf has no sub-attribute.
pub fn of_sub_attribute(case: &Case<'_>) -> Result<OfSubAttribute, CaseFault> {
    match case.leaf("keep")?.sub_attribute {
        Some(sub_attribute) => Ok(OfSubAttribute { sub_attribute }),
        None => Err(CaseFault::Missing("keep")),
    }
}
