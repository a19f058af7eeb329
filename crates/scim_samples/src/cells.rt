//! Reads and prints cells as text.
//!
//! Cells are separated by `;`, as in `userName=babs; emails[0].value=babs@example.com; active=#true;
//! meta.created=@2024-01-01T00:00:00Z`. A value that begins with `#` is a Boolean, and a value that begins
//! with `@` is a moment. `~5` is a text of five letters `x`. Any other value is a text. The position `[0..3]`
//! means one cell at each of the positions 0, 1 and 2.
use crate::faults::SampleFault;
use crate::texts::{joined, push_all};
use scim_cell::{Atom, Cell, Field, Row, Text};
use scim_schema::{Attribute, Kind, Leaf, attribute_named, is_multi_valued, sub_attribute_named};
use scim_text::{Moment, NoMemory, print_moment, push, read_printed_moment};
use scim_value::Part;
use std::alloc::Global;
use std::ops::Range;

/// Reads the path of a leaf, such as `emails.value`. Fails with `NoSuchLeaf` if the path doesn't name a leaf.
///
/// The attribute may be one of a user or of a group. Any attribute may have the sub-attributes of `name`, so
/// `emails.familyName` is accepted, though no kind has this leaf.
pub fn read_leaf(path: &str) -> Result<Leaf, SampleFault> {
    let (name, sub_name) = path.split_once('.').unwrap_or((path, ""));
    let attribute = attribute_named(Kind::User, name)
        .or(attribute_named(Kind::Group, name))
        .ok_or(SampleFault::NoSuchLeaf)?;
    let sub_attribute = sub_attribute_named(attribute, sub_name).or(sub_attribute_named(
        Attribute::Name,
        sub_name,
    ));
    if sub_attribute.is_none() && !sub_name.is_empty() {
        return Err(SampleFault::NoSuchLeaf);
    }
    Ok(Leaf {
        attribute,
        sub_attribute,
    })
}

/// Reads the cells in a text. Returns them in the order of the text.
pub fn read_cells(alloc: Global, text: &str) -> Result<Vec<Cell>, SampleFault> {
    let mut cells = Vec::new(alloc);
    for piece in text.split(';') {
        let piece = piece.trim();
        if !piece.is_empty() {
            push_cells(alloc, &mut cells, piece)?;
        }
    }
    Ok(cells)
}

/// Reads `ATTRIBUTE[POSITIONS].SUB=VALUE`, and appends one cell for each position to `cells`.
fn push_cells(alloc: Global, cells: &mut Vec<Cell>, text: &str) -> Result<(), SampleFault> {
    let Some((path, value)) = text.split_once('=') else {
        return Err(SampleFault::NotACell);
    };
    let (name, rest) = path.split_once('[').unwrap_or((path, ""));
    let (positions, sub_name) = rest.split_once(']').unwrap_or(("0", ""));
    let leaf = leaf_at(alloc, name, sub_name)?;
    for position in read_positions(positions)? {
        let cell = Cell {
            leaf,
            position,
            atom: read_atom(alloc, value)?,
        };
        push(cells, cell)?;
    }
    Ok(())
}

/// Reads the leaf of an attribute. `sub_name` is the rest of the path after the positions, such as `.value`.
fn leaf_at(alloc: Global, name: &str, sub_name: &str) -> Result<Leaf, SampleFault> {
    let path = joined(alloc, &[name, sub_name])?;
    read_leaf(path.as_str())
}

/// Reads a position, such as `3`, or a range of positions, such as `0..3`.
fn read_positions(text: &str) -> Result<Range<usize>, SampleFault> {
    match text.split_once("..") {
        Some((first, end)) => Ok(read_number(first)?..read_number(end)?),
        None => {
            let position = read_number(text)?;
            Ok(position..position.saturating_add(1))
        }
    }
}

/// Reads a number in decimal digits. Fails with `NotACell` if the text isn't a number.
fn read_number(text: &str) -> Result<usize, SampleFault> {
    match text.parse::<usize>() {
        Ok(number) => Ok(number),
        Err(_) => Err(SampleFault::NotACell),
    }
}

/// Reads the value of a cell.
fn read_atom(alloc: Global, value: &str) -> Result<Atom, SampleFault> {
    if let Some(truth) = value.strip_prefix("#") {
        return Ok(Atom::Truth(truth == "true"));
    }
    if let Some(moment) = value.strip_prefix("@") {
        return Ok(Atom::Moment(read_moment(alloc, moment)?));
    }
    if let Some(length) = value.strip_prefix("~") {
        return long_text(alloc, read_number(length)?);
    }
    Ok(Atom::Text(Text::copy_of(alloc, value)?))
}

/// Reads a moment, such as `2024-01-01T00:00:00Z`, or a number of seconds since 1970-01-01T00:00:00Z.
fn read_moment(alloc: Global, text: &str) -> Result<Moment, SampleFault> {
    match text.parse::<i64>() {
        Ok(second) => Moment::new(second).ok_or(SampleFault::NotACell),
        Err(_) => read_printed_moment(alloc, text)?.ok_or(SampleFault::NotACell),
    }
}

/// Returns a text of `length` letters `x`.
fn long_text(alloc: Global, length: usize) -> Result<Atom, SampleFault> {
    let mut text = String::new(alloc);
    for _ in 0..length {
        text.push('x')?;
    }
    Ok(Atom::Text(Text::new(text)))
}

/// Returns an atom as text, in the form of a cell's value, or `none` if `atom` is `None`.
pub fn atom_text(alloc: Global, atom: Option<&Atom>) -> Result<String, NoMemory> {
    let mut text = String::new(alloc);
    match atom {
        Some(atom) => push_atom(alloc, atom, &mut text)?,
        None => text.push_str("none")?,
    }
    Ok(text)
}

/// Appends an atom as text, in the form of a cell's value.
fn push_atom(alloc: Global, atom: &Atom, text: &mut String) -> Result<(), NoMemory> {
    match atom {
        Atom::Text(own) => Ok(text.push_str(own.as_str())?),
        Atom::Truth(truth) => Ok(text.push_str(if *truth { "#true" } else { "#false" })?),
        Atom::Moment(moment) => {
            let printed = print_moment(alloc, *moment)?;
            push_all(text, &["@", printed.as_str()])
        }
    }
}

/// Returns the path of a leaf, such as `emails.value`.
pub fn leaf_text(alloc: Global, leaf: Leaf) -> Result<String, NoMemory> {
    let mut text = String::from_str(alloc, leaf.attribute.name())?;
    push_sub_attribute(leaf, &mut text)?;
    Ok(text)
}

/// Appends a dot and the sub-attribute of a leaf, if it has one.
fn push_sub_attribute(leaf: Leaf, text: &mut String) -> Result<(), NoMemory> {
    match leaf.sub_attribute {
        Some(sub_attribute) => push_all(text, &[".", sub_attribute.name()]),
        None => Ok(()),
    }
}

/// Appends a cell as text. The position is printed only if the attribute is multi-valued.
fn push_cell(alloc: Global, cell: &Cell, text: &mut String) -> Result<(), NoMemory> {
    text.push_str(cell.leaf.attribute.name())?;
    if is_multi_valued(cell.leaf.attribute) {
        text.push('[')?;
        text.write(cell.position)?;
        text.push(']')?;
    }
    push_sub_attribute(cell.leaf, text)?;
    text.push('=')?;
    push_atom(alloc, &cell.atom, text)
}

/// Returns the cells of a part as text, in the form that [`read_cells`] reads and in the order of
/// [`Part::cells`].
pub fn part_text(alloc: Global, part: &Part) -> Result<String, NoMemory> {
    let cells = part.cells(alloc)?;
    let mut text = String::new(alloc);
    for cell in cells.as_slice() {
        if !text.is_empty() {
            text.push_str("; ")?;
        }
        push_cell(alloc, cell, &mut text)?;
    }
    Ok(text)
}

/// Returns a row as its attribute and its fields, such as `emails .value=b .type=work`.
pub fn row_text(alloc: Global, row: &Row) -> Result<String, NoMemory> {
    let mut text = String::from_str(alloc, row.unit().attribute.name())?;
    for field in row.fields() {
        push_field(alloc, field, &mut text)?;
    }
    Ok(text)
}

/// Appends a field as text, such as ` .value=b`, or ` .=b` if it has no sub-attribute.
fn push_field(alloc: Global, field: &Field, text: &mut String) -> Result<(), NoMemory> {
    let name = match field.leaf.sub_attribute {
        Some(sub_attribute) => sub_attribute.name(),
        None => "",
    };
    push_all(text, &[" .", name, "="])?;
    push_atom(alloc, &field.atom, text)
}
