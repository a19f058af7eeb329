//! Changes sub-attributes of every value of an attribute.
ghost use Rattle.std.specs.Prelude.{◌≡◌, IfOk, map};
ghost use Rattle.scim_cell.specs.Rows.{is_primary};
ghost use Rattle.scim_patch_values.specs.Fields.{row_without};
ghost use Rattle.scim_patch_values.specs.Matches as spec;

use crate::fields::{row_over, row_without};
use crate::positions::Position;
use scim_cell::{Atom, Field, Row};
use scim_schema::{Leaf, SubAttribute, Unit};
use scim_text::{NoMemory, push};
use std::alloc::Global;

/// Returns a value of the unit with copies of these fields, in their order.
pub fn value_of(alloc: Global, unit: Unit, fields: &[Field]) -> Result<Row, NoMemory>
    ensures { IfOk result (λ r. r ≡ spec.value_of unit fields.now) }
{
    let mut copies = Vec::with_capacity(alloc, fields.len())?;
    for field in fields {
        push(&mut copies, field.try_copy(alloc)?)?;
    }
    Ok(Row::new(unit, copies))
}

/// Returns the [`Position`] of a value that the step made. It is chosen as primary if its `primary` is true.
pub(crate) fn made(value: Row) -> Position
    ensures { result ≡ spec.made value }
{
    let chosen = value.is_primary();
    Position { value, chosen }
}

/// Sets the given fields in each value, or makes one value with these fields if there are no values.
/// Each value is chosen as primary if the given fields set `primary` to true.
pub fn set_everywhere(
    alloc: Global,
    unit: Unit,
    given: &[Field],
    values: Vec<Row>,
) -> Result<Vec<Position>, NoMemory>
    ensures { IfOk result (λ v. v.items ≡ spec.set_everywhere unit given.now values.items) }
{
    if values.is_empty() {
        let value = value_of(alloc, unit, given)?;
        let mut positions = Vec::with_capacity(alloc, 1)?;
        push(&mut positions, made(value))?;
        return Ok(positions);
    }
    set_each(alloc, given, values)
}

/// Sets the given fields in each value.
fn set_each(alloc: Global, given: &[Field], values: Vec<Row>) -> Result<Vec<Position>, NoMemory>
    ensures { IfOk result (λ v. v.items ≡ map (spec.set_over given.now) values.items) }
{
    let mut positions = Vec::with_capacity(alloc, values.len())?;
    for value in values {
        push(&mut positions, set_over(alloc, given, value)?)?;
    }
    Ok(positions)
}

/// Sets copies of the given fields in the value. The value is chosen as primary if the given fields set
/// `primary` to true.
pub(crate) fn set_over(alloc: Global, given: &[Field], value: Row) -> Result<Position, NoMemory>
    ensures { IfOk result (λ p. p ≡ spec.set_over given.now value) }
{
    let chosen = says_primary(value.unit(), given);
    let value = row_over(alloc, given, value)?;
    Ok(Position { value, chosen })
}

/// Whether the fields, as fields of a value of the unit, set `primary` to true.
fn says_primary(unit: Unit, fields: &[Field]) -> bool
    ensures { result ≡ is_primary (spec.value_of unit fields.now) }
{
    let leaf = Leaf::of(unit.attribute, SubAttribute::Primary);
    for field in fields {
        if field.leaf == leaf {
            return field.atom == Atom::Truth(true);
        }
    }
    false
}

/// Removes the field of a leaf from each value. A value that has no other fields is kept
/// as a value without fields.
pub fn clear_everywhere(alloc: Global, leaf: Leaf, values: Vec<Row>) -> Result<Vec<Row>, NoMemory>
    ensures { IfOk result (λ v. v.items ≡ map (row_without leaf) values.items) }
{
    let mut left = Vec::with_capacity(alloc, values.len())?;
    for value in values {
        push(&mut left, row_without(leaf, value))?;
    }
    Ok(left)
}
