//! Values after a step, and whether the step made them primary.
ghost use Rattle.std.specs.Prelude.{◌≡◌, IfOk, map, filter};
ghost use Rattle.std.specs.List.{list_any};
ghost use Rattle.scim_cell.specs.Rows.{is_primary};
ghost use Rattle.scim_cell.specs.SameValues as lists;
ghost use Rattle.scim_patch_values.specs.Matches as spec;

use scim_cell::{Row, is_same_value, with_values};
use scim_schema::Attribute;
use scim_text::{NoMemory, push};
use std::alloc::Global;

/// A value after a step, and whether the step chose it as the primary value.
#[derive(Drop)]
pub struct Position {
    pub value: Row,
    pub chosen: bool,
}

/// Returns the values unchanged, with none of them chosen as primary.
pub fn keep(alloc: Global, values: Vec<Row>) -> Result<Vec<Position>, NoMemory>
    ensures { IfOk result (λ v. v.items ≡ map spec.kept values.items) }
{
    let mut positions = Vec::with_capacity(alloc, values.len())?;
    for value in values {
        let position = Position {
            value,
            chosen: false,
        };
        push(&mut positions, position)?;
    }
    Ok(positions)
}

/// Copies the values that are marked as primary.
fn primary_ones(alloc: Global, given: &[Row]) -> Result<Vec<Row>, NoMemory>
    ensures { IfOk result (λ v. v.items ≡ filter is_primary given.now) }
{
    let mut primary = Vec::new(alloc);
    for value in given {
        if value.is_primary() {
            push(&mut primary, value.try_copy(alloc)?)?;
        }
    }
    Ok(primary)
}

/// Copies the given values that are marked as primary, each distinct value once.
pub fn given_primary(
    alloc: Global,
    attribute: Attribute,
    given: &[Row],
) -> Result<Vec<Row>, NoMemory>
    ensures { IfOk result (λ v. v.items ≡ spec.given_primary attribute given.now) }
{
    let primary = primary_ones(alloc, given)?;
    with_values(alloc, attribute, Vec::new(alloc), primary)
}

/// Whether any of `values` is the same value of the attribute as `value`.
fn has_same(attribute: Attribute, values: &[Row], value: &Row) -> bool
    ensures { result ≡ list_any (λ other.
        lists.is_same_value attribute other value.now) values.now }
{
    values
        .iter()
        .any(|other| is_same_value(attribute, other, value))
}

/// Returns the values unchanged. A value is chosen as primary if it is the same as one of `primary`.
/// Takes time in proportion to the product of both lengths; `primary` has at most one element in practice,
/// since a step that gives two different primary values is refused earlier.
pub fn mark(
    alloc: Global,
    attribute: Attribute,
    primary: &[Row],
    values: Vec<Row>,
) -> Result<Vec<Position>, NoMemory>
    ensures { IfOk result (λ v. v.items ≡ map (spec.marked attribute primary.now) values.items) }
{
    let mut positions = Vec::with_capacity(alloc, values.len())?;
    for value in values {
        let chosen = has_same(attribute, primary, &value);
        push(&mut positions, Position { value, chosen })?;
    }
    Ok(positions)
}
