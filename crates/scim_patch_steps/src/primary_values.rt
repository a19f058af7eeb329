//! Checks the values after a step, and sets `primary` to false in all values except the chosen one.
ghost use Rattle.std.specs.Prelude.{◌≡◌, Some, IfOk, map, filter, count_by};
ghost use Rattle.std.specs.List.{list_any};
ghost use Rattle.scim_text.specs.Failures.{UnlessMemory};
ghost use Rattle.scim_cell.specs.Rows.{has_fields};
ghost use Rattle.scim_cell.specs.SameValues as lists;
ghost use Rattle.scim_patch_values.specs.declared.positions.Position.{Position};
ghost use Rattle.scim_patch_steps.specs.Steps as spec;
ghost use Rattle.scim_patch_steps.specs.Steps.{rows_answered};

use crate::steps::StepFault;
use scim_cell::{Row, is_nameless};
use scim_patch_values::{Position, demoted};
use scim_schema::{Attribute, MOST_VALUES};
use scim_text::{Failed, NoMemory, push};
use std::alloc::Global;

/// Whether the value has at least one field.
fn has_fields(value: &Row) -> bool
    ensures { result ≡ has_fields value.now }
{
    match value.fields() {
        [] => false,
        [_, ..] => true,
    }
}

/// Removes the positions whose value has no fields.
fn close_up(alloc: Global, positions: Vec<Position>) -> Result<Vec<Position>, NoMemory>
    ensures { IfOk result (λ v. v.items
        ≡ filter (λ (p : Position). has_fields p.value) positions.items) }
{
    let mut left = Vec::with_capacity(alloc, positions.len())?;
    for position in positions {
        if has_fields(&position.value) {
            push(&mut left, position)?;
        }
    }
    Ok(left)
}

/// Returns the number of values that the step chose as primary.
fn count_chosen(positions: &[Position]) -> usize
    ensures { result ≡ count_by (λ (p : Position). p.chosen) positions.now }
{
    positions.iter().filter(|position| position.chosen).count()
}

/// Whether the attribute is `members` and one of the values has no sub-attribute `value`.
fn any_nameless(attribute: Attribute, positions: &[Position]) -> bool
    ensures { result ≡ list_any (λ (p : Position). lists.is_nameless attribute p.value)
        positions.now }
{
    positions
        .iter()
        .any(|position| is_nameless(attribute, &position.value))
}

/// Whether the values are refused: more than one value is chosen as primary, a member has no `value`, or
/// there are over 10,000 values.
fn are_refused(attribute: Attribute, positions: &[Position]) -> bool
    ensures { result ≡ spec.are_refused attribute positions.now }
{
    count_chosen(positions) > 1
        || any_nameless(attribute, positions)
        || positions.len() > MOST_VALUES
}

/// Returns the value of each position, with `primary` set to false in each value that isn't chosen as
/// primary.
fn demote_others(alloc: Global, positions: Vec<Position>) -> Result<Vec<Row>, NoMemory>
    ensures { IfOk result (λ v. v.items ≡ map spec.beside_chosen positions.items) }
{
    let mut values = Vec::with_capacity(alloc, positions.len())?;
    for position in positions {
        let Position { value, chosen } = position;
        let value = if chosen {
            value
        } else {
            demoted(alloc, value)?
        };
        push(&mut values, value)?;
    }
    Ok(values)
}

/// Returns the value of each position, in order.
fn values_of(alloc: Global, positions: Vec<Position>) -> Result<Vec<Row>, NoMemory>
    ensures { IfOk result (λ v. v.items ≡ map (λ (p : Position). p.value) positions.items) }
{
    let mut values = Vec::with_capacity(alloc, positions.len())?;
    for position in positions {
        push(&mut values, position.value)?;
    }
    Ok(values)
}

/// Drops the values without fields after a step, checks the other values, and returns them. If the step chose
/// a primary value, `primary` is set to false in all other values.
///
/// Fails with `Value` if more than one value is chosen as primary, a member has no `value`, or there are over
/// 10,000 values.
pub(crate) fn settle(
    alloc: Global,
    attribute: Attribute,
    positions: Vec<Position>,
) -> Result<Vec<Row>, Failed<StepFault>>
    ensures { UnlessMemory (λ r. rows_answered r
        ≡ spec.settled attribute (Some positions.items)) result }
{
    let positions = close_up(alloc, positions)?;
    if are_refused(attribute, positions.as_slice()) {
        return Err(Failed::Because(StepFault::Value));
    }
    if count_chosen(positions.as_slice()) == 1 {
        Ok(demote_others(alloc, positions)?)
    } else {
        Ok(values_of(alloc, positions)?)
    }
}
