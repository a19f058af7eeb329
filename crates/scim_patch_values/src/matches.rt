//! Changes the values that match the filter of a path.
ghost use Rattle.std.specs.Prelude.{◌≡◌, IfOk, filter, map, not};
ghost use Rattle.scim_filter_grammar.specs.Tree.{tree_of};
ghost use Rattle.scim_filter.specs.Truth.{truth_in_value};
ghost use Rattle.scim_patch_values.specs.Found.{Is};
ghost use Rattle.scim_patch_values.specs.Matches as spec;

use crate::described_values::described;
use crate::everywhere::{made, set_over};
use crate::fields::{over, row_without};
use crate::positions::{Position, keep};
use scim_cell::{Field, Row};
use scim_filter::holds_of;
use scim_filter_grammar::Filter;
use scim_schema::{Leaf, SubAttribute, Unit};
use scim_text::{NoMemory, push};
use std::alloc::Global;

/// Whether any value matches the filter of a value path.
pub fn is_any_match(alloc: Global, matching: &Filter, values: &[Row]) -> Result<bool, NoMemory>
    ensures { IfOk result (λ b. b ≡ spec.is_any_match (tree_of matching.now) values.now) }
{
    for value in values {
        if holds_of(alloc, matching, value)? {
            return Ok(true);
        }
    }
    Ok(false)
}

/// Sets the given fields in each value that matches the filter. Each match is chosen as primary if the given
/// fields set `primary` to true.
pub fn set_at_matches(
    alloc: Global,
    matching: &Filter,
    given: &[Field],
    values: Vec<Row>,
) -> Result<Vec<Position>, NoMemory>
    ensures { IfOk result (λ v. v.items
        ≡ map (spec.set_at_match (tree_of matching.now) given.now) values.items) }
{
    let mut positions = Vec::with_capacity(alloc, values.len())?;
    for value in values {
        let position = if holds_of(alloc, matching, &value)? {
            set_over(alloc, given, value)?
        } else {
            Position {
                value,
                chosen: false,
            }
        };
        push(&mut positions, position)?;
    }
    Ok(positions)
}

/// Replaces each value that matches the filter by a copy of `given`.
pub fn replace_matches(
    alloc: Global,
    matching: &Filter,
    given: &Row,
    values: Vec<Row>,
) -> Result<Vec<Row>, NoMemory>
    ensures { IfOk result (λ v. v.items
        ≡ map (spec.replaced_at_match (tree_of matching.now) given.now) values.items) }
{
    let mut left = Vec::with_capacity(alloc, values.len())?;
    for value in values {
        let value = if holds_of(alloc, matching, &value)? {
            given.try_copy(alloc)?
        } else {
            value
        };
        push(&mut left, value)?;
    }
    Ok(left)
}

/// Removes the values that match the filter. The other values keep their order.
pub fn remove_matches(
    alloc: Global,
    matching: &Filter,
    values: Vec<Row>,
) -> Result<Vec<Row>, NoMemory>
    ensures { IfOk result (λ v. v.items
        ≡ filter (λ value. not (truth_in_value (tree_of matching.now) value)) values.items) }
{
    let mut left = Vec::new(alloc);
    for value in values {
        if !holds_of(alloc, matching, &value)? {
            push(&mut left, value)?;
        }
    }
    Ok(left)
}

/// Removes a sub-attribute from each value that matches the filter. A match that has no other fields is kept
/// as a value without fields.
pub fn clear_at_matches(
    alloc: Global,
    matching: &Filter,
    sub_attribute: SubAttribute,
    values: Vec<Row>,
) -> Result<Vec<Row>, NoMemory>
    ensures { IfOk result (λ v. v.items
        ≡ map (spec.cleared_at_match (tree_of matching.now) sub_attribute) values.items) }
{
    let mut left = Vec::with_capacity(alloc, values.len())?;
    for value in values {
        let value = if holds_of(alloc, matching, &value)? {
            row_without(Leaf::of(value.unit().attribute, sub_attribute), value)
        } else {
            value
        };
        push(&mut left, value)?;
    }
    Ok(left)
}

/// Sets the given fields in each value that matches the filter, or appends a new value if none matches.
/// The new value has the fields that the filter describes, overridden by the given fields, and is chosen as
/// primary if its `primary` is true. A match is chosen as primary if the given fields set `primary` to true.
///
/// Returns `None` and drops the values if no value matches and the filter describes no value. Only a
/// conjunction of equalities, each on a different sub-attribute, describes a value.
pub fn add_at_matches(
    alloc: Global,
    unit: Unit,
    matching: &Filter,
    given: &[Field],
    values: Vec<Row>,
) -> Result<Option<Vec<Position>>, NoMemory>
    ensures { IfOk result (λ o. Is o
        (spec.added_at_matches unit (tree_of matching.now) given.now values.items)) }
{
    if is_any_match(alloc, matching, values.as_slice())? {
        return Ok(Some(set_at_matches(alloc, matching, given, values)?));
    }
    let Some(fields) = described(alloc, unit.attribute, matching)? else {
        return Ok(None);
    };
    let own = over(alloc, fields.as_slice(), Vec::new(alloc))?;
    let value = Row::new(unit, over(alloc, given, own)?);
    let mut positions = keep(alloc, values)?;
    positions.push(made(value))?;
    Ok(Some(positions))
}
