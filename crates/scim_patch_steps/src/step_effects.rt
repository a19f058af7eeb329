//! The table of paths and operations: the effect of each change on the values of its unit.
ghost use Rattle.std.specs.Prelude.{◌≡◌, Some, IfOk, map};
ghost use Rattle.scim_cell.specs.SameValues as lists;
ghost use Rattle.scim_filter_grammar.specs.Tree.{tree_of};
ghost use Rattle.scim_patch_values.specs.Found.{Is};
ghost use Rattle.scim_patch_values.specs.Matches as matches;
ghost use Rattle.scim_patch_steps.specs.Changes.{ReplaceMatches, change_of};
ghost use Rattle.scim_patch_steps.specs.Table as spec;

use crate::changes::StepChange;
use scim_cell::{Field, Row, with_values};
use scim_filter_grammar::Filter;
use scim_patch_values::{
    Position, add_at_matches, clear_at_matches, clear_everywhere, given_primary, is_any_match,
    keep, mark, remove_listed, remove_matches, replace_matches, set_at_matches, set_everywhere,
    value_of,
};
use scim_schema::{Leaf, Unit};
use scim_text::NoMemory;
use scim_value::copy_rows;
use std::alloc::Global;
use std::slice;

/// Applies a change to the values of a unit. Returns each value after the change as a [`Position`]; `None` if
/// the path of the change has no target.
pub(crate) fn row(
    alloc: Global,
    unit: Unit,
    change: &StepChange,
    values: Vec<Row>,
) -> Result<Option<Vec<Position>>, NoMemory>
    ensures { IfOk result (λ o. Is o (spec.row unit (change_of change.now) values.items)) }
{
    match change {
        StepChange::Keep | StepChange::KeepMatches(_) | StepChange::KeepSubAttribute(_) => {
            Ok(Some(keep(alloc, values)?))
        }
        StepChange::Append(given) => append(alloc, unit, given.as_slice(), values),
        StepChange::Replace(given) => append(alloc, unit, given.as_slice(), Vec::new(alloc)),
        StepChange::Clear => Ok(Some(Vec::new(alloc))),
        StepChange::RemoveListed(texts) => {
            let left = remove_listed(alloc, texts.as_slice(), values)?;
            Ok(Some(keep(alloc, left)?))
        }
        StepChange::AddToMatches(filter, given) => {
            add_at_matches(alloc, unit, filter, given.as_slice(), values)
        }
        StepChange::ReplaceMatches(filter, given) => {
            replace_at_matches(alloc, unit, filter, given.as_slice(), values)
        }
        StepChange::RemoveMatches(filter) => {
            let left = remove_matches(alloc, filter, values)?;
            Ok(Some(keep(alloc, left)?))
        }
        StepChange::AddAtMatches(filter, field) => {
            add_at_matches(alloc, unit, filter, slice::from_ref(field), values)
        }
        StepChange::SetAtMatches(filter, field) => {
            replace_field_at_matches(alloc, filter, slice::from_ref(field), values)
        }
        StepChange::ClearAtMatches(filter, sub_attribute) => {
            let left = clear_at_matches(alloc, filter, *sub_attribute, values)?;
            Ok(Some(keep(alloc, left)?))
        }
        StepChange::SetEverywhere(field) => Ok(Some(set_everywhere(
            alloc,
            unit,
            slice::from_ref(field),
            values,
        )?)),
        StepChange::ClearEverywhere(sub_attribute) => {
            let leaf = Leaf::of(unit.attribute, *sub_attribute);
            let left = clear_everywhere(alloc, leaf, values)?;
            Ok(Some(keep(alloc, left)?))
        }
    }
}

/// Appends the given values to the existing values, without duplicates.
/// A value that is the same as a given primary value is chosen as primary.
fn append(
    alloc: Global,
    unit: Unit,
    given: &[Row],
    values: Vec<Row>,
) -> Result<Option<Vec<Position>>, NoMemory>
    ensures { IfOk result (λ o. Is o
        (Some (map (matches.marked unit.attribute (matches.given_primary unit.attribute given.now))
        (lists.with_values unit.attribute values.items given.now)))) }
{
    let primary = given_primary(alloc, unit.attribute, given)?;
    let copies = copy_rows(alloc, given)?;
    let all = with_values(alloc, unit.attribute, values, copies)?;
    Ok(Some(mark(alloc, unit.attribute, primary.as_slice(), all)?))
}

/// Replaces each value that matches the filter by a value with the given fields, and drops duplicates. `None`
/// if no value matches.
fn replace_at_matches(
    alloc: Global,
    unit: Unit,
    filter: &Filter,
    given: &[Field],
    values: Vec<Row>,
) -> Result<Option<Vec<Position>>, NoMemory>
    ensures { IfOk result (λ o. Is o
        (spec.row unit (ReplaceMatches (tree_of filter.now) given.now) values.items)) }
{
    if !is_any_match(alloc, filter, values.as_slice())? {
        return Ok(None);
    }
    let value = value_of(alloc, unit, given)?;
    let primary = given_primary(alloc, unit.attribute, slice::from_ref(&value))?;
    let replaced = replace_matches(alloc, filter, &value, values)?;
    let all = with_values(alloc, unit.attribute, Vec::new(alloc), replaced)?;
    Ok(Some(mark(alloc, unit.attribute, primary.as_slice(), all)?))
}

/// Sets the given fields in each value that matches the filter. `None` if no value matches.
fn replace_field_at_matches(
    alloc: Global,
    filter: &Filter,
    given: &[Field],
    values: Vec<Row>,
) -> Result<Option<Vec<Position>>, NoMemory>
    ensures { IfOk result (λ o. Is o (spec.at_matches (tree_of filter.now) values.items
        (map (matches.set_at_match (tree_of filter.now) given.now) values.items))) }
{
    if !is_any_match(alloc, filter, values.as_slice())? {
        return Ok(None);
    }
    Ok(Some(set_at_matches(alloc, filter, given, values)?))
}
