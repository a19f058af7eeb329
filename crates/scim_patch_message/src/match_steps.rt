//! The steps of an operation whose path names a sub-attribute, or values that match a filter (RFC 7644
//! section 3.5.2).
//! Each function appends the steps to `reading`, or records a fault in it. `value` is `None` if the operation
//! has the value null or `[]`, or is a remove without a value.
ghost use Rattle.std.specs.Prelude.{◌≡◌, OnOk, Ok, option_map};
ghost use Rattle.scim_body.specs.View.{view};
ghost use Rattle.scim_filter_grammar.specs.Tree.{tree_of};
ghost use Rattle.scim_patch_steps.specs.Changes.{change_of};
ghost use Rattle.scim_patch_message.specs.PathSteps as spec;
ghost use Rattle.scim_patch_message.specs.Readings.{both};
ghost use Rattle.scim_patch_message.specs.code.Inside.{read_of};

use crate::faults::PatchFault;
use crate::message_readings::Reading;
use crate::operations::Operation;
use scim_body::{Tree, WrongValue, field_given, read_field, read_fields, value_clashes};
use scim_filter_grammar::Filter;
use scim_patch_steps::StepChange;
use scim_schema::{
    Attribute, Kind, Leaf, SubAttribute, Unit, is_multi_valued, is_read_only, unit_of,
};
use scim_text::{Failed, NoMemory};
use std::alloc::Global;

/// Returns the change that leaves a sub-attribute unchanged.
fn sub_attribute_kept(attribute: Attribute, sub_attribute: SubAttribute) -> StepChange
    ensures { change_of result ≡ spec.sub_attribute_kept attribute sub_attribute }
{
    if is_multi_valued(attribute) {
        StepChange::KeepSubAttribute(sub_attribute)
    } else {
        StepChange::Keep
    }
}

/// Returns the change that removes a sub-attribute. If the attribute is multi-valued, the change removes the
/// sub-attribute from each value.
fn sub_attribute_cleared(attribute: Attribute, sub_attribute: SubAttribute) -> StepChange
    ensures { change_of result ≡ spec.sub_attribute_cleared attribute sub_attribute }
{
    if is_multi_valued(attribute) {
        StepChange::ClearEverywhere(sub_attribute)
    } else {
        StepChange::Clear
    }
}

/// Appends the step that sets a sub-attribute to `value`; if the attribute is multi-valued, in each of its
/// values. Records the fault `Value` if `value` is wrong.
fn push_sub_attribute_set(
    alloc: Global,
    kind: Kind,
    attribute: Attribute,
    sub_attribute: SubAttribute,
    value: &Tree<'_>,
    reading: &mut Reading,
) -> Result<(), NoMemory>
    ensures { OnOk result (read_of reading.new ≡ both (read_of reading.old)
        (spec.sub_attribute_given kind Operation.Add attribute sub_attribute (view value.now))) }
{
    let field = match read_field(alloc, value, kind, attribute, sub_attribute) {
        Ok(field) => field,
        Err(Failed::Because(WrongValue)) => {
            reading.refuse(PatchFault::Value);
            return Ok(());
        }
        Err(Failed::NoMemory) => return Err(NoMemory),
    };
    if is_multi_valued(attribute) {
        return reading.push(Unit::whole(attribute), StepChange::SetEverywhere(field));
    }
    let given = field_given(alloc, field)?;
    reading.push(given.unit, StepChange::Replace(given.values))
}

/// Appends the step of an operation whose target is a sub-attribute. For a readOnly sub-attribute the value
/// isn't read, and the step is refused when the patch is applied.
#[tactic(auto, unfolding(crate::specs::PathSteps::sub_attribute_steps))]
pub(crate) fn push_sub_attribute(
    alloc: Global,
    kind: Kind,
    operation: Operation,
    attribute: Attribute,
    sub_attribute: SubAttribute,
    value: Option<&Tree<'_>>,
    reading: &mut Reading,
) -> Result<(), NoMemory>
    ensures { OnOk result (read_of reading.new ≡ both (read_of reading.old)
        (spec.sub_attribute_steps kind operation attribute sub_attribute
        (option_map (λ v. view v.now) value.entry))) }
{
    let leaf = Leaf::of(attribute, sub_attribute);
    let unit = unit_of(leaf);
    if is_read_only(kind, leaf) {
        return reading.push(unit, sub_attribute_kept(attribute, sub_attribute));
    }
    match (operation, value) {
        (Operation::Add | Operation::Replace, Some(value)) => {
            push_sub_attribute_set(alloc, kind, attribute, sub_attribute, value, reading)
        }
        (Operation::Add, None) => reading.push(unit, sub_attribute_kept(attribute, sub_attribute)),
        (Operation::Remove, _) | (Operation::Replace, None) => {
            reading.push(unit, sub_attribute_cleared(attribute, sub_attribute))
        }
    }
}

/// Appends the step that replaces each value that matches the filter by `value` if `replaces` is true, or
/// else sets the sub-attributes of `value` in each match. Records the fault `Syntax` if two keys of `value`
/// name one sub-attribute, or else `Value` if `value` is wrong or a list.
fn push_matches_given(
    alloc: Global,
    kind: Kind,
    replaces: bool,
    attribute: Attribute,
    filter: Filter,
    value: &Tree<'_>,
    reading: &mut Reading,
) -> Result<(), NoMemory>
    ensures { OnOk result (read_of reading.new ≡ both (read_of reading.old)
        (spec.matches_set kind replaces attribute (tree_of filter) (view value.now))) }
{
    if value_clashes(value, attribute) {
        reading.refuse(PatchFault::Syntax);
        return Ok(());
    }
    match read_fields(alloc, value, kind, attribute) {
        Ok(fields) if replaces => {
            reading.push(
                Unit::whole(attribute),
                StepChange::ReplaceMatches(filter, fields),
            )
        }
        Ok(fields) => reading.push(
            Unit::whole(attribute),
            StepChange::AddToMatches(filter, fields),
        ),
        Err(Failed::Because(WrongValue)) => {
            reading.refuse(PatchFault::Value);
            Ok(())
        }
        Err(Failed::NoMemory) => Err(NoMemory),
    }
}

/// Appends the step of an operation whose target is the values that match a filter. For a readOnly attribute
/// the value isn't read, and the step is refused when the patch is applied.
#[tactic(auto, unfolding(crate::specs::PathSteps::matches_steps))]
pub(crate) fn push_matches(
    alloc: Global,
    kind: Kind,
    operation: Operation,
    attribute: Attribute,
    filter: Filter,
    value: Option<&Tree<'_>>,
    reading: &mut Reading,
) -> Result<(), NoMemory>
    ensures { OnOk result (read_of reading.new ≡ both (read_of reading.old)
        (spec.matches_steps kind operation attribute (tree_of filter)
        (option_map (λ v. view v.now) value.entry))) }
{
    let unit = Unit::whole(attribute);
    if is_read_only(kind, Leaf::simple(attribute)) {
        return reading.push(unit, StepChange::Keep);
    }
    match (operation, value) {
        (Operation::Add, Some(value)) => {
            push_matches_given(alloc, kind, false, attribute, filter, value, reading)
        }
        (Operation::Replace, Some(value)) => {
            push_matches_given(alloc, kind, true, attribute, filter, value, reading)
        }
        (Operation::Add, None) => reading.push(unit, StepChange::KeepMatches(filter)),
        (Operation::Remove, _) | (Operation::Replace, None) => {
            reading.push(unit, StepChange::RemoveMatches(filter))
        }
    }
}

/// Appends the step that sets a sub-attribute to `value` in each value of the attribute that matches the
/// filter. The step is a replace if `replaces` is true, or else an add. Records the fault `Value` if `value`
/// is wrong.
fn push_at_matches_given(
    alloc: Global,
    kind: Kind,
    replaces: bool,
    attribute: Attribute,
    filter: Filter,
    sub_attribute: SubAttribute,
    value: &Tree<'_>,
    reading: &mut Reading,
) -> Result<(), NoMemory>
    ensures { OnOk result (read_of reading.new ≡ both (read_of reading.old)
        (spec.at_matches_set kind replaces attribute (tree_of filter) sub_attribute
        (view value.now))) }
{
    match read_field(alloc, value, kind, attribute, sub_attribute) {
        Ok(field) if replaces => {
            reading.push(
                Unit::whole(attribute),
                StepChange::SetAtMatches(filter, field),
            )
        }
        Ok(field) => reading.push(
            Unit::whole(attribute),
            StepChange::AddAtMatches(filter, field),
        ),
        Err(Failed::Because(WrongValue)) => {
            reading.refuse(PatchFault::Value);
            Ok(())
        }
        Err(Failed::NoMemory) => Err(NoMemory),
    }
}

/// Appends the step of an operation whose target is a sub-attribute of the values that match a filter. For a
/// readOnly sub-attribute the value isn't read, and the step is refused when the patch is applied.
#[tactic(auto, unfolding(crate::specs::PathSteps::at_matches_steps))]
pub(crate) fn push_at_matches(
    alloc: Global,
    kind: Kind,
    operation: Operation,
    attribute: Attribute,
    filter: Filter,
    sub_attribute: SubAttribute,
    value: Option<&Tree<'_>>,
    reading: &mut Reading,
) -> Result<(), NoMemory>
    ensures { OnOk result (read_of reading.new ≡ both (read_of reading.old)
        (spec.at_matches_steps kind operation attribute (tree_of filter) sub_attribute
        (option_map (λ v. view v.now) value.entry))) }
{
    let unit = Unit::whole(attribute);
    if is_read_only(kind, Leaf::of(attribute, sub_attribute)) {
        return reading.push(unit, StepChange::KeepSubAttribute(sub_attribute));
    }
    match (operation, value) {
        (Operation::Add, Some(value)) => push_at_matches_given(
            alloc,
            kind,
            false,
            attribute,
            filter,
            sub_attribute,
            value,
            reading,
        ),
        (Operation::Replace, Some(value)) => push_at_matches_given(
            alloc,
            kind,
            true,
            attribute,
            filter,
            sub_attribute,
            value,
            reading,
        ),
        (Operation::Add, None) => reading.push(unit, StepChange::KeepSubAttribute(sub_attribute)),
        (Operation::Remove, _) | (Operation::Replace, None) => {
            reading.push(unit, StepChange::ClearAtMatches(filter, sub_attribute))
        }
    }
}
