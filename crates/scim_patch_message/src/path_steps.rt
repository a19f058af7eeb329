//! The steps of an operation whose path names an attribute (RFC 7644 section 3.5.2).
//! Each function appends the steps to `reading`, or records a fault in it. `value` is `None` if the operation
//! has the value null or `[]`, or is a remove without a value.
ghost use Rattle.std.specs.Prelude.{◌≡◌, ◌∷◌, [], IfOk, OnOk, Ok, map, option_map};
ghost use Rattle.std.specs.List.{flat_map};
ghost use Rattle.scim_body.specs.View.{view};
ghost use Rattle.scim_schema.specs.JsonKeys.{shape_of as shape_in};
ghost use Rattle.scim_patch_steps.specs.Changes.{change_of};
ghost use Rattle.scim_patch_message.specs.PathSteps as spec;
ghost use Rattle.scim_patch_message.specs.Readings.{both, joined};
ghost use Rattle.scim_patch_message.specs.code.Inside.{read_of};

use crate::faults::PatchFault;
use crate::message_readings::Reading;
use crate::operations::Operation;
use scim_body::{Tree, WrongValue, read_listed, read_units, values_clash};
use scim_cell::{Atom, Row, Text};
use scim_patch_steps::StepChange;
use scim_schema::{
    Attribute, JsonShape, Kind, Leaf, Mutability, SubAttribute, Unit, is_multi_valued,
    is_read_only, mutability_of, shape_of, sub_attributes, unit_of,
};
use scim_text::{Failed, NoMemory, push};
use std::alloc::Global;

/// Appends a step that leaves the attribute unchanged, or no step if the attribute is single-valued and
/// complex.
fn push_kept(attribute: Attribute, reading: &mut Reading) -> Result<(), NoMemory>
    ensures { OnOk result (read_of reading.new
        ≡ both (read_of reading.old) (Ok (spec.kept_steps attribute (shape_in attribute)))) }
{
    match shape_of(attribute) {
        JsonShape::Complex => Ok(()),
        JsonShape::Simple | JsonShape::MultiValued => {
            reading.push(Unit::whole(attribute), StepChange::Keep)
        }
    }
}

/// Appends the step that clears the unit. Appends nothing if the unit is readOnly.
fn push_unit_cleared(kind: Kind, unit: Unit, reading: &mut Reading) -> Result<(), NoMemory>
    ensures { OnOk result (read_of reading.new
        ≡ both (read_of reading.old) (spec.unit_cleared kind unit)) }
{
    if mutability_of(kind, unit) == Mutability::ReadOnly {
        return Ok(());
    }
    reading.push(unit, StepChange::Clear)
}

/// Appends the steps that clear these sub-attributes of a single-valued attribute, except readOnly ones.
fn push_sub_attributes_cleared(
    kind: Kind,
    attribute: Attribute,
    sub_attributes: &[SubAttribute],
    reading: &mut Reading,
) -> Result<(), NoMemory>
    ensures { OnOk result (read_of reading.new ≡ both (read_of reading.old)
        (joined (map (spec.sub_attribute_cleared_at kind attribute) sub_attributes.now))) }
{
    for sub_attribute in sub_attributes {
        push_unit_cleared(kind, unit_of(Leaf::of(attribute, *sub_attribute)), reading)?;
    }
    Ok(())
}

/// Appends the steps that clear each unit of an attribute, except readOnly ones, in schema order.
fn push_cleared(kind: Kind, attribute: Attribute, reading: &mut Reading) -> Result<(), NoMemory>
    ensures { OnOk result (read_of reading.new
        ≡ both (read_of reading.old) (spec.cleared kind attribute)) }
{
    if is_multi_valued(attribute) {
        return push_unit_cleared(kind, Unit::whole(attribute), reading);
    }
    let own = sub_attributes(attribute);
    if own.is_empty() {
        return push_unit_cleared(kind, unit_of(Leaf::simple(attribute)), reading);
    }
    push_sub_attributes_cleared(kind, attribute, own, reading)
}

/// Appends the steps of an operation without a value whose target is an attribute. An add leaves the
/// attribute unchanged; a replace or remove clears it.
fn push_emptied(
    kind: Kind,
    operation: Operation,
    attribute: Attribute,
    reading: &mut Reading,
) -> Result<(), NoMemory>
    ensures { OnOk result (read_of reading.new
        ≡ both (read_of reading.old) (spec.emptied kind operation attribute)) }
{
    match operation {
        Operation::Add => push_kept(attribute, reading),
        Operation::Replace | Operation::Remove => push_cleared(kind, attribute, reading),
    }
}

/// Appends the steps that set a single-valued attribute to a value. Records the fault `Syntax` if two keys of
/// the value name one sub-attribute, or else `Value` if the value is wrong.
fn push_set(
    alloc: Global,
    kind: Kind,
    attribute: Attribute,
    value: &Tree<'_>,
    reading: &mut Reading,
) -> Result<(), NoMemory>
    ensures { OnOk result (read_of reading.new ≡ both (read_of reading.old)
        (spec.value_read_of attribute (view value.now)
        (spec.set_units kind attribute (view value.now)))) }
{
    if values_clash(value, attribute) {
        reading.refuse(PatchFault::Syntax);
        return Ok(());
    }
    match read_units(alloc, value, kind, attribute) {
        Ok(given) => reading.set_units(given),
        Err(Failed::Because(WrongValue)) => {
            reading.refuse(PatchFault::Value);
            Ok(())
        }
        Err(Failed::NoMemory) => Err(NoMemory),
    }
}

/// Returns the text of the sub-attribute `value` of each of `values`, in order. Skips values without such a
/// text.
fn value_texts(alloc: Global, attribute: Attribute, values: &[Row]) -> Result<Vec<Text>, NoMemory>
    ensures { IfOk result (λ v. v.items ≡ flat_map (spec.value_text attribute) values.now) }
{
    let leaf = Leaf::of(attribute, SubAttribute::Value);
    let mut texts = Vec::new(alloc);
    for value in values {
        if let Some(Atom::Text(text)) = value.get(leaf) {
            push(&mut texts, text.try_copy(alloc)?)?;
        }
    }
    Ok(texts)
}

/// Returns the change that an operation with these values makes to a multi-valued attribute. An add appends
/// the values, a replace sets them, and a remove removes the values that have the same `value`.
fn listed_change(
    alloc: Global,
    operation: Operation,
    attribute: Attribute,
    values: Vec<Row>,
) -> Result<StepChange, NoMemory>
    ensures { IfOk result (λ c. change_of c ≡ spec.listed_change operation attribute values.items) }
{
    Ok(match operation {
        Operation::Add => StepChange::Append(values),
        Operation::Replace => StepChange::Replace(values),
        Operation::Remove => {
            StepChange::RemoveListed(value_texts(alloc, attribute, values.as_slice())?)
        }
    })
}

/// Appends the step of an operation with a value or a list of values whose target is a multi-valued
/// attribute. Records the fault `Syntax` if two keys of one value name one sub-attribute, or else `Value` if
/// a value is wrong.
fn push_listed(
    alloc: Global,
    kind: Kind,
    operation: Operation,
    attribute: Attribute,
    value: &Tree<'_>,
    reading: &mut Reading,
) -> Result<(), NoMemory>
    ensures { OnOk result (read_of reading.new ≡ both (read_of reading.old)
        (spec.value_read_of attribute (view value.now)
        (spec.listed_steps kind operation attribute (view value.now)))) }
{
    if values_clash(value, attribute) {
        reading.refuse(PatchFault::Syntax);
        return Ok(());
    }
    match read_listed(alloc, value, kind, attribute) {
        Ok(values) => {
            let change = listed_change(alloc, operation, attribute, values)?;
            reading.push(Unit::whole(attribute), change)
        }
        Err(Failed::Because(WrongValue)) => {
            reading.refuse(PatchFault::Value);
            Ok(())
        }
        Err(Failed::NoMemory) => Err(NoMemory),
    }
}

/// Appends the steps of an operation with a value whose target is an attribute that isn't readOnly.
fn push_given(
    alloc: Global,
    kind: Kind,
    operation: Operation,
    attribute: Attribute,
    value: &Tree<'_>,
    reading: &mut Reading,
) -> Result<(), NoMemory>
    ensures { OnOk result (read_of reading.new ≡ both (read_of reading.old)
        (spec.given_steps kind operation attribute (view value.now))) }
{
    if is_multi_valued(attribute) {
        return push_listed(alloc, kind, operation, attribute, value, reading);
    }
    match operation {
        Operation::Remove => push_cleared(kind, attribute, reading),
        Operation::Add | Operation::Replace => push_set(alloc, kind, attribute, value, reading),
    }
}

/// Appends the steps of an operation whose target is an attribute.
/// For a readOnly attribute the value isn't read, and the step is refused when the patch is applied; a
/// single-valued complex attribute that is readOnly has no step.
#[tactic(auto, unfolding(crate::specs::PathSteps::attribute_steps))]
pub(crate) fn push_attribute(
    alloc: Global,
    kind: Kind,
    operation: Operation,
    attribute: Attribute,
    value: Option<&Tree<'_>>,
    reading: &mut Reading,
) -> Result<(), NoMemory>
    ensures { OnOk result (read_of reading.new ≡ both (read_of reading.old)
        (spec.attribute_steps kind operation attribute
        (option_map (λ v. view v.now) value.entry))) }
{
    if is_read_only(kind, Leaf::simple(attribute)) {
        return push_kept(attribute, reading);
    }
    match value {
        Some(value) => push_given(alloc, kind, operation, attribute, value, reading),
        None => push_emptied(kind, operation, attribute, reading),
    }
}
