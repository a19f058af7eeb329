//! The steps of an operation with a path (RFC 7644 section 3.5.2).
ghost use Rattle.std.specs.Prelude.{◌≡◌, Some, OnOk, option_map, map};
ghost use Rattle.scim_body.specs.View.{view, members_view};
ghost use Rattle.scim_body.specs.BodyValues as values;
ghost use Rattle.scim_path.specs.Paths.{path_target};
ghost use Rattle.scim_patch_message.specs.PathSteps as spec;
ghost use Rattle.scim_patch_message.specs.Readings.{both, joined, each_member};
ghost use Rattle.scim_patch_message.specs.code.Inside.{read_of};

use crate::faults::PatchFault;
use crate::match_steps::{push_at_matches, push_matches, push_sub_attribute};
use crate::message_readings::Reading;
use crate::operations::Operation;
use crate::path_steps::push_attribute;
use scim_body::{Member, Tree, is_absent};
use scim_path::{Path, ValuePath};
use scim_schema::{
    Attribute, Kind, Leaf, Schema, attribute_named_in, attributes, is_read_only, schema_of,
};
use scim_text::NoMemory;
use std::alloc::Global;

/// Returns the value. `None` if it is null or `[]`, which count as missing.
pub(crate) fn present<'a, 'b>(value: &'a Tree<'b>) -> Option<&'a Tree<'b>>
    ensures { option_map (λ v. view v.now) result ≡ values.present (Some (view value.now)) }
{
    if is_absent(value) { None } else { Some(value) }
}

/// Whether the attribute or sub-attribute that `path` names is readOnly. False for an extension. For a value
/// path, whether the attribute is readOnly.
pub(crate) fn is_fixed_path(kind: Kind, path: &Path) -> bool
    ensures { result ≡ spec.is_fixed_target kind (path_target path.now) }
{
    match path {
        Path::Extension(_) => false,
        Path::Attribute(attribute) => is_read_only(kind, Leaf::simple(*attribute)),
        Path::SubAttribute(attribute, sub_attribute) => {
            is_read_only(kind, Leaf::of(*attribute, *sub_attribute))
        }
        Path::Values(path) => is_read_only(kind, Leaf::simple(path.attribute)),
    }
}

/// Appends the steps that remove the attribute. Appends nothing if the attribute doesn't belong to the
/// extension `schema`.
fn push_own(
    alloc: Global,
    kind: Kind,
    schema: Schema,
    attribute: Attribute,
    reading: &mut Reading,
) -> Result<(), NoMemory>
    ensures { OnOk result (read_of reading.new
        ≡ both (read_of reading.old) (spec.own_removed kind schema attribute)) }
{
    if schema_of(kind, attribute) != schema {
        return Ok(());
    }
    push_attribute(alloc, kind, Operation::Remove, attribute, None, reading)
}

/// Appends the steps that remove each of `attributes` that belongs to the extension `schema`.
fn push_all_own(
    alloc: Global,
    kind: Kind,
    schema: Schema,
    attributes: &[Attribute],
    reading: &mut Reading,
) -> Result<(), NoMemory>
    ensures { OnOk result (read_of reading.new ≡ both (read_of reading.old)
        (joined (map (spec.own_removed kind schema) attributes.now))) }
{
    for attribute in attributes {
        push_own(alloc, kind, schema, *attribute, reading)?;
    }
    Ok(())
}

/// Appends the steps of an operation for one key of the JSON object of an extension.
/// A key that doesn't name an attribute of the extension is ignored.
fn push_own_member(
    alloc: Global,
    kind: Kind,
    operation: Operation,
    schema: Schema,
    key: &str,
    value: &Tree<'_>,
    reading: &mut Reading,
) -> Result<(), NoMemory>
    ensures { OnOk result (read_of reading.new ≡ both (read_of reading.old)
        (spec.own_member kind operation schema key.now (view value.now))) }
{
    match attribute_named_in(kind, schema, key) {
        Some(attribute) => {
            push_attribute(alloc, kind, operation, attribute, present(value), reading)
        }
        None => Ok(()),
    }
}

/// Appends the steps of an operation for each key of the JSON object of an extension, in byte order of the
/// keys.
fn push_own_members(
    alloc: Global,
    kind: Kind,
    operation: Operation,
    schema: Schema,
    members: &[Member<'_>],
    reading: &mut Reading,
) -> Result<(), NoMemory>
    ensures { OnOk result (read_of reading.new ≡ both (read_of reading.old)
        (each_member (spec.own_member kind operation schema) (members_view members.now))) }
{
    for member in members {
        push_own_member(alloc, kind, operation, schema, member.0, &member.1, reading)?;
    }
    Ok(())
}

/// Appends the steps of an operation whose target is a whole extension. `value` is `None` if it is null, `[]`
/// or missing. Records the fault `Value` if an add or replace has a value that isn't an object.
#[tactic(auto, unfolding(crate::specs::PathSteps::extension_steps))]
fn push_extension(
    alloc: Global,
    kind: Kind,
    operation: Operation,
    schema: Schema,
    value: Option<&Tree<'_>>,
    reading: &mut Reading,
) -> Result<(), NoMemory>
    ensures { OnOk result (read_of reading.new ≡ both (read_of reading.old)
        (spec.extension_steps kind operation schema (option_map (λ v. view v.now) value.entry))) }
{
    match (operation, value) {
        (Operation::Add | Operation::Replace, Some(value)) => match value.as_object() {
            Some(members) => push_own_members(alloc, kind, operation, schema, members, reading),
            None => {
                reading.refuse(PatchFault::Value);
                Ok(())
            }
        },
        (Operation::Add, None) => Ok(()),
        (Operation::Remove, _) | (Operation::Replace, None) => {
            push_all_own(alloc, kind, schema, attributes(kind), reading)
        }
    }
}

/// Appends the step of an operation whose target is the values that match a filter, or a sub-attribute of
/// these values. Records a fault instead if the value is wrong.
fn push_values(
    alloc: Global,
    kind: Kind,
    operation: Operation,
    path: ValuePath,
    value: Option<&Tree<'_>>,
    reading: &mut Reading,
) -> Result<(), NoMemory>
    ensures { OnOk result (read_of reading.new ≡ both (read_of reading.old)
        (spec.target_steps kind operation (path_target (Path.Values path))
        (option_map (λ v. view v.now) value.entry))) }
{
    let ValuePath {
        attribute,
        filter,
        sub_attribute,
    } = path;
    match sub_attribute {
        Some(sub_attribute) => push_at_matches(
            alloc,
            kind,
            operation,
            attribute,
            filter,
            sub_attribute,
            value,
            reading,
        ),
        None => push_matches(alloc, kind, operation, attribute, filter, value, reading),
    }
}

/// Appends the steps of an operation whose target is named by `path`, or records a fault. `value` is `None`
/// if it is null, `[]` or missing.
pub(crate) fn push_target(
    alloc: Global,
    kind: Kind,
    operation: Operation,
    path: Path,
    value: Option<&Tree<'_>>,
    reading: &mut Reading,
) -> Result<(), NoMemory>
    ensures { OnOk result (read_of reading.new ≡ both (read_of reading.old)
        (spec.target_steps kind operation (path_target path)
        (option_map (λ v. view v.now) value.entry))) }
{
    match path {
        Path::Extension(schema) => push_extension(alloc, kind, operation, schema, value, reading),
        Path::Attribute(attribute) => {
            push_attribute(alloc, kind, operation, attribute, value, reading)
        }
        Path::SubAttribute(attribute, sub_attribute) => push_sub_attribute(
            alloc,
            kind,
            operation,
            attribute,
            sub_attribute,
            value,
            reading,
        ),
        Path::Values(path) => push_values(alloc, kind, operation, path, value, reading),
    }
}
