//! The steps of an operation without a path. Each key of the value is a path with its own steps (RFC 7644
//! section 3.5.2).
ghost use Rattle.std.specs.Prelude.{◌≡◌, OnOk, option_map};
ghost use Rattle.scim_body.specs.View.{view, members_view};
ghost use Rattle.scim_patch_message.specs.Messages as spec;
ghost use Rattle.scim_patch_message.specs.Readings.{both, each_member};
ghost use Rattle.scim_patch_message.specs.code.Inside.{read_of};

use crate::faults::PatchFault;
use crate::message_readings::Reading;
use crate::operations::Operation;
use crate::path_targets::{is_fixed_path, present, push_target};
use scim_body::{Member, Tree};
use scim_filter_grammar::{Meant, attribute_path};
use scim_path::read_path;
use scim_schema::Kind;
use scim_text::{Failed, NoMemory};
use std::alloc::Global;

/// Whether the key is a valid path of an attribute that the kind lacks.
fn names_nothing(kind: Kind, key: &str) -> bool
    ensures { result ≡ spec.names_nothing kind key.now }
{
    match attribute_path(kind, key) {
        Some(Meant::Nothing) => true,
        _ => false,
    }
}

/// Appends the steps for one key of the value of an operation that has no `path`. The key is read as a path.
/// It is ignored if its target is readOnly or if the kind has no such attribute. Records the fault `Path` if
/// the key isn't a valid path, or the fault of the key's value if that value is wrong.
fn push_member(
    alloc: Global,
    kind: Kind,
    operation: Operation,
    key: &str,
    value: &Tree<'_>,
    reading: &mut Reading,
) -> Result<(), NoMemory>
    ensures { OnOk result (read_of reading.new ≡ both (read_of reading.old)
        (spec.member_steps kind operation key.now (view value.now))) }
{
    match read_path(alloc, kind, key) {
        Ok(path) => {
            if is_fixed_path(kind, &path) {
                return Ok(());
            }
            push_target(alloc, kind, operation, path, present(value), reading)
        }
        Err(Failed::Because(_)) => {
            if !names_nothing(kind, key) {
                reading.refuse(PatchFault::Path);
            }
            Ok(())
        }
        Err(Failed::NoMemory) => Err(NoMemory),
    }
}

/// Appends the steps of an operation without a path for each key of the value, in byte order of the keys.
fn push_members(
    alloc: Global,
    kind: Kind,
    operation: Operation,
    members: &[Member<'_>],
    reading: &mut Reading,
) -> Result<(), NoMemory>
    ensures { OnOk result (read_of reading.new ≡ both (read_of reading.old)
        (each_member (spec.member_steps kind operation) (members_view members.now))) }
{
    for member in members {
        push_member(alloc, kind, operation, member.0, &member.1, reading)?;
    }
    Ok(())
}

/// Appends the steps of an operation without a path. A remove has a step that is refused when the patch is
/// applied. Records the fault `Value` if an add or replace has a value that isn't an object.
pub(crate) fn push_pathless(
    alloc: Global,
    kind: Kind,
    operation: Operation,
    value: Option<&Tree<'_>>,
    reading: &mut Reading,
) -> Result<(), NoMemory>
    ensures { OnOk result (read_of reading.new ≡ both (read_of reading.old)
        (spec.pathless_steps kind operation (option_map (λ v. view v.now) value.entry))) }
{
    if operation == Operation::Remove {
        return reading.push_pathless();
    }
    match value.and_then(Tree::as_object) {
        Some(members) => push_members(alloc, kind, operation, members, reading),
        None => {
            reading.refuse(PatchFault::Value);
            Ok(())
        }
    }
}
