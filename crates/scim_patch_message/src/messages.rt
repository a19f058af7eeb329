//! Reads a PATCH message (RFC 7644 section 3.5.2).
ghost use Rattle.std.specs.Prelude.{◌≡◌, OnOk, IfOk, Some, None, option_map, option_and_then, map};
ghost use Rattle.serde_json.specs.Find.{as_array, as_object, as_str};
ghost use Rattle.serde_json.specs.Read.{read};
ghost use Rattle.scim_body.specs.View.{view, items_view, members_view};
ghost use Rattle.scim_text.specs.Failures.{UnlessMemory};
ghost use Rattle.scim_body.specs.BodyNames.{items_list};
ghost use Rattle.scim_path.specs.Paths.{path_target};
ghost use Rattle.scim_patch_message.specs.Messages as spec;
ghost use Rattle.scim_patch_message.specs.Readings.{both, joined};
ghost use Rattle.scim_patch_message.specs.code.Inside.{read_of, answered};

use crate::faults::PatchFault;
use crate::message_readings::Reading;
use crate::operations::Operation;
use crate::path_targets::{present, push_target};
use crate::pathless_steps::push_pathless;
use json::Scratch;
use scim_body::{Member, NotJson, Tree, given_named, is_twice, value_named};
use scim_patch_steps::Patch;
use scim_path::{Path, read_path};
use scim_schema::{Kind, MOST_OPERATIONS};
use scim_text::{Failed, NoMemory};
use std::alloc::Global;

/// Appends the steps of an operation whose target is named by `path`. Records the fault `Value` if an add or
/// replace has no value.
fn push_valued(
    alloc: Global,
    kind: Kind,
    operation: Operation,
    path: Path,
    value: Option<&Tree<'_>>,
    reading: &mut Reading,
) -> Result<(), NoMemory>
    ensures { OnOk result (read_of reading.new ≡ both (read_of reading.old)
        (spec.valued_steps kind operation (path_target path)
        (option_map (λ v. view v.now) value.entry))) }
{
    match value {
        Some(value) => push_target(alloc, kind, operation, path, present(value), reading),
        None => {
            if operation == Operation::Remove {
                return push_target(alloc, kind, operation, path, None, reading);
            }
            reading.refuse(PatchFault::Value);
            Ok(())
        }
    }
}

/// Appends the steps of an operation whose path is `text`. Records the fault `Path` if the text isn't a valid
/// path or names an attribute that the kind lacks.
fn push_text(
    alloc: Global,
    kind: Kind,
    operation: Operation,
    text: &str,
    value: Option<&Tree<'_>>,
    reading: &mut Reading,
) -> Result<(), NoMemory>
    ensures { OnOk result (read_of reading.new ≡ both (read_of reading.old)
        (spec.text_steps kind operation (option_map (λ v. view v.now) value.entry)
        (Some text.now))) }
{
    match read_path(alloc, kind, text) {
        Ok(path) => push_valued(alloc, kind, operation, path, value, reading),
        Err(Failed::Because(_)) => {
            reading.refuse(PatchFault::Path);
            Ok(())
        }
        Err(Failed::NoMemory) => Err(NoMemory),
    }
}

/// Appends the steps of an operation, whose `path` and `value` are among the `members` of its JSON object.
/// Records the fault `Path` if `path` is present but isn't a string.
fn push_named(
    alloc: Global,
    kind: Kind,
    operation: Operation,
    members: &[Member<'_>],
    reading: &mut Reading,
) -> Result<(), NoMemory>
    ensures { OnOk result (read_of reading.new ≡ both (read_of reading.old)
        (spec.named_steps kind (members_view members.now) (Some operation))) }
{
    let value = value_named(members, "value");
    let Some(path) = given_named(members, "path") else {
        return push_pathless(alloc, kind, operation, value, reading);
    };
    match path.as_str() {
        Some(text) => push_text(alloc, kind, operation, text, value, reading),
        None => {
            reading.refuse(PatchFault::Path);
            Ok(())
        }
    }
}

/// Whether `op`, `path` or `value` occurs in two spellings.
fn keys_clash(members: &[Member<'_>]) -> bool
    ensures { result ≡ spec.keys_clash (members_view members.now) }
{
    is_twice(members, "op") || is_twice(members, "path") || is_twice(members, "value")
}

/// Returns the operation that the member `op` names. `None` if `op` is missing or names no operation.
fn operation_of(members: &[Member<'_>]) -> Option<Operation>
    ensures { result ≡ spec.member_operation (members_view members.now) }
{
    let name = value_named(members, "op").and_then(Tree::as_str)?;
    Operation::named(name)
}

/// Appends the steps of an operation with these members of its JSON object. Records the fault `Syntax` if
/// `op` isn't a known operation, or if `op`, `path` or `value` occurs in two spellings.
fn push_object(
    alloc: Global,
    kind: Kind,
    members: &[Member<'_>],
    reading: &mut Reading,
) -> Result<(), NoMemory>
    ensures { OnOk result (read_of reading.new ≡ both (read_of reading.old)
        (spec.object_operation kind (Some (members_view members.now)))) }
{
    if keys_clash(members) {
        reading.refuse(PatchFault::Syntax);
        return Ok(());
    }
    match operation_of(members) {
        Some(operation) => push_named(alloc, kind, operation, members, reading),
        None => {
            reading.refuse(PatchFault::Syntax);
            Ok(())
        }
    }
}

/// Appends the steps of one operation. Records the fault `Syntax` if `item` isn't an object.
#[tactic(auto, unfolding(crate::specs::Messages::operation_steps))]
fn push_operation(
    alloc: Global,
    kind: Kind,
    item: &Tree<'_>,
    reading: &mut Reading,
) -> Result<(), NoMemory>
    ensures { OnOk result (read_of reading.new
        ≡ both (read_of reading.old) (spec.operation_steps kind (view item.now))) }
{
    match item.as_object() {
        Some(members) => push_object(alloc, kind, members, reading),
        None => {
            reading.refuse(PatchFault::Syntax);
            Ok(())
        }
    }
}

/// Appends the steps of all operations, in the order of the operations.
fn push_operations(
    alloc: Global,
    kind: Kind,
    items: &[Tree<'_>],
    reading: &mut Reading,
) -> Result<(), NoMemory>
    ensures { OnOk result (read_of reading.new ≡ both (read_of reading.old)
        (joined (map (spec.operation_steps kind) (items_list (items_view items.now))))) }
{
    for item in items {
        push_operation(alloc, kind, item, reading)?;
    }
    Ok(())
}

/// Records the fault `Value` if there are over 1,000 operations.
fn refuse_many(items: &[Tree<'_>], reading: &mut Reading)
    ensures { read_of reading.new
        ≡ both (read_of reading.old) (spec.if_few (items_list (items_view items.now))) }
{
    if items.len() > MOST_OPERATIONS {
        reading.refuse(PatchFault::Value);
    }
}

/// Appends the steps of a message's list of operations. Records the fault `Syntax` if the list is empty.
fn push_list(
    alloc: Global,
    kind: Kind,
    items: &[Tree<'_>],
    reading: &mut Reading,
) -> Result<(), NoMemory>
    ensures { OnOk result (read_of reading.new ≡ both (read_of reading.old)
        (spec.list_steps kind (items_list (items_view items.now)))) }
{
    if items.is_empty() {
        reading.refuse(PatchFault::Syntax);
        return Ok(());
    }
    refuse_many(items, reading);
    push_operations(alloc, kind, items, reading)
}

/// Appends the steps of a message with these members of its JSON object. Records the fault `Syntax` if
/// `Operations` isn't a list or occurs in two spellings.
fn push_message(
    alloc: Global,
    kind: Kind,
    members: &[Member<'_>],
    reading: &mut Reading,
) -> Result<(), NoMemory>
    ensures { OnOk result (read_of reading.new ≡ both (read_of reading.old)
        (spec.object_message kind (Some (members_view members.now)))) }
{
    if is_twice(members, "Operations") {
        reading.refuse(PatchFault::Syntax);
        return Ok(());
    }
    match value_named(members, "Operations").and_then(Tree::as_array) {
        Some(items) => push_list(alloc, kind, items, reading),
        None => {
            reading.refuse(PatchFault::Syntax);
            Ok(())
        }
    }
}

/// Reads the text of a message. Returns its steps and its fault of highest priority, if it has a fault.
#[tactic(auto, unfolding(crate::specs::Messages::message_steps))]
fn reading_of(alloc: Global, kind: Kind, text: &str) -> Result<Reading, NoMemory>
    ensures { IfOk result (λ r. read_of r ≡ spec.message_steps kind (read text.now)) }
{
    let mut reading = Reading::new(alloc);
    let mut scratch = Scratch::new(alloc);
    let tree = match Tree::read(alloc, text, &mut scratch) {
        Ok(tree) => tree,
        Err(Failed::Because(NotJson)) => {
            reading.refuse(PatchFault::Syntax);
            return Ok(reading);
        }
        Err(Failed::NoMemory) => return Err(NoMemory),
    };
    match tree.as_object() {
        Some(members) => push_message(alloc, kind, members, &mut reading)?,
        None => reading.refuse(PatchFault::Syntax),
    }
    Ok(reading)
}

/// Reads the patch of a PATCH message for resources of the kind (RFC 7644 section 3.5.2).
/// The patch has the steps of the operations, in the order of the operations. Keys of the message and of its
/// operations, and the value of `op`, match in any ASCII case; other values are read as in `read_body`. In an
/// operation without a path each key of the value is a path, and the operation has steps for each of these
/// paths; keys with a readOnly target, and keys of attributes that the kind lacks, are ignored.
///
/// An operation whose path is the URN of an extension applies to each attribute in the value. An operation
/// whose path is a single-valued complex attribute applies to each sub-attribute in the value. A remove with
/// such a path applies to all attributes of the extension, or to all sub-attributes. A replace by null or
/// `[]` is a remove. An add of null or `[]` changes nothing: it has no step if the path is an extension or a
/// single-valued complex attribute, and otherwise a step that leaves the unit unchanged. The value for a
/// readOnly target isn't read, and the step is refused when the patch is applied; a single-valued complex
/// attribute that is readOnly has no step.
///
/// The whole message is checked. Fails with the first fault in this list that the message has:
///
/// - `Syntax`: the message isn't a JSON object with a non-empty list of operations, an operation isn't an
///   object with a known `op`, or two keys of one object spell the same name differently;
/// - `Path`: a path isn't valid or names an attribute that the kind lacks;
/// - `Value`: a value is missing, of another type, over a limit or an empty `userName`, or there are over
///   1,000 operations.
pub fn read_patch(alloc: Global, kind: Kind, text: &str) -> Result<Patch, Failed<PatchFault>>
    ensures { UnlessMemory (λ r. answered r ≡ spec.patch_in kind (read text.now)) result }
{
    let Reading { steps, fault } = reading_of(alloc, kind, text)?;
    match fault {
        Some(fault) => Err(Failed::Because(fault)),
        None => Ok(Patch::new(kind, steps)),
    }
}
