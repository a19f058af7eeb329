//! Converts the JSON of a case to arguments.
use case_values::{Argument, Form};
use scim_text::{NoMemory, push};
use serde_json::{Map, Value};
use std::alloc::Global;

/// A JSON value in the queue, and its name if it is a member of an object.
#[derive(Clone, Copy)]
struct Met<'v> {
    name: &'v str,
    value: &'v Value,
}

/// Returns a JSON value and all values in it, breadth first. So the items of a list, or the members of an
/// object, are adjacent.
pub(crate) fn arguments_of(alloc: Global, value: &Value) -> Result<Vec<Argument>, NoMemory> {
    let mut met = Vec::new(alloc);
    push(&mut met, Met { name: "", value })?;
    all_of(alloc, &mut met)
}

/// Returns the arguments for the values in the queue, and for all values in them.
fn all_of(alloc: Global, met: &mut Vec<Met<'_>>) -> Result<Vec<Argument>, NoMemory> {
    let mut arguments = Vec::new(alloc);
    // The queue may grow in each iteration, so the loop uses an index.
    for place in 0..usize::MAX {
        let Some(next) = met.get(place).copied() else {
            break;
        };
        push(&mut arguments, opened(alloc, next, met)?)?;
    }
    Ok(arguments)
}

/// Appends the items or members of a value to the queue, and returns the argument for the value.
fn opened<'v>(alloc: Global, next: Met<'v>, met: &mut Vec<Met<'v>>) -> Result<Argument, NoMemory> {
    let first = met.len();
    push_inner(next.value, met)?;
    argument_of(alloc, next, first, met.len().saturating_sub(first))
}

/// Appends the items of a list or the members of an object to the queue.
fn push_inner<'v>(value: &'v Value, met: &mut Vec<Met<'v>>) -> Result<(), NoMemory> {
    match value {
        Value::Array(items) => push_items(items.as_slice(), met),
        Value::Object(members) => push_members(members, met),
        _ => Ok(()),
    }
}

fn push_items<'v>(items: &'v [Value], met: &mut Vec<Met<'v>>) -> Result<(), NoMemory> {
    for value in items {
        push(met, Met { name: "", value })?;
    }
    Ok(())
}

fn push_members<'v>(
    members: &'v Map<String, Value>,
    met: &mut Vec<Met<'v>>,
) -> Result<(), NoMemory> {
    for (name, value) in members.iter() {
        let name = name.as_str();
        push(met, Met { name, value })?;
    }
    Ok(())
}

fn argument_of(
    alloc: Global,
    met: Met<'_>,
    first: usize,
    count: usize,
) -> Result<Argument, NoMemory> {
    Ok(Argument {
        name: String::from_str(alloc, met.name)?,
        text: text_of(alloc, met.value)?,
        form: form_of(met.value),
        first,
        count,
    })
}

/// Returns the text of a string, or the JSON of any other value.
fn text_of(alloc: Global, value: &Value) -> Result<String, NoMemory> {
    if let Value::String(text) = value {
        return Ok(String::from_str(alloc, text.as_str())?);
    }
    Ok(value.to_string(alloc)?)
}

fn form_of(value: &Value) -> Form {
    match value {
        Value::String(_) => Form::Text,
        Value::Array(_) => Form::List,
        Value::Object(_) => Form::Object,
        Value::Bool(truth) => Form::Truth(*truth),
        Value::Number(_) => number_of(value),
        Value::Null => Form::Other,
    }
}

fn number_of(value: &Value) -> Form {
    match value.as_i64() {
        Some(number) => Form::Number(number),
        None => Form::Other,
    }
}
