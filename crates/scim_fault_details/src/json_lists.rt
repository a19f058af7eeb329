//! Lists in JSON objects.
ghost use Rattle.std.specs.Prelude.{◌≡◌, ◌++◌, map, option_map, option_to_list, IfOk, OnOk};
ghost use Rattle.json.specs.Find.{as_array, as_str};
ghost use Rattle.json.specs.Value.{value_view, items_view};
ghost use Rattle.scim_fault_details.specs.JsonLists as spec;
ghost use Rattle.scim_fault_details.specs.code.Borrowed.{text_at};

use json::Value;
use scim_text::{NoMemory, push};
use std::alloc::Global;

/// The items of the array at a key of an object. `None` if there is no such array.
pub(crate) fn items_under<'v, 't>(value: &'v Value<'t>, key: &str) -> Option<&'v [Value<'t>]>
    ensures { option_map (λ vs. items_view vs.now) result
        ≡ spec.items_under key.now (value_view value.now) }
{
    items_in(value.get(key)?)
}

/// The items of an array. `None` if the value isn't an array.
pub(crate) fn items_in<'v, 't>(value: &'v Value<'t>) -> Option<&'v [Value<'t>]>
    ensures { option_map (λ vs. items_view vs.now) result ≡ as_array (value_view value.now) }
{
    match value {
        Value::Array(items) => Some(items.as_slice()),
        _ => None,
    }
}

/// Returns the strings in the array at a key of an object; none if there is no such array.
pub(crate) fn texts_under<'t>(
    alloc: Global,
    value: &Value<'t>,
    key: &str,
) -> Result<Vec<&'t str>, NoMemory>
    ensures { IfOk result (λ v. map text_at v.items
        ≡ spec.texts_under key.now (value_view value.now)) }
{
    match items_under(value, key) {
        Some(items) => strings_in(alloc, items),
        None => Ok(Vec::new(alloc)),
    }
}

/// Returns the strings among the items.
fn strings_in<'t>(alloc: Global, items: &[Value<'t>]) -> Result<Vec<&'t str>, NoMemory>
    ensures { IfOk result (λ v. map text_at v.items ≡ spec.strings_in (items_view items.now)) }
{
    let mut texts = Vec::new(alloc);
    for item in items {
        push_string(item, &mut texts)?;
    }
    Ok(texts)
}

/// Appends the text of an item that is a string.
fn push_string<'t>(item: &Value<'t>, texts: &mut Vec<&'t str>) -> Result<(), NoMemory>
    ensures { OnOk result (map text_at texts.new.items
        ≡ map text_at texts.old.items ++ option_to_list (as_str (value_view item.now))) }
{
    match item.as_str() {
        Some(text) => push(texts, text),
        None => Ok(()),
    }
}
