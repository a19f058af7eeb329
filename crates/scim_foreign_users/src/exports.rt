//! Finds the items of an export.
ghost use Rattle.std.specs.Prelude.{◌≡◌, ◌≤◌, None, Some, IfOk, option_map, option_and_then};
ghost use Rattle.serde_json.specs.Data.{Items, items_depth};
ghost use Rattle.serde_json.specs.Find.{as_array};
ghost use Rattle.serde_json.specs.Read.{read, max_depth};
ghost use Rattle.serde_json.specs.View.{view, items_view, members_view};
ghost use Rattle.scim_text.specs.Failures.{OnFault};
ghost use Rattle.scim_body.specs.BodyNames.{value_named};
ghost use Rattle.scim_foreign_users.specs.Exports as spec;
ghost use Rattle.scim_foreign_users.specs.Exports.{AreTextsOf};

use crate::faults::NotAnExport;
use scim_text::{Failed, NoMemory, push, same_name};
use serde_json::{Map, Value};
use std::alloc::Global;

/// The value under the first key that is `name` in any case (RFC 7643 section 2.1); `None` if there is no such
/// key.
fn member_named<'m>(members: &'m Map<String, Value>, name: &str) -> Option<&'m Value>
    ensures { option_map (λ v. view v.now) result
        ≡ value_named name.now (members_view members.now.entries) }
{
    for (key, value) in members.iter() {
        if same_name(name, key.as_str()) {
            return Some(value);
        }
    }
    None
}

/// The items of an export: the value itself, if it is a list, or its `Resources`; `None` if neither is a list.
fn items_in(value: &Value) -> Option<&[Value]>
    ensures { option_map (λ items. items_view items.now) result ≡ spec.items_in (view value.now) }
{
    match value.as_array() {
        Some(items) => Some(items.as_slice()),
        None => resources_in(value),
    }
}

/// The items of a list response, if its `Resources` is a list.
fn resources_in(value: &Value) -> Option<&[Value]>
    ensures { option_map (λ items. items_view items.now) result
        ≡ option_and_then as_array (spec.resources_in (view value.now)) }
{
    let members = value.as_object()?;
    let resources = member_named(members, "Resources")?;
    Some(resources.as_array()?.as_slice())
}

/// Returns the JSON text of each item.
fn texts_of(alloc: Global, items: &[Value]) -> Result<Vec<String>, NoMemory>
    requires { items_depth (items_view items.now) ≤ max_depth }
    ensures { IfOk result (λ texts. AreTextsOf (items_view items.now) texts.items) }
{
    let mut texts = Vec::new(alloc);
    for item in items {
        push(&mut texts, item.to_string(alloc)?)?;
    }
    Ok(texts)
}

/// Returns the JSON text of each resource of an export, in order. An export is a list response (RFC 7644 section
/// 3.4.2), an object whose `Resources` is a list; or the list itself. The key `Resources` is read in any case.
///
/// Fails with `NotAnExport` if the text isn't JSON or has no such list.
pub fn items_of_export(alloc: Global, text: &str) -> Result<Vec<String>, Failed<NotAnExport>>
    ensures items { IfOk result (λ texts. (ds : Items)
        × (spec.exported (read text.now) ≡ Some ds) × AreTextsOf ds texts.items) }
    ensures none { OnFault result (spec.exported (read text.now) ≡ None) }
{
    let value = match Value::from_str(alloc, text) {
        Ok(value) => value,
        Err(error) => {
            return if error.is_memory() {
                Err(Failed::NoMemory)
            } else {
                Err(Failed::Because(NotAnExport))
            };
        }
    };
    match items_in(&value) {
        Some(items) => Ok(texts_of(alloc, items)?),
        None => Err(Failed::Because(NotAnExport)),
    }
}
