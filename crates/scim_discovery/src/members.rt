//! Adds members to JSON objects.
ghost use Rattle.std.specs.Prelude.{◌≡◌, OnOk};
ghost use Rattle.serde_json.specs.Data.{boolean, string, put as with};
ghost use Rattle.serde_json.specs.View.{members_view};

use scim_text::NoMemory;
use serde_json::{Map, Value, put};
use std::alloc::Global;

/// Inserts a text under a key.
pub(crate) fn put_text(
    map: &mut Map<String, Value>,
    alloc: Global,
    key: &str,
    text: &str,
) -> Result<(), NoMemory>
    ensures { OnOk result (members_view map.new.entries
        ≡ with key.now (string text.now) (members_view map.old.entries)) }
{
    Ok(put(map, alloc, key, Value::try_from_str(alloc, text)?)?)
}

/// Inserts a boolean under a key.
pub(crate) fn put_truth(
    map: &mut Map<String, Value>,
    alloc: Global,
    key: &str,
    truth: bool,
) -> Result<(), NoMemory>
    ensures { OnOk result (members_view map.new.entries
        ≡ with key.now (boolean truth) (members_view map.old.entries)) }
{
    Ok(put(map, alloc, key, Value::from(truth))?)
}
