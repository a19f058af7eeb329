//! The values that a group lists among its members (RFC 7643 section 4.2).
ghost use Rattle.std.specs.Prelude.{◌≡◌, ◌&&◌, not, ℕ, List, IfOk};
ghost use Rattle.std.specs.Option.{option_copied};
ghost use Rattle.scim_value.specs.Members.{is_text};
ghost use Rattle.scim_shelf.specs.Members.{is_found, is_in, is_value_of, value_in};

use scim_cell::{Atom, Row};
use scim_schema::{Attribute, Leaf, SubAttribute};
use scim_text::NoMemory;
use std::alloc::Global;
use std::collections::BTreeSet;

/// Returns the `value` of a member; `None` if the member doesn't have one.
fn value_of(member: &Row) -> Option<&str>
    ensures { (v : List ℕ) → is_text v (value_in member.now) ≡ is_found v (option_copied result) }
{
    match member.get(Leaf::of(Attribute::Members, SubAttribute::Value)) {
        Some(Atom::Text(text)) => Some(text.as_str()),
        _ => None,
    }
}

/// Returns the `value`s of the members, each once.
pub fn member_values(alloc: Global, members: &[Row]) -> Result<BTreeSet<&str>, NoMemory>
    ensures { IfOk result (λ values. (v : List ℕ) → is_in v values ≡ is_value_of v members.now) }
{
    let mut values = BTreeSet::new(alloc);
    for member in members {
        if let Some(value) = value_of(member) {
            values.insert(value)?;
        }
    }
    Ok(values)
}

/// Removes the `value`s of the members from the set. Stops as soon as the set is empty.
pub fn remove_member_values<'m>(members: &'m [Row], values: &mut BTreeSet<&'m str>)
    ensures { (v : List ℕ) → is_in v values.new
        ≡ (is_in v values.old && not (is_value_of v members.now)) }
{
    for member in members {
        if values.is_empty() {
            return;
        }
        if let Some(value) = value_of(member) {
            values.remove(&value);
        }
    }
}
