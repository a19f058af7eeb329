//! Appends values to a list, except values that it already contains.
ghost use Rattle.std.specs.Prelude.{◌≡◌, ◌++◌, ◌∷◌, [], IfOk, OnOk, string_bytes};
ghost use Rattle.std.specs.List.{list_any};
ghost use Rattle.scim_cell.specs.SameValues as spec;
ghost use Rattle.scim_cell.specs.code.Keys.{key_of, Covers};

use crate::rows::Row;
use crate::same_value_keys::key;
use crate::same_values::{has_same_among, is_same_value};
use scim_schema::Attribute;
use scim_text::{NoMemory, push};
use std::alloc::Global;
use std::collections::BTreeMap;

/// The largest number of given values that `with_values` compares with each value of the list. If more
/// values are given, it finds equal values by keys, which needs a temporary text for each value.
const FEW: usize = 8;

/// Appends the values of `given` to `values`, in order. Leaves out a value if an earlier value is the
/// same (RFC 7644 section 3.5.2.1).
///
/// The time is nearly linear in the number of all values. If at most `FEW` values are given, no text is
/// copied.
pub fn with_values(
    alloc: Global,
    attribute: Attribute,
    values: Vec<Row>,
    given: Vec<Row>,
) -> Result<Vec<Row>, NoMemory>
    ensures { IfOk result (λ v. v.items ≡ spec.with_values attribute values.items given.items) }
{
    if given.len() <= FEW {
        with_few(attribute, values, given)
    } else {
        with_many(alloc, attribute, values, given)
    }
}

/// Appends each given value unless an earlier value is the same. Compares it with all earlier values.
fn with_few(
    attribute: Attribute,
    mut values: Vec<Row>,
    given: Vec<Row>,
) -> Result<Vec<Row>, NoMemory>
    ensures { IfOk result (λ v. v.items ≡ spec.with_values attribute values.items given.items) }
{
    for value in given {
        if !has_same_among(attribute, values.as_slice(), &value) {
            push(&mut values, value)?;
        }
    }
    Ok(values)
}

/// Appends each given value unless an earlier value is the same. Looks up earlier values by key.
fn with_many(
    alloc: Global,
    attribute: Attribute,
    mut values: Vec<Row>,
    given: Vec<Row>,
) -> Result<Vec<Row>, NoMemory>
    ensures { IfOk result (λ v. v.items ≡ spec.with_values attribute values.items given.items) }
{
    let mut places = places_of(alloc, attribute, values.as_slice())?;
    values.reserve(given.len())?;
    for value in given {
        add_value(alloc, attribute, &mut values, &mut places, value)?;
    }
    Ok(values)
}

/// Returns a map from the key of each value to its index. If several values have the same key, the map
/// contains the last index. The map is ordered, so no choice of values makes a look-up slow.
fn places_of(
    alloc: Global,
    attribute: Attribute,
    values: &[Row],
) -> Result<BTreeMap<String, usize>, NoMemory>
    ensures { IfOk result (λ m. Covers m attribute values.now) }
{
    let mut places = BTreeMap::new(alloc);
    for (place, value) in values.iter().enumerate() {
        let _ = places.insert(key(alloc, attribute, value)?, place)?;
    }
    Ok(places)
}

/// Whether one of `values` is the same as `value`. Compares the value at `place` first.
fn has_same(attribute: Attribute, values: &[Row], place: usize, value: &Row) -> bool
    ensures { result ≡ list_any (λ other. spec.is_same_value attribute other value.now) values.now }
{
    match values.get(place) {
        Some(other) if is_same_value(attribute, other, value) => true,
        _ => has_same_among(attribute, values, value),
    }
}

/// Appends `value` and adds its key to `places`, unless `values` already contains the same value.
/// Compares `value` with the whole list only if a different value has the same key.
fn add_value(
    alloc: Global,
    attribute: Attribute,
    values: &mut Vec<Row>,
    places: &mut BTreeMap<String, usize>,
    value: Row,
) -> Result<(), NoMemory>
    requires { Covers places.old attribute values.old.items }
    ensures items { OnOk result (values.new.items
        ≡ spec.with_value attribute values.old.items value) }
    ensures covers { OnOk result (Covers places.new attribute values.new.items) }
{
    let key_of_value = key(alloc, attribute, &value)?;
    match places.get(key_of_value.as_str()).copied() {
        Some(place) if has_same(attribute, values.as_slice(), place, &value) => {}
        _ => {
            places.insert(key_of_value, values.len())?;
            push(values, value)?;
        }
    }
    Ok(())
}
