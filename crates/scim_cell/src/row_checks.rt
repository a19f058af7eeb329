//! Checks of rows that come from requests, before they are put into a part.
ghost use Rattle.std.specs.Prelude.{◌≡◌, ◌↔◌, IsTrue, None};
ghost use Rattle.scim_cell.specs.code.Fields.{Rises, AreRising};
ghost use Rattle.scim_cell.specs.Rows.{IsSoundField, IsSoundRow, IsValue, AreValues};

use crate::cells::has_type;
use crate::places::number_of;
use crate::rows::{Field, Row};
use scim_schema::{Kind, Unit, characteristics_of, has_leaf, is_multi_valued, unit_of};

/// Whether two units are equal. The contract uses the equality `≡` instead of the function `==`.
fn is_same_unit(a: Unit, b: Unit) -> bool
    ensures { IsTrue result ↔ (a ≡ b) }
{
    a == b
}

/// Whether the field belongs to the unit and the kind, and its atom has the type of its leaf.
fn is_sound_field(kind: Kind, unit: Unit, field: &Field) -> bool
    ensures { IsTrue result ↔ IsSoundField kind unit field.now }
{
    is_same_unit(unit_of(field.leaf), unit)
        && has_leaf(kind, field.leaf)
        && has_type(
            characteristics_of(kind, field.leaf).attribute_type,
            &field.atom,
        )
}

/// Whether `number` is greater than `before`, or `before` is `None`.
fn rises(before: Option<u8>, number: u8) -> bool
    ensures { IsTrue result ↔ Rises before number }
{
    match before {
        None => true,
        Some(last) => last < number,
    }
}

/// Whether the row may be part of a resource of the kind: each field belongs to the row's unit and
/// to the kind, each atom has the type of its leaf, and the fields are in order of sub-attribute,
/// without duplicates.
///
/// A row without fields passes, although no part contains such a row.
pub(crate) fn is_sound_row(kind: Kind, row: &Row) -> bool
    ensures { IsTrue result ↔ IsSoundRow kind row.now }
{
    are_sound_fields(kind, row.unit(), row.fields())
}

/// Whether the fields are valid for the unit and the kind, and are in order of sub-attribute, without
/// duplicates.
fn are_sound_fields(kind: Kind, unit: Unit, fields: &[Field]) -> bool
    ensures { IsTrue result ↔ AreRising kind unit None fields.now }
{
    let mut before = None;
    for field in fields {
        let number = number_of(field.leaf.sub_attribute);
        if !(is_sound_field(kind, unit, field) && rises(before, number)) {
            return false;
        }
        before = Some(number);
    }
    true
}

/// Whether the row is a valid value of the unit, with at least one field.
fn is_value(kind: Kind, unit: Unit, row: &Row) -> bool
    ensures { IsTrue result ↔ IsValue kind unit row.now }
{
    is_same_unit(row.unit(), unit) && !row.fields().is_empty() && is_sound_row(kind, row)
}

/// Whether the rows may be put into a part of the kind as the values of the unit: each is a valid
/// row of that unit with at least one field, and there is at most one row unless the unit is
/// multi-valued.
pub fn are_values(kind: Kind, unit: Unit, values: &[Row]) -> bool
    ensures { IsTrue result ↔ AreValues kind unit values.now }
{
    (is_multi_valued(unit.attribute) || values.len() <= 1)
        && values.iter().all(|row| is_value(kind, unit, row))
}
