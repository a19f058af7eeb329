//! Finds the rows of a given unit in a list of rows that is in order of unit.
ghost use Rattle.std.specs.Prelude.{◌≡◌, ◌++◌, AllPairs, filter, take};
ghost use Rattle.std.specs.List.{list_any};
ghost use Rattle.std.specs.Ordering.{is_lt, is_eq, is_gt};
ghost use Rattle.scim_cell.specs.Place.{unit_cmp};
ghost use Rattle.scim_cell.specs.Rows as spec;
ghost use Rattle.scim_cell.specs.Rows.{Precedes};

use scim_cell::{Row, compare_units};
use scim_schema::Unit;

/// Splits rows that are in order of unit into the rows of earlier units, the rows of this unit and the
/// rows of later units.
pub(crate) fn split_rows(rows: &[Row], unit: Unit) -> (&[Row], &[Row], &[Row])
    requires { AllPairs (λ r s. Precedes r.unit s.unit) rows.now }
    ensures before { result.0.now ≡ filter (λ r. is_lt (unit_cmp r.unit unit)) rows.now }
    ensures own { result.1.now ≡ spec.values unit rows.now }
    ensures after { result.2.now ≡ filter (λ r. is_gt (unit_cmp r.unit unit)) rows.now }
    ensures whole { rows.now ≡ result.0.now ++ (result.1.now ++ result.2.now) }
{
    let start = rows.partition_point(|row| compare_units(row.unit(), unit).is_lt());
    let (before, rest) = rows.split_at(start);
    if !begins_with_unit(rest, unit) {
        return (before, &[], rest);
    }
    let end = rest.partition_point(|row| !compare_units(row.unit(), unit).is_gt());
    let (own, after) = rest.split_at(end);
    (before, own, after)
}

/// Whether the first row exists and belongs to the unit.
fn begins_with_unit(rows: &[Row], unit: Unit) -> bool
    ensures { result ≡ list_any (λ r. is_eq (unit_cmp r.unit unit)) (take 1 rows.now) }
{
    match rows {
        [first, ..] => compare_units(first.unit(), unit).is_eq(),
        [] => false,
    }
}

/// Returns the values of a unit, in order of position. The rows must be in order of unit, as they are
/// in a part.
pub fn values_among(rows: &[Row], unit: Unit) -> &[Row]
    requires { AllPairs (λ r s. Precedes r.unit s.unit) rows.now }
    ensures { result.now ≡ spec.values unit rows.now }
{
    split_rows(rows, unit).1
}
