//! Finds audit rows by number among rows that were read.

ghost use Rattle.std.specs.Prelude.{◌≡◌, ◌<◌, ℕ, true, None, IfSome, Contains};
ghost use Rattle.std.specs.Option.{option_copied};
ghost use Rattle.sqlite.specs.Order.{column};
ghost use Rattle.scim_store_tables.specs.Audit.{number as sql_number};
ghost use Rattle.scim_store_causes.specs.Audit.{HasRow};

use crate::audit_columns::number_in;
use sqlite::Row;

/// Returns the first of the rows that has this number; `None` if there isn't one.
pub(crate) fn row_with(rows: &[Row], number: u64) -> Option<&Row>
    ensures some { IfSome (option_copied result) (λ row. Contains rows.now row
        × (column row 0 ≡ sql_number number)) }
    ensures none { result ≡ None → ¬ HasRow rows.now number }
{
    for row in rows {
        if number_in(row, 0) == Some(number) {
            return Some(row);
        }
    }
    None
}

/// Whether one of the rows has a number above this one.
pub(crate) fn has_row_above(rows: &[Row], number: u64) -> bool
    ensures { result ≡ true → (later : ℕ) × (number < later) × HasRow rows.now later }
{
    for row in rows {
        if let Some(later) = number_in(row, 0)
            && number < later
        {
            return true;
        }
    }
    false
}
