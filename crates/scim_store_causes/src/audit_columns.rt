//! Tests of the columns of an audit row.

ghost use Rattle.std.specs.Prelude.{◌≡◌, ◌≢◌, ◌<◌, ◌↔◌, ℕ, List, false, IsTrue, IfSome, Option};
ghost use Rattle.sqlite.specs.Order.{column};
ghost use Rattle.sqlite.specs.Values.{or_null};
ghost use Rattle.sqlite.specs.declared.types.Value.TheVariants.{Null, Text};
ghost use Rattle.scim_store_tables.specs.Audit.{number as sql_number};
ghost use Rattle.scim_store_rows.specs.Auditing.{IsAuditRow};
ghost use Rattle.scim_store_rows.specs.AuditBack.{ReadsBack, Any};

use crate::row_ids::value_in;
use scim_audit::{Decided, Refusal};
use scim_schema::{Kind, Op};
use scim_text::Moment;
use sqlite::Row;
use sqlite::types::ValueRef;

/// How many moments there are.
const MOMENTS: u64 = Moment::LAST as u64 + 1;

/// How many numbers a rule may have.
const RULES: u64 = 1 << 32;

/// Returns the number in a column; `None` unless it is an integer of at least 0.
pub(crate) fn number_in(row: &Row, place: usize) -> Option<u64>
    ensures { ReadsBack Any sql_number (column row.now place) result }
{
    match value_in(row, place) {
        ValueRef::Int(number) => u64::try_from(number).ok(),
        ValueRef::Null => None,
        ValueRef::Real(_) => None,
        ValueRef::Text(_) => None,
        ValueRef::Blob(_) => None,
    }
}

/// Whether a column has a number below `limit`.
fn is_below(row: &Row, place: usize, limit: u64) -> bool
    ensures { result ≡ false → (n : ℕ) → n < limit → column row.now place ≢ sql_number n }
{
    match number_in(row, place) {
        Some(number) => number < limit,
        None => false,
    }
}

/// Whether a column is NULL.
fn is_null(row: &Row, place: usize) -> bool
    ensures { IsTrue result ↔ (column row.now place ≡ Null) }
{
    matches!(value_in(row, place), ValueRef::Null)
}

/// Whether a column is NULL or has a number below `limit`.
fn is_null_or_below(row: &Row, place: usize, limit: u64) -> bool
    ensures { result ≡ false → (n : Option ℕ) → IfSome n (λ k. k < limit)
        → column row.now place ≢ or_null sql_number n }
{
    is_null(row, place) || is_below(row, place, limit)
}

/// Whether a column is a text.
fn is_text(row: &Row, place: usize) -> bool
    ensures { result ≡ false → (text : List ℕ) → column row.now place ≢ Text text }
{
    matches!(value_in(row, place), ValueRef::Text(_))
}

/// Whether the columns of numbers of a row, and the name of its client, are those of a valid audit row. The columns of
/// the id and of the leaf aren't looked at.
pub(crate) fn may_be_valid(row: &Row) -> bool
    ensures { result ≡ false → (number : ℕ) → ¬ IsAuditRow number row.now }
{
    if !is_below(row, 1, MOMENTS) {
        return false;
    }
    if !is_text(row, 2) {
        return false;
    }
    if !is_below(row, 3, Op::all().len() as u64) {
        return false;
    }
    if !is_below(row, 4, Kind::all().len() as u64) {
        return false;
    }
    if !is_below(row, 6, Decided::all().len() as u64) {
        return false;
    }
    if !is_null_or_below(row, 7, RULES) {
        return false;
    }
    is_null_or_below(row, 9, Refusal::all().len() as u64)
}
