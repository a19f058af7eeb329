//! Reads each field of an audit row from its column.
ghost use Rattle.std.specs.Prelude.{◌≡◌, ◌≤◌, ◌<◌, ◌^◌, ◌↔◌, length, IsUtf8, IsTrue, IfSome, option_map};
ghost use Rattle.std.specs.Option.{option_copied};
ghost use Rattle.sqlite.specs.declared.types.Value.TheVariants.{Int, Text, Null};
ghost use Rattle.sqlite.specs.Order.{column};
ghost use Rattle.sqlite.specs.Values.{or_null};
ghost use Rattle.scim_text.specs.Moments.{last_moment};
ghost use Rattle.scim_cell.specs.Ids.{IsId, id_text};
ghost use Rattle.scim_audit.specs.Rows.{leaf_path};
ghost use Rattle.scim_store_tables.specs.Audit as columns;
ghost use Rattle.scim_store_rows.specs.Audit as spec;
ghost use Rattle.scim_store_rows.specs.AuditBack.{ReadsBack, Any, IsAnyLeaf};

use crate::audit_numbers::{decided_of, kind_of, op_of, refusal_of};
use crate::leaf_paths::leaf_of_path;
use scim_audit::{Decided, Refusal};
use scim_cell::Id;
use scim_schema::{Kind, Leaf, Op};
use scim_text::Moment;
use sqlite::Row;
use sqlite::types::ValueRef;
use std::str::from_utf8;

/// Returns the integer in a column; `None` for NULL and for other types.
fn integer_in(row: &Row, place: usize) -> Option<i64>
    requires { place < length row.now }
    ensures { ReadsBack Any Int (column row.now place) result }
{
    match row.get_ref(place) {
        Ok(ValueRef::Int(integer)) => Some(integer),
        _ => None,
    }
}

/// Returns the number in a column; `None` unless it is an integer of at least 0.
pub(crate) fn number_in(row: &Row, place: usize) -> Option<u64>
    requires { place < length row.now }
    ensures { ReadsBack Any columns.number (column row.now place) result }
{
    u64::try_from(integer_in(row, place)?).ok()
}

/// Returns the text in a column; `None` for NULL, for other types, and for a text that isn't UTF-8.
pub(crate) fn text_in(row: &Row, place: usize) -> Option<&str>
    requires { place < length row.now }
    ensures { ReadsBack IsUtf8 Text (column row.now place) (option_copied result) }
{
    match row.get_ref(place) {
        Ok(ValueRef::Text(bytes)) => from_utf8(bytes).ok(),
        _ => None,
    }
}

/// Returns the moment in a column; `None` unless it is an integer in the range of [`Moment`].
pub(crate) fn moment_in(row: &Row, place: usize) -> Option<Moment>
    requires { place < length row.now }
    ensures { ReadsBack (λ m. m ≤ last_moment) columns.number (column row.now place) result }
{
    Moment::new(integer_in(row, place)?)
}

/// Returns the operation whose number is in a column; `None` if the column isn't the number of an operation.
pub(crate) fn op_in(row: &Row, place: usize) -> Option<Op>
    requires { place < length row.now }
    ensures { ReadsBack Any (λ op. columns.number (spec.op_number op))
        (column row.now place) result }
{
    op_of(number_in(row, place)?)
}

/// Returns the kind whose number is in a column; `None` if the column isn't the number of a kind.
pub(crate) fn kind_in(row: &Row, place: usize) -> Option<Kind>
    requires { place < length row.now }
    ensures { ReadsBack Any (λ kind. columns.number (spec.kind_number kind))
        (column row.now place) result }
{
    kind_of(number_in(row, place)?)
}

/// Returns the decision whose number is in a column; `None` if the column isn't the number of a decision.
pub(crate) fn decided_in(row: &Row, place: usize) -> Option<Decided>
    requires { place < length row.now }
    ensures { ReadsBack Any (λ decided. columns.number (spec.decided_number decided))
        (column row.now place) result }
{
    decided_of(number_in(row, place)?)
}

/// Whether a column is NULL.
fn is_null(row: &Row, place: usize) -> bool
    requires { place < length row.now }
    ensures { IsTrue result ↔ (column row.now place ≡ Null) }
{
    matches!(row.get_ref(place), Ok(ValueRef::Null))
}

/// Returns the id whose text is in a column, `Some(None)` for NULL, and `None` for any other value.
pub(crate) fn id_in(row: &Row, place: usize) -> Option<Option<Id>>
    requires { place < length row.now }
    ensures { ReadsBack (λ id. IfSome id IsId) (λ id. or_null Text (option_map id_text id))
        (column row.now place) result }
{
    if is_null(row, place) {
        return Some(None);
    }
    let id = Id::read(text_in(row, place)?)?;
    Some(Some(id))
}

/// Returns the rule number in a column, `Some(None)` for NULL, and `None` for any value that isn't an
/// unsigned 32-bit integer.
pub(crate) fn rule_in(row: &Row, place: usize) -> Option<Option<u32>>
    requires { place < length row.now }
    ensures { ReadsBack (λ rule. IfSome rule (λ n. n < 2 ^ 32)) (λ rule.
        or_null columns.number rule) (column row.now place) result }
{
    if is_null(row, place) {
        return Some(None);
    }
    let rule = u32::try_from(integer_in(row, place)?).ok()?;
    Some(Some(rule))
}

/// Returns the leaf whose path is in a column, `Some(None)` for NULL, and `None` for any other value.
pub(crate) fn leaf_in(row: &Row, place: usize) -> Option<Option<Leaf>>
    requires { place < length row.now }
    ensures { ReadsBack (λ leaf. IfSome leaf IsAnyLeaf) (λ leaf.
        or_null Text (option_map leaf_path leaf))
        (column row.now place) result }
{
    if is_null(row, place) {
        return Some(None);
    }
    let leaf = leaf_of_path(text_in(row, place)?)?;
    Some(Some(leaf))
}

/// Returns the refusal whose number is in a column, `Some(None)` for NULL, and `None` for any other value.
pub(crate) fn refusal_in(row: &Row, place: usize) -> Option<Option<Refusal>>
    requires { place < length row.now }
    ensures { ReadsBack Any (λ refusal.
        or_null columns.number (option_map spec.refusal_number refusal))
        (column row.now place) result }
{
    if is_null(row, place) {
        return Some(None);
    }
    let refusal = refusal_of(number_in(row, place)?)?;
    Some(Some(refusal))
}
