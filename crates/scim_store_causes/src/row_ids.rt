//! Finds a table with a row that has no id of a resource.

ghost use Rattle.std.specs.Prelude.{◌≡◌, true, false, All, MatchOption};
ghost use Rattle.sqlite.specs.Order.{column};
ghost use Rattle.sqlite_value.specs.Value.{owned};
ghost use Rattle.sqlite.specs.declared.types.Value.TheVariants.{Text};
ghost use Rattle.scim_store_causes.specs.Ids as spec;

use scim_cell::Id;
use scim_store_tables::{Table, TableRows};
use sqlite::Row;
use sqlite::types::ValueRef;

/// Returns the value in the column at `place`; NULL if the row has no such column.
pub(crate) fn value_in(row: &Row, place: usize) -> ValueRef<'_>
    ensures { owned result ≡ column row.now place }
{
    row.get_ref(place).unwrap_or(ValueRef::Null)
}

/// Whether these bytes are the text of an id.
fn is_id(bytes: &[u8]) -> bool
    ensures yes { result ≡ true → spec.IsTextOfId bytes.now }
    ensures no { result ≡ false → ¬ spec.IsTextOfId bytes.now }
{
    match str::from_utf8(bytes) {
        Ok(text) => Id::read(text).is_some(),
        Err(_) => false,
    }
}

/// Whether the first column of a row is the text of an id.
fn has_id(row: &Row) -> bool
    ensures yes { result ≡ true → spec.HasId row.now }
    ensures no { result ≡ false → ¬ spec.HasId row.now }
{
    match value_in(row, 0) {
        ValueRef::Text(bytes) => is_id(bytes),
        ValueRef::Null => false,
        ValueRef::Int(_) => false,
        ValueRef::Real(_) => false,
        ValueRef::Blob(_) => false,
    }
}

/// Whether the first column of each row is the text of an id.
fn have_ids(rows: &[Row]) -> bool
    ensures yes { result ≡ true → All spec.HasId rows.now }
    ensures no { result ≡ false → spec.HasRowWithoutId rows.now }
{
    for row in rows {
        if !has_id(row) {
            return false;
        }
    }
    true
}

/// Returns the first of the tables `resource`, `taken`, `member` and `secret` that has a row without the id of a
/// resource, by the rows that were read; `None` if there isn't one. Frees the rows.
pub(crate) fn table_without_id(rows: TableRows) -> Option<Table>
    ensures { MatchOption result (spec.HaveAllIds rows) (spec.HasReadRowWithoutId rows) }
{
    if !have_ids(rows.resources.as_slice()) {
        return Some(Table::Resource);
    }
    if !have_ids(rows.names.as_slice()) {
        return Some(Table::Taken);
    }
    if !have_ids(rows.members.as_slice()) {
        return Some(Table::Member);
    }
    if !have_ids(rows.secrets.as_slice()) {
        return Some(Table::Secret);
    }
    None
}
