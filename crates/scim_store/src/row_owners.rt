//! Finds the rows that belong to a resource, by the id in their first column.

ghost use Rattle.std.specs.Prelude.{◌≡◌, ◌≤◌, ◌||◌, ℕ, List, [], ◌∷◌, All, true, false, filter, length, IfSome, IfOk, OnOk, None};
ghost use Rattle.std.specs.Ordering.{nat_cmp, is_lt, is_le};
ghost use Rattle.std.specs.List.Sorted.{IsPartitionPoint};
ghost use Rattle.std.specs.Cmp.Lexicographic.{slice_cmp};
ghost use Rattle.std.specs.BTreeSet.{contains};
ghost use Rattle.sqlite.specs.declared.types.Value.TheVariants.{Text};
ghost use Rattle.sqlite.specs.Order.{column, value_cmp};
ghost use Rattle.sqlite_value.specs.Value.{owned};
ghost use Rattle.scim_cell.specs.Ids.{IsId, id_text};
ghost use Rattle.scim_store_tables.specs.Lists as tables;
ghost use Rattle.scim_store_tables.specs.Reading.{DoNotFall};
ghost use Rattle.scim_store.specs.Owners.{is_of, HasOwner, is_owner};
ghost use Rattle.scim_store.specs.code.Damage.{IsPartedAt};

use scim_cell::Id;
use scim_text::NoMemory;
use sqlite::Row;
use sqlite::types::ValueRef;
use std::cmp::Ordering;
use std::collections::BTreeSet;

/// Returns the value in the column at `place`; NULL if the row has no such column.
pub(crate) fn value_in(row: &Row, place: usize) -> ValueRef<'_>
    ensures { owned result ≡ column row.now place }
{
    row.get_ref(place).unwrap_or(ValueRef::Null)
}

/// Whether the value in the column at `place` is the text.
pub(crate) fn has_text(row: &Row, place: usize, text: &str) -> bool
    ensures { result ≡ tables.has_text place text.now row.now }
{
    match value_in(row, place) {
        ValueRef::Text(bytes) => bytes == text.as_bytes(),
        ValueRef::Null => false,
        ValueRef::Int(_) => false,
        ValueRef::Real(_) => false,
        ValueRef::Blob(_) => false,
    }
}

/// Compares the first column of a row with a text.
#[tactic(auto, using(crate::proofs::OwnedLemmas::text_against, crate::proofs::OwnedLemmas::high_against, crate::proofs::OwnedLemmas::low_against))]
fn compare_owner(row: &Row, text: &str) -> Ordering
    ensures { result ≡ value_cmp (column row.now 0) (Text text.now) }
{
    match value_in(row, 0) {
        ValueRef::Null => Ordering::Less,
        ValueRef::Int(_) => Ordering::Less,
        ValueRef::Real(_) => Ordering::Less,
        ValueRef::Text(bytes) => bytes.cmp(text.as_bytes()),
        ValueRef::Blob(_) => Ordering::Greater,
    }
}

/// Whether exactly the rows before `place` have a first column below the text. Tests only the row at `place`
/// and the row before it. The rows must be sorted by their first column.
fn is_start(rows: &[Row], text: &str, place: usize) -> bool
    ensures { result ≡ true → IsPartedAt (λ r.
        is_lt (value_cmp (column r 0) (Text text.now))) rows.now place }
{
    place <= rows.len()
        && (place == 0 || compare_owner(&rows[place - 1], text).is_lt())
        && (place == rows.len() || compare_owner(&rows[place], text).is_ge())
}

/// Returns how many rows have a first column below the text. The rows must be sorted by their first column.
/// Tries the index `near` before searching.
fn start_of(rows: &[Row], text: &str, near: usize) -> usize
    ensures within { result ≤ length rows.now }
    ensures start { DoNotFall (0 ∷ []) rows.now
        → IsPartitionPoint (λ r. is_lt (value_cmp (column r 0) (Text text.now)) ≡ true)
        (λ r. is_lt (value_cmp (column r 0) (Text text.now)) ≡ false) rows.now result }
{
    if is_start(rows, text, near) {
        return near;
    }
    rows.partition_point(|row| compare_owner(row, text).is_lt())
}

/// Returns how many rows have a first column that isn't above the text, by a linear scan. The rows must be
/// sorted by their first column.
fn count_of(rows: &[Row], text: &str) -> usize
    ensures within { result ≤ length rows.now }
    ensures count { DoNotFall (0 ∷ []) rows.now
        → IsPartitionPoint (λ r. is_le (value_cmp (column r 0) (Text text.now)) ≡ true)
        (λ r. is_le (value_cmp (column r 0) (Text text.now)) ≡ false) rows.now result }
{
    for (place, row) in rows.iter().enumerate() {
        if compare_owner(row, text).is_gt() {
            return place;
        }
    }
    rows.len()
}

/// Returns the rows whose first column is the text. The rows must be sorted by that column. Tries the index
/// `near` first, and sets it to the index after the returned rows, so look-ups in ascending order need no
/// search.
pub(crate) fn rows_of<'r>(rows: &'r [Row], text: &str, near: &mut usize) -> &'r [Row]
    ensures { DoNotFall (0 ∷ []) rows.now
        → result.now ≡ filter (tables.has_text 0 text.now) rows.now }
{
    let start = start_of(rows, text, *near);
    let rest = &rows[start..];
    let count = count_of(rest, text);
    *near = start + count;
    &rest[..count]
}

/// Returns the id whose text is `bytes`; `None` if `bytes` isn't the text of an id.
fn id_of(bytes: &[u8]) -> Option<Id>
    ensures some { IfSome result (λ id. bytes.now ≡ id_text id) }
    ensures id { IfSome result IsId }
    ensures none { result ≡ None → (id : List ℕ) → IsId id → bytes.now ≡ id_text id → ⊥ }
{
    match str::from_utf8(bytes) {
        Ok(text) => Id::read(text),
        Err(_) => None,
    }
}

/// Returns the id in the first column of a row; `None` if that column isn't the text of an id.
fn owner_of(row: &Row) -> Option<Id>
    ensures some { IfSome result (λ id. is_of id row.now ≡ true) }
    ensures id { IfSome result IsId }
    ensures none { result ≡ None → (id : List ℕ) → IsId id → is_of id row.now ≡ false }
{
    match value_in(row, 0) {
        ValueRef::Text(bytes) => id_of(bytes),
        ValueRef::Null => None,
        ValueRef::Int(_) => None,
        ValueRef::Real(_) => None,
        ValueRef::Blob(_) => None,
    }
}

/// Whether each row has the text of an id in its first column.
pub(crate) fn have_owners(rows: &[Row]) -> bool
    ensures yes { result ≡ true → All HasOwner rows.now }
    ensures no { result ≡ false → All HasOwner rows.now → ⊥ }
{
    for row in rows {
        if owner_of(row).is_none() {
            return false;
        }
    }
    true
}

/// Adds the ids in the first columns of the rows to the set. After an error some of the ids may have been
/// added.
pub(crate) fn note_owners(rows: &[Row], ids: &mut BTreeSet<Id>) -> Result<(), NoMemory>
    ensures { OnOk result ((id : List ℕ) → IsId id
        → contains (slice_cmp nat_cmp) ids.new id
        ≡ (contains (slice_cmp nat_cmp) ids.old id || is_owner rows.now id)) }
{
    for row in rows {
        if let Some(id) = owner_of(row) {
            ids.insert(id)?;
        }
    }
    Ok(())
}
