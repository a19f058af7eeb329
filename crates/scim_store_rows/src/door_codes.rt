//! Reads the door codes of users, which a table of its own keeps.

ghost use Rattle.std.specs.Prelude.{◌≡◌, List, ℕ, false, None, filter, reverse, option_map, string_bytes, IfOk, OnOk, IsTrue};
ghost use Rattle.sqlite.specs.State.{HasCleanDisk, IsUnchanged};
ghost use Rattle.sqlite.specs.Held.{state};
ghost use Rattle.scim_schema.specs.declared.Kind.TheVariants.{User, Group};
ghost use Rattle.scim_store_tables.specs.Lists.{Lists, has_text};
ghost use Rattle.scim_store_tables.specs.Reading.{Rests, Spares, HasTables, Holds, Finds, IsTextOfFirst};
ghost use Rattle.scim_store_rows.specs.code.Finding.{AddsCode, code_at};

use scim_schema::Kind;
use scim_store_tables::{ask, find_secret};
use sqlite::{Alter, Connection, Error, ErrorCode, Row};
use std::alloc::Global;
use std::collections::BTreeMap;

/// Returns the door code of the resource of the kind with this id; `None` if it has none. Groups have none, so
/// for a group no query runs. Fails as [`ask`] does.
pub(crate) fn find_code<S: Alter>(
    conn: &mut Connection<S>,
    kind: Kind,
    id: &str,
) -> Result<Option<String>, Error>
    ensures mode { conn.old.in_transaction ≡ false → conn.new.in_transaction ≡ false }
    ensures spares { Spares (state S.Store conn.old) (state S.Store conn.new) }
    ensures unchanged { HasCleanDisk (state S.Store conn.new) → HasTables (state S.Store conn.old)
        → IsTrue (state S.Store conn.old).is_open
        → OnOk result (IsUnchanged (state S.Store conn.old) (state S.Store conn.new)) }
    ensures user { HasCleanDisk (state S.Store conn.new) → kind ≡ User
        → IfOk result (λ found. (lists : Lists) → Holds (state S.Store conn.old) lists
        → Finds 1 (filter (has_text 0 id.now) lists.secret) (state S.Store conn.old)
        (state S.Store conn.new) (option_map string_bytes found)) }
    ensures group { kind ≡ Group → IfOk result (λ found. found ≡ None) }
    ensures rests { HasCleanDisk (state S.Store conn.new) → (lists : Lists)
        → Holds (state S.Store conn.old) lists
        → Rests (state S.Store conn.old) (state S.Store conn.new) }
{
    match kind {
        Kind::User => find_secret(conn, id),
        Kind::Group => Ok(None),
    }
}

/// Adds the door code of a row of `secret`. Fails with the database's error if a column isn't a text, and with
/// `OutOfMemory` if memory runs out.
fn add_code(row: &Row, codes: &mut BTreeMap<String, String>) -> Result<(), Error>
    ensures { OnOk result (AddsCode row.now codes.old codes.new) }
{
    let id: String = row.get(0)?;
    let code: String = row.get(1)?;
    match codes.insert(id, code) {
        Ok(_) => Ok(()),
        Err(_) => Err(Error::SqliteFailure(ErrorCode::OutOfMemory)),
    }
}

/// Returns the door codes of rows of `secret`, by the texts of the ids. Of several codes of an id it is the
/// last. Fails as `add_code` does.
fn codes_of(alloc: Global, rows: &[Row]) -> Result<BTreeMap<String, String>, Error>
    ensures { IfOk result (λ codes. (id : List ℕ) → IsTextOfFirst 1
        (filter (has_text 0 id) (reverse rows.now))
        (code_at codes id)) }
{
    let mut codes = BTreeMap::new(alloc);
    for row in rows {
        add_code(row, &mut codes)?;
    }
    Ok(codes)
}

/// Returns the door codes of all users, by the texts of their ids. Fails as [`ask`] does, and with
/// `OutOfMemory` if memory runs out.
pub(crate) fn read_codes<S: Alter>(
    conn: &mut Connection<S>,
    alloc: Global,
) -> Result<BTreeMap<String, String>, Error>
    ensures mode { conn.old.in_transaction ≡ false → conn.new.in_transaction ≡ false }
    ensures spares { Spares (state S.Store conn.old) (state S.Store conn.new) }
    ensures unchanged { HasCleanDisk (state S.Store conn.new) → HasTables (state S.Store conn.old)
        → OnOk result (IsUnchanged (state S.Store conn.old) (state S.Store conn.new)) }
    ensures read { HasCleanDisk (state S.Store conn.new)
        → IfOk result (λ codes. (lists : Lists) → Holds (state S.Store conn.old) lists
        → (id : List ℕ) → Finds 1 (filter (has_text 0 id) lists.secret) (state S.Store conn.old)
        (state S.Store conn.new) (code_at codes id)) }
    ensures rests { HasCleanDisk (state S.Store conn.new) → (lists : Lists)
        → Holds (state S.Store conn.old) lists
        → Rests (state S.Store conn.old) (state S.Store conn.new) }
{
    let rows = ask(conn, "SELECT id, door_code FROM secret", &[])?;
    codes_of(alloc, rows.as_slice())
}
