//! The queries on the tables. They change nothing, but a query that fails inside a transaction may roll the
//! transaction back. A crash leaves only a state that a crash before the query could also leave.

ghost use Rattle.std.specs.Prelude.{◌≡◌, [], ◌∷◌, false, map, filter, string_bytes, option_map, IfOk, OnOk, OnErr};
ghost use Rattle.sqlite.specs.State.{HasCleanDisk, IsUnchanged};
ghost use Rattle.sqlite.specs.Held.{state};
ghost use Rattle.sqlite.specs.Values.{bound};
ghost use Rattle.scim_store_tables.specs.Lists.{Lists, has_text, has_texts};
ghost use Rattle.scim_store_tables.specs.Reading.{Rests, Spares, SparesIn, HasTables, Holds, Tells, Finds, IsTextOfFirst, shown, group_alone, is_resource, is_between};
ghost use Rattle.scim_store_tables.specs.Asks.{IsAsked};
ghost use Rattle.scim_store_tables.specs.Queries.{HasTable};
ghost use Rattle.scim_store_tables.specs.declared.versions.Version.{Version};
ghost use Rattle.scim_store_tables.specs.code.Told.{OnlyAsks, AreRows, AreKeys};

use crate::queries::{Table, keys_query, rows_query};
use sqlite::types::ValueRef;
use sqlite::{Alter, Connection, Error, Row, params};

/// Runs a query and returns all its rows.
///
/// Fails with the database's error. After an error the connection is closed, or its database is unchanged or
/// as the last commit left it.
pub fn ask<S: Alter>(
    conn: &mut Connection<S>,
    sql: &str,
    params: &[ValueRef<'_>],
) -> Result<Vec<Row>, Error>
    ensures { IsAsked sql.now (bound params.now) (state S.Store conn.old)
        (state S.Store conn.new) result }
{
    conn.query_all(sql, params)
}

/// Returns the text in the first column of the first row; `None` if there are no rows. Fails if that column
/// isn't a text, or if memory runs out.
pub fn first_text(rows: &[Row]) -> Result<Option<String>, Error>
    ensures { IfOk result (λ found. IsTextOfFirst 0 rows.now (option_map string_bytes found)) }
{
    match rows {
        [] => Ok(None),
        [row, ..] => {
            let text: String = row.get(0)?;
            Ok(Some(text))
        }
    }
}

/// Returns the document of the resource with this id and kind; `None` if there isn't one.
///
/// Fails as [`ask`] does.
pub fn find_resource<S: Alter>(
    conn: &mut Connection<S>,
    id: &str,
    kind: u32,
) -> Result<Option<String>, Error>
    ensures mode { conn.old.in_transaction ≡ false → conn.new.in_transaction ≡ false }
    ensures spares { Spares (state S.Store conn.old) (state S.Store conn.new) }
    ensures unchanged { HasCleanDisk (state S.Store conn.new) → HasTables (state S.Store conn.old)
        → OnOk result (IsUnchanged (state S.Store conn.old) (state S.Store conn.new)) }
    ensures found { HasCleanDisk (state S.Store conn.new)
        → IfOk result (λ found. (lists : Lists) → Holds (state S.Store conn.old) lists
        → Finds 2 (filter (is_resource id.now kind) lists.resources) (state S.Store conn.old)
        (state S.Store conn.new) (option_map string_bytes found)) }
    ensures rests { HasCleanDisk (state S.Store conn.new) → (lists : Lists)
        → Holds (state S.Store conn.old) lists
        → Rests (state S.Store conn.old) (state S.Store conn.new) }
{
    let rows = ask(
        conn,
        "SELECT document FROM resource WHERE id = ?1 AND kind = ?2",
        params![id, kind],
    )?;
    first_text(rows.as_slice())
}

/// Returns the id of the resource that has a unique name; `None` if no resource has it.
///
/// Fails as [`ask`] does.
pub fn find_owner<S: Alter>(
    conn: &mut Connection<S>,
    attribute: &str,
    folded: &str,
) -> Result<Option<String>, Error>
    ensures mode { conn.old.in_transaction ≡ false → conn.new.in_transaction ≡ false }
    ensures spares { Spares (state S.Store conn.old) (state S.Store conn.new) }
    ensures unchanged { HasCleanDisk (state S.Store conn.new) → HasTables (state S.Store conn.old)
        → OnOk result (IsUnchanged (state S.Store conn.old) (state S.Store conn.new)) }
    ensures found { HasCleanDisk (state S.Store conn.new)
        → IfOk result (λ found. (lists : Lists) → Holds (state S.Store conn.old) lists
        → Finds 2 (filter (has_texts attribute.now folded.now) lists.taken) (state S.Store conn.old)
        (state S.Store conn.new) (option_map string_bytes found)) }
    ensures rests { HasCleanDisk (state S.Store conn.new) → (lists : Lists)
        → Holds (state S.Store conn.old) lists
        → Rests (state S.Store conn.old) (state S.Store conn.new) }
{
    let rows = ask(
        conn,
        "SELECT id FROM taken WHERE attribute = ?1 AND folded = ?2",
        params![attribute, folded],
    )?;
    first_text(rows.as_slice())
}

/// Returns the door code of the user with this id; `None` if the user has none.
///
/// Fails as [`ask`] does.
pub fn find_secret<S: Alter>(conn: &mut Connection<S>, id: &str) -> Result<Option<String>, Error>
    ensures mode { conn.old.in_transaction ≡ false → conn.new.in_transaction ≡ false }
    ensures spares { Spares (state S.Store conn.old) (state S.Store conn.new) }
    ensures unchanged { HasCleanDisk (state S.Store conn.new) → HasTables (state S.Store conn.old)
        → OnOk result (IsUnchanged (state S.Store conn.old) (state S.Store conn.new)) }
    ensures found { HasCleanDisk (state S.Store conn.new)
        → IfOk result (λ found. (lists : Lists) → Holds (state S.Store conn.old) lists
        → Finds 1 (filter (has_text 0 id.now) lists.secret) (state S.Store conn.old)
        (state S.Store conn.new) (option_map string_bytes found)) }
    ensures rests { HasCleanDisk (state S.Store conn.new) → (lists : Lists)
        → Holds (state S.Store conn.old) lists
        → Rests (state S.Store conn.old) (state S.Store conn.new) }
{
    let rows = ask(
        conn,
        "SELECT door_code FROM secret WHERE id = ?1",
        params![id],
    )?;
    first_text(rows.as_slice())
}

/// Reads all rows of a table in sorted order. The columns aren't checked. The database must have the tables of
/// a version that has this table. Fails as [`ask`] does.
pub(crate) fn read_rows<S: Alter>(conn: &mut Connection<S>, table: Table) -> Result<Vec<Row>, Error>
    ensures { (version : Version) → HasTable version table
        → OnlyAsks version (λ db rows. AreRows table db rows.items) (state S.Store conn.old)
        (state S.Store conn.new) result }
{
    ask(conn, rows_query(table), &[])
}

/// Reads the keys of a table in sorted order. They are strictly ascending if no key occurs twice. The database
/// must have the tables of a version that has this table. Fails as [`ask`] does.
pub(crate) fn read_keys<S: Alter>(conn: &mut Connection<S>, table: Table) -> Result<Vec<Row>, Error>
    ensures { (version : Version) → HasTable version table
        → OnlyAsks version (λ db keys. AreKeys table db keys.items) (state S.Store conn.old)
        (state S.Store conn.new) result }
{
    ask(conn, keys_query(table), &[])
}

/// Returns the sorted ids of the groups that have a member with this value.
///
/// Fails as [`ask`] does.
pub fn read_groups<S: Alter>(conn: &mut Connection<S>, value: &str) -> Result<Vec<Row>, Error>
    ensures mode { conn.old.in_transaction ≡ false → conn.new.in_transaction ≡ false }
    ensures spares { Spares (state S.Store conn.old) (state S.Store conn.new) }
    ensures unchanged { HasCleanDisk (state S.Store conn.new) → HasTables (state S.Store conn.old)
        → OnOk result (IsUnchanged (state S.Store conn.old) (state S.Store conn.new)) }
    ensures read { HasCleanDisk (state S.Store conn.new)
        → IfOk result (λ rows. (lists : Lists) → Holds (state S.Store conn.old) lists
        → Tells (0 ∷ []) (map group_alone (filter (has_text 0 value.now) lists.member))
        (state S.Store conn.old) (state S.Store conn.new) rows.items) }
    ensures rests { HasCleanDisk (state S.Store conn.new)
        → OnErr result (Rests (state S.Store conn.old) (state S.Store conn.new)) }
{
    ask(
        conn,
        "SELECT group_id FROM member WHERE value = ?1 ORDER BY group_id",
        params![value],
    )
}

/// Returns the audit rows whose numbers are at least `first` and below `end`, sorted by number. The columns
/// aren't checked.
///
/// Fails as [`ask`] does.
pub fn read_audit_between<S: Alter>(
    conn: &mut Connection<S>,
    first: i64,
    end: i64,
) -> Result<Vec<Row>, Error>
    ensures mode { conn.old.in_transaction ≡ false → conn.new.in_transaction ≡ false }
    ensures spares { Spares (state S.Store conn.old) (state S.Store conn.new) }
    ensures read { HasCleanDisk (state S.Store conn.new)
        → IfOk result (λ rows. HasTables (state S.Store conn.old)
        → Tells (0 ∷ []) (filter (is_between first end) (shown (state S.Store conn.old).now).audit)
        (state S.Store conn.old) (state S.Store conn.new) rows.items) }
    ensures rests { HasCleanDisk (state S.Store conn.new)
        → OnErr result (Rests (state S.Store conn.old) (state S.Store conn.new)) }
{
    ask(
        conn,
        "SELECT number, moment, client, op, kind, id, decided, rule, leaf, refusal FROM audit WHERE number >= ?1 AND number < ?2 ORDER BY number",
        params![first, end],
    )
}
