//! Classifies a database by its schema and its rows, and reads the rows of resources if it has the tables of
//! version 1 or 2.

ghost use Rattle.std.specs.Prelude.{◌≡◌, ◌≢◌, ◌≤◌, ◌∷◌, [], false, true, pos, Contains, IsPermutation, IfOk, OnErr, IsTrue};
ghost use Rattle.sqlite_value.specs.Value.{owned};
ghost use Rattle.sqlite.specs.declared.types.Value.TheVariants.{Int, Text};
ghost use Rattle.sqlite.specs.Effect.{Database};
ghost use Rattle.sqlite.specs.State.{HasCleanDisk, Survives};
ghost use Rattle.sqlite.specs.View.{doubt};
ghost use Rattle.sqlite.specs.Held.{state};
ghost use Rattle.scim_store_tables.specs.Lists.{version_number, version_values};
ghost use Rattle.scim_store_tables.specs.Looking.{BeginsWithVersion};
ghost use Rattle.scim_store_tables.specs.Queries.{HasTable};
ghost use Rattle.scim_store_tables.specs.declared.versions.Version as declared;
ghost use Rattle.scim_store_tables.specs.declared.versions.Version.TheVariants.{One};
ghost use Rattle.scim_store_tables.specs.Tables.{no_schema};
ghost use Rattle.scim_store_tables.specs.declared.database_kinds.TableRows.{TableRows};
ghost use Rattle.scim_store_tables.specs.declared.database_kinds.DatabaseKind.TheVariants.{Tables};
ghost use Rattle.scim_store_tables.specs.Whole as spec;
ghost use Rattle.scim_store_tables.specs.Reading.{Rests, shown_in, shown_settings};
ghost use Rattle.scim_store_tables.specs.code.Told.{OnlyAsks, OnlyLooks, TellsKnown, IsRefusal, Decides, DecidesKeyed};
ghost use Rattle.scim_store_tables.specs.Whole.{AreAllKeyed, AreInOrder, AreRowsOf, NamesVersion, IsByNames, IsBySetting, IsByRows, IsReading};

use crate::asking::{read_keys, read_rows};
use crate::keys::do_keys_rise;
use crate::queries::Table;
use crate::schema::{is_old_schema, is_store_schema};
use crate::versions::{Version, version_number};
use sqlite::types::ValueRef;
use sqlite::{Alter, Connection, Error, ErrorCode, Row};
use sqlite_schema::names::same_name;
use sqlite_schema::schema::Schema;
use std::alloc::Global;

/// All rows of `resource`, `taken`, `member` and `secret`, sorted. The types of the columns aren't checked.
#[derive(Drop)]
pub struct TableRows {
    /// The columns id, kind and document of each resource, sorted by id.
    pub resources: Vec<Row>,
    /// The columns owner, attribute and text of each unique name, sorted by them in this order.
    pub names: Vec<Row>,
    /// The columns group and value of each member, sorted by them in this order.
    pub members: Vec<Row>,
    /// The columns id and door code of each user with a door code, sorted by id. None in version 1.
    pub secrets: Vec<Row>,
}

/// The classification of a database.
#[derive(Drop)]
pub enum DatabaseKind {
    /// It has no table, index or view.
    Empty,
    /// It has tables of this program, but of a version other than 1 and 2.
    WrongVersion,
    /// It belongs to another program, was changed by one, or is damaged.
    Foreign,
    /// It has the tables of this version, but `setting` has further rows. The tables of resources have these
    /// rows.
    Altered(Version, TableRows),
    /// It has the tables of this version, with these rows of resources. The audit isn't read.
    Tables(Version, TableRows),
}

/// Whether a schema has a table of this name, ignoring the case of ASCII letters.
fn has_table(schema: &Schema, name: &str) -> bool
    ensures { result ≡ spec.has_table schema.now name.now }
{
    schema
        .tables
        .as_slice()
        .iter()
        .any(|table| same_name(table.name.as_slice(), name.as_bytes()))
}

/// Whether a schema has a table with one of the names `resource`, `taken`, `member`, `audit` and `secret`.
fn has_another(schema: &Schema) -> bool
    ensures { result ≡ spec.has_another schema.now }
{
    has_table(schema, "resource")
        || has_table(schema, "taken")
        || has_table(schema, "member")
        || has_table(schema, "audit")
        || has_table(schema, "secret")
}

/// Whether a schema has no table, index or view.
fn is_no_schema(schema: &Schema) -> bool
    ensures yes { IsTrue result → schema.now ≡ no_schema }
    ensures no { result ≡ false → schema.now ≢ no_schema }
{
    schema.tables.is_empty() && schema.indexes.is_empty() && schema.views.is_empty()
}

/// Classifies a database without a table `setting` by the names of its tables.
fn reading_by_names(schema: &Schema) -> DatabaseKind
    ensures { IsByNames schema.now result }
{
    if is_no_schema(schema) {
        DatabaseKind::Empty
    } else if has_another(schema) {
        DatabaseKind::WrongVersion
    } else {
        DatabaseKind::Foreign
    }
}

/// Whether a database has no table, index or view. Reads no rows.
pub fn is_empty_database<S: Alter>(conn: &Connection<S>) -> bool
    ensures yes { IsTrue result → (state S.Store conn.now).now.schema ≡ no_schema }
    ensures no { result ≡ false → (state S.Store conn.now).now.schema ≢ no_schema }
{
    is_no_schema(conn.schema())
}

/// Whether a value is this text.
fn is_text(value: ValueRef<'_>, text: &str) -> bool
    ensures yes { IsTrue result → owned value.entry ≡ Text text.now }
    ensures no { result ≡ false → owned value.entry ≢ Text text.now }
{
    match value {
        ValueRef::Text(bytes) => bytes == text.as_bytes(),
        _ => false,
    }
}

/// Whether a value is this number.
fn is_number(value: ValueRef<'_>, number: i64) -> bool
    ensures yes { IsTrue result → owned value.entry ≡ Int number }
    ensures no { result ≡ false → owned value.entry ≢ Int number }
{
    match value {
        ValueRef::Int(n) => n == number,
        _ => false,
    }
}

/// Whether a row of `setting` says that the tables have this version.
fn is_version_row(row: &Row, version: Version) -> Result<bool, Error>
    ensures yes { IfOk result (λ is. IsTrue is → row.now ≡ version_values version) }
    ensures no { IfOk result (λ is. is ≡ false → row.now ≢ version_values version) }
{
    if row.column_count() != 2 {
        return Ok(false);
    }
    let name = row.get_ref(0)?;
    let number = row.get_ref(1)?;
    Ok(is_text(name, "version") && is_number(number, version_number(version)))
}

/// Whether one of these rows of `setting` says that the tables have this version.
fn names_version(rows: &[Row], version: Version) -> Result<bool, Error>
    ensures yes { IfOk result (λ names. IsTrue names
        → Contains rows.now (version_values version)) }
    ensures no { IfOk result (λ names. names ≡ false
        → ¬ Contains rows.now (version_values version)) }
{
    for row in rows {
        if is_version_row(row, version)? {
            return Ok(true);
        }
    }
    Ok(false)
}

/// Whether an error says that the database refused a statement, which then changed nothing: because the
/// schema lacks what the statement names, or because of a type.
fn is_refusal(error: &Error) -> bool
    ensures { IsTrue result → IsRefusal error.now }
{
    match error {
        Error::SqlInputError(_) => true,
        Error::SqliteFailure(ErrorCode::TypeMismatch) => true,
        _ => false,
    }
}

/// Whether a value is the number of a version, 1 or 2.
fn is_known(value: ValueRef<'_>) -> bool
    ensures yes { IsTrue result → (version : declared.Version)
        × (owned value.entry ≡ Int (pos (version_number version))) }
    ensures no { result ≡ false → (version : declared.Version)
        → owned value.entry ≢ Int (pos (version_number version)) }
{
    is_number(value, 1) || is_number(value, 2)
}

/// Whether the first of these rows has the number of a version, 1 or 2, in its first column.
fn begins_with_version(rows: &[Row]) -> bool
    ensures yes { IsTrue result → BeginsWithVersion rows.now }
    ensures no { result ≡ false → ¬ BeginsWithVersion rows.now }
{
    match rows {
        [] => false,
        [row, ..] => match row.get_ref(0) {
            Ok(number) => is_known(number),
            Err(_) => false,
        },
    }
}

/// Whether a table `setting` names version 1 or 2. The schema may be any; if it has no such table, or the
/// table lacks the columns, the result is false.
///
/// Fails with the database's error. Then the connection is closed, or its database is unchanged or as the
/// last commit left it.
fn names_known<S: Alter>(conn: &mut Connection<S>) -> Result<bool, Error>
    ensures { OnlyLooks TellsKnown (state S.Store conn.old) (state S.Store conn.new) result }
{
    match conn.query_all(
        "SELECT number FROM setting WHERE name = 'version' LIMIT 1",
        &[],
    ) {
        Ok(rows) => Ok(begins_with_version(rows.as_slice())),
        Err(error) => {
            if is_refusal(&error) {
                Ok(false)
            } else {
                Err(error)
            }
        }
    }
}

/// Classifies a database with a table `setting` by the version that it names.
fn reading_by_setting<S: Alter>(conn: &mut Connection<S>) -> Result<DatabaseKind, Error>
    ensures { OnlyLooks IsBySetting (state S.Store conn.old) (state S.Store conn.new) result }
{
    if names_known(conn)? {
        Ok(DatabaseKind::Foreign)
    } else {
        Ok(DatabaseKind::WrongVersion)
    }
}

/// Whether each row of a table has a key and no key occurs twice. The schema must be that of a version that
/// has the table.
fn are_keyed<S: Alter>(conn: &mut Connection<S>, table: Table) -> Result<bool, Error>
    ensures { (version : declared.Version) → HasTable version table
        → OnlyAsks version (DecidesKeyed table) (state S.Store conn.old)
        (state S.Store conn.new) result }
{
    let keys = read_keys(conn, table)?;
    do_keys_rise(keys.as_slice())
}

/// Whether in each of the tables `setting`, `resource`, `taken` and `member` every row has a key and no key
/// occurs twice. The schema must be that of a version.
fn are_old_keyed<S: Alter>(conn: &mut Connection<S>) -> Result<bool, Error>
    ensures { (version : declared.Version)
        → OnlyAsks version (λ db. Decides (AreAllKeyed One db))
        (state S.Store conn.old) (state S.Store conn.new) result }
{
    if !are_keyed(conn, Table::Setting)? {
        return Ok(false);
    }
    if !are_keyed(conn, Table::Resource)? {
        return Ok(false);
    }
    if !are_keyed(conn, Table::Taken)? {
        return Ok(false);
    }
    are_keyed(conn, Table::Member)
}

/// Whether in each table of a version except `audit` every row has a key and no key occurs twice. The schema
/// must be that of the version.
fn are_all_keyed<S: Alter>(conn: &mut Connection<S>, version: Version) -> Result<bool, Error>
    ensures { OnlyAsks version (λ db. Decides (AreAllKeyed version db)) (state S.Store conn.old)
        (state S.Store conn.new) result }
{
    if !are_old_keyed(conn)? {
        return Ok(false);
    }
    match version {
        Version::One => Ok(true),
        Version::Two => are_keyed(conn, Table::Secret),
    }
}

/// Reads all rows of `resource`, `taken` and `member`. The schema must be that of a version.
fn read_old_rows<S: Alter>(conn: &mut Connection<S>, alloc: Global) -> Result<TableRows, Error>
    ensures { (version : declared.Version)
        → OnlyAsks version (λ db. AreRowsOf (shown_in One db)) (state S.Store conn.old)
        (state S.Store conn.new) result }
{
    let resources = read_rows(conn, Table::Resource)?;
    let names = read_rows(conn, Table::Taken)?;
    let members = read_rows(conn, Table::Member)?;
    Ok(TableRows {
        resources,
        names,
        members,
        secrets: Vec::new(alloc),
    })
}

/// Reads all rows of the tables of a version except `setting` and `audit`. The schema must be that of the
/// version.
fn read_all_rows<S: Alter>(
    conn: &mut Connection<S>,
    alloc: Global,
    version: Version,
) -> Result<TableRows, Error>
    ensures { OnlyAsks version (λ db. AreRowsOf (shown_in version db)) (state S.Store conn.old)
        (state S.Store conn.new) result }
{
    let mut rows = read_old_rows(conn, alloc)?;
    match version {
        Version::One => Ok(rows),
        Version::Two => {
            rows.secrets = read_rows(conn, Table::Secret)?;
            Ok(rows)
        }
    }
}

/// Whether one of these rows of `setting` says that the tables have version 1 or 2.
fn names_any_version(rows: &[Row]) -> Result<bool, Error>
    ensures yes { IfOk result (λ names. IsTrue names → (version : declared.Version)
        × Contains rows.now (version_values version)) }
    ensures no { IfOk result (λ names. names ≡ false → (version : declared.Version)
        → ¬ Contains rows.now (version_values version)) }
{
    if names_version(rows, Version::One)? {
        return Ok(true);
    }
    names_version(rows, Version::Two)
}

/// Classifies a database whose `setting` has no row of the version of its schema, by these rows.
fn reading_of_another(settings: &[Row]) -> Result<DatabaseKind, Error>
    ensures { IfOk result (λ kind. (version : declared.Version) (db : Database)
        → IsPermutation (shown_settings db) settings.now → (¬ NamesVersion version db)
        → IsByRows version db kind) }
{
    if names_any_version(settings)? {
        Ok(DatabaseKind::Foreign)
    } else {
        Ok(DatabaseKind::WrongVersion)
    }
}

/// Classifies a database with the schema of a version by its rows.
fn reading_by_rows<S: Alter>(
    conn: &mut Connection<S>,
    alloc: Global,
    version: Version,
) -> Result<DatabaseKind, Error>
    ensures { OnlyAsks version (IsByRows version) (state S.Store conn.old)
        (state S.Store conn.new) result }
{
    let settings = read_rows(conn, Table::Setting)?;
    if !names_version(settings.as_slice(), version)? {
        return reading_of_another(settings.as_slice());
    }
    if !are_all_keyed(conn, version)? {
        return Ok(DatabaseKind::Foreign);
    }
    let rows = read_all_rows(conn, alloc, version)?;
    if settings.len() != 1 {
        return Ok(DatabaseKind::Altered(version, rows));
    }
    Ok(DatabaseKind::Tables(version, rows))
}

/// Reads the rows of resources of a database that has the tables of version 1 or 2, and classifies any other
/// database as `Empty`, `WrongVersion` or `Foreign`. Reads no audit rows.
///
/// A database without tables, indexes and views is `Empty`. A database with the schema of a version is
/// `WrongVersion` if `setting` has the row of neither version; `Foreign` if it has the row of the other version
/// alone, or if a key occurs twice, which never happens in a valid file; and else `Altered` if `setting` has
/// rows beside the row of the version.
///
/// A database of another schema with a table `setting` is `Foreign` if the query of `number` for the name
/// `version` returns 1 or 2 first: the file names a version that has another schema. It is `WrongVersion` if
/// the query returns anything else or nothing, or is refused, because a column is missing or has another type.
/// A database without a table `setting` is `WrongVersion` if it has a table with one of the other five names,
/// and `Foreign` otherwise. Names are compared ignoring the case of ASCII letters, and a table whose SQL isn't
/// supported isn't counted.
///
/// Fails with the database's error, or if a key isn't a number. Then the connection is closed, or its
/// database is unchanged or as the last commit left it. A crash leaves only a state that a crash before the
/// call could also leave.
pub fn read_tables<S: Alter>(conn: &mut Connection<S>, alloc: Global) -> Result<DatabaseKind, Error>
    ensures mode { conn.old.in_transaction ≡ false → conn.new.in_transaction ≡ false }
    ensures clean { doubt (state S.Store conn.old).is_clean
        ≤ doubt (state S.Store conn.new).is_clean }
    ensures survives { Survives (state S.Store conn.old) (state S.Store conn.new) (λ _. ⊥) }
    ensures read { HasCleanDisk (state S.Store conn.new)
        → IfOk result (IsReading (state S.Store conn.old) (state S.Store conn.new)) }
    ensures opened { HasCleanDisk (state S.Store conn.new)
        → IfOk result (λ kind. (version : declared.Version) (rows : TableRows)
        → kind ≡ Tables version rows → IsTrue (state S.Store conn.old).is_open) }
    ensures rests { HasCleanDisk (state S.Store conn.new)
        → OnErr result (Rests (state S.Store conn.old) (state S.Store conn.new)) }
{
    if is_store_schema(conn.schema()) {
        return reading_by_rows(conn, alloc, Version::Two);
    }
    if is_old_schema(conn.schema()) {
        return reading_by_rows(conn, alloc, Version::One);
    }
    if has_table(conn.schema(), "setting") {
        return reading_by_setting(conn);
    }
    Ok(reading_by_names(conn.schema()))
}
