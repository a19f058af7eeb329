//! Why an open database can't be used as a store.

ghost use Rattle.std.specs.Prelude.{◌≡◌, false, IfOk};
ghost use Rattle.sqlite.specs.State.{HasCleanDisk, Survives};
ghost use Rattle.sqlite.specs.Held.{state};
ghost use Rattle.scim_store_tables.specs.Reading.{Rests, shown_in};
ghost use Rattle.scim_store_tables.specs.Tables.{schema_of};
ghost use Rattle.scim_store_tables.specs.Whole.{AreRowsOf};
ghost use Rattle.scim_store_causes.specs.code.Looks.{Looks};
ghost use Rattle.scim_store_causes.specs.Causes as spec;

use crate::audit_causes::{AuditCause, cause_in_audit};
use crate::file_causes::{FileCause, file_cause};
use crate::foreign_objects::{OwnedObject, foreign_copy};
use crate::row_ids::table_without_id;
use scim_store_tables::{DatabaseKind, Table, TableRows, Version, read_tables};
use scim_text::NoMemory;
use sqlite::{Alter, Connection, Error, ErrorCode};
use std::alloc::Global;
use std::fmt;

/// The reason why an open database can't be used as a store.
pub enum UnusableCause {
    /// The schema has this table, index or view, which isn't one of the six tables or their indexes.
    Object(OwnedObject),
    /// The tables aren't those of the version that the table `setting` names, although they have their names; or a
    /// row has no key of its own, which never happens in a valid file.
    Tables,
    /// The table `setting` has rows beside that of the version.
    Settings,
    /// This table, one of `resource`, `taken`, `member` and `secret`, has a row without the id of a resource.
    NoId(Table),
    /// The rows of the audit aren't valid.
    Audit(AuditCause),
    /// The database can't be read.
    File(FileCause),
}

impl Drop for UnusableCause {
    fn drop(self) {
        match self {
            UnusableCause::Object(_object) => {}
            UnusableCause::Tables => {}
            UnusableCause::Settings => {}
            UnusableCause::NoId(_table) => {}
            UnusableCause::Audit(_cause) => {}
            UnusableCause::File(_cause) => {}
        }
    }
}

/// Returns the name of a table.
fn name_of(table: Table) -> &'static str {
    match table {
        Table::Setting => "setting",
        Table::Resource => "resource",
        Table::Taken => "taken",
        Table::Member => "member",
        Table::Audit => "audit",
        Table::Secret => "secret",
    }
}

/// A sentence that says the reason, on one line.
impl fmt::Display for UnusableCause {
    fn fmt<W: fmt::Write>(&self, f: &mut fmt::Formatter<W>) -> fmt::Result {
        match self {
            UnusableCause::Object(object) => object.fmt(f),
            UnusableCause::Tables => {
                f.write_str("the tables aren't those of the version that \"setting\" names")
            }
            UnusableCause::Settings => f.write_str("the table \"setting\" has further rows"),
            UnusableCause::NoId(table) => {
                let name = name_of(*table);
                write!(f, "a row of the table {name:?} has no id of a resource")
            }
            UnusableCause::Audit(cause) => cause.fmt(f),
            UnusableCause::File(cause) => cause.fmt(f),
        }
    }
}

/// Returns the reason in the rows of the tables of a version, of which these are the rows of resources; `None` if
/// there is none.
///
/// Fails with the database's error, or with `OutOfMemory` if memory runs out.
fn cause_in_rows<S: Alter>(
    conn: &mut Connection<S>,
    alloc: Global,
    version: Version,
    rows: TableRows,
) -> Result<Option<UnusableCause>, Error>
    ensures { Looks version (λ db found. db.schema ≡ schema_of version
        → AreRowsOf (shown_in version db) rows → spec.ExplainsRows version db found)
        (state S.Store conn.old) (state S.Store conn.new) result }
{
    if let Some(table) = table_without_id(rows) {
        return Ok(Some(UnusableCause::NoId(table)));
    }
    match cause_in_audit(conn, alloc, version)? {
        Some(cause) => Ok(Some(UnusableCause::Audit(cause))),
        None => Ok(None),
    }
}

/// Returns the reason in the tables and their rows; `None` if there is none. A database that is empty or has tables of
/// another version than 1 and 2 gives no reason.
///
/// Fails with the database's error, or with `OutOfMemory` if memory runs out.
fn cause_in_tables<S: Alter>(
    conn: &mut Connection<S>,
    alloc: Global,
) -> Result<Option<UnusableCause>, Error>
    ensures mode { conn.old.in_transaction ≡ false → conn.new.in_transaction ≡ false }
    ensures survives { Survives (state S.Store conn.old) (state S.Store conn.new) (λ _. ⊥) }
    ensures told { HasCleanDisk (state S.Store conn.new)
        → IfOk result (spec.ExplainsTables (state S.Store conn.old).now) }
    ensures rests { HasCleanDisk (state S.Store conn.new)
        → Rests (state S.Store conn.old) (state S.Store conn.new) }
{
    match read_tables(conn, alloc)? {
        DatabaseKind::Empty | DatabaseKind::WrongVersion => Ok(None),
        DatabaseKind::Foreign => Ok(Some(UnusableCause::Tables)),
        DatabaseKind::Altered(_version, _rows) => Ok(Some(UnusableCause::Settings)),
        DatabaseKind::Tables(version, rows) => cause_in_rows(conn, alloc, version, rows),
    }
}

/// Returns the reason why an open database can't be used as a store; `None` if there is none of these: an object that
/// isn't one of the six tables or their indexes, tables of another program, further rows of `setting`, a row without
/// the id of a resource, an invalid audit. They are looked for in this order. A damaged id is no reason, nor is another
/// version. The number of an invalid audit row isn't given in version 1, nor if only the row's id or leaf is invalid.
///
/// Reads all rows. Holds the rows of resources, and then some rows of the audit.
///
/// The database is only read. Afterwards the connection is closed, or its database is unchanged or as the last commit
/// left it. A crash leaves only a state that a crash before the call could also leave.
pub fn unusable_cause<S: Alter>(
    alloc: Global,
    conn: &mut Connection<S>,
) -> Result<Option<UnusableCause>, NoMemory>
    ensures mode { conn.old.in_transaction ≡ false → conn.new.in_transaction ≡ false }
    ensures survives { Survives (state S.Store conn.old) (state S.Store conn.new) (λ _. ⊥) }
    ensures told { HasCleanDisk (state S.Store conn.new)
        → IfOk result (spec.Explains (state S.Store conn.old).now) }
    ensures rests { HasCleanDisk (state S.Store conn.new)
        → Rests (state S.Store conn.old) (state S.Store conn.new) }
{
    if let Some(object) = foreign_copy(alloc, conn.schema())? {
        return Ok(Some(UnusableCause::Object(object)));
    }
    match cause_in_tables(conn, alloc) {
        Ok(found) => Ok(found),
        Err(Error::SqliteFailure(ErrorCode::OutOfMemory)) => Err(NoMemory),
        Err(error) => Ok(Some(UnusableCause::File(file_cause(&error)))),
    }
}
