//! The examination of a database before it is opened as a store.

ghost use Rattle.std.specs.Prelude.{◌≡◌, ◌≤◌, [], false, IfOk, OnOk, IfErr, OnErr};
ghost use Rattle.sqlite.specs.Effect.{Database};
ghost use Rattle.sqlite.specs.declared.error.Error.{Error};
ghost use Rattle.sqlite.specs.declared.error.ErrorCode.{ErrorCode};
ghost use Rattle.sqlite.specs.State.{HasCleanDisk, Survives};
ghost use Rattle.sqlite.specs.View.{doubt};
ghost use Rattle.sqlite.specs.Held.{state};
ghost use Rattle.scim_shelf_cache.specs.Caches.{HasCached};
ghost use Rattle.scim_store_tables.specs.Reading.{Rests, SparesIn, HasTablesIn, shown_in};
ghost use Rattle.scim_store_tables.specs.Whole.{AreRowsOf, Is};
ghost use Rattle.scim_store_tables.specs.declared.database_kinds.DatabaseKind.{DatabaseKind};
ghost use Rattle.scim_store.specs.Damage.{AreOrdered, Judges};
ghost use Rattle.scim_store.specs.Opening as spec;

use crate::damage::{Judged, ResourceRows, judge};
use crate::passing::show_sound;
use scim_cell::Id;
use scim_shelf_cache::CacheContents;
use scim_store_rows::count_audit;
use scim_store_tables::{DatabaseKind, TableRows, Version, read_tables};
use scim_text::NoMemory;
use sqlite::{Alter, Connection, Error, ErrorCode};
use std::alloc::Global;

/// The result of examining a database as a store of resources with locations below a base URI.
#[derive(Clone, Copy, PartialEq, Eq)]
pub(crate) enum Examined {
    /// It has no table, index or view.
    Empty,
    /// Its tables of this version hold a valid store, whose audit has this many rows.
    Stands(Version, u64),
    /// Its tables are of another version than 1 and 2.
    WrongVersion,
    /// Its tables don't hold a valid store: this is the least id that has rows, but not exactly the rows of
    /// one valid resource.
    Damaged(Id),
    /// Its tables don't hold a valid store, although the rows of each id are valid; or it doesn't have the
    /// tables of the version that it names; or it belongs to another program.
    Foreign,
}

/// Returns the rows of resources that were read.
fn resource_rows(rows: TableRows) -> ResourceRows
    ensures { result ≡ spec.resource_tables rows }
{
    let TableRows {
        resources,
        names,
        members,
        secrets,
    } = rows;
    ResourceRows {
        resources,
        names,
        members,
        secrets,
    }
}

/// Tests the rows of resources of the tables of a version. Fails only with `OutOfMemory`, if memory runs out.
fn judge_rows(
    alloc: Global,
    version: Version,
    base: &str,
    tables: &ResourceRows,
) -> Result<Judged, Error>
    ensures judged { AreOrdered tables.now
        → IfOk result (Judges version base.now tables.now) }
    ensures memory { IfErr result (λ e. e ≡ Error.SqliteFailure ErrorCode.OutOfMemory) }
{
    match judge(alloc, version, base, tables) {
        Ok(judged) => Ok(judged),
        Err(NoMemory) => Err(Error::SqliteFailure(ErrorCode::OutOfMemory)),
    }
}

/// Tests the rows of resources of the tables of a version, and frees them. If they are valid, `contents`
/// copies the resources; if it can't copy them in the same pass, it copies nothing. Fails only with
/// `OutOfMemory`, if memory runs out.
fn judge_and_copy(
    alloc: Global,
    version: Version,
    base: &str,
    rows: TableRows,
    contents: &mut CacheContents,
) -> Result<Judged, Error>
    ensures judged { AreOrdered (spec.resource_tables rows)
        → IfOk result (Judges version base.now (spec.resource_tables rows)) }
    ensures copied { HasCached [] contents.old → OnOk result ((db : Database)
        → AreRowsOf (shown_in version db) rows
        → spec.HasCopied version base.now db contents.new) }
    ensures memory { IfErr result (λ e. e ≡ Error.SqliteFailure ErrorCode.OutOfMemory) }
{
    let tables = resource_rows(rows);
    match show_sound(alloc, version, base, &tables, contents) {
        Ok(true) => Ok(Judged::Sound),
        Ok(false) => {
            *contents = CacheContents::none();
            judge_rows(alloc, version, base, &tables)
        }
        Err(NoMemory) => Err(Error::SqliteFailure(ErrorCode::OutOfMemory)),
    }
}

/// Returns the result for tables of a version with valid rows of resources and this number of audit rows,
/// `None` if the audit rows aren't valid.
fn of_count(version: Version, count: Option<u64>) -> Examined
    ensures { result ≡ spec.by_count version count }
{
    match count {
        Some(count) => Examined::Stands(version, count),
        None => Examined::Foreign,
    }
}

/// Examines the tables of a version whose rows of resources these are: first these rows, and if they are valid
/// the audit rows, one at a time. `contents` copies the resources of a valid store, or nothing. Fails with the
/// database's error, or with `OutOfMemory` if memory runs out.
fn examine_rows<S: Alter>(
    conn: &mut Connection<S>,
    alloc: Global,
    version: Version,
    base: &str,
    rows: TableRows,
    contents: &mut CacheContents,
) -> Result<Examined, Error>
    ensures mode { conn.old.in_transaction ≡ false → conn.new.in_transaction ≡ false }
    ensures spares { SparesIn version (state S.Store conn.old) (state S.Store conn.new) }
    ensures examined { HasCleanDisk (state S.Store conn.new)
        → HasTablesIn version (state S.Store conn.old)
        → IfOk result (spec.ExaminesRows version base.now rows
        (state S.Store conn.old) (state S.Store conn.new)) }
    ensures rests { HasCleanDisk (state S.Store conn.new)
        → HasTablesIn version (state S.Store conn.old)
        → OnErr result (Rests (state S.Store conn.old) (state S.Store conn.new)) }
    ensures copied { HasCached [] contents.old → OnOk result ((db : Database)
        → AreRowsOf (shown_in version db) rows
        → spec.HasCopied version base.now db contents.new) }
{
    match judge_and_copy(alloc, version, base, rows, contents)? {
        Judged::Sound => Ok(of_count(version, count_audit(conn, alloc)?)),
        Judged::Damaged(id) => Ok(Examined::Damaged(id)),
        Judged::Foreign => Ok(Examined::Foreign),
    }
}

/// Examines the rows of tables of a version with further rows of `setting`. Returns the least id with invalid
/// rows, or `Foreign` if the rows of each id are valid. Fails only with `OutOfMemory`, if memory runs out.
fn examine_altered(
    alloc: Global,
    version: Version,
    base: &str,
    rows: TableRows,
) -> Result<Examined, Error>
    ensures examined { IfOk result (λ it. (db : Database)
        → Is db (DatabaseKind.Altered version rows) → spec.IsFor base.now db it) }
    ensures memory { IfErr result (λ e. e ≡ Error.SqliteFailure ErrorCode.OutOfMemory) }
{
    let tables = resource_rows(rows);
    Ok(of_altered(judge_rows(alloc, version, base, &tables)?))
}

/// Returns the result for tables with further rows of `setting`, whose rows of resources have this result.
fn of_altered(judged: Judged) -> Examined
    ensures { result ≡ spec.by_judged judged }
{
    match judged {
        Judged::Damaged(id) => Examined::Damaged(id),
        Judged::Sound | Judged::Foreign => Examined::Foreign,
    }
}

/// Examines a database as a store of resources with locations below the base URI. Reads all rows, in time
/// nearly linear in their number. Holds the rows of resources until they are examined, and one audit row at a
/// time. `contents` copies the resources of a valid store in the same pass, or nothing.
///
/// Fails with the database's error, or with `OutOfMemory` if memory runs out. Also fails if a key isn't a
/// number. Then the connection is closed, or its database is unchanged or as the last commit left it.
pub(crate) fn examine<S: Alter>(
    conn: &mut Connection<S>,
    alloc: Global,
    base: &str,
    contents: &mut CacheContents,
) -> Result<Examined, Error>
    ensures mode { conn.old.in_transaction ≡ false → conn.new.in_transaction ≡ false }
    ensures clean { doubt (state S.Store conn.old).is_clean
        ≤ doubt (state S.Store conn.new).is_clean }
    ensures survives { Survives (state S.Store conn.old) (state S.Store conn.new) (λ _. ⊥) }
    ensures examined { HasCleanDisk (state S.Store conn.new)
        → IfOk result (spec.Examines base.now (state S.Store conn.old) (state S.Store conn.new)) }
    ensures opened { HasCleanDisk (state S.Store conn.new)
        → IfOk result (λ it. spec.IsOpenIf it (state S.Store conn.old)) }
    ensures copied { HasCleanDisk (state S.Store conn.new) → HasCached [] contents.old
        → IfOk result (λ it. spec.HasCopiedIf it base.now (state S.Store conn.old).now
        contents.new) }
    ensures rests { HasCleanDisk (state S.Store conn.new)
        → OnErr result (Rests (state S.Store conn.old) (state S.Store conn.new)) }
{
    match read_tables(conn, alloc)? {
        DatabaseKind::Empty => Ok(Examined::Empty),
        DatabaseKind::WrongVersion => Ok(Examined::WrongVersion),
        DatabaseKind::Foreign => Ok(Examined::Foreign),
        DatabaseKind::Altered(version, rows) => examine_altered(alloc, version, base, rows),
        DatabaseKind::Tables(version, rows) => {
            examine_rows(conn, alloc, version, base, rows, contents)
        }
    }
}
