//! Checks and counts the audit rows.
ghost use Rattle.std.specs.Prelude.{◌≡◌, ◌≢◌, false, true, IfOk, OnErr};
ghost use Rattle.sqlite.specs.State.{HasCleanDisk};
ghost use Rattle.sqlite.specs.Held.{state};
ghost use Rattle.scim_store_tables.specs.declared.versions.Version.{Version};
ghost use Rattle.scim_store_tables.specs.Reading.{Rests, SparesIn, HasTablesIn};
ghost use Rattle.scim_store_rows.specs.Auditing.{IsAuditRow, TellsCount};

use crate::audit_records::read_audit_row;
use scim_store_tables::{Table, rows_query};
use scim_text::NoMemory;
use sqlite::{Alter, Connection, Error, ErrorCode, Row};
use std::alloc::Global;

/// Whether a row of the table is a valid audit row with this number. Fails only with `OutOfMemory`, if memory
/// runs out.
fn is_audit_row(alloc: Global, number: u64, row: &Row) -> Result<bool, Error>
    ensures yes { IfOk result (λ is. is ≡ true → IsAuditRow number row.now) }
    ensures no { IfOk result (λ is. is ≡ false → ¬ IsAuditRow number row.now) }
{
    match read_audit_row(alloc, number, row) {
        Ok(Some(_)) => Ok(true),
        Ok(None) => Ok(false),
        Err(NoMemory) => Err(Error::SqliteFailure(ErrorCode::OutOfMemory)),
    }
}

/// Returns the number of audit rows; `None` unless all of them are valid and numbered consecutively from 1.
/// Reads one row at a time and keeps none of them, in time linear in their number. The database must have
/// exactly the tables of a version.
///
/// Fails with the database's error, or with `OutOfMemory` if memory runs out. Then the connection is closed,
/// or its database is unchanged or as the last commit left it.
pub fn count_audit<S: Alter>(conn: &mut Connection<S>, alloc: Global) -> Result<Option<u64>, Error>
    ensures mode { conn.old.in_transaction ≡ false → conn.new.in_transaction ≡ false }
    ensures spares { (version : Version)
        → SparesIn version (state S.Store conn.old) (state S.Store conn.new) }
    ensures counted { HasCleanDisk (state S.Store conn.new)
        → (version : Version) → HasTablesIn version (state S.Store conn.old)
        → IfOk result (TellsCount (state S.Store conn.old) (state S.Store conn.new)) }
    ensures rests { HasCleanDisk (state S.Store conn.new)
        → (version : Version) → HasTablesIn version (state S.Store conn.old)
        → OnErr result (Rests (state S.Store conn.old) (state S.Store conn.new)) }
{
    let mut rows = conn.query(rows_query(Table::Audit), &[])?;
    'rows: for count in 0..u64::MAX {
        rows.advance()?;
        let Some(row) = rows.get() else {
            return Ok(Some(count));
        };
        if !is_audit_row(alloc, count + 1, row)? {
            return Ok(None);
        }
    }
    // No query returns 2^64 - 1 rows.
    Err(Error::SqliteFailure(ErrorCode::OutOfMemory))
}
