//! Reads audit rows by number.
ghost use Rattle.std.specs.Prelude.{◌≡◌, ◌≢◌, ◌≤◌, ◌+◌, ℕ, List, false, length, pos, IfOk, OnOk};
ghost use Rattle.sqlite.specs.State.{HasCleanDisk};
ghost use Rattle.sqlite.specs.Held.{state};
ghost use Rattle.scim_shelf.specs.Stores.{Store};
ghost use Rattle.scim_store_tables.specs.Audit.{last_number};
ghost use Rattle.scim_store_tables.specs.Reading.{Rests, Spares};
ghost use Rattle.scim_store_rows.specs.Audit.{audit_rows};
ghost use Rattle.scim_store_rows.specs.Auditing.{TellsRows};
ghost use Rattle.scim_store_rows.specs.Finding.{StandsIn};
ghost use Rattle.scim_store_rows.specs.code.Spans.{IsSpan};

use crate::audit_records::are_audit_rows;
use scim_audit::AuditRow;
use scim_store_tables::read_audit_between;
use scim_text::NoMemory;
use sqlite::{Alter, Connection, Error, ErrorCode, Row};
use std::alloc::Global;

/// The largest number of an audit row, 2^63 - 1: the largest integer of SQL.
pub const LAST_NUMBER: u64 = 9_223_372_036_854_775_807;

/// Returns the range of the numbers of the rows to read, as the first number and the exclusive end. The end
/// is at most 2^63 - 1, the largest integer of SQL, and the first number is below 2^63 - 1.
fn span(from: u64, count: u64) -> (u64, u64)
    ensures { IsSpan from count result.0 result.1 }
{
    let from = from.max(1);
    let end = from.saturating_add(count).min(LAST_NUMBER);
    (from.min(LAST_NUMBER - 1), end)
}

/// Converts a number to an SQL integer.
fn sql_number(number: u64) -> i64
    requires { number ≤ last_number }
    ensures { result ≡ pos number }
{
    number as i64
}

/// Reads the audit rows that a query returned for the numbers from `first` to `end`, exclusive. Fails with
/// `DatabaseCorrupt` if a row isn't valid, and with `OutOfMemory` if memory runs out. Fails with `TooBig` if
/// `end` is the largest number and there is a row for each number from `first` up to `end`: then the row with
/// the largest number, which the query can't include, may be missing.
fn read_span(alloc: Global, first: u64, end: u64, rows: &[Row]) -> Result<Vec<AuditRow>, Error>
    requires { first ≤ last_number }
    ensures read { IfOk result (λ read. audit_rows first read.items ≡ rows.now) }
    ensures apart { OnOk result (end ≡ last_number → first + length rows.now ≢ end) }
{
    if end == LAST_NUMBER && first + rows.len() as u64 == end {
        return Err(Error::SqliteFailure(ErrorCode::TooBig));
    }
    match are_audit_rows(alloc, first, rows) {
        Ok(Some(read)) => Ok(read),
        Ok(None) => Err(Error::SqliteFailure(ErrorCode::DatabaseCorrupt)),
        Err(NoMemory) => Err(Error::SqliteFailure(ErrorCode::OutOfMemory)),
    }
}

/// Returns at most `count` audit rows from number `from` on, in order. The first row has number 1, and 0
/// counts as 1. The refusal `BadMethod` is returned with the methods of a collection, since the methods of
/// the requested endpoint aren't stored.
///
/// Fails with the database's error, with `OutOfMemory` if memory runs out, with `DatabaseCorrupt` if a row of
/// the table isn't a valid audit row, or with `TooBig` if the rows to return reach 2^63 - 1, the largest
/// number. Then the connection is closed, or its database is unchanged or as the last commit left it.
pub fn read_audit_rows<S: Alter>(
    conn: &mut Connection<S>,
    alloc: Global,
    from: u64,
    count: u64,
) -> Result<Vec<AuditRow>, Error>
    ensures mode { conn.old.in_transaction ≡ false → conn.new.in_transaction ≡ false }
    ensures spares { Spares (state S.Store conn.old) (state S.Store conn.new) }
    ensures read { HasCleanDisk (state S.Store conn.new)
        → IfOk result (λ rows. (base : List ℕ) (store : Store)
        → StandsIn base (state S.Store conn.old) store
        → TellsRows from count store (state S.Store conn.old) (state S.Store conn.new) rows.items) }
    ensures rests { HasCleanDisk (state S.Store conn.new) → (base : List ℕ) (store : Store)
        → StandsIn base (state S.Store conn.old) store
        → Rests (state S.Store conn.old) (state S.Store conn.new) }
{
    let (first, end) = span(from, count);
    let rows = read_audit_between(conn, sql_number(first), sql_number(end))?;
    read_span(alloc, first, end, rows.as_slice())
}
