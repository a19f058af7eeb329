//! What is wrong with the rows of the audit.

ghost use Rattle.std.specs.Prelude.{◌≡◌, ◌≤◌, ◌+◌, ◌<◌, ℕ, true, pos, MatchOption};
ghost use Rattle.sqlite.specs.Held.{state};
ghost use Rattle.scim_store_tables.specs.declared.versions.Version.TheVariants.{Two};
ghost use Rattle.scim_store_tables.specs.Audit.{last_number};
ghost use Rattle.scim_store_tables.specs.Reading.{shown};
ghost use Rattle.scim_store_causes.specs.Audit.{HasRow, HasEach, PointsTo, ExplainsAudit};
ghost use Rattle.scim_store_causes.specs.code.Looks.{Looks};
ghost use Rattle.scim_store_causes.specs.code.Faults.{AreBetween, IsFaultFrom, IsFaultIn};

use crate::audit_columns::may_be_valid;
use crate::look_ups::{has_row_above, row_with};
use scim_store_rows::{LAST_NUMBER, count_audit};
use scim_store_tables::{Version, read_audit_between};
use sqlite::{Alter, Connection, Error, ErrorCode, Row};
use std::alloc::Global;
use std::fmt;

/// How many audit rows are read at once.
const WINDOW: u64 = 160;

/// How many windows an audit may have.
const WINDOWS: u64 = LAST_NUMBER / WINDOW - 1;

/// What is wrong with the rows of an audit, which are numbered from 1.
#[derive(Clone, Copy, Debug, PartialEq, Eq)]
pub enum AuditCause {
    /// There is no row with this number, but there are later ones.
    Gap(u64),
    /// The row with this number isn't valid.
    Row(u64),
    /// Some row isn't valid, or its number is below 1.
    Rows,
}

/// A sentence that says what is wrong, on one line.
impl fmt::Display for AuditCause {
    fn fmt<W: fmt::Write>(&self, f: &mut fmt::Formatter<W>) -> fmt::Result {
        match self {
            AuditCause::Gap(number) => write!(f, "the audit has no row {number}, but later ones"),
            AuditCause::Row(number) => write!(f, "row {number} of the audit isn't valid"),
            AuditCause::Rows => f.write_str("a row of the audit isn't valid"),
        }
    }
}

/// The first thing that is wrong with the rows of an audit.
#[derive(Clone, Copy)]
enum AuditFault {
    /// There is no row with this number.
    Missing(u64),
    /// The row with this number isn't valid.
    Invalid(u64),
}

/// Returns the first number from `first` on that none of the rows has, or whose row isn't valid. Looks at `WINDOW`
/// numbers, and returns `None` if none of them is wrong.
fn fault_among(rows: &[Row], first: u64) -> Option<AuditFault>
    requires { first ≤ last_number }
    ensures { MatchOption result (HasEach rows.now first (first + 160))
        (IsFaultFrom rows.now first) }
{
    for number in first..first + WINDOW {
        match row_with(rows, number) {
            Some(row) => {
                if !may_be_valid(row) {
                    return Some(AuditFault::Invalid(number));
                }
            }
            None => return Some(AuditFault::Missing(number)),
        }
    }
    None
}

/// Converts a number to an SQL integer.
fn sql_number(number: u64) -> i64
    requires { number ≤ last_number }
    ensures { result ≡ pos number }
{
    number as i64
}

/// Reads the audit rows whose numbers are at least `first` and below `end`. Fails with the database's error.
fn read_between<S: Alter>(conn: &mut Connection<S>, first: u64, end: u64) -> Result<Vec<Row>, Error>
    requires first { first ≤ last_number }
    requires end { end ≤ last_number }
    ensures { Looks Two (λ db rows. AreBetween first end (shown db).audit rows.items)
        (state S.Store conn.old) (state S.Store conn.new) result }
{
    read_audit_between(conn, sql_number(first), sql_number(end))
}

/// Returns the first number from 1 on that no audit row has, or whose row isn't valid. Holds at most `WINDOW` rows.
///
/// Fails with the database's error.
fn first_fault<S: Alter>(conn: &mut Connection<S>) -> Result<AuditFault, Error>
    ensures { Looks Two (λ db fault. IsFaultIn (shown db).audit fault)
        (state S.Store conn.old) (state S.Store conn.new) result }
{
    for window in 0..WINDOWS {
        let first = 1 + window * WINDOW;
        let rows = read_between(conn, first, first + WINDOW)?;
        if let Some(fault) = fault_among(rows.as_slice(), first) {
            return Ok(fault);
        }
    }
    // No database has 2^63 - 1 rows.
    Err(Error::SqliteFailure(ErrorCode::OutOfMemory))
}

/// Whether the audit has a row with a number above this one. Reads windows of doubling length up to the first row, so
/// it holds at most about as many rows as numbers are missing behind `number`, or `WINDOW` of them.
///
/// Fails with the database's error.
fn has_later<S: Alter>(conn: &mut Connection<S>, number: u64) -> Result<bool, Error>
    ensures { Looks Two (λ db found. found ≡ true
        → (later : ℕ) × (number < later) × HasRow (shown db).audit later)
        (state S.Store conn.old) (state S.Store conn.new) result }
{
    let mut first = number.saturating_add(1).min(LAST_NUMBER);
    let mut length = WINDOW;
    for _ in 0..64 {
        let end = first.saturating_add(length).min(LAST_NUMBER);
        let rows = read_between(conn, first, end)?;
        if has_row_above(rows.as_slice(), number) {
            return Ok(true);
        }
        first = end;
        length = length.saturating_mul(2);
    }
    Ok(false)
}

/// Returns the first gap or invalid row of an audit that isn't valid; `Rows` if it finds neither.
///
/// Fails with the database's error.
fn known_cause<S: Alter>(conn: &mut Connection<S>) -> Result<AuditCause, Error>
    ensures { Looks Two (λ db cause. PointsTo (shown db).audit cause)
        (state S.Store conn.old) (state S.Store conn.new) result }
{
    match first_fault(conn)? {
        AuditFault::Invalid(number) => Ok(AuditCause::Row(number)),
        AuditFault::Missing(number) => {
            if has_later(conn, number)? {
                Ok(AuditCause::Gap(number))
            } else {
                Ok(AuditCause::Rows)
            }
        }
    }
}

/// Returns what is wrong with the rows of the audit in the tables of a version; `None` if they are valid. Returns
/// `Rows` for each invalid audit of version 1.
///
/// Fails with the database's error, or with `OutOfMemory` if memory runs out.
pub(crate) fn cause_in_audit<S: Alter>(
    conn: &mut Connection<S>,
    alloc: Global,
    version: Version,
) -> Result<Option<AuditCause>, Error>
    ensures { Looks version ExplainsAudit (state S.Store conn.old) (state S.Store conn.new) result }
{
    if count_audit(conn, alloc)?.is_some() {
        return Ok(None);
    }
    match version {
        Version::One => Ok(Some(AuditCause::Rows)),
        Version::Two => Ok(Some(known_cause(conn)?)),
    }
}
