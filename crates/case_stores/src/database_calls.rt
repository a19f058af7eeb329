//! The calls that open a database.
ghost use Rattle.std.specs.Prelude.{◌≡◌, false, IfOk};

use crate::audited::Audited;
use crate::databases::{OverDatabase, base_of, fill, over_new_database};
use crate::faults::{StoreFault, told_or_fault};
use case_values::{Case, CaseFault, between, joined, said};
use scim_schema::Kind;
use scim_shelf::{Shelf, all_of};
use scim_shelf_cache::CacheContents;
use scim_store::{OpenFault, SqlShelf};
use scim_store_tables::foreign_object;
use sqlite::{Alter, Connection};
use std::alloc::Global;

/// Opens a [`prepared`] database. Returns the number of its audit rows, or the error if it can't be opened.
pub fn database_call(case: &Case<'_>) -> Result<String, CaseFault> {
    told_or_fault(case.alloc, over_new_database(case, &Opening))
}

/// Opens a database that the statements in the list `sql` make. Returns `ok N`, where N is the number of its
/// resources, or the error if it can't be opened.
pub fn verdict_call(case: &Case<'_>) -> Result<String, CaseFault> {
    told_or_fault(case.alloc, over_new_database(case, &Verdict))
}

/// Gives the verdict on a database.
struct Verdict;

impl OverDatabase for Verdict {
    fn over<S: Alter + Drop>(
        &self,
        case: &Case<'_>,
        connection: Connection<S>,
    ) -> Result<String, StoreFault> {
        let connection = prepared(case, connection)?;
        match SqlShelf::open(
            case.alloc,
            connection,
            base_of(case),
            &mut CacheContents::none(),
        ) {
            Ok(shelf) => told_of_resources(case.alloc, shelf),
            Err((fault, _connection)) => Ok(fault_text(case.alloc, fault)?),
        }
    }
}

/// Returns the number of resources of a store, and closes the store.
fn told_of_resources<S: Audited>(alloc: Global, shelf: S) -> Result<String, StoreFault> {
    let mut shelf = shelf;
    let counts = (
        count_of(alloc, &mut shelf, Kind::User),
        count_of(alloc, &mut shelf, Kind::Group),
    );
    shelf.close();
    match counts {
        (Some(users), Some(groups)) => {
            let count = users.saturating_add(groups);
            Ok(between(alloc, "ok ", &count, "")?)
        }
        _ => Err(StoreFault::NotRead),
    }
}

/// Returns the number of resources of a kind, or `None` if they can't be read.
fn count_of<S: Shelf>(alloc: Global, shelf: &mut S, kind: Kind) -> Option<usize> {
    match all_of(alloc, shelf, kind) {
        Ok(resources) => Some(resources.len()),
        Err(_) => None,
    }
}

/// Opens a database as a store.
struct Opening;

impl OverDatabase for Opening {
    fn over<S: Alter + Drop>(
        &self,
        case: &Case<'_>,
        connection: Connection<S>,
    ) -> Result<String, StoreFault> {
        let connection = prepared(case, connection)?;
        match SqlShelf::open(
            case.alloc,
            connection,
            base_of(case),
            &mut CacheContents::none(),
        ) {
            Ok(shelf) => told_of_audit(case.alloc, shelf),
            Err((fault, connection)) => Ok(told_of_fault(case.alloc, fault, &connection)?),
        }
    }
}

/// Imports the users file in the argument `users` into the database, runs the statements in the list `sql`,
/// and returns the connection.
///
/// If the argument `empty` is true, or the case has a verdict, imports no users, so the database has only the
/// tables that the statements create. Fails with `NotRun` if a statement fails or the statements leave a transaction open.
pub fn prepared<S: Alter + Drop>(
    case: &Case<'_>,
    connection: Connection<S>,
) -> Result<Connection<S>, StoreFault>
    requires { connection.in_transaction ≡ false }
    ensures { IfOk result (λ connection. connection.in_transaction ≡ false) }
{
    let mut connection = connection;
    if !case.is_true("empty") && !case.has("said") {
        fill(case, "users", &mut connection)?;
    }
    run_statements(case, &mut connection)?;
    if !connection.is_autocommit() {
        return Err(StoreFault::NotRun);
    }
    Ok(connection)
}

/// Runs the statements in the list `sql`.
fn run_statements<S: Alter>(
    case: &Case<'_>,
    connection: &mut Connection<S>,
) -> Result<(), StoreFault> {
    for value in case.list("sql") {
        let statement = value.as_str().unwrap_or("");
        if connection.execute(statement, &[]).is_err() {
            return Err(StoreFault::NotRun);
        }
    }
    Ok(())
}

/// Returns the number of audit rows of a store, and closes the store.
fn told_of_audit<S: Audited>(alloc: Global, shelf: S) -> Result<String, StoreFault> {
    let mut shelf = shelf;
    let rows = shelf.rows_after(alloc, 0);
    shelf.close();
    Ok(between(alloc, "opens, rows of the audit: ", &rows?.len(), "")?)
}

/// Returns the words for the fault with which a database can't be opened. If the database can't be used, adds
/// the first object of another program, if any.
fn told_of_fault<S: Alter>(
    alloc: Global,
    fault: OpenFault,
    connection: &Connection<S>,
) -> Result<String, CaseFault> {
    match fault {
        OpenFault::Store => told_of_unusable(alloc, connection),
        _ => fault_text(alloc, fault),
    }
}

/// Returns the words for the fault with which a database can't be opened.
fn fault_text(alloc: Global, fault: OpenFault) -> Result<String, CaseFault> {
    match fault {
        OpenFault::WrongVersion => said(alloc, "wrong version"),
        OpenFault::Damaged(id) => {
            let id = id.text(alloc)?;
            joined(alloc, &["damaged ", id.as_str()])
        }
        OpenFault::Store | OpenFault::Device => said(alloc, "cannot be used"),
        OpenFault::NoMemory => Err(CaseFault::NoMemory),
    }
}

/// Returns the words for a database that can't be used, with the first object of another program, if any.
fn told_of_unusable<S: Alter>(
    alloc: Global,
    connection: &Connection<S>,
) -> Result<String, CaseFault> {
    match foreign_object(connection.schema()) {
        Some(object) => Ok(between(alloc, "cannot be used: ", &object, "")?),
        None => said(alloc, "cannot be used"),
    }
}
