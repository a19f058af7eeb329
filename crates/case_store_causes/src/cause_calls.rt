//! The calls of `scim_store_causes`.
ghost use Rattle.std.specs.Prelude.{◌≡◌, false};

use case_values::{Case, CaseFault, named, said, shown, text_or_json};
use scim_samples::{BASE, USERS};
use scim_store::import;
use scim_store_causes::{open_cause, unusable_cause};
use sqlite::{Alter, Connection, Error, ErrorCode};
use std::alloc::Global;

/// A call of `scim_store_causes`.
#[derive(Clone, Copy)]
enum CauseCall {
    Open,
    Unusable,
}

static CALLS: [(&str, CauseCall); 2] = [
    ("open_cause", CauseCall::Open),
    ("unusable_cause", CauseCall::Unusable),
];

/// The errors that the argument `error` may name.
static ERRORS: [(&str, ErrorCode); 9] = [
    ("DatabaseBusy", ErrorCode::DatabaseBusy),
    ("CannotOpen", ErrorCode::CannotOpen),
    ("NotADatabase", ErrorCode::NotADatabase),
    ("DatabaseCorrupt", ErrorCode::DatabaseCorrupt),
    ("DiskFull", ErrorCode::DiskFull),
    ("SystemIoFailure", ErrorCode::SystemIoFailure),
    ("Closed", ErrorCode::Closed),
    ("TooBig", ErrorCode::TooBig),
    ("OutOfMemory", ErrorCode::OutOfMemory),
];

/// Returns the result of the case's call, or `None` if it isn't a call of `scim_store_causes`.
pub fn answer(case: &Case<'_>, call: &str) -> Option<Result<String, CaseFault>> {
    let call = named(&CALLS, call)?;
    Some(match call {
        CauseCall::Open => open_call(case),
        CauseCall::Unusable => unusable_call(case),
    })
}

/// Returns why a connection can't be opened that fails with the error in the argument `error`; `nothing` if memory
/// ran out. Fails with `Missing` if there is no such error.
fn open_call(case: &Case<'_>) -> Result<String, CaseFault> {
    let Some(code) = named(&ERRORS, case.text("error")?) else {
        return Err(CaseFault::Missing("error"));
    };
    match open_cause(&Error::SqliteFailure(code)) {
        Some(cause) => shown(case.alloc, &cause),
        None => said(case.alloc, "nothing"),
    }
}

/// Returns why a database can't be used after the statements in the list `sql`, which are run over a store of the
/// sample users, or over an empty database if the argument `empty` is true. Returns `nothing` if no cause is found.
fn unusable_call(case: &Case<'_>) -> Result<String, CaseFault> {
    match Connection::open_in_memory(case.alloc) {
        Ok(connection) => told_of(case, connection),
        Err(_) => Err(CaseFault::NoMemory),
    }
}

fn told_of<S: Alter + Drop>(case: &Case<'_>, connection: Connection<S>) -> Result<String, CaseFault>
    requires { connection.in_transaction ≡ false }
{
    let mut connection = connection;
    if !case.is_true("empty") {
        fill(case, &mut connection)?;
    }
    run_statements(case, &mut connection)?;
    cause_text(case.alloc, &mut connection)
}

/// Imports the users file in the argument `users`, by default the samples. Fails with `Missing` if it is invalid.
fn fill<S: Alter>(case: &Case<'_>, connection: &mut Connection<S>) -> Result<(), CaseFault>
    requires { connection.old.in_transaction ≡ false }
{
    let users = text_or_json(case, "users", USERS)?;
    match import(connection, case.alloc, BASE, users.as_str()) {
        Ok(()) => Ok(()),
        Err(_) => Err(CaseFault::Missing("users")),
    }
}

/// Runs the statements in the list `sql`. Fails with `Missing` if one of them fails.
fn run_statements<S: Alter>(
    case: &Case<'_>,
    connection: &mut Connection<S>,
) -> Result<(), CaseFault> {
    for value in case.list("sql") {
        let statement = value.as_str().unwrap_or("");
        if connection.execute(statement, &[]).is_err() {
            return Err(CaseFault::Missing("sql"));
        }
    }
    Ok(())
}

fn cause_text<S: Alter>(
    alloc: Global,
    connection: &mut Connection<S>,
) -> Result<String, CaseFault> {
    match unusable_cause(alloc, connection)? {
        Some(cause) => shown(alloc, &cause),
        None => said(alloc, "nothing"),
    }
}
