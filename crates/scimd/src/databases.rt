//! The commands over a database file.
use crate::database_files::create_database_file;
use crate::details::database_detail;
use crate::failures::Failure;
use clap::ArgMatches;
use scim_command::{
    AuditOptions, CommandFault, DatabaseFault, ExplainOptions, ExportOptions, RunFault, find_file,
    policy_at,
};
use scim_command_database::{Auditing, DatabaseWork, Explaining, Question, unopened};
use scim_store_causes::{open_cause, unusable_cause};
use sqlite::{Alter, Connection, Error};
use std::alloc::Global;

/// Opens the database at a path, runs a command on it, and closes it. If the file doesn't exist, creates it so that
/// only its owner can read and write it.
///
/// Fails with `Database` or `NoMemory` if the database can't be opened, or with the error of the command. If the command
/// can't use the database, the failure says why. A failed close loses nothing: committed changes are in the log, which is
/// read when the database is next opened.
pub(crate) fn with_database<W: DatabaseWork + Drop>(
    rt: &HostRuntime,
    path: &str,
    work: W,
) -> Result<(), Failure> {
    create_database_file(rt, path);
    match Connection::open(rt, path) {
        Ok(connection) => {
            let (done, connection) = work.over(rt.alloc(), connection, &mut rt.stdout());
            let mut connection = connection;
            let detail = unusable_detail(rt.alloc(), &done, &mut connection);
            let _closed = connection.close();
            with_detail(done, detail)
        }
        Err(error) => Err(not_opened(rt, path, error)),
    }
}

/// Returns the failure for a database file that can't be opened, because of this error.
pub(crate) fn not_opened(rt: &HostRuntime, path: &str, error: Error) -> Failure {
    Failure {
        fault: CommandFault::Run(unopened(error)),
        detail: match open_cause(&error) {
            Some(cause) => database_detail(rt, path, cause),
            None => None,
        },
    }
}

/// Returns the result of a command, with a second line for its error if there is one.
pub(crate) fn with_detail(
    done: Result<(), CommandFault>,
    detail: Option<String>,
) -> Result<(), Failure> {
    match done {
        Ok(()) => Ok(()),
        Err(fault) => Err(Failure { fault, detail }),
    }
}

/// Whether a command failed because it can't use the database.
fn is_unusable(done: &Result<(), CommandFault>) -> bool {
    match done {
        Ok(()) => false,
        Err(fault) => match fault {
            CommandFault::Run(fault) => *fault == RunFault::Database(DatabaseFault::Unusable),
            _ => false,
        },
    }
}

/// If a command failed because it can't use the database, returns why; `None` if no cause is found.
pub(crate) fn unusable_detail<S: Alter>(
    alloc: Global,
    done: &Result<(), CommandFault>,
    connection: &mut Connection<S>,
) -> Option<String> {
    if !is_unusable(done) {
        return None;
    }
    match unusable_cause(alloc, connection) {
        Ok(Some(cause)) => format!(in alloc; "{cause}").ok(),
        _ => None,
    }
}

/// Opens the existing database at a path, runs a command on it, and closes it. Fails with `CannotRead` if the
/// file doesn't exist. Otherwise fails with `Database` or `NoMemory` if the database can't be opened, or with
/// the error of the command.
fn with_database_there<W: DatabaseWork + Drop>(
    rt: &HostRuntime,
    path: &str,
    work: W,
) -> Result<(), Failure> {
    find_file(rt, path)?;
    with_database(rt, path, work)
}

/// Runs `explain`: explains a decision. The policy file is read before the database is opened.
pub(crate) fn run_explain(rt: &HostRuntime, matches: &ArgMatches<'_>) -> Result<(), Failure> {
    let options = ExplainOptions::of(matches)?;
    let policy = policy_at(rt, options.policy)?;
    let question = Question::of(&options);
    with_database_there(rt, options.database, Explaining { policy, question })
}

/// Runs `audit`: prints rows of the audit.
pub(crate) fn run_audit(rt: &HostRuntime, matches: &ArgMatches<'_>) -> Result<(), Failure> {
    let options = AuditOptions::of(rt.alloc(), matches)?;
    with_database_there(rt, options.database, Auditing(&options.listing))
}

/// Runs `export`: writes the users file of a store.
pub(crate) fn run_export(rt: &HostRuntime, matches: &ArgMatches<'_>) -> Result<(), Failure> {
    let options = ExportOptions::of(matches)?;
    with_database_there(rt, options.database, options)
}
