//! The calls of `scim_command_database`, over a database in memory.
ghost use Rattle.std.specs.Prelude.{◌≡◌, false};

use crate::audit_listings::{listing, since};
use crate::database_calls::prepared;
use crate::databases::{OverDatabase, opened, over_new_database};
use crate::faults::{StoreFault, told_or_fault};
use case_policies::policy;
use case_values::{Case, CaseFault, joined, said, shown, written_text};
use scim_audit_listing::Listing;
use scim_cell::Id;
use scim_command::{CommandFault, ExportOptions};
use scim_command_database::{
    DatabaseWork, Question, archive_databases, explain, export, import, print_audit,
};
use scim_explain_paths::path_named;
use scim_policy::Policy;
use scim_samples::{BASE, USERS};
use scim_store::SqlShelf;
use sqlite::{Alter, Connection};
use std::alloc::Global;

/// A command over a database.
#[derive(Clone, Copy)]
pub enum DatabaseCommand {
    /// Prints the rows of the audit that [`listing`] asks for.
    Audit,
    /// Exports the users file of the database.
    Export,
    /// Imports the text `file` and exports the users file of the database.
    Import,
    /// Archives the database.
    Archive,
    /// Explains the decisions of the policy on the arguments `client`, `op`, `kind`, `id` and `path`, or those on all
    /// leaves if `path` isn't given.
    Explain,
    /// Exports the users file of the database, and returns how the program ends instead of the output.
    Ending,
}

/// Returns the output of a command over a database, followed by the text of its error if it failed.
pub fn command_call(case: &Case<'_>, command: DatabaseCommand) -> Result<String, CaseFault> {
    told_or_fault(case.alloc, over_new_database(case, &command))
}

impl OverDatabase for DatabaseCommand {
    fn over<S: Alter + Drop>(
        &self,
        case: &Case<'_>,
        connection: Connection<S>,
    ) -> Result<String, StoreFault> {
        let connection = prepared(case, connection)?;
        match self {
            DatabaseCommand::Import => imported(case, connection),
            DatabaseCommand::Audit => audited(case, connection),
            DatabaseCommand::Export => exported(case, connection),
            DatabaseCommand::Archive => archived(case, connection),
            DatabaseCommand::Explain => explained(case, connection),
            DatabaseCommand::Ending => ending(case, connection),
        }
    }
}

/// Returns the output of a command that prints audit rows of a store, and closes the store.
fn audited<S: Alter + Drop>(
    case: &Case<'_>,
    connection: Connection<S>,
) -> Result<String, StoreFault>
    requires { connection.in_transaction ≡ false }
{
    let mut shelf = opened(case, connection)?;
    let told = audit_text(case, &mut shelf);
    let _connection = shelf.into_connection();
    told
}

fn audit_text<S: Alter + Drop>(
    case: &Case<'_>,
    shelf: &mut SqlShelf<S>,
) -> Result<String, StoreFault> {
    match since(case) {
        Ok(since) => listed(case, shelf, &listing(case, since)),
        Err(fault) => Err(StoreFault::Case(fault)),
    }
}

fn listed<S: Alter + Drop>(
    case: &Case<'_>,
    shelf: &mut SqlShelf<S>,
    listing: &Listing<'_>,
) -> Result<String, StoreFault> {
    let mut written = Vec::new(case.alloc);
    let done = print_audit(case.alloc, shelf, listing, &mut written);
    Ok(written_text(case.alloc, written.as_slice(), done)?)
}

/// Returns the users file exported from a store, and closes the store.
fn exported<S: Alter + Drop>(
    case: &Case<'_>,
    connection: Connection<S>,
) -> Result<String, StoreFault>
    requires { connection.in_transaction ≡ false }
{
    let mut shelf = opened(case, connection)?;
    let told = export_text(case, &mut shelf);
    let _connection = shelf.into_connection();
    told
}

fn export_text<S: Alter + Drop>(
    case: &Case<'_>,
    shelf: &mut SqlShelf<S>,
) -> Result<String, StoreFault> {
    let mut written = Vec::new(case.alloc);
    let done = export(case.alloc, shelf, &mut written);
    Ok(written_text(case.alloc, written.as_slice(), done)?)
}

/// Runs the program's command `export` on a database. Returns the line of its fault, if it failed, and the exit
/// status.
fn ending<S: Alter + Drop>(case: &Case<'_>, connection: Connection<S>) -> Result<String, StoreFault>
    requires { connection.in_transaction ≡ false }
{
    let options = ExportOptions { database: "" };
    let mut written = Vec::new(case.alloc);
    let (done, _connection) = options.over(case.alloc, connection, &mut written);
    Ok(ending_text(case.alloc, &done)?)
}

fn ending_text(alloc: Global, done: &Result<(), CommandFault>) -> Result<String, CaseFault> {
    match done {
        Ok(()) => said(alloc, "exit 0"),
        Err(fault) => {
            let line = shown(alloc, fault)?;
            let status = shown(alloc, &fault.exit_status())?;
            joined(alloc, &[line.as_str(), ", exit ", status.as_str()])
        }
    }
}

/// Imports the text in the argument `file` into a database. Returns the users file exported from it, or the
/// text of the error if the import fails.
fn imported<S: Alter + Drop>(
    case: &Case<'_>,
    connection: Connection<S>,
) -> Result<String, StoreFault>
    requires { connection.in_transaction ≡ false }
{
    let mut connection = connection;
    let file = case.text_or("file", USERS);
    match import(case.alloc, &mut connection, BASE, file) {
        Ok(()) => exported(case, connection),
        Err(fault) => Ok(shown(case.alloc, &fault)?),
    }
}

/// Archives a database, as [`archived_into`] tells it, with a new database in memory.
fn archived<S: Alter + Drop>(
    case: &Case<'_>,
    connection: Connection<S>,
) -> Result<String, StoreFault>
    requires { connection.in_transaction ≡ false }
{
    match Connection::open_in_memory(case.alloc) {
        Ok(new) => archived_into(case, connection, new),
        Err(_) => Err(StoreFault::Case(CaseFault::NoMemory)),
    }
}

/// Imports the resources of a store into a new database. Returns the users file and the audit of the new store, a
/// line that says whether the old store has the same resources, and the audit of the old store; or the text of the
/// error.
fn archived_into<S: Alter + Drop, T: Alter + Drop>(
    case: &Case<'_>,
    old: Connection<S>,
    new: Connection<T>,
) -> Result<String, StoreFault>
    requires old { old.in_transaction ≡ false }
    requires new { new.in_transaction ≡ false }
{
    let (done, old, new) = archive_databases(case.alloc, old, new);
    match done {
        Ok(()) => {
            let (users, audit) = stored(case, new)?;
            let (kept, rows) = stored(case, old)?;
            Ok(archive_text(
                case.alloc,
                users.as_str(),
                audit.as_str(),
                users == kept,
                rows.as_str(),
            )?)
        }
        Err(fault) => Ok(shown(case.alloc, &fault)?),
    }
}

/// Returns the users file and the audit of an archive, a line that says whether the database has the same resources,
/// and the audit of the database.
fn archive_text(
    alloc: Global,
    users: &str,
    audit: &str,
    is_same: bool,
    rows: &str,
) -> Result<String, CaseFault> {
    let line = if is_same {
        "archive: the same resources\n"
    } else {
        "archive: other resources\n"
    };
    joined(alloc, &[users, audit, line, rows])
}

/// Returns the users file and the audit of a store, and closes the store.
fn stored<S: Alter + Drop>(
    case: &Case<'_>,
    connection: Connection<S>,
) -> Result<(String, String), StoreFault>
    requires { connection.in_transaction ≡ false }
{
    let mut shelf = opened(case, connection)?;
    let users = export_text(case, &mut shelf);
    let audit = audit_text(case, &mut shelf);
    let _connection = shelf.into_connection();
    Ok((users?, audit?))
}

/// Returns the explanation of a decision on a resource in the store of a database.
fn explained<S: Alter + Drop>(
    case: &Case<'_>,
    connection: Connection<S>,
) -> Result<String, StoreFault>
    requires { connection.in_transaction ≡ false }
{
    let policy = policy(case)?;
    explained_by(case, &policy, connection)
}

fn explained_by<S: Alter + Drop>(
    case: &Case<'_>,
    policy: &Policy,
    connection: Connection<S>,
) -> Result<String, StoreFault>
    requires { connection.in_transaction ≡ false }
{
    let Some(question) = question_of(case) else {
        return Err(StoreFault::Case(CaseFault::Missing("id")));
    };
    let mut shelf = opened(case, connection)?;
    let told = answer_text(case, policy, &mut shelf, &question);
    let _connection = shelf.into_connection();
    told
}

fn answer_text<S: Alter + Drop>(
    case: &Case<'_>,
    policy: &Policy,
    shelf: &mut SqlShelf<S>,
    question: &Question<'_>,
) -> Result<String, StoreFault> {
    let mut written = Vec::new(case.alloc);
    let done = explain(case.alloc, policy, shelf, question, &mut written);
    Ok(written_text(case.alloc, written.as_slice(), done)?)
}

/// Returns the question that a case asks `explain`, or `None` if the argument `id` isn't an id. An invalid
/// `path` counts as not given.
fn question_of<'c>(case: &'c Case<'_>) -> Option<Question<'c>> {
    let Ok(text) = case.text("id") else {
        return None;
    };
    let Some(id) = Id::read(text) else {
        return None;
    };
    Some(Question {
        client: case.text_or("client", "hr"),
        op: case.op(),
        kind: case.kind(),
        id,
        path: path_named(case.kind(), case.text_or("path", "")),
    })
}
