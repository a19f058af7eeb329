//! Does work on a database, and returns the contents of a database as text.
//!
//! The functions are generic in the storage of the database, because a function that has a connection to a
//! concrete storage takes long to prove.
ghost use Rattle.std.specs.Prelude.{◌≡◌, false};

use crate::old_databases::{has_door_codes, make_old_database};
use crate::request_parts::{RequestParts, are_answered};
use crate::rounds::answered_together;
use scim_audit::{AuditRow, print_row};
use scim_cell::Text;
use scim_json::stored_text;
use scim_policy_file::read_policy;
use scim_samples::{BASE, POLICY, USERS};
use scim_schema::Kind;
use scim_service::Service;
use scim_shelf::all_of;
use scim_shelf_cache::{CacheContents, CachedShelf};
use scim_store::{SqlShelf, import};
use scim_store_tables::is_empty_database;
use scim_text::NoMemory;
use scim_value::Resource;
use sqlite::{Alter, Connection};
use std::alloc::Global;

/// Work on a database.
#[derive(Clone, Copy)]
pub(crate) enum Work<'a> {
    /// Imports the sample users into a new database. The result is an empty text.
    Fill,
    /// Makes a database of version 1 with the sample users in a new database. The result is an empty text.
    FillOld,
    /// Looks for the table of door codes, which version 2 has. The result is an empty text if the database has
    /// one, and else `None`.
    LookForDoorCodes,
    /// Answers these requests over the store. The result is an empty text, or `None` if a reply has the
    /// status 500.
    Answer(&'a [RequestParts]),
    /// Answers requests of two connections in a round over the store, with a cache. The result is an empty text, or
    /// `None` if a reply isn't a success.
    AnswerTogether,
    /// Returns the contents of the database: the resources and the audit rows of the store, or an empty text
    /// if the database has no tables.
    Look,
}

/// Does the work on a database. Returns the result of the work and the connection. The result is `None` if the
/// store can't be opened or the work fails.
pub(crate) fn work_over<S: Alter>(
    alloc: Global,
    connection: Connection<S>,
    work: Work<'_>,
) -> (Option<String>, Connection<S>)
    requires { connection.in_transaction ≡ false }
{
    match work {
        Work::Fill => fill(alloc, connection),
        Work::FillOld => fill_old(alloc, connection),
        Work::LookForDoorCodes => look_for_door_codes(alloc, connection),
        Work::Answer(requests) => match SqlShelf::open(
            alloc,
            connection,
            BASE,
            &mut CacheContents::none(),
        ) {
            Ok(shelf) => answer(alloc, shelf, requests),
            Err((_, connection)) => (None, connection),
        },
        Work::AnswerTogether => answer_together(alloc, connection),
        Work::Look => look_into(alloc, connection),
    }
}

fn fill<S: Alter>(alloc: Global, connection: Connection<S>) -> (Option<String>, Connection<S>)
    requires { connection.in_transaction ≡ false }
{
    let mut connection = connection;
    match import(&mut connection, alloc, BASE, USERS) {
        Ok(()) => (Some(String::new(alloc)), connection),
        Err(_) => (None, connection),
    }
}

fn fill_old<S: Alter>(alloc: Global, connection: Connection<S>) -> (Option<String>, Connection<S>) {
    let mut connection = connection;
    let told = if make_old_database(&mut connection) {
        Some(String::new(alloc))
    } else {
        None
    };
    (told, connection)
}

fn look_for_door_codes<S: Alter>(
    alloc: Global,
    connection: Connection<S>,
) -> (Option<String>, Connection<S>) {
    let mut connection = connection;
    let told = if has_door_codes(&mut connection) {
        Some(String::new(alloc))
    } else {
        None
    };
    (told, connection)
}

fn look_into<S: Alter>(alloc: Global, connection: Connection<S>) -> (Option<String>, Connection<S>)
    requires { connection.in_transaction ≡ false }
{
    let has_tables = !is_empty_database(&connection);
    match SqlShelf::open(alloc, connection, BASE, &mut CacheContents::none()) {
        Ok(shelf) => look(alloc, shelf, has_tables),
        Err((_, connection)) => (None, connection),
    }
}

fn answer<S: Alter>(
    alloc: Global,
    shelf: SqlShelf<S>,
    requests: &[RequestParts],
) -> (Option<String>, Connection<S>) {
    let Ok(base) = Text::copy_of(alloc, BASE) else {
        return (None, shelf.into_connection());
    };
    match read_policy(alloc, POLICY) {
        Ok(policy) => {
            let mut service = Service::new(policy, shelf, base);
            let told = if are_answered(alloc, &mut service, requests) {
                Some(String::new(alloc))
            } else {
                None
            };
            (told, service.into_shelf().into_connection())
        }
        Err(_) => (None, shelf.into_connection()),
    }
}

fn answer_together<S: Alter>(
    alloc: Global,
    connection: Connection<S>,
) -> (Option<String>, Connection<S>)
    requires { connection.in_transaction ≡ false }
{
    let mut contents = CacheContents::new(alloc);
    match SqlShelf::open(alloc, connection, BASE, &mut contents) {
        Ok(shelf) => {
            let shelf = CachedShelf::with_contents(shelf, contents);
            let (told, shelf) = answered_together(alloc, shelf);
            (told, shelf.into_lower().into_connection())
        }
        Err((_, connection)) => (None, connection),
    }
}

fn look<S: Alter>(
    alloc: Global,
    shelf: SqlShelf<S>,
    has_tables: bool,
) -> (Option<String>, Connection<S>) {
    let mut shelf = shelf;
    let told = if has_tables {
        told_of(alloc, &mut shelf)
    } else {
        Some(String::new(alloc))
    };
    (told, shelf.into_connection())
}

/// Returns the documents of the resources in a store and the rows of its audit. Returns `None` if the store
/// can't be read, or if memory runs out.
fn told_of<S: Alter>(alloc: Global, shelf: &mut SqlShelf<S>) -> Option<String> {
    let (Ok(users), Ok(groups)) = (
        all_of(alloc, shelf, Kind::User),
        all_of(alloc, shelf, Kind::Group),
    ) else {
        return None;
    };
    let Ok(rows) = shelf.audit_rows(alloc, 1, u64::MAX) else {
        return None;
    };
    match text_of(alloc, users.as_slice(), groups.as_slice(), rows.as_slice()) {
        Ok(text) => Some(text),
        Err(_) => None,
    }
}

fn text_of(
    alloc: Global,
    users: &[Resource],
    groups: &[Resource],
    rows: &[AuditRow],
) -> Result<String, NoMemory> {
    let mut text = String::from_str(alloc, "users ")?;
    push_documents(alloc, users, &mut text)?;
    text.push_str("groups ")?;
    push_documents(alloc, groups, &mut text)?;
    push_rows(alloc, rows, &mut text)?;
    Ok(text)
}

fn push_documents(
    alloc: Global,
    resources: &[Resource],
    text: &mut String,
) -> Result<(), NoMemory> {
    for resource in resources {
        let document = stored_text(alloc, resource)?;
        text.push_str(document.as_str())?;
    }
    Ok(())
}

fn push_rows(alloc: Global, rows: &[AuditRow], text: &mut String) -> Result<(), NoMemory> {
    let mut number: u64 = 0;
    for row in rows {
        number = number.saturating_add(1);
        let line = print_row(alloc, number, row)?;
        text.push_str(line.as_str())?;
    }
    Ok(())
}
