//! Stores with the users of a case: in memory, and in a database.
ghost use Rattle.std.specs.Prelude.{◌≡◌, false};

use crate::faults::StoreFault;
use case_values::{Case, CaseFault, text_or_json};
use scim_json::read_documents;
use scim_samples::{BASE, USERS};
use scim_shelf::MemoryShelf;
use scim_shelf_cache::CacheContents;
use scim_store::{ImportFault, SqlShelf, import};
use sqlite::{Alter, Connection};

/// Returns the base URL of the resources of a case: the argument `base`, by default the base URL of the
/// samples.
pub fn base_of<'c>(case: &'c Case<'_>) -> &'c str {
    case.text_or("base", BASE)
}

/// Returns a shelf in memory with the resources of the users file in the argument `name`, by default
/// [`USERS`]. Fails with `Missing` if the users file is invalid.
pub fn shelf_of(case: &Case<'_>, name: &'static str) -> Result<MemoryShelf, CaseFault> {
    let users = text_or_json(case, name, USERS)?;
    match read_documents(case.alloc, base_of(case), users.as_str()) {
        Ok(resources) => Ok(MemoryShelf::new(case.alloc, resources)?),
        Err(_) => Err(CaseFault::Missing(name)),
    }
}

/// Imports the users file in the argument `name` into an empty database.
pub fn fill<S: Alter>(
    case: &Case<'_>,
    name: &'static str,
    connection: &mut Connection<S>,
) -> Result<(), StoreFault>
    requires { connection.old.in_transaction ≡ false }
    ensures { connection.new.in_transaction ≡ false }
{
    let users = text_or_json(case, name, USERS)?;
    match import(connection, case.alloc, base_of(case), users.as_str()) {
        Ok(()) => Ok(()),
        Err(ImportFault::Users(_)) => Err(StoreFault::Case(CaseFault::Missing(name))),
        Err(_) => Err(StoreFault::NotFilled),
    }
}

/// Opens the store in a database. Fails with `NotOpened` if the database can't be opened.
pub fn opened<S: Alter + Drop>(
    case: &Case<'_>,
    connection: Connection<S>,
) -> Result<SqlShelf<S>, StoreFault>
    requires { connection.in_transaction ≡ false }
{
    match SqlShelf::open(
        case.alloc,
        connection,
        base_of(case),
        &mut CacheContents::none(),
    ) {
        Ok(shelf) => Ok(shelf),
        Err((_, _connection)) => Err(StoreFault::NotOpened),
    }
}

/// Imports the users file in the argument `name` into an empty database, and opens its store.
pub fn filled<S: Alter + Drop>(
    case: &Case<'_>,
    name: &'static str,
    connection: Connection<S>,
) -> Result<SqlShelf<S>, StoreFault>
    requires { connection.in_transaction ≡ false }
{
    let mut connection = connection;
    fill(case, name, &mut connection)?;
    opened(case, connection)
}

/// Work on an open database.
pub trait OverDatabase {
    /// Does the work on the connection to a new database, and returns its result as text.
    fn over<S: Alter + Drop>(
        &self,
        case: &Case<'_>,
        connection: Connection<S>,
    ) -> Result<String, StoreFault>
        requires { connection.in_transaction ≡ false };
}

/// Does the work on a new database in memory, and returns its result.
///
/// Only this function has a connection to a concrete storage, because such a function takes long to prove.
/// The functions that it calls are generic in the storage of the database.
pub fn over_new_database<W: OverDatabase>(case: &Case<'_>, work: &W) -> Result<String, StoreFault> {
    match Connection::open_in_memory(case.alloc) {
        Ok(connection) => work.over(case, connection),
        Err(_) => Err(StoreFault::Case(CaseFault::NoMemory)),
    }
}
