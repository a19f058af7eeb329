//! Imports a users file into an empty database.

ghost use Rattle.std.specs.Prelude.{◌≡◌, ◌≢◌, ◌∷◌, ℕ, List, [], false, IfErr, OnOk, OnErr, Err};
ghost use Rattle.sqlite.specs.State.{HasCleanDisk, IsLive, Survives};
ghost use Rattle.sqlite.specs.Held.{state};
ghost use Rattle.sqlite.specs.Tree.{Trees};
ghost use Rattle.scim_cell.specs.Content.{Content};
ghost use Rattle.scim_value.specs.Resource.{HasBase};
ghost use Rattle.scim_json.specs.Documents.{IsDocumentsText, IsDamagedAt};
ghost use Rattle.scim_json.specs.DocumentReading.{HasRead};
ghost use Rattle.scim_json.specs.declared.faults.DamagedItem.{DamagedItem};
ghost use Rattle.scim_store_tables.specs.Lists.{Are, no_rows};
ghost use Rattle.scim_store_tables.specs.Reading.{Rests};
ghost use Rattle.scim_store_tables.specs.Steps.{DoesIn, Became, Undoes, Leaves};
ghost use Rattle.scim_store_tables.specs.Tables.{no_schema};
ghost use Rattle.scim_store.specs.declared.importing.ImportFault.{ImportFault};
ghost use Rattle.scim_store.specs.Importing.{HoldRowsOf, HoldUsers, Fills, LeavesUsers, HasImported};
ghost use Rattle.scim_store.specs.code.Importing.{IsInsertFault, IsFillFault};

use crate::changes::edits_to_keep;
use crate::transactions::put_rows;
use json::Scratch;
use scim_json::{DamagedItem, DocumentReader, check_documents};
use scim_store_tables::{is_empty_database, make_tables};
use scim_text::{Failed, NoMemory};
use scim_value::Resource;
use sqlite::{Alter, Connection, Error, Transaction};
use std::alloc::Global;

/// A reason why a users file can't be imported into a database.
#[derive(Clone, Copy, PartialEq, Eq)]
pub enum ImportFault {
    /// The users file is invalid at this item.
    Users(DamagedItem),
    /// The database isn't empty: it has a table, an index or a view.
    NotEmpty,
    /// The database failed with this error, for instance because the disk failed or memory ran out.
    Database(Error),
    /// Memory ran out.
    NoMemory,
}

impl From<Failed<DamagedItem>> for ImportFault {
    ghost use Rattle.std.specs.Prelude.{◌≡◌};
    ghost use Rattle.scim_store.specs.Importing.{of_reading};

    ghost from_gives = { λ e f. f ≡ of_reading e };

    fn from(fault: Failed<DamagedItem>) -> ImportFault {
        match fault {
            Failed::Because(item) => ImportFault::Users(item),
            Failed::NoMemory => ImportFault::NoMemory,
        }
    }
}

impl From<Error> for ImportFault {
    ghost use Rattle.std.specs.Prelude.{◌≡◌};
    ghost use Rattle.scim_store.specs.declared.importing.ImportFault.{ImportFault};

    ghost from_gives = { λ e f. f ≡ ImportFault.Database e };

    fn from(error: Error) -> ImportFault {
        ImportFault::Database(error)
    }
}

impl From<NoMemory> for ImportFault {
    ghost use Rattle.std.specs.Prelude.{◌≡◌};
    ghost use Rattle.scim_store.specs.declared.importing.ImportFault.{ImportFault};

    ghost from_gives = { λ _ f. f ≡ ImportFault.NoMemory };

    fn from(_: NoMemory) -> ImportFault {
        ImportFault::NoMemory
    }
}

/// Inserts the rows of a resource that isn't stored: its document, its unique names, its members and its door
/// code.
fn insert_rows<S: Alter>(
    tx: &mut Transaction<'_, S>,
    alloc: Global,
    resource: &Resource,
) -> Result<(), ImportFault>
    ensures does { DoesIn S.Store tx.old tx.new result
        (λ old new. (base : List ℕ) (cs : List Content) → HasBase base resource.now
        → HoldRowsOf base cs old → HoldRowsOf base (resource.now ∷ cs) new) }
    ensures faults { IfErr result IsInsertFault }
{
    let edits = edits_to_keep(alloc, resource, None)?;
    put_rows(tx, &edits)?;
    Ok(())
}

/// Reads the resources of a users file one by one, and inserts the rows of each. The tables must be empty.
fn insert_all<S: Alter>(
    tx: &mut Transaction<'_, S>,
    alloc: Global,
    documents: &mut DocumentReader<'_>,
) -> Result<(), ImportFault>
    ensures does { (base users : List ℕ) → HasRead base users [] documents.old
        → DoesIn S.Store tx.old tx.new result
        (λ old new. Are old no_rows → HoldUsers base users new) }
    ensures faults { (base users : List ℕ) → HasRead base users [] documents.old
        → IfErr result (IsFillFault base users) }
{
    'documents: while let Some(resource) = documents.next(alloc)? {
        insert_rows(tx, alloc, &resource)?;
    }
    Ok(())
}

/// Inserts the rows of all resources of a users file. The tables must be empty.
fn insert_users<S: Alter>(
    tx: &mut Transaction<'_, S>,
    alloc: Global,
    base: &str,
    users: &str,
) -> Result<(), ImportFault>
    ensures does { DoesIn S.Store tx.old tx.new result
        (λ old new. Are old no_rows → HoldUsers base.now users.now new) }
    ensures faults { IfErr result (IsFillFault base.now users.now) }
{
    let mut scratch = Scratch::new(alloc);
    let mut documents = DocumentReader::new(alloc, base, users, &mut scratch)?;
    insert_all(tx, alloc, &mut documents)
}

/// Creates the tables and inserts the rows of all resources of a users file.
fn make_store<S: Alter>(
    tx: &mut Transaction<'_, S>,
    alloc: Global,
    base: &str,
    users: &str,
) -> Result<(), ImportFault>
    ensures does { DoesIn S.Store tx.old tx.new result (Fills base.now users.now) }
    ensures faults { IfErr result (IsFillFault base.now users.now) }
{
    make_tables(tx)?;
    insert_users(tx, alloc, base, users)
}

/// Creates the tables in an empty database and inserts the rows of all resources of a users file, in one
/// transaction.
fn fill<S: Alter>(
    conn: &mut Connection<S>,
    alloc: Global,
    base: &str,
    users: &str,
) -> Result<(), ImportFault>
    requires { conn.old.in_transaction ≡ false }
    ensures idle { conn.new.in_transaction ≡ false }
    ensures made { HasCleanDisk (state S.Store conn.new)
        → OnOk result (Became (state S.Store conn.old) (state S.Store conn.new)
        (Fills base.now users.now)) }
    ensures undone { HasCleanDisk (state S.Store conn.new)
        → OnErr result (Undoes (state S.Store conn.old) (state S.Store conn.new)) }
    ensures crash { Survives (state S.Store conn.old) (state S.Store conn.new)
        (Leaves (Fills base.now users.now) (state S.Store conn.old).now) }
    ensures faults { IfErr result (IsFillFault base.now users.now) }
{
    let mut tx = conn.transaction();
    make_store(&mut tx, alloc, base, users)?;
    tx.commit()?;
    Ok(())
}

/// Does nothing. The rows of an open database obey its schema, so no two have the same primary key.
fn rows_obey_schema<S: Alter>(conn: &Connection<S>)
    ensures { IsLive (state S.Store conn.now) }
{
    let _schema = conn.schema();
}

/// Creates the tables in a database without tables, indexes and views, and stores the resources of a users
/// file, in one transaction. The audit has no rows. One resource at a time is in memory, with the ids and the
/// unique names of those before it. The time is nearly linear in the number of resources.
///
/// Fails with `Users` if the file isn't a list of stored documents of resources below `base`, or if two of
/// them have the same id or share a unique name. Fails with `NotEmpty` if the file is valid, but the database
/// has a table, an index or a view. Fails with `NoMemory` if memory runs out, or with the database's error.
/// After an error the database is unchanged or as the last commit left it, or the connection is closed.
///
/// A crash during the call leaves what was there before, or the tables with all resources of the file. A
/// crash after a successful call leaves the tables with all of them, if the disk returns what was written.
pub fn import<S: Alter>(
    conn: &mut Connection<S>,
    alloc: Global,
    base: &str,
    users: &str,
) -> Result<(), ImportFault>
    requires { conn.old.in_transaction ≡ false }
    ensures idle { conn.new.in_transaction ≡ false }
    ensures made { HasCleanDisk (state S.Store conn.new)
        → OnOk result ((cs : List Content) × IsDocumentsText base.now users.now cs
        × HasImported base.now cs (state S.Store conn.old) (state S.Store conn.new)) }
    ensures undone { HasCleanDisk (state S.Store conn.new)
        → OnErr result (Rests (state S.Store conn.old) (state S.Store conn.new)) }
    ensures users { (item : DamagedItem) → result ≡ Err (ImportFault.Users item)
        → IsDamagedAt base.now users.now item.0 }
    ensures not_empty { HasCleanDisk (state S.Store conn.new) → result ≡ Err ImportFault.NotEmpty
        → (state S.Store conn.old).now.schema ≢ no_schema }
    ensures valid { result ≡ Err ImportFault.NotEmpty
        → (cs : List Content) × IsDocumentsText base.now users.now cs }

    // A crash leaves a state that a crash before the call could also leave, or, if the database was empty,
    // the tables with all resources of the file.
    ensures crash { Survives (state S.Store conn.old) (state S.Store conn.new)
        (LeavesUsers base.now users.now (state S.Store conn.old)) }

    // After Ok, a crash leaves the tables with all resources of the file.
    ensures durable { HasCleanDisk (state S.Store conn.new)
        → OnOk result ((trees : Trees) → (state S.Store conn.new).may_leave trees
        → LeavesUsers base.now users.now (state S.Store conn.old) trees) }
{
    if !is_empty_database(conn) {
        check_documents(alloc, base, users)?;
        return Err(ImportFault::NotEmpty);
    }
    let filled = fill(conn, alloc, base, users);
    rows_obey_schema(conn);
    filled
}
