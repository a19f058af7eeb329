//! The command `import`: stores the resources of a users file in an empty database.
ghost use Rattle.std.specs.Prelude.{◌≡◌, ◌≢◌, ℕ, List, false, Err, IfErr, OnOk, OnErr, IsTrue};
ghost use Rattle.sqlite.specs.State.{HasCleanDisk, Survives};
ghost use Rattle.sqlite.specs.Held.{state};
ghost use Rattle.sqlite.specs.Tree.{Trees};
ghost use Rattle.scim_cell.specs.Content.{Content};
ghost use Rattle.scim_json.specs.Documents.{IsDocumentsText, IsDamagedAt};
ghost use Rattle.scim_shelf.specs.Stores.{Store, IsNewStore};
ghost use Rattle.scim_store_tables.specs.Reading.{Rests};
ghost use Rattle.scim_store_tables.specs.Tables.{no_schema};
ghost use Rattle.scim_store.specs.Committing.{HasStore};
ghost use Rattle.scim_store.specs.Importing.{LeavesUsers};
ghost use Rattle.scim_command.specs.declared.faults.DatabaseFault.{DatabaseFault};
ghost use Rattle.scim_command.specs.declared.faults.RunFault.{RunFault};
ghost use Rattle.scim_command_database.specs.Faults.{IsImportFault, of_importing};

use scim_command::{DatabaseFault, RunFault};
use scim_json::DamagedItem;
use scim_store::ImportFault;
use sqlite::{Alter, Connection, Error, ErrorCode};
use std::alloc::Global;

/// Stores the resources of a users file in an empty database, in one transaction. The audit has no rows
/// afterwards. One resource at a time is in memory.
///
/// Fails with `Users` if the file is invalid. Fails with `NotEmpty` if the file is valid, but the database has
/// a table, an index or a view, and with `Unusable` if the database can't be read or written. After an error
/// the database is unchanged or in the state of the last commit, or the connection is closed.
///
/// After a crash during the call, the database is in its earlier state, or it has the tables with all
/// resources of the file. After a crash behind a successful call, it has the tables with all resources of the
/// file, if the disk returns what was written.
pub fn import<S: Alter>(
    alloc: Global,
    connection: &mut Connection<S>,
    base: &str,
    users: &str,
) -> Result<(), RunFault>
    requires { connection.old.in_transaction ≡ false }
    ensures idle { connection.new.in_transaction ≡ false }
    ensures kept { HasCleanDisk (state S.Store connection.new)
        → OnOk result ((resources : List Content) × (store : Store)
        × IsDocumentsText base.now users.now resources × IsNewStore resources store
        × HasStore base.now (state S.Store connection.new) store) }
    ensures empty { HasCleanDisk (state S.Store connection.new)
        → OnOk result ((state S.Store connection.old).now.schema ≡ no_schema) }
    ensures users { (n : ℕ) → result ≡ Err (RunFault.Users n) → IsDamagedAt base.now users.now n }
    ensures not_empty { HasCleanDisk (state S.Store connection.new)
        → result ≡ Err (RunFault.Database DatabaseFault.NotEmpty)
        → (state S.Store connection.old).now.schema ≢ no_schema }
    ensures valid { result ≡ Err (RunFault.Database DatabaseFault.NotEmpty)
        → (resources : List Content) × IsDocumentsText base.now users.now resources }
    ensures undone { HasCleanDisk (state S.Store connection.new)
        → OnErr result (Rests (state S.Store connection.old) (state S.Store connection.new)) }
    ensures crash { Survives (state S.Store connection.old) (state S.Store connection.new)
        (LeavesUsers base.now users.now (state S.Store connection.old)) }

    // After Ok, the connection is open, and a crash leaves the tables with all resources of the file.
    ensures is_open { HasCleanDisk (state S.Store connection.new)
        → OnOk result (IsTrue (state S.Store connection.new).is_open) }
    ensures durable { HasCleanDisk (state S.Store connection.new)
        → OnOk result ((trees : Trees) → (state S.Store connection.new).may_leave trees
        → LeavesUsers base.now users.now (state S.Store connection.old) trees) }
    ensures faults { IfErr result IsImportFault }
{
    match scim_store::import(connection, alloc, base, users) {
        Ok(()) => Ok(()),
        Err(fault) => Err(import_fault(fault)),
    }
}

/// Returns the error of a command for a failed import.
fn import_fault(fault: ImportFault) -> RunFault
    ensures { result ≡ of_importing fault }
{
    match fault {
        ImportFault::Users(DamagedItem(number)) => RunFault::Users(number),
        ImportFault::NotEmpty => RunFault::Database(DatabaseFault::NotEmpty),
        ImportFault::Database(Error::SqliteFailure(ErrorCode::OutOfMemory)) => RunFault::NoMemory,
        ImportFault::Database(_) => RunFault::Database(DatabaseFault::Unusable),
        ImportFault::NoMemory => RunFault::NoMemory,
    }
}
