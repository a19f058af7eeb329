//! The command `archive`: copies the resources of a store, without its audit, into a new database.
ghost use Rattle.std.specs.Prelude.{◌≡◌, false, IfErr, OnOk, OnErr};
ghost use Rattle.sqlite.specs.Held.{state};
ghost use Rattle.sqlite.specs.State.{HasCleanDisk};
ghost use Rattle.scim_shelf.specs.Shelves.{KeepsStore};
ghost use Rattle.scim_shelf.specs.Stores.{Store, IsStore};
ghost use Rattle.scim_store_tables.specs.Reading.{Rests};
ghost use Rattle.scim_store_tables.specs.Tables.{no_schema};
ghost use Rattle.scim_command.specs.Options.{default_base};
ghost use Rattle.scim_command_database.specs.Archives.{IsArchiveFault, IsArchiveIn, of_archiving};
ghost use Rattle.scim_command_database.specs.Works.{Reads};

use crate::exporting::export_text;
use crate::importing::import;
use crate::works::{of_run, open_store};
use scim_command::{CommandFault, DEFAULT_BASE, DatabaseFault, RunFault};
use scim_shelf::Shelf;
use scim_shelf_cache::CacheContents;
use sqlite::{Alter, Connection};
use std::alloc::Global;

/// Opens the store of the database `old`, and imports its resources into the empty database `new`, in one
/// transaction. Afterwards `new` holds a store with the same resources and no audit rows, and `old` is as it was.
///
/// If `old` can't be opened as a store, returns the error of [`SqlShelf::open`], converted to an error of the
/// program; then `new` is unchanged. Otherwise fails as [`archive`] does. Both connections are returned.
///
/// [`SqlShelf::open`]: scim_store::SqlShelf::open
pub fn archive_databases<S: Alter + Drop, T: Alter + Drop>(
    alloc: Global,
    old: Connection<S>,
    new: Connection<T>,
) -> (Result<(), CommandFault>, Connection<S>, Connection<T>)
    requires old { old.in_transaction ≡ false }
    requires new { new.in_transaction ≡ false }
    ensures archived { Reads default_base IsArchiveFault
        (λ done store. IsArchiveIn default_base (state T.Store result.2) done store)
        (state S.Store old) (state S.Store result.1) result.0 }
    ensures empty { HasCleanDisk (state T.Store result.2)
        → OnOk result.0 ((state T.Store new).now.schema ≡ no_schema) }
    ensures undone { HasCleanDisk (state T.Store result.2)
        → OnErr result.0 (Rests (state T.Store new) (state T.Store result.2)) }
    ensures idle { OnOk result.0 (result.1.in_transaction ≡ false) }
    ensures idle_new { result.2.in_transaction ≡ false }
{
    let mut new = new;
    match open_store(alloc, old, DEFAULT_BASE, &mut CacheContents::none()) {
        Ok(shelf) => {
            let mut shelf = shelf;
            let done = archive(alloc, &mut shelf, DEFAULT_BASE, &mut new);
            (of_run(done), shelf.into_connection(), new)
        }
        Err((fault, old)) => (Err(fault), old, new),
    }
}

/// Imports the resources of a store, which have locations below the base URL, into an empty database, in one
/// transaction. Afterwards the database holds a store with the same resources and no audit rows. The shelf keeps
/// its store. The users file of the resources is in memory meanwhile.
///
/// Fails with `Database`: as `NotEmpty` if the new database has a table, an index or a view, and as `Unusable` if
/// the store can't be read, or the new database can't be read or written. After an error the new database is
/// unchanged or in the state of the last commit, or its connection is closed.
pub fn archive<H: Shelf, T: Alter>(
    alloc: Global,
    shelf: &mut H,
    base: &str,
    new: &mut Connection<T>,
) -> Result<(), RunFault>
    requires { new.old.in_transaction ≡ false }
    ensures archived { (store : Store) → H.stands shelf.old store → H.is_honest shelf.new
        → IsStore base.now store → IsArchiveIn base.now (state T.Store new.new) result store }
    ensures empty { HasCleanDisk (state T.Store new.new)
        → OnOk result ((state T.Store new.old).now.schema ≡ no_schema) }
    ensures undone { HasCleanDisk (state T.Store new.new)
        → OnErr result (Rests (state T.Store new.old) (state T.Store new.new)) }
    ensures idle { new.new.in_transaction ≡ false }
    ensures store { KeepsStore H.stands shelf.old shelf.new }
    ensures honest { H.is_honest shelf.new → H.is_honest shelf.old }
    ensures faults { IfErr result IsArchiveFault }
{
    let text = export_text(alloc, shelf)?;
    match import(alloc, new, base, text.as_str()) {
        Ok(()) => Ok(()),
        Err(fault) => Err(archive_fault(fault)),
    }
}

/// Returns the fault of `archive` for a fault of the import of a store's own users file: if that is faulty, the
/// store can't be used.
fn archive_fault(fault: RunFault) -> RunFault
    ensures { result ≡ of_archiving fault }
{
    match fault {
        RunFault::Users(_) => RunFault::Database(DatabaseFault::Unusable),
        fault => fault,
    }
}
