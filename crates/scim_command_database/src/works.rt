//! Runs each command on a connection to a database, and returns the connection to be closed.
ghost use Rattle.std.specs.Prelude.{◌≡◌, ◌≢◌, ◌⊎◌, ℕ, [], false, IfOk, IfErr, IsTrue};
ghost use Rattle.sqlite.specs.Held.{state};
ghost use Rattle.sqlite.specs.State.{HasCleanDisk, Survives};
ghost use Rattle.scim_shelf_cache.specs.Caches.{HasCached, HasKeyed, lower_of};
ghost use Rattle.scim_shelf.specs.Shelves.{KeepsStore};
ghost use Rattle.scim_shelf.specs.Stores.{Store};
ghost use Rattle.scim_store.specs.Shelves.{HasOpened, LeavesBegun, Opens};
ghost use Rattle.scim_store.specs.SqlShelves.{base_of, connection_of, rows_of};
ghost use Rattle.scim_command.specs.declared.command_faults.CommandFault.{CommandFault};
ghost use Rattle.scim_command.specs.declared.faults.DatabaseFault.{DatabaseFault};
ghost use Rattle.scim_command.specs.declared.faults.RunFault.{RunFault};
ghost use Rattle.scim_command_database.specs.Works.{FailsToOpen, KeepsStoreOf, program_result};

use crate::auditing::print_audit;
use crate::explaining::{Question, explain};
use crate::exporting::export;
use crate::faults::open_fault;
use crate::importing::import;
use scim_audit_listing::Listing;
use scim_command::{CommandFault, DEFAULT_BASE, ExportOptions, RunFault};
use scim_policy::Policy;
use scim_shelf::{BatchShelf, Shelf};
use scim_shelf_cache::{CacheContents, CachedShelf};
use scim_store::SqlShelf;
use scim_text::Failed;
use sqlite::{Alter, Connection};
use std::alloc::Global;
use std::io::Write;

/// A command that works on an open database.
///
/// [`DatabaseWork::over`] is generic in the database's storage and returns the connection. So only one
/// function has to be proved with a connection to the system's files; that proof takes a minute.
pub trait DatabaseWork {
    ghost use Rattle.std.specs.Prelude.{List, Option, Result, OnOk};
    ghost use Rattle.sqlite.specs.State.{State};

    /// The relation between the command, the database before and after it, its result, and the writer's
    /// contents before and after. By default it says nothing.
    ghost does: { Self → State → State → Result (Unit {0}) CommandFault → Option (List ℕ) → Option (List ℕ) → Type 0 } = { λ _ _ _ _ _ _. Unit {0} };

    /// Runs the command on the connection, writes its output, and returns the connection with the result.
    ///
    /// After Ok the connection is in no transaction. Unless the error is `Output`, nothing is written on an
    /// error.
    fn over<S: Alter + Drop, W: Write>(
        self,
        alloc: Global,
        connection: Connection<S>,
        writer: &mut W,
    ) -> (Result<(), CommandFault>, Connection<S>)
        requires { connection.in_transaction ≡ false }
        ensures done { does self (state S.Store connection) (state S.Store result.1) result.0
            (W.contents writer.old) (W.contents writer.new) }
        ensures idle { OnOk result.0 (result.1.in_transaction ≡ false) }
        ensures silent { IfErr result.0 (λ f. f ≢ CommandFault.Run RunFault.Output
            → writer.new ≡ writer.old) };
}

/// The command `explain`: explains the policy's decisions.
#[derive(Drop)]
pub struct Explaining<'a> {
    pub policy: Policy,
    pub question: Question<'a>,
}

impl DatabaseWork for Explaining<'_> {
    ghost use Rattle.scim_command.specs.Options.{default_base};
    ghost use Rattle.scim_command_database.specs.Explaining.{IsExplainFault};
    ghost use Rattle.scim_command_database.specs.Works.{Explains, Reads};

    ghost does = { λ work old new result before after. Reads default_base IsExplainFault (Explains work.policy work.question before after) old new result };

    fn over<S: Alter + Drop, W: Write>(
        self,
        alloc: Global,
        connection: Connection<S>,
        writer: &mut W,
    ) -> (Result<(), CommandFault>, Connection<S>) {
        match open_store(alloc, connection, DEFAULT_BASE, &mut CacheContents::none()) {
            Ok(shelf) => {
                let mut shelf = shelf;
                let done = explain(alloc, &self.policy, &mut shelf, &self.question, writer);
                (of_run(done), shelf.into_connection())
            }
            Err((fault, connection)) => (Err(fault), connection),
        }
    }
}

/// The command `audit`: writes the text of a listing of the audit.
#[derive(Clone, Copy)]
pub struct Auditing<'a>(pub &'a Listing<'a>);

impl DatabaseWork for Auditing<'_> {
    ghost use Rattle.sqlite.specs.State.{Survives};
    ghost use Rattle.scim_store.specs.Shelves.{LeavesBegun};
    ghost use Rattle.scim_command.specs.Options.{default_base};
    ghost use Rattle.scim_audit_listing.specs.Listings.{listed};
    ghost use Rattle.scim_command_database.specs.Faults.{IsDatabaseFault};
    ghost use Rattle.scim_command_database.specs.Works.{Reads, Writes};

    ghost does = { λ work old new result before after. Reads default_base IsDatabaseFault (λ done store. Writes before after (listed work.0.now store.audit) done) old new result × Survives old new (LeavesBegun default_base old) };

    fn over<S: Alter + Drop, W: Write>(
        self,
        alloc: Global,
        connection: Connection<S>,
        writer: &mut W,
    ) -> (Result<(), CommandFault>, Connection<S>) {
        match open_store(alloc, connection, DEFAULT_BASE, &mut CacheContents::none()) {
            Ok(shelf) => {
                let mut shelf = shelf;
                let done = print_audit(alloc, &mut shelf, self.0, writer);
                (of_run(done), shelf.into_connection())
            }
            Err((fault, connection)) => (Err(fault), connection),
        }
    }
}

/// The command `export`: writes the users file of a store.
impl DatabaseWork for ExportOptions<'_> {
    ghost use Rattle.scim_command.specs.Options.{default_base};
    ghost use Rattle.scim_command_database.specs.Exports.{export_text};
    ghost use Rattle.scim_command_database.specs.Faults.{IsDatabaseFault};
    ghost use Rattle.scim_command_database.specs.Works.{Reads, Writes};

    ghost does = { λ work old new result before after. Reads default_base IsDatabaseFault (λ done store. Writes before after (export_text store.resources) done) old new result };

    fn over<S: Alter + Drop, W: Write>(
        self,
        alloc: Global,
        connection: Connection<S>,
        writer: &mut W,
    ) -> (Result<(), CommandFault>, Connection<S>) {
        match open_store(alloc, connection, DEFAULT_BASE, &mut CacheContents::none()) {
            Ok(shelf) => {
                let mut shelf = shelf;
                let done = export(alloc, &mut shelf, writer);
                (of_run(done), shelf.into_connection())
            }
            Err((fault, connection)) => (Err(fault), connection),
        }
    }
}

/// The command `import`: stores the resources of a users file, given as its text, in an empty database.
#[derive(Clone, Copy)]
pub struct Importing<'a>(pub &'a str);

impl DatabaseWork for Importing<'_> {
    ghost use Rattle.scim_command.specs.Options.{default_base};
    ghost use Rattle.scim_command_database.specs.Works.{Imports};

    ghost does = { λ work old new result before after. Imports default_base work.0.now old new result };

    fn over<S: Alter + Drop, W: Write>(
        self,
        alloc: Global,
        connection: Connection<S>,
        _writer: &mut W,
    ) -> (Result<(), CommandFault>, Connection<S>) {
        let mut connection = connection;
        let done = import(alloc, &mut connection, DEFAULT_BASE, self.0);
        (of_run(done), connection)
    }
}

/// Opens the store in a database, with resources located below the base URL, which `contents` copies.
///
/// If [`SqlShelf::open`] fails, returns its error, converted to an error of the program, and the connection:
/// it is closed, or its database is unchanged or as the last commit left it, except that the tables may have
/// been created in an empty database.
pub(crate) fn open_store<S: Alter + Drop>(
    alloc: Global,
    connection: Connection<S>,
    base: &str,
    contents: &mut CacheContents,
) -> Result<SqlShelf<S>, (CommandFault, Connection<S>)>
    requires { connection.in_transaction ≡ false }
    ensures base { IfOk result (λ shelf. base_of shelf ≡ base.now) }
    ensures opened { IfOk result (λ shelf. HasCleanDisk (state S.Store (connection_of shelf))
        → (store : Store) × HasOpened base.now (state S.Store connection).now
        (state S.Store (connection_of shelf)) (rows_of shelf) store) }
    ensures copied { HasCached [] contents.old → IfOk result (λ shelf. (store : Store)
        → ⟦<SqlShelf<S> as Shelf>⟧.stands shelf store
        → ⟦<SqlShelf<S> as Shelf>⟧.is_honest shelf → HasCached store.resources contents.new) }
    ensures crash { IfOk result (λ shelf.
        Survives (state S.Store connection) (state S.Store (connection_of shelf))
        (LeavesBegun base.now (state S.Store connection))) }
    ensures refused { IfErr result (λ e. FailsToOpen base.now (state S.Store connection)
        (state S.Store e.1) e.0) }
{
    match SqlShelf::open(alloc, connection, base, contents) {
        Ok(shelf) => Ok(shelf),
        Err((fault, connection)) => Err((CommandFault::Run(open_fault(fault)), connection)),
    }
}

/// Converts the error of a command, if any, to an error of the program.
pub(crate) fn of_run(done: Result<(), RunFault>) -> Result<(), CommandFault>
    ensures { result ≡ program_result done }
{
    match done {
        Ok(()) => Ok(()),
        Err(fault) => Err(CommandFault::Run(fault)),
    }
}

/// Opens the store in a database, with resources located below the base URL, and with a cache of all
/// resources if `has_cache` is true and memory suffices.
///
/// If [`SqlShelf::open`] fails, returns its error, converted to an error of the program, and the connection:
/// it is closed, or its database is unchanged or as the last commit left it, except that the tables may have
/// been created in an empty database. If the resources can't be read into the cache, returns the error
/// `Database`, as unusable, and the connection, whose database still holds the store.
///
/// Not proved: that the connection is open, and what a crash leaves, after a cache was filled.
pub fn open_cached<S: Alter + Drop>(
    alloc: Global,
    connection: Connection<S>,
    base: &str,
    has_cache: bool,
) -> Result<CachedShelf<SqlShelf<S>>, (CommandFault, Connection<S>)>
    requires { connection.in_transaction ≡ false }
    ensures opened { IfOk result (λ shelf.
        ⟦<CachedShelf<SqlShelf<S>> as Shelf>⟧.is_honest shelf → (store : Store)
        × Opens base.now (state S.Store connection).now store
        × ⟦<CachedShelf<SqlShelf<S>> as Shelf>⟧.stands shelf store) }
    ensures is_open { has_cache ≡ false → IfOk result (λ shelf.
        HasCleanDisk (state S.Store (connection_of (lower_of shelf)))
        → IsTrue (state S.Store (connection_of (lower_of shelf))).is_open) }
    ensures crash { has_cache ≡ false → IfOk result (λ shelf.
        Survives (state S.Store connection) (state S.Store (connection_of (lower_of shelf)))
        (LeavesBegun base.now (state S.Store connection))) }
    ensures refused { IfErr result (λ e.
        FailsToOpen base.now (state S.Store connection) (state S.Store e.1) e.0
        ⊎ IsTrue has_cache × (e.0 ≡ CommandFault.Run (RunFault.Database DatabaseFault.Unusable))
        × KeepsStoreOf base.now (state S.Store connection) (state S.Store e.1) (λ _. Unit {0})) }
{
    let mut contents = contents_for(alloc, has_cache);
    match open_store(alloc, connection, base, &mut contents) {
        Ok(shelf) => {
            let mut shelf = CachedShelf::with_contents(shelf, contents);
            match fill_if(alloc, &mut shelf, has_cache) {
                Ok(()) => Ok(shelf),
                Err(fault) => Err((fault, shelf.into_lower().into_connection())),
            }
        }
        Err(failed) => Err(failed),
    }
}

/// Returns what copies the resources for a cache, or copies nothing if `has_cache` is false.
fn contents_for(alloc: Global, has_cache: bool) -> CacheContents
    ensures { HasCached [] result }
{
    if has_cache {
        CacheContents::new(alloc)
    } else {
        CacheContents::none()
    }
}

/// Fills the cache if `has_cache` is true and it isn't filled yet, as after an empty database was opened. If
/// memory runs out, the cache is unchanged, and reads go to the database. Fails with `Database` if the
/// resources can't be read.
fn fill_if<S: BatchShelf>(
    alloc: Global,
    shelf: &mut CachedShelf<S>,
    has_cache: bool,
) -> Result<(), CommandFault>
    ensures store { KeepsStore (HasKeyed ⟦<CachedShelf<S> as Shelf>⟧.stands) shelf.old shelf.new }
    ensures lower { KeepsStore S.stands (lower_of shelf.old) (lower_of shelf.new) }
    ensures honest { ⟦<CachedShelf<S> as Shelf>⟧.is_honest shelf.new
        → ⟦<CachedShelf<S> as Shelf>⟧.is_honest shelf.old }
    ensures same { has_cache ≡ false → shelf.new ≡ shelf.old }
    ensures fault { IfErr result (λ f. IsTrue has_cache
        × (f ≡ CommandFault.Run (RunFault.Database DatabaseFault.Unusable))) }
{
    if !has_cache || shelf.is_filled() {
        return Ok(());
    }
    match shelf.fill(alloc) {
        Ok(()) | Err(Failed::NoMemory) => Ok(()),
        Err(fault) => Err(CommandFault::Run(fault.into())),
    }
}
