//! A shelf over the tables of a database.

ghost use Rattle.std.specs.Prelude.{◌≡◌, ◌≢◌, ◌<◌, ◌≤◌, ◌+◌, [], ℕ, List, Ok, Err, IfOk, IfErr, OnOk, OnErr, IsErr, IsTrue, find, filter, length, false};
ghost use Rattle.std.specs.List.{FoldsTo};
ghost use Rattle.std.specs.Option.{option_copied};
ghost use Rattle.sqlite.specs.Effect.{Database};
ghost use Rattle.sqlite.specs.declared.error.Error.{Error};
ghost use Rattle.sqlite.specs.declared.error.ErrorCode.{ErrorCode};
ghost use Rattle.sqlite.specs.State.{HasCleanDisk, IsUnchanged, Survives};
ghost use Rattle.sqlite.specs.Held.{state};
ghost use Rattle.scim_text.specs.declared.memory.Failed.{Failed};
ghost use Rattle.scim_shelf.specs.declared.faults.ShelfFault.{ShelfFault};
ghost use Rattle.scim_cell.specs.Kinds.{of_kind};
ghost use Rattle.scim_value.specs.Uniqueness.{name_of};
ghost use Rattle.scim_shelf_cache.specs.Caches.{HasCached};
ghost use Rattle.scim_shelf.specs.Shelves.{Counts, Answers, OnlyReads, ShowsPrefix, Commits, count_after};
ghost use Rattle.scim_shelf.specs.Stores.{Store, AreKeyed, CanKeep, IsOld, is_at, has_name, is_group_with, last_number, after};
ghost use Rattle.scim_store_rows.specs.Auditing.{AreRowsFrom};
ghost use Rattle.scim_store.specs.declared.committing.CommitFault.{CommitFault};
ghost use Rattle.scim_store_tables.specs.Reading.{Rests, Spares};
ghost use Rattle.scim_store_tables.specs.Tables.{no_schema};
ghost use Rattle.scim_store_tables.specs.Steps.{Became, Leaves};
ghost use Rattle.scim_store_tables.specs.Migrating.{Migrates};
ghost use Rattle.scim_store.specs.Beginning.{no_store, Begins};
ghost use Rattle.scim_store_rows.specs.Finding.{StandsIn};
ghost use Rattle.scim_shelf.specs.Commits.{CanKeepAll, AreOld, after_all};
ghost use Rattle.scim_shelf.specs.Shelves.{CommitsSome};
ghost use Rattle.scim_store.specs.Commits.{MayMakeAll};
ghost use Rattle.scim_store.specs.Shelves.{IsKeptIn, MayMake, MayMakeOver, CommitsWhole, HasOpened, Refuses, LeavesBegun};

use crate::committing::{CommitFault, commit_all, commit_change, commit_over};
use crate::creation::begin_store;
use crate::examining::{Examined, examine};
use scim_audit::AuditRow;
use scim_cell::{Id, Text};
use scim_schema::Kind;
use scim_shelf::{BatchShelf, Change, Commit, Shelf, ShelfFault, Visitor, show_all};
use scim_shelf_cache::CacheContents;
use scim_store_rows::{
    LAST_NUMBER, find_by_id, find_groups_with, find_owner_of_name, read_audit_rows, walk,
};
use scim_store_tables::{Version, migrate};
use scim_text::Failed;
use scim_value::{Resource, UniqueName};
use sqlite::{Alter, Connection, Error, ErrorCode};
use std::alloc::Global;

/// A shelf over the tables of a database, whose resources have locations below one base URI.
///
/// It looks up resources by id, by unique name and by member value through the keys of the tables. Committing
/// a resource with a location below another base fails with `Device`.
pub struct SqlShelf<S: Alter> {
    connection: Connection<S>,
    base: Text,
    /// How many rows the audit has.
    rows: u64,
    /// How often the device failed, 2^64 - 1 at most.
    failures: u64,
    ghost idle: { connection.in_transaction ≡ false },
    ghost bounded: { rows ≤ last_number },
}

/// A reason why a database can't be opened.
#[derive(Clone, Copy, PartialEq, Eq)]
pub enum OpenFault {
    /// Its tables are of another version than 1 and 2.
    WrongVersion,
    /// Its tables don't hold a valid store: this is the least id that has rows, but not exactly the rows of
    /// one valid resource.
    Damaged(Id),
    /// It belongs to another program, or it doesn't have the tables of the version that it names, or its tables
    /// don't hold a valid store although the rows of each id are valid.
    Store,
    /// It can't be read or written, or the connection is in a transaction.
    Device,
    /// Memory ran out.
    NoMemory,
}

/// Converts an error of the database to the fault with which opening it fails.
fn open_fault_of(error: &Error) -> OpenFault
    ensures { (base : List ℕ) (db : Database) → Refuses base db result }
{
    match error {
        Error::SqliteFailure(ErrorCode::OutOfMemory) => OpenFault::NoMemory,
        _ => OpenFault::Device,
    }
}

impl<S: Alter> SqlShelf<S> {
    ghost use Rattle.scim_store.specs.SqlShelves.{connection_of, base_of, rows_of};

    /// Returns a shelf with this connection, base URI and number of audit rows. The device hasn't failed yet.
    fn of_parts(connection: Connection<S>, base: Text, rows: u64) -> SqlShelf<S>
        requires idle { connection.in_transaction ≡ false }
        requires bounded { rows ≤ last_number }
        ensures connection { result.connection ≡ connection }
        ensures base { result.base ≡ base }
        ensures rows { result.rows ≡ rows }
        ensures failures { result.failures ≡ 0 }
    {
        SqlShelf {
            connection,
            base,
            rows,
            failures: 0,
        }
    }

    /// Returns a shelf over the tables of version 2 of a connection, whose audit has `rows` rows. Fails with
    /// `Device` if there are more than `LAST_NUMBER` rows or the connection is in a transaction. An error
    /// contains the connection, unchanged.
    fn over(
        connection: Connection<S>,
        base: Text,
        rows: u64,
    ) -> Result<SqlShelf<S>, (OpenFault, Connection<S>)>
        requires { connection.in_transaction ≡ false }
        ensures base { IfOk result (λ shelf. shelf.base ≡ base) }
        ensures same { IfOk result (λ shelf. shelf.connection ≡ connection) }
        ensures count { IfOk result (λ shelf. shelf.failures ≡ 0) }
        ensures kept { IfOk result (λ shelf. HasCleanDisk (state S.Store shelf.connection)
            → HasCleanDisk (state S.Store connection)
            × ((store : Store) → StandsIn base (state S.Store connection) store
            → length store.audit ≡ rows
            → IsKeptIn base (state S.Store shelf.connection) shelf.rows store)) }
        ensures refused { IfErr result (λ e. (base : List ℕ) (db : Database)
            → Refuses base db e.0) }
        ensures given_back { IfErr result (λ e. e.1 ≡ connection) }
    {
        if rows > LAST_NUMBER || !connection.is_autocommit() {
            return Err((OpenFault::Device, connection));
        }
        Ok(SqlShelf::of_parts(connection, base, rows))
    }

    /// Creates the tables in an empty database, in one transaction, and returns a shelf over them. Fails with
    /// `Device` if the device failed, and with `NoMemory` if memory runs out. An error contains the
    /// connection: it is closed, or its database is unchanged.
    fn begin(
        connection: Connection<S>,
        base: Text,
    ) -> Result<SqlShelf<S>, (OpenFault, Connection<S>)>
        requires { connection.in_transaction ≡ false }
        ensures kept { IfOk result (λ shelf. HasCleanDisk (state S.Store shelf.connection)
            → HasCleanDisk (state S.Store connection) × IsTrue (state S.Store connection).is_open
            × IsTrue (state S.Store shelf.connection).is_open
            × ((state S.Store connection).now.schema ≡ no_schema
            → IsKeptIn base (state S.Store shelf.connection) shelf.rows no_store)) }
        ensures base { IfOk result (λ shelf. shelf.base ≡ base) }
        ensures count { IfOk result (λ shelf. shelf.failures ≡ 0) }
        ensures refused { IfErr result (λ e. (base : List ℕ) (db : Database)
            → Refuses base db e.0) }
        ensures clean { IfErr result (λ e. HasCleanDisk (state S.Store e.1)
            → HasCleanDisk (state S.Store connection)) }
        ensures crash { IfOk result (λ shelf.
            Survives (state S.Store connection) (state S.Store shelf.connection)
            (Leaves Begins (state S.Store connection).now)) }
        ensures crash_at_err { IfErr result (λ e. Survives (state S.Store connection)
            (state S.Store e.1) (Leaves Begins (state S.Store connection).now)) }
    {
        let mut connection = connection;
        match begin_store(&mut connection) {
            Ok(()) => Ok(SqlShelf::of_parts(connection, base, 0)),
            Err(error) => Err((open_fault_of(&error), connection)),
        }
    }

    /// Migrates the tables from version 1 to version 2, in one transaction, and returns a shelf over them. The
    /// audit has `rows` rows. Fails with `Device` if there are more than `LAST_NUMBER` rows or the device
    /// failed, and with `NoMemory` if memory runs out. An error contains the connection: it is closed, or its
    /// tables are those of version 1 as before.
    fn migrated(
        connection: Connection<S>,
        base: Text,
        rows: u64,
    ) -> Result<SqlShelf<S>, (OpenFault, Connection<S>)>
        requires { connection.in_transaction ≡ false }
        ensures base { IfOk result (λ shelf. shelf.base ≡ base) }
        ensures count { IfOk result (λ shelf. (shelf.failures ≡ 0) × (shelf.rows ≡ rows)) }
        ensures became { IfOk result (λ shelf. HasCleanDisk (state S.Store shelf.connection)
            → Became (state S.Store connection) (state S.Store shelf.connection) Migrates) }
        ensures refused { IfErr result (λ e. (base : List ℕ) (db : Database)
            → Refuses base db e.0) }
        ensures rests { IfErr result (λ e. HasCleanDisk (state S.Store e.1)
            → Rests (state S.Store connection) (state S.Store e.1)) }
        ensures crash { IfOk result (λ shelf.
            Survives (state S.Store connection) (state S.Store shelf.connection)
            (Leaves Migrates (state S.Store connection).now)) }
        ensures crash_at_err { IfErr result (λ e. Survives (state S.Store connection)
            (state S.Store e.1) (Leaves Migrates (state S.Store connection).now)) }
    {
        if rows > LAST_NUMBER {
            return Err((OpenFault::Device, connection));
        }
        let mut connection = connection;
        match migrate(&mut connection) {
            Ok(()) => Ok(SqlShelf::of_parts(connection, base, rows)),
            Err(error) => Err((open_fault_of(&error), connection)),
        }
    }

    /// Opens a database as a store of resources with locations below the base URI. If it is empty, the tables
    /// are created in one transaction. Otherwise all rows are read and checked by the rules of the version of
    /// the tables, in time nearly linear in their number. The audit rows are read one at a time, and all other
    /// rows are held until they are checked. Valid tables of version 1 are then migrated to version 2, in one
    /// transaction.
    ///
    /// `contents` copies the resources of a valid store while they are checked, for
    /// [`scim_shelf::CachedShelf::with_contents`]. It copies nothing if memory runs out for the copies or the
    /// database was empty.
    ///
    /// Fails with `WrongVersion` if the tables are of another version than 1 and 2, with `Damaged` if an id has
    /// rows, but not exactly the rows of one valid resource, and with `Store` if the database belongs to
    /// another program, if it doesn't have the tables of the version that it names, or if its tables don't
    /// hold a valid store for another reason. Fails with `Device` if the device failed or the connection is in
    /// a transaction, and with `NoMemory` if memory runs out.
    ///
    /// An error also contains the connection: it is closed, or its database is unchanged or as the last
    /// commit left it. If the migration fails, the tables are still those of version 1.
    pub fn open(
        alloc: Global,
        connection: Connection<S>,
        base: &str,
        contents: &mut CacheContents,
    ) -> Result<SqlShelf<S>, (OpenFault, Connection<S>)>
        requires { connection.in_transaction ≡ false }
        ensures base { IfOk result (λ shelf. base_of shelf ≡ base.now) }
        ensures count { IfOk result (λ shelf. ⟦<SqlShelf<S> as Shelf>⟧.failures shelf ≡ 0) }
        ensures opened { IfOk result (λ shelf. HasCleanDisk (state S.Store (connection_of shelf))
            → (store : Store) × HasOpened base.now (state S.Store connection).now
            (state S.Store (connection_of shelf)) (rows_of shelf) store) }
        ensures copied { HasCached [] contents.old → IfOk result (λ shelf. (store : Store)
            → ⟦<SqlShelf<S> as Shelf>⟧.stands shelf store
            → ⟦<SqlShelf<S> as Shelf>⟧.is_honest shelf → HasCached store.resources contents.new) }
        ensures refused { IfErr result (λ e. HasCleanDisk (state S.Store e.1)
            → Refuses base.now (state S.Store connection).now e.0) }
        ensures rests { IfErr result (λ e. HasCleanDisk (state S.Store e.1)
            → (state S.Store connection).now.schema ≢ no_schema
            → Rests (state S.Store connection) (state S.Store e.1)) }

        // A crash leaves a state that a crash before the call could also leave; or, if the database was
        // empty, the tables of an empty store; or, if the tables were of version 1, the migrated ones.
        ensures crash { IfOk result (λ shelf.
            Survives (state S.Store connection) (state S.Store (connection_of shelf))
            (LeavesBegun base.now (state S.Store connection))) }
        ensures crash_at_err { IfErr result (λ e. Survives (state S.Store connection)
            (state S.Store e.1) (LeavesBegun base.now (state S.Store connection))) }
    {
        let own = match Text::copy_of(alloc, base) {
            Ok(own) => own,
            Err(_) => return Err((OpenFault::NoMemory, connection)),
        };
        let mut connection = connection;
        let examined = match examine(&mut connection, alloc, base, contents) {
            Ok(examined) => examined,
            Err(error) => return Err((open_fault_of(&error), connection)),
        };
        match examined {
            Examined::Empty => {
                *contents = CacheContents::none();
                SqlShelf::begin(connection, own)
            }
            Examined::Stands(version, rows) => match version {
                Version::One => SqlShelf::migrated(connection, own, rows),
                Version::Two => SqlShelf::over(connection, own, rows),
            },
            Examined::WrongVersion => Err((OpenFault::WrongVersion, connection)),
            Examined::Damaged(id) => Err((OpenFault::Damaged(id), connection)),
            Examined::Foreign => Err((OpenFault::Store, connection)),
        }
    }

    /// Returns the number of audit rows, 2^63 - 1 at most.
    pub fn audit_count(&self) -> u64
        ensures count { (store : Store) → ⟦<SqlShelf<S> as Shelf>⟧.stands self.now store
            → result ≡ length store.audit }
        ensures bounded { result ≤ last_number }
    {
        self.rows
    }

    /// Returns at most `count` audit rows from number `from` on, in order. The first row has number 1, and 0
    /// counts as 1. The refusal `BadMethod` is returned with the methods of a collection, since the methods
    /// of the requested endpoint aren't stored.
    ///
    /// Fails with `Device` if the device failed. An error leaves the stored resources and the audit
    /// unchanged.
    pub fn audit_rows(
        &mut self,
        alloc: Global,
        from: u64,
        count: u64,
    ) -> Result<Vec<AuditRow>, Failed<ShelfFault>>
        ensures answer { IfOk result (Answers ⟦<SqlShelf<S> as Shelf>⟧.stands
            ⟦<SqlShelf<S> as Shelf>⟧.is_honest self.old self.new
            (λ store rows. AreRowsFrom from count store rows.items)) }
        ensures unchanged { IfOk result (Answers ⟦<SqlShelf<S> as Shelf>⟧.stands
            ⟦<SqlShelf<S> as Shelf>⟧.is_honest self.old self.new
            (λ _ _. IsUnchanged (state S.Store (connection_of self.old))
            (state S.Store (connection_of self.new)))) }
        ensures read { OnlyReads ⟦<SqlShelf<S> as Shelf>⟧.stands
            ⟦<SqlShelf<S> as Shelf>⟧.is_honest ⟦<SqlShelf<S> as Shelf>⟧.failures ⟦<SqlShelf<S> as Shelf>⟧.has_round
            self.old self.new result }
        ensures spares { Spares (state S.Store (connection_of self.old))
            (state S.Store (connection_of self.new)) }
    {
        let read = read_audit_rows(&mut self.connection, alloc, from, count);
        told(&mut self.failures, read)
    }

    /// Returns the connection of the shelf, unchanged.
    pub fn into_connection(self) -> Connection<S>
        ensures connection { result ≡ connection_of self }
        ensures idle { result.in_transaction ≡ false }
    {
        let SqlShelf {
            connection,
            base: _,
            rows: _,
            failures: _,
        } = self;
        connection
    }
}

/// Converts a fault of a commit to a fault of the shelf: `NoMemory` if memory ran out, and otherwise
/// `Device`, which is counted in `failures`.
fn fault_of(failures: &mut u64, fault: &CommitFault) -> Failed<ShelfFault>
    ensures counted { failures.new ≡ count_after failures.old result }
    ensures device { result ≡ Failed.Because ShelfFault.Device
        → fault.now ≢ CommitFault.Database (Error.SqliteFailure ErrorCode.OutOfMemory) }
    ensures not_full { result ≢ Failed.Because ShelfFault.Full }
{
    match fault {
        CommitFault::NoMemory
        | CommitFault::Database(Error::SqliteFailure(ErrorCode::OutOfMemory)) => {
            Failed::NoMemory
        }
        _ => {
            *failures = failures.saturating_add(1);
            Failed::Because(ShelfFault::Device)
        }
    }
}

/// Converts the result of a read to a result of the shelf, and counts a failure of the device in `failures`.
fn told<T>(failures: &mut u64, found: Result<T, Error>) -> Result<T, Failed<ShelfFault>>
    ensures same { IfOk result (λ x. found ≡ Ok x) }
    ensures counts { Counts failures.old failures.new result }
    ensures device { result ≡ Err (Failed.Because ShelfFault.Device) → (e : Error) × (found ≡ Err e)
        × (e ≢ Error.SqliteFailure ErrorCode.OutOfMemory) }
    ensures not_full { result ≢ Err (Failed.Because ShelfFault.Full) }
{
    match found {
        Ok(found) => Ok(found),
        Err(error) => Err(fault_of(failures, &CommitFault::Database(error))),
    }
}

/// Converts the result of a call that commits `count` changes to a result of the shelf. Counts the new audit
/// rows in `rows`, or a failure of the device in `failures`.
fn told_commit(
    failures: &mut u64,
    rows: &mut u64,
    count: u64,
    done: Result<(), CommitFault>,
) -> Result<(), Failed<ShelfFault>>
    requires { rows.old + count ≤ last_number }
    ensures ok { IfOk result (λ x. (done ≡ Ok x) × (rows.new ≡ rows.old + count)) }
    ensures err { OnErr result (IsErr done × (rows.new ≡ rows.old)) }
    ensures counts { Counts failures.old failures.new result }
    ensures not_full { result ≢ Err (Failed.Because ShelfFault.Full) }
{
    match done {
        Ok(()) => {
            *rows += count;
            Ok(())
        }
        Err(fault) => Err(fault_of(failures, &fault)),
    }
}

impl<S: Alter> Shelf for SqlShelf<S> {
    ghost use Rattle.scim_store.specs.SqlShelves.{connection_of, base_of};

    ghost stands = { λ shelf store. IsKeptIn shelf.base (state S.Store shelf.connection) shelf.rows store };

    ghost is_honest = { λ shelf. HasCleanDisk (state S.Store shelf.connection) };

    ghost failures = { λ shelf. shelf.failures };

    fn by_id(
        &mut self,
        alloc: Global,
        kind: Kind,
        id: Id,
    ) -> Result<Option<Resource>, Failed<ShelfFault>>
        ensures answer { IfOk result (Answers ⟦<SqlShelf<S> as Shelf>⟧.stands
            ⟦<SqlShelf<S> as Shelf>⟧.is_honest self.old self.new
            (λ store found. found ≡ find (is_at kind id) store.resources)) }
        ensures read { OnlyReads ⟦<SqlShelf<S> as Shelf>⟧.stands
            ⟦<SqlShelf<S> as Shelf>⟧.is_honest ⟦<SqlShelf<S> as Shelf>⟧.failures ⟦<SqlShelf<S> as Shelf>⟧.has_round
            self.old self.new result }
        ensures spares { Spares (state S.Store (connection_of self.old))
            (state S.Store (connection_of self.new)) }
    {
        let found = find_by_id(&mut self.connection, alloc, self.base.as_str(), kind, id);
        told(&mut self.failures, found)
    }

    fn name_owner(
        &mut self,
        alloc: Global,
        name: &UniqueName,
    ) -> Result<Option<Resource>, Failed<ShelfFault>>
        ensures answer { IfOk result (Answers ⟦<SqlShelf<S> as Shelf>⟧.stands
            ⟦<SqlShelf<S> as Shelf>⟧.is_honest self.old self.new
            (λ store found. found ≡ find (has_name (name_of name.now)) store.resources)) }
        ensures read { OnlyReads ⟦<SqlShelf<S> as Shelf>⟧.stands
            ⟦<SqlShelf<S> as Shelf>⟧.is_honest ⟦<SqlShelf<S> as Shelf>⟧.failures ⟦<SqlShelf<S> as Shelf>⟧.has_round
            self.old self.new result }
        ensures spares { Spares (state S.Store (connection_of self.old))
            (state S.Store (connection_of self.new)) }
    {
        let found = find_owner_of_name(&mut self.connection, alloc, self.base.as_str(), name);
        told(&mut self.failures, found)
    }

    fn groups_with<V: Visitor>(
        &mut self,
        alloc: Global,
        value: &str,
        visitor: &mut V,
    ) -> Result<(), Failed<ShelfFault>>
        ensures answer { OnOk result ((store : Store)
            → ⟦<SqlShelf<S> as Shelf>⟧.stands self.old store
            → ⟦<SqlShelf<S> as Shelf>⟧.is_honest self.new
            → FoldsTo V.takes visitor.old
            (filter (is_group_with value.now) store.resources) visitor.new) }
        ensures prefix { ShowsPrefix ⟦<SqlShelf<S> as Shelf>⟧.stands
            ⟦<SqlShelf<S> as Shelf>⟧.is_honest self.old self.new result
            V.takes visitor.old
            (λ store. filter (is_group_with value.now) store.resources) visitor.new }
        ensures read { OnlyReads ⟦<SqlShelf<S> as Shelf>⟧.stands
            ⟦<SqlShelf<S> as Shelf>⟧.is_honest ⟦<SqlShelf<S> as Shelf>⟧.failures ⟦<SqlShelf<S> as Shelf>⟧.has_round
            self.old self.new result }
        ensures spares { Spares (state S.Store (connection_of self.old))
            (state S.Store (connection_of self.new)) }
    {
        let found = find_groups_with(&mut self.connection, alloc, self.base.as_str(), value);
        let groups = told(&mut self.failures, found)?;
        Ok(show_all(alloc, groups.as_slice(), visitor)?)
    }

    fn each<V: Visitor>(
        &mut self,
        alloc: Global,
        kind: Kind,
        visitor: &mut V,
    ) -> Result<(), Failed<ShelfFault>>
        ensures answer { OnOk result ((store : Store)
            → ⟦<SqlShelf<S> as Shelf>⟧.stands self.old store
            → ⟦<SqlShelf<S> as Shelf>⟧.is_honest self.new
            → FoldsTo V.takes visitor.old (of_kind kind store.resources) visitor.new) }
        ensures prefix { ShowsPrefix ⟦<SqlShelf<S> as Shelf>⟧.stands
            ⟦<SqlShelf<S> as Shelf>⟧.is_honest self.old self.new result
            V.takes visitor.old (λ store. of_kind kind store.resources) visitor.new }
        ensures read { OnlyReads ⟦<SqlShelf<S> as Shelf>⟧.stands
            ⟦<SqlShelf<S> as Shelf>⟧.is_honest ⟦<SqlShelf<S> as Shelf>⟧.failures ⟦<SqlShelf<S> as Shelf>⟧.has_round
            self.old self.new result }
        ensures spares { Spares (state S.Store (connection_of self.old))
            (state S.Store (connection_of self.new)) }
    {
        let shown = walk(
            &mut self.connection,
            alloc,
            self.base.as_str(),
            kind,
            visitor,
        );
        told(&mut self.failures, shown)
    }

    fn commit(
        &mut self,
        alloc: Global,
        change: Change,
        row: AuditRow,
    ) -> Result<(), Failed<ShelfFault>>
        ensures ok { OnOk result ((store : Store) → ⟦<SqlShelf<S> as Shelf>⟧.stands self.old store
            → AreKeyed store.resources → CanKeep store change
            → ⟦<SqlShelf<S> as Shelf>⟧.stands self.new (after change row store)) }
        ensures commits { Commits ⟦<SqlShelf<S> as Shelf>⟧.stands
            ⟦<SqlShelf<S> as Shelf>⟧.is_honest ⟦<SqlShelf<S> as Shelf>⟧.failures ⟦<SqlShelf<S> as Shelf>⟧.has_round
            self.old self.new result }
        ensures disk { CommitsWhole (base_of self.old) (after change row)
            (MayMake ⟦<SqlShelf<S> as Shelf>⟧.stands self.old change)
            (state S.Store (connection_of self.old)) (state S.Store (connection_of self.new)) result }
    {
        if self.rows >= LAST_NUMBER {
            return Err(Failed::Because(ShelfFault::Full));
        }
        let (connection, base) = (&mut self.connection, self.base.as_str());
        let done = commit_change(connection, alloc, base, &change, &row, self.rows);
        told_commit(&mut self.failures, &mut self.rows, 1, done)
    }

    fn commit_over(
        &mut self,
        alloc: Global,
        old: Option<&Resource>,
        change: &Change,
        row: &AuditRow,
    ) -> Result<(), Failed<ShelfFault>>
        ensures ok { OnOk result ((store : Store) → ⟦<SqlShelf<S> as Shelf>⟧.stands self.old store
            → AreKeyed store.resources → CanKeep store change.now
            → (⟦<SqlShelf<S> as Shelf>⟧.is_honest self.new
            → IsOld store.resources change.now (option_copied old.entry))
            → ⟦<SqlShelf<S> as Shelf>⟧.stands self.new (after change.now row.now store)) }
        ensures commits { Commits ⟦<SqlShelf<S> as Shelf>⟧.stands
            ⟦<SqlShelf<S> as Shelf>⟧.is_honest ⟦<SqlShelf<S> as Shelf>⟧.failures ⟦<SqlShelf<S> as Shelf>⟧.has_round
            self.old self.new result }
        ensures disk { CommitsWhole (base_of self.old) (after change.now row.now)
            (MayMakeOver ⟦<SqlShelf<S> as Shelf>⟧.stands self.old (option_copied old.entry)
            change.now)
            (state S.Store (connection_of self.old)) (state S.Store (connection_of self.new)) result }
    {
        if self.rows >= LAST_NUMBER {
            return Err(Failed::Because(ShelfFault::Full));
        }
        let (connection, base) = (&mut self.connection, self.base.as_str());
        let done = commit_over(connection, alloc, base, old, change, row, self.rows);
        told_commit(&mut self.failures, &mut self.rows, 1, done)
    }

    fn settle(&mut self, _alloc: Global) -> Result<(), Failed<ShelfFault>> {
        Ok(())
    }

    fn failures(&self) -> u64 {
        self.failures
    }
}

impl<S: Alter> BatchShelf for SqlShelf<S> {
    ghost use Rattle.scim_store.specs.SqlShelves.{connection_of, base_of};

    fn commit_all(
        &mut self,
        alloc: Global,
        commits: &[Commit<'_>],
    ) -> Result<(), Failed<ShelfFault>>
        ensures ok { OnOk result ((store : Store) → ⟦<SqlShelf<S> as Shelf>⟧.stands self.old store
            → CanKeepAll commits.now store
            → (⟦<SqlShelf<S> as Shelf>⟧.is_honest self.new → AreOld commits.now store)
            → ⟦<SqlShelf<S> as Shelf>⟧.stands self.new (after_all commits.now store)) }
        ensures commits { CommitsSome ⟦<SqlShelf<S> as Shelf>⟧.stands
            ⟦<SqlShelf<S> as Shelf>⟧.is_honest ⟦<SqlShelf<S> as Shelf>⟧.failures ⟦<SqlShelf<S> as Shelf>⟧.has_round
            (length commits.now) self.old self.new result }
        ensures disk { CommitsWhole (base_of self.old) (after_all commits.now)
            (MayMakeAll ⟦<SqlShelf<S> as Shelf>⟧.stands self.old commits.now)
            (state S.Store (connection_of self.old)) (state S.Store (connection_of self.new)) result }
    {
        let count = commits.len() as u64;
        if count > LAST_NUMBER - self.rows {
            return Err(Failed::Because(ShelfFault::Full));
        }
        let (connection, base) = (&mut self.connection, self.base.as_str());
        let done = commit_all(connection, alloc, base, commits, self.rows);
        told_commit(&mut self.failures, &mut self.rows, count, done)
    }
}
