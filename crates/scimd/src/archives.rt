//! The command `archive`: keeps a database as its archive, and puts a new one with the same resources and an empty audit
//! in its place.
ghost use Rattle.std.specs.Prelude.{◌≡◌, false};

use crate::database_files::create_database_file;
use crate::databases::{not_opened, unusable_detail, with_detail};
use crate::failures::Failure;
use clap::ArgMatches;
use scim_archive_files::{ArchiveNames, put_in_place, remove_parts};
use scim_command::{ArchiveCause, ArchiveOptions, CommandFault, DEFAULT_BASE, RunFault, find_file};
use scim_command_database::{DatabaseWork, archive, open_cached, unopened};
use scim_shelf::Shelf;
use sqlite::{Alter, Connection};
use std::alloc::Global;
use std::io::{Error, ErrorKind, Write};

/// Runs `archive`: renames nothing and removes nothing of the database before its archive is whole.
///
/// Fails with `CannotRead` if the database doesn't exist, with `CannotArchive` if the archive exists or a step fails,
/// and with the errors of opening the database. After a fault the database is as it was, or the new one is in its place
/// and the archive is whole.
pub(crate) fn run_archive(rt: &HostRuntime, matches: &ArgMatches<'_>) -> Result<(), Failure> {
    let options = ArchiveOptions::of(matches)?;
    find_file(rt, options.database)?;
    let path = options.archive;
    match &ArchiveNames::find(rt, options.database, path) {
        Ok(names) => archive_database(Archiving { rt, names, path }),
        Err(error) => Err(Failure::from(fault_of(rt, path, *error))),
    }
}

/// Opens the database, makes the new one of its resources, closes it so that it is whole without its log, and then puts
/// the archive and the new database in place. No other program can open the database before that is done.
fn archive_database(archiving: Archiving<'_>) -> Result<(), Failure> {
    let rt = archiving.rt;
    let path = archiving.names.database();
    match Connection::open(rt, path) {
        Ok(connection) => {
            let (made, connection) = archiving.over(rt.alloc(), connection, &mut rt.stdout());
            let mut connection = connection;
            let detail = unusable_detail(rt.alloc(), &made, &mut connection);
            let (files, is_closed) = match connection.close_files() {
                Ok(files) => (files, true),
                Err((_error, store)) => (store.close(), false),
            };
            let done = archiving.finish(made, is_closed);
            // Whoever has the files has the lock on the database.
            drop(files);
            with_detail(done, detail)
        }
        Err(error) => Err(not_opened(rt, path, error)),
    }
}

/// An archive that is being made: its files, and its path as the options name it.
#[derive(Clone, Copy)]
struct Archiving<'o> {
    rt: &'o HostRuntime,
    names: &'o ArchiveNames,
    path: &'o str,
}

/// What is done with the open database: the new one is made of its resources.
impl DatabaseWork for Archiving<'_> {
    fn over<S: Alter + Drop, W: Write>(
        self,
        alloc: Global,
        connection: Connection<S>,
        _writer: &mut W,
    ) -> (Result<(), CommandFault>, Connection<S>) {
        match open_cached(alloc, connection, DEFAULT_BASE, false) {
            Ok(shelf) => {
                let mut shelf = shelf;
                let made = self.make_new(&mut shelf);
                (made, shelf.into_lower().into_connection())
            }
            Err((fault, connection)) => (Err(fault), connection),
        }
    }
}

impl Archiving<'_> {
    /// Makes the new database, with the resources of a store and an empty audit, and closes it so that it is whole
    /// without its log. Removes first what an archive that was broken off has left.
    fn make_new<H: Shelf>(self, shelf: &mut H) -> Result<(), CommandFault> {
        if let Err(error) = remove_parts(self.rt, self.names) {
            return Err(fault_of(self.rt, self.path, error));
        }
        let path = self.names.new_database();
        create_database_file(self.rt, path);
        match Connection::open(self.rt, path) {
            Ok(connection) => {
                let (made, connection) = with_resources(self.rt.alloc(), shelf, connection);
                let is_closed = connection.close().is_ok();
                self.checked(made, is_closed)
            }
            Err(error) => self.checked(Err(unopened(error)), false),
        }
    }

    /// Returns the result for the new database, which has to be made and closed.
    fn checked(self, made: Result<(), RunFault>, is_closed: bool) -> Result<(), CommandFault> {
        match made {
            Ok(()) if is_closed => Ok(()),
            Err(RunFault::NoMemory) => Err(CommandFault::Run(RunFault::NoMemory)),
            _ => Err(self.step_fault()),
        }
    }

    /// Puts the archive and the new database in place, if that is made and the old one is closed. After a fault, removes
    /// the files that aren't in place.
    fn finish(self, made: Result<(), CommandFault>, is_closed: bool) -> Result<(), CommandFault> {
        let done = match made {
            Ok(()) if is_closed => self.put_in_place(),
            Ok(()) => Err(self.step_fault()),
            Err(fault) => Err(fault),
        };
        if done.is_err() {
            let _removed = remove_parts(self.rt, self.names);
        }
        done
    }

    /// Puts the archive and the new database in place.
    fn put_in_place(self) -> Result<(), CommandFault> {
        match put_in_place(self.rt, self.names) {
            Ok(()) => Ok(()),
            Err(error) => Err(fault_of(self.rt, self.path, error)),
        }
    }

    /// Returns the fault for a step that failed.
    fn step_fault(self) -> CommandFault {
        CommandFault::cannot_archive(self.rt.alloc(), self.path, ArchiveCause::Files)
    }
}

/// Stores the resources of a store in the empty database of a connection, and returns the connection.
fn with_resources<H: Shelf, S: Alter>(
    alloc: Global,
    shelf: &mut H,
    connection: Connection<S>,
) -> (Result<(), RunFault>, Connection<S>)
    requires { connection.in_transaction ≡ false }
{
    let mut connection = connection;
    let made = archive(alloc, shelf, DEFAULT_BASE, &mut connection);
    (made, connection)
}

/// Returns the fault of `archive` for an error of a step over files, where the archive has this path.
fn fault_of(rt: &HostRuntime, path: &str, error: Error) -> CommandFault {
    match error.kind() {
        ErrorKind::OutOfMemory => CommandFault::Run(RunFault::NoMemory),
        ErrorKind::AlreadyExists => {
            CommandFault::cannot_archive(rt.alloc(), path, ArchiveCause::Exists)
        }
        _ => CommandFault::cannot_archive(rt.alloc(), path, ArchiveCause::Files),
    }
}
