//! Why the file of a database can't be opened, read or written.

ghost use Rattle.std.specs.Prelude.{◌≡◌};
ghost use Rattle.scim_store_causes.specs.Files as spec;

use sqlite::{Error, ErrorCode};
use std::fmt;

/// The reason why the file of a database can't be opened, read or written.
#[derive(Clone, Copy, Debug, PartialEq, Eq)]
pub enum FileCause {
    /// Another connection, of this program or of another one, has the file open.
    Busy,
    /// The file can't be opened or created: there is no such folder, the rights are missing, it isn't a regular file
    /// with a single name, or it has a rollback journal.
    CannotOpen,
    /// The file isn't a database, or has tables or rows that this program doesn't read.
    NotADatabase,
    /// The file doesn't have the form of a database, although it begins as one.
    Damaged,
    /// The disk is full.
    DiskFull,
    /// The connection was closed by an earlier failure of the disk.
    Closed,
    /// The system can't read or write the file, or the database gives another error.
    Unreadable,
}

/// A phrase that says the reason, on one line.
impl fmt::Display for FileCause {
    fn fmt<W: fmt::Write>(&self, f: &mut fmt::Formatter<W>) -> fmt::Result {
        f.write_str(match self {
            FileCause::Busy => "another program has it open",
            FileCause::CannotOpen => "the file can't be opened",
            FileCause::NotADatabase => "it isn't an SQLite database that this program reads",
            FileCause::Damaged => "the file is damaged",
            FileCause::DiskFull => "the disk is full",
            FileCause::Closed => "it was closed after a failed write",
            FileCause::Unreadable => "it can't be read or written",
        })
    }
}

/// Returns the reason that an error of the database gives.
pub(crate) fn file_cause(error: &Error) -> FileCause
    ensures { result ≡ spec.file_cause error.now }
{
    match error {
        Error::SqliteFailure(ErrorCode::DatabaseBusy) => FileCause::Busy,
        Error::SqliteFailure(ErrorCode::CannotOpen) => FileCause::CannotOpen,
        Error::SqliteFailure(ErrorCode::NotADatabase) => FileCause::NotADatabase,
        Error::SqliteFailure(ErrorCode::DatabaseCorrupt) => FileCause::Damaged,
        Error::SqliteFailure(ErrorCode::DiskFull) => FileCause::DiskFull,
        Error::SqliteFailure(ErrorCode::Closed) => FileCause::Closed,
        _ => FileCause::Unreadable,
    }
}

/// Returns the reason why a connection can't be opened, from the error with which opening it failed. Returns `None`
/// if memory ran out.
pub fn open_cause(error: &Error) -> Option<FileCause>
    ensures { result ≡ spec.open_cause error.now }
{
    match error {
        Error::SqliteFailure(ErrorCode::OutOfMemory) => None,
        _ => Some(file_cause(error)),
    }
}
