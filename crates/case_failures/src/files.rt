//! Files in memory that fail after a number of calls, and then crash.
use crate::databases::{Work, work_over};
use scim_text::NoMemory;
use sqlite::{Connection, Options};
use sqlite_disk::{Crash, Disk, Files, Fuse, Memory};
use std::alloc::Global;

/// The contents of the files of a database.
#[derive(Drop)]
pub(crate) struct Contents {
    log: Vec<u8>,
    db: Vec<u8>,
}

/// For each file of a database, the number of calls after which it fails.
#[derive(Clone, Copy)]
pub(crate) struct Calls {
    pub(crate) log: u64,
    pub(crate) db: u64,
}

/// Numbers of calls that are so large that no file fails.
pub(crate) const ALL: Calls = Calls {
    log: u64::MAX,
    db: u64::MAX,
};

/// The result of work over files that then crash.
#[derive(Drop)]
pub(crate) struct Outcome {
    /// Whether every request was answered with another status than 500.
    pub(crate) is_answered: bool,
    /// Whether neither file failed and each has at least one call left.
    pub(crate) is_whole: bool,
    /// Whether the database has a table of door codes after the crash, before it is opened as a store.
    pub(crate) has_door_codes: bool,
    /// The contents of the database after the crash, or `None` if they can't be read.
    pub(crate) found: Option<String>,
}

impl Contents {
    /// Returns the contents of the files of a new database, which are empty.
    pub(crate) fn none(alloc: Global) -> Contents {
        Contents {
            log: Vec::new(alloc),
            db: Vec::new(alloc),
        }
    }

    /// Returns the contents of the files of a database with the sample users, or `None` if memory runs out.
    pub(crate) fn sample(alloc: Global) -> Option<Contents> {
        Contents::made(alloc, Work::Fill)
    }

    /// Returns the contents of the files of a database of version 1 with the sample users, or `None` if memory
    /// runs out.
    pub(crate) fn old_sample(alloc: Global) -> Option<Contents> {
        Contents::made(alloc, Work::FillOld)
    }

    fn made(alloc: Global, work: Work<'_>) -> Option<Contents> {
        let files = Contents::none(alloc).files(alloc, ALL)?;
        let (told, files) = over_files(alloc, files, work);
        told?;
        match copied(alloc, &files) {
            Ok(contents) => Some(contents),
            Err(_) => None,
        }
    }

    /// Returns files with these contents that fail after the given numbers of calls, or `None` if memory runs
    /// out.
    fn files(&self, alloc: Global, calls: Calls) -> Option<Files<Fuse<Memory>>> {
        match (
            holding(alloc, self.log.as_slice()),
            holding(alloc, self.db.as_slice()),
        ) {
            (Some(log), Some(db)) => Some(Files {
                log: Fuse::new(log, calls.log),
                db: Fuse::new(db, calls.db),
            }),
            _ => None,
        }
    }

    /// Does the work over files with these contents, which fail after the given numbers of calls and then crash.
    /// Returns the result, or `None` if memory runs out.
    pub(crate) fn outcome(&self, alloc: Global, calls: Calls, work: Work<'_>) -> Option<Outcome> {
        match self.files(alloc, calls) {
            Some(files) => Some(outcome_over(alloc, files, work)),
            None => None,
        }
    }
}

fn copied(alloc: Global, files: &Files<Fuse<Memory>>) -> Result<Contents, NoMemory> {
    Ok(Contents {
        log: Vec::from_slice(alloc, files.log.inner().bytes())?,
        db: Vec::from_slice(alloc, files.db.inner().bytes())?,
    })
}

/// Returns a file with these bytes, which survive a crash, or `None` if memory runs out.
fn holding(alloc: Global, bytes: &[u8]) -> Option<Memory> {
    let mut memory = Memory::new(alloc);
    if memory.write_at(0, bytes).is_err() || memory.sync().is_err() {
        return None;
    }
    Some(memory)
}

/// Does the work on a database in the files. Returns the result and the files. The result is `None` if the
/// database can't be opened or the work fails.
fn over_files<D: Disk + Drop>(
    alloc: Global,
    files: Files<D>,
    work: Work<'_>,
) -> (Option<String>, Files<D>) {
    if !files.may_be_used() {
        return (None, files);
    }
    match Connection::open_files(alloc, files, Options::new(7)) {
        Ok(connection) => {
            let (told, connection) = work_over(alloc, connection, work);
            (told, connection.into_store().close())
        }
        Err((_, left)) => (None, left.into_files()),
    }
}

fn outcome_over<D: Crash + Drop>(alloc: Global, files: Files<D>, work: Work<'_>) -> Outcome {
    let (told, files) = over_files(alloc, files, work);
    let mut files = files;
    let is_whole = has_calls_left(&mut files.log) && has_calls_left(&mut files.db);
    files.log.crash();
    files.db.crash();
    let (door_codes, files) = over_files(alloc, files, Work::LookForDoorCodes);
    let (found, _files) = over_files(alloc, files, Work::Look);
    Outcome {
        is_answered: told.is_some(),
        is_whole,
        has_door_codes: door_codes.is_some(),
        found,
    }
}

fn has_calls_left<D: Disk>(disk: &mut D) -> bool {
    disk.may_be_used() && disk.len().is_ok()
}
