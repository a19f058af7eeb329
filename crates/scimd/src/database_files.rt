//! The files of a database.
use scim_text::NoMemory;
use std::fs;
use std::fs::{Metadata, OpenOptions};
use std::io::ErrorKind;
use std::os::unix::fs::{MetadataExt, OpenOptionsExt};

/// Creates an empty file, which only its owner can read and write, for a database that doesn't exist. Its log gets
/// the same mode when it is created. If the file can't be created, does nothing: opening the database then fails.
pub(crate) fn create_database_file(rt: &HostRuntime, path: &str) {
    if path != ":memory:" && !path.starts_with("file:") {
        let _file = OpenOptions::new()
            .write(true)
            .create_new(true)
            .mode(0o600)
            .open(rt, path);
    }
}

/// What tells a file from all others of the system.
#[derive(Clone, Copy, PartialEq, Eq)]
struct FileIdentity {
    device: u64,
    inode: u64,
}

impl FileIdentity {
    /// Returns the identity of the file that the metadata are of.
    fn of(metadata: &Metadata) -> FileIdentity {
        FileIdentity {
            device: metadata.dev(),
            inode: metadata.ino(),
        }
    }

    /// Returns the identity of the file at a path; `None` if there is none, or if the system can't tell.
    fn at(rt: &HostRuntime, path: &str) -> Option<FileIdentity> {
        match fs::metadata(rt, path) {
            Ok(metadata) => Some(FileIdentity::of(&metadata)),
            Err(_) => None,
        }
    }

    /// Whether the file isn't at the path any more: none is there, or another one. False if the system can't tell.
    fn has_left(self, rt: &HostRuntime, path: &str) -> bool {
        match fs::metadata(rt, path) {
            Ok(metadata) => FileIdentity::of(&metadata) != self,
            Err(error) => {
                let kind = error.kind();
                kind == ErrorKind::NotFound || kind == ErrorKind::NotADirectory
            }
        }
    }
}

/// The files of an open database: the database and its log.
#[derive(Drop)]
pub(crate) struct DatabaseFiles<'p> {
    path: &'p str,
    log_path: String,
    database: Option<FileIdentity>,
    log: Option<FileIdentity>,
}

impl<'p> DatabaseFiles<'p> {
    /// Returns the files of the database at a path, as they are now.
    pub(crate) fn at(rt: &HostRuntime, path: &'p str) -> Result<DatabaseFiles<'p>, NoMemory> {
        let log_path = format!(in rt.alloc(); "{path}-wal")?;
        let database = FileIdentity::at(rt, path);
        let log = FileIdentity::at(rt, log_path.as_str());
        Ok(DatabaseFiles {
            path,
            log_path,
            database,
            log,
        })
    }

    /// Whether neither file was removed, renamed or replaced. A file that wasn't found at first counts as there.
    pub(crate) fn are_there(&self, rt: &HostRuntime) -> bool {
        !has_left(rt, self.database, self.path) && !has_left(rt, self.log, self.log_path.as_str())
    }
}

/// Whether the file with this identity, if there is one, isn't at the path any more.
fn has_left(rt: &HostRuntime, identity: Option<FileIdentity>, path: &str) -> bool {
    match identity {
        Some(identity) => identity.has_left(rt, path),
        None => false,
    }
}
