//! The names of the files that `archive` reads, makes and removes.
ghost use Rattle.std.specs.Prelude.{◌≡◌, ◌↔◌, ◌++◌, IfOk, IsTrue, string_bytes};
ghost use Rattle.scim_archive_files.specs.Names.{AreApart, AreNamed, IsFileOf};

use std::alloc::{AllocError, Global};
use std::io::ErrorKind;
use std::path::{Path, PathBuf};
use std::rt::Files;
use std::{fs, io};

/// The names of a database, its archive, and the files that are made for them. They are paths without links.
#[derive(Drop)]
pub struct ArchiveNames {
    pub(crate) database: String,
    /// The log of the database.
    pub(crate) log: String,
    /// The new database, until it has the name of the database.
    pub(crate) new: String,
    /// The log of the new database, until then.
    pub(crate) new_log: String,
    pub(crate) archive: String,
    /// The archive, until it is whole.
    pub(crate) part: String,
}

impl ArchiveNames {
    ghost use Rattle.scim_archive_files.specs.Names.{database_of, new_of};

    /// Returns the names for a database, which exists, and an archive, which doesn't. If the path of the database is a
    /// link, the names are those beside the file that it leads to.
    ///
    /// Fails with `AlreadyExists` if something has the name of the archive, or of a log or a journal that would be read
    /// with it; a link counts, wherever it leads. Fails with `InvalidInput` if the path of the archive doesn't end in a
    /// name, or if a file of the archive would have the name of a file of the database or of the new one. Otherwise
    /// fails if a path can't be resolved, or with `OutOfMemory`.
    pub fn find(
        rt: &(impl Files + AllocGlobal),
        database: &str,
        archive: &str,
    ) -> io::Result<ArchiveNames>
        ensures named { IfOk result AreNamed }
        ensures apart { IfOk result AreApart }
    {
        let database = fs::canonicalize(rt, database)?;
        let archive = with_folder_resolved(rt, archive)?;
        if is_taken(rt, archive.as_str())? {
            return Err(ErrorKind::AlreadyExists.into());
        }
        ArchiveNames::of(rt.alloc(), database.as_str(), archive.as_str())
    }

    /// Returns the names for a database and an archive of these names. Fails with `InvalidInput` if files of the
    /// database and of the archive would have the same name, and with `OutOfMemory`.
    fn of(alloc: Global, database: &str, archive: &str) -> io::Result<ArchiveNames>
        ensures named { IfOk result AreNamed }
        ensures apart { IfOk result AreApart }
    {
        let new = joined(alloc, database, ".archiving")?;
        let part = joined(alloc, archive, ".archiving")?;
        if is_file_of(archive, database)
            || is_file_of(archive, new.as_str())
            || is_file_of(database, archive)
            || database == part.as_str()
        {
            return Err(ErrorKind::InvalidInput.into());
        }
        Ok(ArchiveNames {
            database: String::from_str(alloc, database)?,
            log: joined(alloc, database, "-wal")?,
            new_log: joined(alloc, new.as_str(), "-wal")?,
            new,
            archive: String::from_str(alloc, archive)?,
            part,
        })
    }

    /// The path of the database, without links.
    pub fn database(&self) -> &str
        ensures { result.now ≡ database_of self.now }
    {
        self.database.as_str()
    }

    /// The path at which the new database is made.
    pub fn new_database(&self) -> &str
        ensures { result.now ≡ new_of self.now }
    {
        self.new.as_str()
    }
}

/// Whether something has the name of an archive, or of a log or a journal that would be read with it.
fn is_taken(rt: &(impl Files + AllocGlobal), archive: &str) -> io::Result<bool> {
    for ending in ["", "-wal", "-journal"] {
        let name = joined(rt.alloc(), archive, ending)?;
        if is_there(rt, name.as_str())? {
            return Ok(true);
        }
    }
    Ok(false)
}

/// Returns a name with an ending.
fn joined(alloc: Global, name: &str, ending: &str) -> Result<String, AllocError>
    ensures { IfOk result (λ s. string_bytes s ≡ name.now ++ ending.now) }
{
    let mut joined = String::from_str(alloc, name)?;
    joined.push_str(ending)?;
    Ok(joined)
}

/// Whether a name is that of a database, of its log or of its journal.
fn is_file_of(name: &str, database: &str) -> bool
    ensures { IsTrue result ↔ IsFileOf database.now name.now }
{
    is_joined(name, database, "")
        || is_joined(name, database, "-wal")
        || is_joined(name, database, "-journal")
}

/// Whether a name is another one with this ending.
fn is_joined(name: &str, other: &str, ending: &str) -> bool
    ensures { IsTrue result ↔ (name.now ≡ other.now ++ ending.now) }
{
    match name.as_bytes().strip_prefix(other.as_bytes()) {
        Some(rest) => rest == ending.as_bytes(),
        None => false,
    }
}

/// Returns the path of a file, which needn't exist, with the links to its folder resolved. A link at its own name stays.
///
/// Fails with `InvalidInput` if the path doesn't end in a name, if the folder can't be resolved, or with `OutOfMemory`.
fn with_folder_resolved(rt: &(impl Files + AllocGlobal), path: &str) -> io::Result<PathBuf> {
    let path = Path::new(path);
    let (Some(folder), Some(name)) = (path.parent(), path.file_name()) else {
        return Err(ErrorKind::InvalidInput.into());
    };
    let folder = folder.as_str();
    let mut resolved = fs::canonicalize(rt, if folder.is_empty() { "." } else { folder })?;
    resolved.push(name)?;
    Ok(resolved)
}

/// Whether something has this name: a file, a folder, or a link, wherever it leads.
pub(crate) fn is_there(rt: &impl Files, path: &str) -> io::Result<bool> {
    match fs::symlink_metadata(rt, path) {
        Ok(_) => Ok(true),
        Err(error) if error.kind() == ErrorKind::NotFound => Ok(false),
        Err(error) => Err(error),
    }
}
