//! The steps from a database to its archive and a new database in its place.
use crate::names::{ArchiveNames, is_there};
use std::fs::{File, Metadata, OpenFile, OpenOptions, Permissions};
use std::io::ErrorKind;
use std::os::unix::fs::{MetadataExt, OpenOptionsExt, PermissionsExt, chown};
use std::path::Path;
use std::rt::Files;
use std::{fs, io};

/// The bits of a mode that say who may read, write and run a file.
const ACCESS: u32 = 0o777;

/// Removes the files that an archive leaves that doesn't come to its end: the new database with its log, and the part
/// of the archive. Tries to remove all of them, and fails if it can't.
pub fn remove_parts(rt: &impl Files, names: &ArchiveNames) -> io::Result<()> {
    let new = remove_if_there(rt, names.new.as_str());
    let new_log = remove_if_there(rt, names.new_log.as_str());
    let part = remove_if_there(rt, names.part.as_str());
    new?;
    new_log?;
    part
}

/// Copies the database to the archive, and then puts the new database in its place. Both databases have to be whole
/// without their logs, which are removed, and no program may write them meanwhile.
///
/// The order of the steps is such that a crash, or an error, leaves one of three states:
/// - There is no archive, and the database is as it was.
/// - The archive is whole, and the database is as it was, perhaps without its log.
/// - The archive is whole, and the database is the new one.
///
/// In each of them there may be files that [`remove_parts`] removes.
///
/// Not proved: what the steps do to the files.
pub fn put_in_place(rt: &impl Files, names: &ArchiveNames) -> io::Result<()> {
    let access = fs::metadata(rt, names.database.as_str())?;
    finish_new(rt, names, &access)?;
    copy_database(rt, names, &access)?;
    name_archive(rt, names)?;
    replace_database(rt, names)
}

/// Gives the new database the access rights of the old one, and removes its log.
fn finish_new(rt: &impl Files, names: &ArchiveNames, access: &Metadata) -> io::Result<()> {
    let new = names.new.as_str();
    remove_if_there(rt, names.new_log.as_str())?;
    set_access(rt, new, access)?;
    File::open(rt, new)?.sync_all()
}

/// Copies the database, with its access rights, to the part of the archive.
fn copy_database(rt: &impl Files, names: &ArchiveNames, access: &Metadata) -> io::Result<()> {
    let mut database = File::open(rt, names.database.as_str())?;
    let mut part = OpenOptions::new()
        .write(true)
        .create_new(true)
        .mode(0o600)
        .open(rt, names.part.as_str())?;
    io::copy(&mut database, &mut part)?;
    set_access(rt, names.part.as_str(), access)?;
    part.sync_all()
}

/// Gives the part of the archive, which is whole now, the archive's name.
fn name_archive(rt: &impl Files, names: &ArchiveNames) -> io::Result<()> {
    let archive = names.archive.as_str();
    if is_there(rt, archive)? {
        return Err(ErrorKind::AlreadyExists.into());
    }
    fs::rename(rt, names.part.as_str(), archive)?;
    sync_folder_of(rt, archive)
}

/// Gives the new database the name of the old one. The log goes first, since it isn't that of the new database.
fn replace_database(rt: &impl Files, names: &ArchiveNames) -> io::Result<()> {
    let database = names.database.as_str();
    remove_if_there(rt, names.log.as_str())?;
    fs::rename(rt, names.new.as_str(), database)?;
    sync_folder_of(rt, database)
}

/// Gives a file the mode of another one, and its owner and group if this process may.
fn set_access(rt: &impl Files, path: &str, access: &Metadata) -> io::Result<()> {
    unless_denied(chown(rt, path, None, Some(access.gid())))?;
    unless_denied(chown(rt, path, Some(access.uid()), None))?;
    fs::set_permissions(rt, path, Permissions::from_mode(access.mode() & ACCESS))
}

/// Takes a refusal by the system, for want of rights, as success.
fn unless_denied(done: io::Result<()>) -> io::Result<()> {
    match done {
        Err(error) if error.kind() == ErrorKind::PermissionDenied => Ok(()),
        done => done,
    }
}

/// Removes a file, if it is there.
fn remove_if_there(rt: &impl Files, path: &str) -> io::Result<()> {
    match fs::remove_file(rt, path) {
        Err(error) if error.kind() == ErrorKind::NotFound => Ok(()),
        done => done,
    }
}

/// Syncs the folder of a file, so that the file's name, or its removal, is on the disk.
fn sync_folder_of(rt: &impl Files, path: &str) -> io::Result<()> {
    match Path::new(path).parent() {
        Some(folder) => File::open(rt, folder)?.sync_all(),
        None => Ok(()),
    }
}
