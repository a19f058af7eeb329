//! The command `import`.
use crate::databases::with_database;
use crate::failures::Failure;
use clap::ArgMatches;
use scim_cell::{Id, id_of};
use scim_command::{CommandFault, DEFAULT_BASE, FileKind, ImportOptions, RunFault, read_file};
use scim_command_database::{Importing, Merging};
use scim_fault_details::users_detail;
use scim_foreign_users::{RefusedItem, items_of_export, users_of_items};
use scim_json::{DamagedItem, check_documents};
use scim_text::{Failed, Moment, push};
use std::fmt::Display;
use std::random::RandomSource;
use std::time::{SystemTime, UNIX_EPOCH};
use uuid::Builder;

/// The error for want of memory.
const NO_MEMORY: CommandFault = CommandFault::Run(RunFault::NoMemory);

/// What more is to be said of an item that is valid by itself and can't be merged.
const CLASH: &str =
    "the database has a resource of the other type with its id, or another one with its unique name";

/// Runs `import`: stores the resources of a users file in an empty database, or merges them into what it has.
///
/// The users file is validated before the database is opened, so that no database is created for an invalid
/// file.
pub(crate) fn run_import(rt: &HostRuntime, matches: &ArgMatches<'_>) -> Result<(), Failure> {
    let options = ImportOptions::of(matches)?;
    let text = read_file(rt, FileKind::Users, options.users)?;
    let users = if options.is_foreign {
        users_of_export(rt, text.as_str())?
    } else {
        text
    };
    check_users(rt, users.as_str())?;
    if !options.merges {
        return with_database(rt, options.database, Importing(users.as_str()));
    }
    let merging = Merging {
        users: users.as_str(),
        now: now(rt)?,
    };
    match with_database(rt, options.database, merging) {
        Err(failure) => Err(of_merge(rt, failure)),
        Ok(()) => Ok(()),
    }
}

/// Checks that the text is a users file. Fails with `Users` if it isn't, and says why.
fn check_users(rt: &HostRuntime, users: &str) -> Result<(), Failure> {
    match check_documents(rt.alloc(), DEFAULT_BASE, users) {
        Ok(_) => Ok(()),
        Err(Failed::Because(DamagedItem(item))) => Err(Failure {
            fault: CommandFault::Run(RunFault::Users(item)),
            detail: match users_detail(rt.alloc(), DEFAULT_BASE, users, item) {
                Ok(detail) => detail,
                Err(_) => None,
            },
        }),
        Err(Failed::NoMemory) => Err(Failure::from(NO_MEMORY)),
    }
}

/// Returns the failure of a merge, which says why an item can't be merged.
fn of_merge(rt: &HostRuntime, failure: Failure) -> Failure {
    let mut failure = failure;
    if let CommandFault::Run(RunFault::Users(_)) = &failure.fault {
        failure.detail = String::from_str(rt.alloc(), CLASH).ok();
    }
    failure
}

/// Returns the users file of the resources that another server exported. Fails with `Users` at the first item that can't
/// be made a resource, and with `NoClock` or `NoRandomBytes` if the system gives no time or no bytes for ids.
fn users_of_export(rt: &HostRuntime, text: &str) -> Result<String, Failure> {
    let items = match items_of_export(rt.alloc(), text) {
        Ok(items) => items,
        Err(Failed::Because(fault)) => return Err(refused(rt, 0, &fault)),
        Err(Failed::NoMemory) => return Err(Failure::from(NO_MEMORY)),
    };
    let now = now(rt)?;
    let ids = random_ids(rt, items.len())?;
    // There is an id for each item, which the loop isn't proved to have drawn.
    if ids.len() != items.len() {
        return Err(Failure::from(NO_MEMORY));
    }
    match users_of_items(
        rt.alloc(),
        DEFAULT_BASE,
        items.as_slice(),
        now,
        ids.as_slice(),
    ) {
        Ok(users) => Ok(users),
        Err(Failed::Because(RefusedItem { number, fault })) => Err(refused(rt, number, &fault)),
        Err(Failed::NoMemory) => Err(Failure::from(NO_MEMORY)),
    }
}

/// Returns the failure for an item of a users file, and why.
fn refused(rt: &HostRuntime, item: usize, reason: &impl Display) -> Failure {
    Failure {
        fault: CommandFault::Run(RunFault::Users(item)),
        detail: format!(in rt.alloc(); "{reason}").ok(),
    }
}

/// Returns the current time. Fails with `NoClock` if the system gives none that can be written as a moment.
fn now(rt: &HostRuntime) -> Result<Moment, CommandFault> {
    let Ok(time) = SystemTime::now(rt) else {
        return Err(CommandFault::NoClock);
    };
    let Ok(since) = time.duration_since(UNIX_EPOCH) else {
        return Err(CommandFault::NoClock);
    };
    let Ok(seconds) = i64::try_from(since.as_secs()) else {
        return Err(CommandFault::NoClock);
    };
    match Moment::new(seconds) {
        Some(moment) => Ok(moment),
        None => Err(CommandFault::NoClock),
    }
}

/// Returns this many random ids (RFC 9562 section 5.4). Fails with `NoRandomBytes` if the system gives no bytes.
fn random_ids(rt: &HostRuntime, count: usize) -> Result<Vec<Id>, CommandFault> {
    let mut ids = Vec::new(rt.alloc());
    for _ in 0..count {
        let mut bytes = [0u8; 16];
        if rt.fill_bytes(&mut bytes).is_err() {
            return Err(CommandFault::NoRandomBytes);
        }
        let id = id_of(Builder::from_random_bytes(bytes).into_uuid());
        if push(&mut ids, id).is_err() {
            return Err(NO_MEMORY);
        }
    }
    Ok(ids)
}
