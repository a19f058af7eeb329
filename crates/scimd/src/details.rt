//! What more is to be said of an error, on a second line: the place in a file, the option, or the cause. Files are read
//! again for it, so there is no second line if one has changed meanwhile.
use clap::ArgMatches;
use scim_command::{CommandFault, DEFAULT_BASE, RunFault, option_detail};
use scim_event_details::event_detail;
use scim_fault_details::{policy_detail, tokens_detail, users_detail};
use scim_policy_file::PolicyFault;
use scim_store_causes::FileCause;
use scim_text::NoMemory;
use std::fs;
use std::fs::OpenOptions;
use std::io::ErrorKind;

/// Returns what more is to be said of an error of the command with these options.
pub(crate) fn detail_of(
    rt: &HostRuntime,
    matches: &ArgMatches<'_>,
    fault: &CommandFault,
) -> Option<String> {
    match fault {
        CommandFault::BadOption => match option_detail(rt.alloc(), matches) {
            Ok(Some(detail)) => format!(in rt.alloc(); "{detail}").ok(),
            _ => None,
        },
        CommandFault::CannotRead(path) => match fs::read(rt, path.as_str()) {
            Ok(_) => None,
            Err(error) => words(rt, access_words(error.kind())?),
        },
        CommandFault::CannotWrite(path) => write_detail(rt, path.as_str()),
        CommandFault::Run(fault) => file_detail(rt, matches, *fault),
        _ => None,
    }
}

/// Returns a copy of the text; `None` if memory runs out.
fn words(rt: &HostRuntime, text: &str) -> Option<String> {
    String::from_str(rt.alloc(), text).ok()
}

/// Returns why a file can't be read or written, for the kind of the system's error.
fn access_words(kind: ErrorKind) -> Option<&'static str> {
    match kind {
        ErrorKind::NotFound => Some("there is no such file"),
        ErrorKind::PermissionDenied => Some("the right to it is missing"),
        ErrorKind::IsADirectory => Some("it is a folder"),
        ErrorKind::NotADirectory => Some("a part of the path before the last isn't a folder"),
        _ => None,
    }
}

/// Returns why the file at a path can't be written. Makes no file.
fn write_detail(rt: &HostRuntime, path: &str) -> Option<String> {
    match OpenOptions::new().append(true).open(rt, path) {
        Ok(_) => None,
        Err(error) => match error.kind() {
            ErrorKind::NotFound => words(
                rt,
                "it can't be made in this folder, or there is no such folder",
            ),
            kind => words(rt, access_words(kind)?),
        },
    }
}

/// Returns why the file of a database can't be opened.
pub(crate) fn database_detail(rt: &HostRuntime, path: &str, cause: FileCause) -> Option<String> {
    if cause == FileCause::CannotOpen {
        if let Some(detail) = write_detail(rt, path) {
            return Some(detail);
        }
    }
    format!(in rt.alloc(); "{cause}").ok()
}

/// The text of a file that an option names.
#[derive(Drop)]
enum FileText {
    Text(String),
    /// The file isn't UTF-8.
    NotText,
}

/// Reads the file that an option names; `None` if there is no such option, or the file can't be read.
fn text_at(rt: &HostRuntime, matches: &ArgMatches<'_>, option: &str) -> Option<FileText> {
    let bytes = fs::read(rt, matches.get_str(option)?).ok()?;
    match String::from_utf8(bytes) {
        Ok(text) => Some(FileText::Text(text)),
        Err(_) => Some(FileText::NotText),
    }
}

/// Returns what more is to be said of an error in a file that an option names.
fn file_detail(rt: &HostRuntime, matches: &ArgMatches<'_>, fault: RunFault) -> Option<String> {
    let option = match fault {
        RunFault::Policy { .. } => "policy",
        RunFault::Tokens(_) => "tokens",
        RunFault::AdminTokens(_) => "admin-tokens",
        RunFault::Users(_) => "users",
        RunFault::Events(_) => "events",
        _ => return None,
    };
    match text_at(rt, matches, option)? {
        FileText::Text(text) => text_detail(rt, matches, fault, text.as_str()).ok()?,
        FileText::NotText => words(rt, "the file isn't UTF-8"),
    }
}

/// Returns what more is to be said of an error in a file with this text.
fn text_detail(
    rt: &HostRuntime,
    matches: &ArgMatches<'_>,
    fault: RunFault,
    text: &str,
) -> Result<Option<String>, NoMemory> {
    match fault {
        RunFault::Policy { rule, cause } => {
            policy_detail(rt.alloc(), text, PolicyFault { rule, cause })
        }
        RunFault::Tokens(_) | RunFault::AdminTokens(_) => tokens_detail(rt.alloc(), text),
        RunFault::Users(item) => {
            let base = matches.get_str("base").unwrap_or(DEFAULT_BASE);
            users_detail(rt.alloc(), base, text, item)
        }
        RunFault::Events(line) => match event_detail(rt.alloc(), text, line)? {
            Some(detail) => Ok(Some(format!(in rt.alloc(); "{detail}")?)),
            None => Ok(None),
        },
        _ => Ok(None),
    }
}
