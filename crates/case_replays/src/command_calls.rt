//! The calls of `scim_command`.
use crate::audit_options::audit_text;
use crate::token_calls::token_lines;
use case_values::{Case, CaseFault, between, joined, named, said, shown};
use clap::ArgMatches;
use scim_audit::leaf_path;
use scim_cell::Id;
use scim_command::{
    ArchiveCause, ArchiveOptions, AuditOptions, CheckOptions, CommandFault, DatabaseFault,
    ExplainOptions, ExportOptions, FaultyLine, ImportOptions, OnceOptions, ReplayOptions, RunFault,
    ServeOptions, Setting, check, command, once, option_detail, read_events,
};
use scim_event_details::event_detail;
use scim_filter_grammar::Meant;
use scim_samples::{BASE, POLICY, USERS};
use scim_schema::Leaf;
use scim_text::{Failed, print_moment, push};
use std::alloc::Global;

/// Runs `once`. Returns the argument `before`, followed by the output and, if the command failed, the text of
/// its error.
pub(crate) fn once_call(case: &Case<'_>) -> Result<String, CaseFault> {
    let setting = Setting::new(
        case.text_or("policy", POLICY),
        case.text_or("users", USERS),
        case.text_or("client", "hr"),
        case.text_or("base", BASE),
    );
    let mut reader = case.text("request")?.as_bytes();
    let mut written = case.text_or("before", "").as_bytes().to_vec(case.alloc)?;
    let done = once(case.alloc, &setting, &mut reader, &mut written);
    end_text(case.alloc, written.as_slice(), done)
}

/// Runs `check`. Returns the argument `before`, followed by the output and, if it failed, the text of its
/// error.
pub(crate) fn check_call(case: &Case<'_>) -> Result<String, CaseFault> {
    let policy = case.text_or("policy", POLICY);
    let tokens = case.text("tokens").ok();
    let is_verbose = case.has("verbose");
    let mut written = case.text_or("before", "").as_bytes().to_vec(case.alloc)?;
    let done = check(case.alloc, policy, tokens, is_verbose, &mut written);
    end_text(case.alloc, written.as_slice(), done)
}

/// Returns the output of a command, followed by the text of its error if it failed.
pub(crate) fn end_text(
    alloc: Global,
    written: &[u8],
    done: Result<(), RunFault>,
) -> Result<String, CaseFault> {
    let text = str::from_utf8(written).unwrap_or("no UTF-8");
    match done {
        Ok(()) => said(alloc, text),
        Err(fault) => between(alloc, text, &fault, ""),
    }
}

/// Returns the words of a command line, which are the strings in the list `words`.
pub(crate) fn words(case: &Case<'_>) -> Result<Vec<String>, CaseFault> {
    let mut words = Vec::new(case.alloc);
    for value in case.list("words") {
        if let Some(word) = value.as_str() {
            push(&mut words, said(case.alloc, word)?)?;
        }
    }
    Ok(words)
}

/// Returns the options of a command line, or the exit status if the command line is invalid.
pub(crate) fn command_line(case: &Case<'_>) -> Result<String, CaseFault> {
    let words = words(case)?;
    told_of_words(case.alloc, words.as_slice())
}

fn told_of_words(alloc: Global, words: &[String]) -> Result<String, CaseFault> {
    let command = command(alloc)?;
    match command.try_get_matches_from(words) {
        Ok(matches) => matches_text(alloc, &matches),
        Err(error) => between(alloc, "exit ", &error.exit_code(), ""),
    }
}

/// A command of the program.
#[derive(Clone, Copy)]
enum CommandNamed {
    Once,
    Check,
    Replay,
    Serve,
    Audit,
    Export,
    Import,
    Archive,
    Explain,
    Token,
}

static COMMANDS: [(&str, CommandNamed); 10] = [
    ("once", CommandNamed::Once),
    ("check", CommandNamed::Check),
    ("replay", CommandNamed::Replay),
    ("serve", CommandNamed::Serve),
    ("audit", CommandNamed::Audit),
    ("export", CommandNamed::Export),
    ("import", CommandNamed::Import),
    ("archive", CommandNamed::Archive),
    ("explain", CommandNamed::Explain),
    ("token", CommandNamed::Token),
];

fn matches_text(alloc: Global, matches: &ArgMatches<'_>) -> Result<String, CaseFault> {
    match matches.subcommand() {
        Some((name, matches)) => command_text(alloc, name, matches),
        None => said(alloc, "no command"),
    }
}

fn command_text(alloc: Global, name: &str, matches: &ArgMatches<'_>) -> Result<String, CaseFault> {
    let Some(command) = named(&COMMANDS, name) else {
        return said(alloc, "no command");
    };
    match command {
        CommandNamed::Once => once_options(alloc, matches),
        CommandNamed::Check => check_options(alloc, matches),
        CommandNamed::Replay => replay_options(alloc, matches),
        CommandNamed::Serve => serve_options(alloc, matches),
        CommandNamed::Audit => audit_options(alloc, matches),
        CommandNamed::Export => export_options(alloc, matches),
        CommandNamed::Import => import_options(alloc, matches),
        CommandNamed::Archive => archive_options(alloc, matches),
        CommandNamed::Explain => explain_options(alloc, matches),
        CommandNamed::Token => token_lines(alloc, Some(7), matches),
    }
}

fn once_options(alloc: Global, matches: &ArgMatches<'_>) -> Result<String, CaseFault> {
    match OnceOptions::of(alloc, matches) {
        Ok(options) => options_text(alloc, &options),
        Err(fault) => line_and_status(alloc, &fault),
    }
}

fn check_options(alloc: Global, matches: &ArgMatches<'_>) -> Result<String, CaseFault> {
    match CheckOptions::of(matches) {
        Ok(options) => checked_text(alloc, &options),
        Err(fault) => line_and_status(alloc, &fault),
    }
}

fn checked_text(alloc: Global, options: &CheckOptions<'_>) -> Result<String, CaseFault> {
    let tokens = match options.tokens {
        Some(path) => joined(alloc, &[", tokens ", path])?,
        None => said(alloc, "")?,
    };
    let verbose = if options.verbose {
        ", verbose true"
    } else {
        ", verbose false"
    };
    joined(
        alloc,
        &["policy ", options.policy, tokens.as_str(), verbose],
    )
}

fn replay_options(alloc: Global, matches: &ArgMatches<'_>) -> Result<String, CaseFault> {
    match ReplayOptions::of(alloc, matches) {
        Ok(options) => {
            let words = [
                "policy ",
                options.policy,
                ", tokens ",
                options.tokens,
                ", users ",
                options.users,
                ", events ",
                options.events,
                ", base ",
                options.base,
            ];
            joined(alloc, &words)
        }
        Err(fault) => line_and_status(alloc, &fault),
    }
}

fn serve_options(alloc: Global, matches: &ArgMatches<'_>) -> Result<String, CaseFault> {
    match ServeOptions::of(alloc, matches) {
        Ok(options) => served_text(alloc, &options),
        Err(fault) => line_and_status(alloc, &fault),
    }
}

/// Returns the options of `serve`. Prints 0 as the number of connections if the options don't limit it.
fn served_text(alloc: Global, options: &ServeOptions<'_>) -> Result<String, CaseFault> {
    let port = shown(alloc, &options.port)?;
    let connections = shown(alloc, &options.connections.unwrap_or(0))?;
    let admin = admin_text(alloc, options)?;
    let words = [
        "policy ",
        options.policy,
        ", tokens ",
        options.tokens,
        ", db ",
        options.database,
        ", port ",
        port.as_str(),
        ", base ",
        options.base,
        ", connections ",
        connections.as_str(),
        admin.as_str(),
    ];
    joined(alloc, &words)
}

/// Returns the options of `serve` for the administrator and the audit log that are given.
fn admin_text(alloc: Global, options: &ServeOptions<'_>) -> Result<String, CaseFault> {
    let port = match options.admin {
        Some(admin) => between(alloc, ", admin ", &admin.port, " ")?,
        None => said(alloc, "")?,
    };
    let tokens = match options.admin {
        Some(admin) => admin.tokens,
        None => "",
    };
    let log = match options.audit_log {
        Some(path) => joined(alloc, &[", audit log ", path])?,
        None => said(alloc, "")?,
    };
    joined(alloc, &[port.as_str(), tokens, log.as_str()])
}

fn audit_options(alloc: Global, matches: &ArgMatches<'_>) -> Result<String, CaseFault> {
    match AuditOptions::of(alloc, matches) {
        Ok(options) => audit_text(alloc, &options),
        Err(fault) => line_and_status(alloc, &fault),
    }
}

fn export_options(alloc: Global, matches: &ArgMatches<'_>) -> Result<String, CaseFault> {
    match ExportOptions::of(matches) {
        Ok(options) => joined(alloc, &["db ", options.database]),
        Err(fault) => line_and_status(alloc, &fault),
    }
}

fn import_options(alloc: Global, matches: &ArgMatches<'_>) -> Result<String, CaseFault> {
    match ImportOptions::of(matches) {
        Ok(options) => {
            let foreign = if options.is_foreign { ", foreign" } else { "" };
            let merge = if options.merges { ", merge" } else { "" };
            let words = [
                "db ",
                options.database,
                ", users ",
                options.users,
                foreign,
                merge,
            ];
            joined(alloc, &words)
        }
        Err(fault) => line_and_status(alloc, &fault),
    }
}

fn archive_options(alloc: Global, matches: &ArgMatches<'_>) -> Result<String, CaseFault> {
    match ArchiveOptions::of(matches) {
        Ok(options) => joined(alloc, &["db ", options.database, ", to ", options.archive]),
        Err(fault) => line_and_status(alloc, &fault),
    }
}

/// Returns the fault of the events file `events`, and below it which part of its line isn't valid; or `none`.
pub(crate) fn event_detail_call(case: &Case<'_>) -> Result<String, CaseFault> {
    let events = case.text("events")?;
    let line = match read_events(case.alloc, events) {
        Ok(_) => return said(case.alloc, "none"),
        Err(Failed::Because(FaultyLine(line))) => line,
        Err(Failed::NoMemory) => return Err(CaseFault::NoMemory),
    };
    let fault = shown(case.alloc, &RunFault::Events(line))?;
    match event_detail(case.alloc, events, line)? {
        Some(detail) => {
            let detail = shown(case.alloc, &detail)?;
            joined(case.alloc, &[fault.as_str(), "\n  ", detail.as_str()])
        }
        None => Ok(fault),
    }
}

/// Returns the path in the options of `explain`, or `all` if no path is given.
fn explain_options(alloc: Global, matches: &ArgMatches<'_>) -> Result<String, CaseFault> {
    match ExplainOptions::of(matches) {
        Ok(options) => path_text(alloc, options.path),
        Err(fault) => line_and_status(alloc, &fault),
    }
}

fn path_text(alloc: Global, path: Option<Meant>) -> Result<String, CaseFault> {
    match path {
        Some(Meant::Attribute(attribute)) => Ok(leaf_path(alloc, Leaf::simple(attribute))?),
        Some(Meant::SubAttribute(attribute, sub_attribute)) => {
            Ok(leaf_path(alloc, Leaf::of(attribute, sub_attribute))?)
        }
        Some(Meant::Nothing) => said(alloc, "nothing"),
        None => said(alloc, "all"),
    }
}

/// Returns the reason why the options of the command line in the list `words` are invalid, or `none`.
pub(crate) fn option_detail_call(case: &Case<'_>) -> Result<String, CaseFault> {
    let words = words(case)?;
    let command = command(case.alloc)?;
    let Ok(matches) = command.try_get_matches_from(words.as_slice()) else {
        return said(case.alloc, "no command");
    };
    let Some((_, matches)) = matches.subcommand() else {
        return said(case.alloc, "no command");
    };
    match option_detail(case.alloc, matches)? {
        Some(detail) => shown(case.alloc, &detail),
        None => said(case.alloc, "none"),
    }
}

fn options_text(alloc: Global, options: &OnceOptions<'_>) -> Result<String, CaseFault> {
    let at = print_moment(alloc, options.at)?;
    let first = options.first.text(alloc)?;
    let words = [
        "policy ",
        options.policy,
        ", users ",
        options.users,
        ", client ",
        options.client,
        ", base ",
        options.base,
        ", at ",
        at.as_str(),
        ", first ",
        first.as_str(),
    ];
    joined(alloc, &words)
}

/// Returns the text of the error that the argument `fault` names, and its exit status.
pub(crate) fn fault_line(case: &Case<'_>) -> Result<String, CaseFault> {
    let fault = fault_of(case)?;
    line_and_status(case.alloc, &fault)
}

/// An error of a command.
#[derive(Clone, Copy)]
enum FaultNamed {
    NotText,
    /// The file in the argument `path` can't be read.
    CannotRead,
    /// The file in the argument `path` can't be written.
    CannotWrite,
    FilesGone,
    StoreShut,
    /// The database can't be archived to the path in the argument `path`, which exists.
    ArchiveExists,
    /// The database can't be archived to the path in the argument `path`, since a file can't be written.
    CannotArchive,
    /// An item of the users file is invalid. Its number is the argument `item`.
    Users,
    /// A line of the administrators' token file is invalid, or has a client's token. Its number is the argument
    /// `line`.
    AdminTokens,
    SharedToken,
    InputEnded,
    InputFailed,
    Output,
    NoMemory,
    Absent,
    /// The rows of the resource with the id `id` in the database are damaged.
    Damaged,
    WrongVersion,
    Unusable,
    NotEmpty,
}

static FAULTS: [(&str, FaultNamed); 19] = [
    ("not_text", FaultNamed::NotText),
    ("cannot_read", FaultNamed::CannotRead),
    ("cannot_write", FaultNamed::CannotWrite),
    ("files_gone", FaultNamed::FilesGone),
    ("store_shut", FaultNamed::StoreShut),
    ("archive_exists", FaultNamed::ArchiveExists),
    ("cannot_archive", FaultNamed::CannotArchive),
    ("users", FaultNamed::Users),
    ("admin_tokens", FaultNamed::AdminTokens),
    ("shared_token", FaultNamed::SharedToken),
    ("input_ended", FaultNamed::InputEnded),
    ("input_failed", FaultNamed::InputFailed),
    ("output", FaultNamed::Output),
    ("no_memory", FaultNamed::NoMemory),
    ("absent", FaultNamed::Absent),
    ("damaged", FaultNamed::Damaged),
    ("wrong_version", FaultNamed::WrongVersion),
    ("unusable", FaultNamed::Unusable),
    ("not_empty", FaultNamed::NotEmpty),
];

fn fault_of(case: &Case<'_>) -> Result<CommandFault, CaseFault> {
    let Some(fault) = named(&FAULTS, case.text("fault")?) else {
        return Err(CaseFault::Missing("fault"));
    };
    match fault {
        FaultNamed::NotText => Ok(CommandFault::NotText),
        FaultNamed::CannotRead => Ok(CommandFault::cannot_read(case.alloc, case.text("path")?)),
        FaultNamed::CannotWrite => Ok(CommandFault::cannot_write(case.alloc, case.text("path")?)),
        FaultNamed::FilesGone => Ok(CommandFault::FilesGone),
        FaultNamed::StoreShut => Ok(CommandFault::StoreShut),
        FaultNamed::ArchiveExists => archive_fault(case, ArchiveCause::Exists),
        FaultNamed::CannotArchive => archive_fault(case, ArchiveCause::Files),
        FaultNamed::Users => Ok(CommandFault::Run(RunFault::Users(case.count("item")?))),
        FaultNamed::AdminTokens => {
            let line = case.count("line")?;
            Ok(CommandFault::Run(RunFault::AdminTokens(line)))
        }
        FaultNamed::SharedToken => {
            let line = case.count("line")?;
            Ok(CommandFault::Run(RunFault::SharedToken(line)))
        }
        FaultNamed::InputEnded => Ok(CommandFault::Run(RunFault::InputEnded)),
        FaultNamed::InputFailed => Ok(CommandFault::Run(RunFault::InputFailed)),
        FaultNamed::Output => Ok(CommandFault::Run(RunFault::Output)),
        FaultNamed::NoMemory => Ok(CommandFault::Run(RunFault::NoMemory)),
        FaultNamed::Absent => Ok(CommandFault::Run(RunFault::Absent)),
        FaultNamed::Damaged => damaged(case),
        FaultNamed::WrongVersion => Ok(of_database(DatabaseFault::WrongVersion)),
        FaultNamed::Unusable => Ok(of_database(DatabaseFault::Unusable)),
        FaultNamed::NotEmpty => Ok(of_database(DatabaseFault::NotEmpty)),
    }
}

fn archive_fault(case: &Case<'_>, cause: ArchiveCause) -> Result<CommandFault, CaseFault> {
    let path = case.text("path")?;
    Ok(CommandFault::cannot_archive(case.alloc, path, cause))
}

fn of_database(fault: DatabaseFault) -> CommandFault {
    CommandFault::Run(RunFault::Database(fault))
}

fn damaged(case: &Case<'_>) -> Result<CommandFault, CaseFault> {
    match Id::read(case.text("id")?) {
        Some(id) => Ok(of_database(DatabaseFault::Damaged(id))),
        None => Err(CaseFault::Missing("id")),
    }
}

pub(crate) fn line_and_status(alloc: Global, fault: &CommandFault) -> Result<String, CaseFault> {
    let line = shown(alloc, fault)?;
    let status = between(alloc, ", exit ", &fault.exit_status(), "")?;
    joined(alloc, &[line.as_str(), status.as_str()])
}
