//! `scimd`: a SCIM 2.0 service provider (RFC 7643, RFC 7644) that is proved to enforce its access policy.
//!
//! The exit status is 0 on success, 2 for an error in the command line, and 1 for any other error.
#![tactic(auto)]

mod archives;
mod audit_logs;
mod database_files;
mod databases;
mod details;
mod failures;
mod imports;
mod servers;
mod start_lines;
mod system_hosts;

use archives::run_archive;
use clap::{ArgMatches, Error};
use databases::{run_audit, run_explain, run_export};
use details::detail_of;
use failures::Failure;
use imports::run_import;
use scim_command::{
    CommandFault, CommandName, RunFault, check_over_files, command, once_over_files,
    print_new_token, replay_over_files,
};
use servers::run_serve;
use std::io::ErrorKind;
use std::process::ExitCode;
use std::random::RandomSource;
use std::{env, io};

/// The bytes of stack that the deepest calls of the program need, and some more.
const STACK: usize = 256 * 1024;

/// Runs the command that the arguments name. If standard error can't be written, or memory runs out for the
/// arguments, only the exit status shows the failure.
fn main(rt: HostRuntime) -> ExitCode {
    take_stack(&rt);
    match words(&rt) {
        Ok(words) => run_words(&rt, words.as_slice()),
        Err(error) if error.kind() == ErrorKind::InvalidData => tell(
            &rt,
            &CommandFault::NotText,
            None,
        ),
        Err(_) => ExitCode::FAILURE,
    }
}

/// Takes the stack that the program needs from the system before any other memory, since there is no fault for a
/// stack that can't grow. The call keeps the compiler from leaving out the array.
#[inline(never)]
fn take_stack(rt: &HostRuntime) {
    let mut bytes = [0; STACK];
    let _filled = rt.fill_bytes(&mut bytes[..1]);
}

/// Returns the arguments of the program. Fails with `InvalidData` if an argument isn't UTF-8.
fn words(rt: &HostRuntime) -> io::Result<Vec<String>> {
    Ok(env::args(rt)?.collect(rt.alloc())?)
}

/// Parses the arguments and runs the command, or prints the help, the version or the usage error.
fn run_words(rt: &HostRuntime, words: &[String]) -> ExitCode {
    let Ok(command) = command(rt.alloc()) else {
        return ExitCode::FAILURE;
    };
    match command.try_get_matches_from(words) {
        Ok(matches) => run_matches(rt, &matches),
        Err(error) => show(rt, &error),
    }
}

/// Prints clap's text: a usage error, or the requested help or version. Returns the exit status.
fn show(rt: &HostRuntime, error: &Error) -> ExitCode {
    match error.print(rt) {
        Ok(()) => ExitCode::from(error.exit_code() as u8),
        Err(_) => ExitCode::FAILURE,
    }
}

/// Runs the command of the parsed arguments and returns the exit status.
fn run_matches(rt: &HostRuntime, matches: &ArgMatches<'_>) -> ExitCode {
    let Some((name, matches)) = matches.subcommand() else {
        return tell(rt, &CommandFault::BadOption, None);
    };
    match run_command(rt, name, matches) {
        Ok(()) => ExitCode::SUCCESS,
        Err(failure) => tell_failure(rt, matches, &failure),
    }
}

/// Runs the command with this name, and returns its result.
fn run_command(rt: &HostRuntime, name: &str, matches: &ArgMatches<'_>) -> Result<(), Failure> {
    match CommandName::named(name) {
        Some(CommandName::Once) => {
            Ok(once_over_files(rt, matches, &mut rt.stdin(), &mut rt.stdout())?)
        }
        Some(CommandName::Check) => Ok(check_over_files(rt, matches, &mut rt.stdout())?),
        Some(CommandName::Replay) => Ok(replay_over_files(rt, matches, &mut rt.stdout())?),
        Some(CommandName::Token) => Ok(print_new_token(rt, matches, &mut rt.stdout())?),
        Some(CommandName::Serve) => run_serve(rt, matches),
        Some(CommandName::Explain) => run_explain(rt, matches),
        Some(CommandName::Audit) => run_audit(rt, matches),
        Some(CommandName::Export) => run_export(rt, matches),
        Some(CommandName::Import) => run_import(rt, matches),
        Some(CommandName::Archive) => run_archive(rt, matches),
        None => Err(Failure::from(CommandFault::BadOption)),
    }
}

/// Prints the failure of a command with these options, and returns the exit status.
fn tell_failure(rt: &HostRuntime, matches: &ArgMatches<'_>, failure: &Failure) -> ExitCode {
    // No message: standard output has failed, so there may be no reader.
    if let CommandFault::Run(RunFault::Output) = &failure.fault {
        return ExitCode::FAILURE;
    }
    if let Some(detail) = &failure.detail {
        return tell(rt, &failure.fault, Some(detail.as_str()));
    }
    match &detail_of(rt, matches, &failure.fault) {
        Some(detail) => tell(rt, &failure.fault, Some(detail.as_str())),
        None => tell(rt, &failure.fault, None),
    }
}

/// Prints an error as one line on standard error, and on a second line what more is to be said of it, if anything.
/// Returns the exit status.
fn tell(rt: &HostRuntime, fault: &CommandFault, detail: Option<&str>) -> ExitCode {
    let printed = match detail {
        Some(detail) => eprintln!(rt; "scimd: {fault}\n  {detail}"),
        None => eprintln!(rt; "scimd: {fault}"),
    };
    match printed {
        Ok(()) => ExitCode::from(fault.exit_status()),
        Err(_) => ExitCode::FAILURE,
    }
}
