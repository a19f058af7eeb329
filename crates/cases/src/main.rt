//! `cases`: runs examples given as data.
//!
//! In the `.jsonl` files of a folder, each line is a case: a call, its arguments and the expected result. In
//! the `.json` files, each item of the list is a case: whole requests and their replies, or events and their
//! outputs. The program runs the cases and prints each case whose result differs from the expected one. Then
//! it prints the number of cases, and the number of cases with the expected result.
//!
//! The exit status is 0 if every result is as expected and 1 if a result isn't. It is 2 if there are no
//! cases, or if the run fails, for example because a file can't be read.
#![tactic(auto)]

use case_runs::{Calls, FolderFault, Tally, go_through};
use case_values::{Case, CaseFault};
use std::env;
use std::process::ExitCode;

/// Runs the cases and returns the exit status. If the run fails, prints the error on standard error.
fn main(rt: HostRuntime) -> ExitCode {
    match run(&rt) {
        Ok(tally) => tally.exit_code(),
        Err(fault) => {
            let _ = eprintln!(rt; "cases: {fault}");
            ExitCode::from(2)
        }
    }
}

/// Runs the cases in the folder that the command line names.
fn run(rt: &HostRuntime) -> Result<Tally, FolderFault> {
    let folder = folder_named(rt)?;
    go_through(rt, rt.alloc(), folder.as_str(), &AllCalls { rt })
}

/// Returns the last argument of the command line. Fails with `NoFolder` if there are no arguments.
fn folder_named(rt: &HostRuntime) -> Result<String, FolderFault> {
    match env::args(rt)?.skip(1).last() {
        Some(folder) => Ok(folder),
        None => Err(FolderFault::NoFolder),
    }
}

/// The calls of all crates.
#[derive(Drop)]
struct AllCalls<'r> {
    // Needed for the case that opens a socket.
    rt: &'r HostRuntime,
}

/// Returns the name of the case's call. A case with statements and a verdict opens a database.
fn call_of<'c>(case: &'c Case<'_>) -> Result<&'c str, CaseFault> {
    if case.has("sql") && case.has("said") {
        return Ok("database_verdict");
    }
    case.call()
}

/// Returns the outputs of a case of events, or of one with turns of a server and its administrator.
fn outputs_of(case: &Case<'_>) -> Result<String, CaseFault> {
    if case.has("turns") {
        case_admin::answered(case)
    } else {
        case_replays::answered(case)
    }
}

impl Calls for AllCalls<'_> {
    fn answer(&self, case: &Case<'_>) -> Result<String, CaseFault> {
        if case.has("outputs") {
            return outputs_of(case);
        }
        let call = call_of(case)?;
        if let Some(found) = case_values::answer(case, call) {
            return found;
        }
        if let Some(found) = case_filters::answer(case, call) {
            return found;
        }
        if let Some(found) = case_policies::answer(case, call) {
            return found;
        }
        if let Some(found) = case_policy_warnings::answer(case, call) {
            return found;
        }
        if let Some(found) = case_messages::answer(case, call) {
            return found;
        }
        if let Some(found) = case_stores::answer(case, call) {
            return found;
        }
        if let Some(found) = case_fault_details::answer(case, call) {
            return found;
        }
        if let Some(found) = case_imports::answer(case, call) {
            return found;
        }
        if let Some(found) = case_store_causes::answer(case, call) {
            return found;
        }
        if let Some(found) = case_replays::answer(case, call) {
            return found;
        }
        if let Some(found) = case_failures::answer(self.rt, case, call) {
            return found;
        }
        Err(CaseFault::NoSuchCall)
    }
}
