//! The calls that use a store: whole requests, which must have equal replies over a store in memory and over
//! SQLite; turns of a service; refusals and their status codes; commands over a database; and the opening of
//! damaged databases.
#![tactic(auto)]

mod audit_listings;
mod audited;
mod database_calls;
mod database_commands;
mod databases;
mod exchanges;
mod faults;
mod long_lists;
mod refusal_calls;
mod service_calls;
mod services;
mod steps;

pub use audited::{Audited, cached};
use case_values::{Case, CaseFault, named};
use database_commands::DatabaseCommand;
pub use databases::{OverDatabase, base_of, filled, over_new_database};
pub use faults::{StoreFault, told_or_fault};

/// A call of this crate.
#[derive(Clone, Copy)]
enum Call {
    Steps,
    Database,
    Refusal,
    RefusalNamed,
    Service,
    ServiceRun,
    Command(DatabaseCommand),
    LongList,
    Verdict,
}

static CALLS: [(&str, Call); 14] = [
    ("steps", Call::Steps),
    ("database", Call::Database),
    ("refusal", Call::Refusal),
    ("refusal_named", Call::RefusalNamed),
    ("service", Call::Service),
    ("service_run", Call::ServiceRun),
    ("print_audit", Call::Command(DatabaseCommand::Audit)),
    ("export", Call::Command(DatabaseCommand::Export)),
    ("import", Call::Command(DatabaseCommand::Import)),
    ("archive", Call::Command(DatabaseCommand::Archive)),
    ("explain_kept", Call::Command(DatabaseCommand::Explain)),
    ("database_ending", Call::Command(DatabaseCommand::Ending)),
    ("database_verdict", Call::Verdict),
    ("long_list", Call::LongList),
];

/// Returns the result of the case's call, or `None` if it isn't a call of this crate.
pub fn answer(case: &Case<'_>, call: &str) -> Option<Result<String, CaseFault>> {
    let call = named(&CALLS, call)?;
    Some(match call {
        Call::Steps => steps::answered(case),
        Call::Database => database_calls::database_call(case),
        Call::Refusal => refusal_calls::refusal_call(case),
        Call::RefusalNamed => audit_listings::refusal_named_call(case),
        Call::Service => service_calls::service_call(case),
        Call::ServiceRun => service_calls::run_call(case),
        Call::LongList => long_lists::list_call(case),
        Call::Verdict => database_calls::verdict_call(case),
        Call::Command(command) => database_commands::command_call(case, command),
    })
}
