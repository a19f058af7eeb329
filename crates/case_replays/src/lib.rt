//! The calls of `scim_command` for command lines, `once`, `check` and `replay`; the cases of events of
//! connections; and the call that serves a whole stream. The users are in memory.
#![tactic(auto)]

mod audit_options;
mod audited;
mod command_calls;
mod event_lines;
mod events;
mod pairs;
mod recordings;
mod streams;
mod token_calls;

use case_values::{Case, CaseFault, named};
pub use events::answered;

/// A call of this crate.
#[derive(Clone, Copy)]
enum Call {
    Replay,
    EveryCut,
    ServeStream,
    Once,
    Check,
    CommandLine,
    FaultLine,
    OptionDetail,
    NoRandomBytes,
    EventDetail,
}

static CALLS: [(&str, Call); 10] = [
    ("replay", Call::Replay),
    ("every_cut", Call::EveryCut),
    ("serve_stream", Call::ServeStream),
    ("once", Call::Once),
    ("check", Call::Check),
    ("command_line", Call::CommandLine),
    ("fault_line", Call::FaultLine),
    ("option_detail", Call::OptionDetail),
    ("no_random_bytes", Call::NoRandomBytes),
    ("event_detail", Call::EventDetail),
];

/// Returns the result of the case's call, or `None` if it isn't a call of this crate.
pub fn answer(case: &Case<'_>, call: &str) -> Option<Result<String, CaseFault>> {
    let call = named(&CALLS, call)?;
    Some(match call {
        Call::Replay => events::replay_call(case),
        Call::EveryCut => events::cut_call(case),
        Call::ServeStream => streams::stream_call(case),
        Call::Once => command_calls::once_call(case),
        Call::Check => command_calls::check_call(case),
        Call::CommandLine => command_calls::command_line(case),
        Call::FaultLine => command_calls::fault_line(case),
        Call::OptionDetail => command_calls::option_detail_call(case),
        Call::NoRandomBytes => token_calls::no_random_bytes(case),
        Call::EventDetail => command_calls::event_detail_call(case),
    })
}
