//! The calls in which reads, writes and disks fail: inputs and streams that end or fail, writers that take
//! few bytes at a call or fail, and stores whose disk fails at a call and then crashes. Other calls run a
//! server over scripted connections and over a socket.
#![tactic(auto)]

mod databases;
mod files;
mod old_databases;
mod once_runs;
mod operated;
mod request_parts;
mod rounds;
mod served;
mod servers;
mod stops;
mod streams;

use case_values::{Case, CaseFault, named};

/// A call of this crate.
#[derive(Clone, Copy)]
enum Call {
    DiskStops,
    InputEnds,
    InputLeft,
    Operated,
    ReplyWritten,
    ServedPeers,
    ServedSocket,
    StreamEnds,
}

static CALLS: [(&str, Call); 8] = [
    ("disk_stops", Call::DiskStops),
    ("input_ends", Call::InputEnds),
    ("input_left", Call::InputLeft),
    ("operated", Call::Operated),
    ("reply_written", Call::ReplyWritten),
    ("served_peers", Call::ServedPeers),
    ("served_socket", Call::ServedSocket),
    ("stream_ends", Call::StreamEnds),
];

/// Returns the result of the case's call, or `None` if it isn't a call of this crate.
pub fn answer(rt: &HostRuntime, case: &Case<'_>, call: &str) -> Option<Result<String, CaseFault>> {
    let call = named(&CALLS, call)?;
    Some(match call {
        Call::DiskStops => stops::stops_call(case),
        Call::InputEnds => once_runs::input_call(case),
        Call::InputLeft => once_runs::left_call(case),
        Call::Operated => operated::operated_call(case),
        Call::ReplyWritten => once_runs::written_call(case),
        Call::ServedPeers => servers::peers_call(case),
        Call::ServedSocket => servers::socket_call(rt, case),
        Call::StreamEnds => served::ends_call(case),
    })
}
