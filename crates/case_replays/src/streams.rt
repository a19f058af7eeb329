//! The call that serves a whole stream.
use crate::audited::hub_of;
use crate::recordings::Texts;
use case_runs::request_bytes;
use case_values::{Case, CaseFault, joined, shown};
use scim_cell::id_of;
use scim_command::Recording;
use scim_hub::{Hub, IoFault, NoStamp, Served, Stamp, Stamps, serve_stream};
use scim_shelf::MemoryShelf;
use scim_text::read_printed_moment;
use std::alloc::Global;
use uuid::Uuid;

/// A source of stamps that returns the same stamp at each call.
#[derive(Clone, Copy)]
struct OneStamp {
    stamp: Stamp,
}

impl Stamps for OneStamp {
    ghost use Rattle.std.specs.Prelude.{None};

    ghost given = { λ _. None };

    fn next(&mut self) -> Result<Stamp, NoStamp> {
        Ok(self.stamp)
    }
}

/// Serves a stream that consists of the request of a case. Returns the output and the number of replies.
pub(crate) fn stream_call(case: &Case<'_>) -> Result<String, CaseFault> {
    let request = request_bytes(case)?;
    told_of_stream(case, request.as_slice())
}

fn told_of_stream(case: &Case<'_>, request: &[u8]) -> Result<String, CaseFault> {
    let texts = Texts::of(case, String::new(case.alloc))?;
    told_of_hub(case.alloc, request, &texts.recording())
}

fn told_of_hub(
    alloc: Global,
    request: &[u8],
    recording: &Recording<'_>,
) -> Result<String, CaseFault> {
    let mut hub = hub_of(alloc, recording)?;
    served_by(alloc, request, &mut hub)
}

/// Serves a stream on connection 1 of a hub. Returns the output and the number of replies.
fn served_by(
    alloc: Global,
    request: &[u8],
    hub: &mut Hub<MemoryShelf>,
) -> Result<String, CaseFault> {
    let Some(stamp) = stamp(alloc) else {
        return Err(CaseFault::NoMemory);
    };
    let mut stamps = OneStamp { stamp };
    let mut reader = request;
    let mut written = Vec::new(alloc);
    let done = serve_stream(alloc, &mut reader, &mut written, hub, 1, &mut stamps);
    told(alloc, written.as_slice(), done)
}

/// Returns a stamp with the time 2024-06-01T12:00:00Z and an id for a resource that the first message
/// creates, or `None` if memory runs out.
fn stamp(alloc: Global) -> Option<Stamp> {
    match read_printed_moment(alloc, "2024-06-01T12:00:00Z") {
        Ok(Some(moment)) => Some(Stamp {
            moment,
            first: id_of(Uuid::from_u128(0x0000_0000_0000_4000_8000_0000_0000_00e1)),
        }),
        _ => None,
    }
}

/// Returns the output, followed by the number of replies, or by the error if the stream can't be served.
fn told(alloc: Global, written: &[u8], done: Result<Served, IoFault>) -> Result<String, CaseFault> {
    let text = str::from_utf8(written).unwrap_or("no UTF-8");
    let end = match done {
        Ok(Served { replies }) => shown(alloc, &replies)?,
        Err(fault) => shown(alloc, &fault)?,
    };
    joined(alloc, &[text, "replies: ", end.as_str()])
}
