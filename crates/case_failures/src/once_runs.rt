//! Runs `once` with reads and writes that fail.
use crate::streams::{Stutter, Trickle};
use case_values::{Case, CaseFault, said, shown, truth};
use scim_command::{RunFault, Setting, once};
use scim_samples::{BASE, POLICY};
use std::alloc::Global;
use std::io::{ErrorKind, Read};

/// A request for a user who doesn't exist, followed by another request.
const REQUEST: &str =
    "GET /Users/00000000-0000-4000-8000-00000000000a HTTP/1.1\r\n\r\nGET / HTTP/1.1\r\n\r\n";

/// The reply to the first request.
const REPLY: &str =
    "HTTP/1.1 404 Not Found\r\nContent-Type: application/scim+json\r\nContent-Length: 105\r\n\r\n{\"detail\":\"Resource not found.\",\"schemas\":[\"urn:ietf:params:scim:api:messages:2.0:Error\"],\"status\":\"404\"}";

/// Runs `once` with a users file that has no users.
fn answer<R: Read>(alloc: Global, reader: &mut R, writer: &mut Stutter) -> Result<(), RunFault> {
    let setting = Setting::new(POLICY, "[]", "hr", BASE);
    once(alloc, &setting, reader, writer)
}

/// Whether the writer took the first `count` bytes of the reply and nothing else.
fn took(writer: &Stutter, count: usize) -> bool {
    writer.taken.len() == count && REPLY.as_bytes().starts_with(writer.taken.as_slice())
}

/// Whether `once` fails with the error `told` and writes nothing.
fn fails<R: Read>(alloc: Global, reader: &mut R, told: RunFault) -> bool {
    let mut writer = Stutter::new(alloc, 1_000, u32::MAX, ErrorKind::Other);
    let done = answer(alloc, reader, &mut writer);
    done == Err(told) && took(&writer, 0)
}

/// Whether `once` fails with `InputFailed` if a read fails after this text, and with `InputEnded` if the
/// input ends after this text.
fn are_told_apart(alloc: Global, text: &str) -> bool {
    let mut failing = Trickle {
        bytes: text.as_bytes(),
    };
    fails(alloc, &mut failing, RunFault::InputFailed)
        && fails(alloc, &mut text.as_bytes(), RunFault::InputEnded)
}

/// Returns the bytes of [`REQUEST`] that `once` leaves unread after it has answered the first request, or
/// `None` if it doesn't write exactly [`REPLY`].
fn left(alloc: Global) -> Option<&'static [u8]> {
    let mut reader = Trickle {
        bytes: REQUEST.as_bytes(),
    };
    let mut writer = Stutter::new(alloc, 1_000, u32::MAX, ErrorKind::Other);
    let done = answer(alloc, &mut reader, &mut writer);
    (done.is_ok() && took(&writer, REPLY.len())).then_some(reader.bytes)
}

/// Returns the argument `failing`, which is the number of the write that fails, counted from 0. If it isn't
/// given, returns a number that is never reached.
fn failing(case: &Case<'_>) -> Result<u32, CaseFault> {
    if case.has("failing") {
        Ok(u32::try_from(case.count("failing")?).unwrap_or(u32::MAX))
    } else {
        Ok(u32::MAX)
    }
}

/// Runs `once` with a writer that takes at most `step` bytes at a call and fails at the call `failing`.
/// Returns `whole` if the writer takes the whole reply, or the number of bytes of the reply that it takes if
/// `once` fails with `Output`. Returns `something else` otherwise.
pub(crate) fn written_call(case: &Case<'_>) -> Result<String, CaseFault> {
    let kind = if case.is_true("interrupted") {
        ErrorKind::Interrupted
    } else {
        ErrorKind::Other
    };
    let mut writer = Stutter::new(case.alloc, case.count("step")?, failing(case)?, kind);
    let done = answer(case.alloc, &mut REQUEST.as_bytes(), &mut writer);
    let count = writer.taken.len();
    match done {
        Ok(()) if took(&writer, REPLY.len()) => said(case.alloc, "whole"),
        Err(RunFault::Output) if took(&writer, count) => shown(case.alloc, &count),
        _ => said(case.alloc, "something else"),
    }
}

/// Whether `once` fails with `InputFailed` if a read fails after the argument `text`, and with `InputEnded`
/// if the input ends after it.
pub(crate) fn input_call(case: &Case<'_>) -> Result<String, CaseFault> {
    truth(case.alloc, are_told_apart(case.alloc, case.text("text")?))
}

/// Returns the bytes of [`REQUEST`] that `once` leaves unread after it has answered the first request.
pub(crate) fn left_call(case: &Case<'_>) -> Result<String, CaseFault> {
    match left(case.alloc) {
        Some(bytes) => said(case.alloc, str::from_utf8(bytes).unwrap_or("no UTF-8")),
        None => said(case.alloc, "it was not answered"),
    }
}
