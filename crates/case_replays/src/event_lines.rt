//! Writes the events of a case as the text of an events file.
use case_runs::{Store, goes_to, request_bytes};
use case_values::{Argument, Case, CaseFault, joined, said, shown};
use std::alloc::Global;

/// The default time of an event.
const NOON: &str = "2024-06-01T12:00:00Z";

/// The default id of a resource that the first message of an event creates.
const FRESH: &str = "00000000-0000-4000-8000-0000000000e1";

/// Returns the lines of an events file for the list `events`. An event is one of:
///
/// - a string, which is a line of an events file;
/// - an object with the number `on` of a connection, which `joins`, `leaves` or sends a `request`;
/// - an object with a list `interleaved` of two events that send a request. They send one byte each in turn.
///
/// The members `at` and `first` of an object are the stamp of the event.
pub(crate) fn events_text(case: &Case<'_>) -> Result<String, CaseFault> {
    let mut text = String::new(case.alloc);
    for value in case.list("events") {
        let lines = event_lines(case, value)?;
        text.push_str(lines.as_str())?;
    }
    Ok(text)
}

/// Returns the lines of those events of the list `events` that go to the store: all but the objects whose `over`
/// names the other one.
pub(crate) fn events_over(case: &Case<'_>, store: &Store) -> Result<String, CaseFault> {
    let mut text = String::new(case.alloc);
    for value in case.list("events") {
        if value.as_str().is_some() || goes_to(&case.inner(value), store)? {
            let lines = event_lines(case, value)?;
            text.push_str(lines.as_str())?;
        }
    }
    Ok(text)
}

/// Returns the lines of an event.
fn event_lines(case: &Case<'_>, event: &Argument) -> Result<String, CaseFault> {
    match event.as_str() {
        Some(line) => line_of(case.alloc, line),
        None => told_of_event(&case.inner(event)),
    }
}

/// Returns the lines of an event that is an object.
fn told_of_event(event: &Case<'_>) -> Result<String, CaseFault> {
    if event.has("interleaved") {
        return interleaved(event);
    }
    if event.is_true("joins") {
        return change_line(event, "joined", "");
    }
    if event.is_true("leaves") {
        return change_line(event, "left", "");
    }
    piece_line(event, request_bytes(event)?.as_slice())
}

/// Returns a line followed by a line feed.
fn line_of(alloc: Global, line: &str) -> Result<String, CaseFault> {
    joined(alloc, &[line, "\n"])
}

/// Returns the line of an event called `name`: its stamp, `name`, the number of the connection, and `behind`.
fn change_line(event: &Case<'_>, name: &str, behind: &str) -> Result<String, CaseFault> {
    let connection = shown(event.alloc, &event.count("on")?)?;
    let mut line = stamp_text(event)?;
    line.push_str(name)?;
    line.push_str(" ")?;
    line.push_str(connection.as_str())?;
    line.push_str(behind)?;
    line.push_str("\n")?;
    Ok(line)
}

/// Returns the stamp of an event, followed by a space.
fn stamp_text(event: &Case<'_>) -> Result<String, CaseFault> {
    let mut text = said(event.alloc, event.text_or("at", NOON))?;
    text.push_str(" ")?;
    text.push_str(event.text_or("first", FRESH))?;
    text.push_str(" ")?;
    Ok(text)
}

/// Returns the line of an event in which a connection sends these bytes.
pub(crate) fn piece_line(event: &Case<'_>, bytes: &[u8]) -> Result<String, CaseFault> {
    let digits = hex::encode(event.alloc, bytes)?;
    let behind = joined(event.alloc, &[" ", digits.as_str()])?;
    change_line(event, "piece", behind.as_str())
}

/// Returns the lines of the two events in the list `interleaved`, which send one byte each in turn.
fn interleaved(event: &Case<'_>) -> Result<String, CaseFault> {
    let [first, second] = event.list("interleaved") else {
        return Err(CaseFault::Missing("interleaved"));
    };
    by_turns(&event.inner(first), &event.inner(second))
}

fn by_turns(first: &Case<'_>, second: &Case<'_>) -> Result<String, CaseFault> {
    let ones = request_bytes(first)?;
    let others = request_bytes(second)?;
    let mut text = String::new(first.alloc);
    for index in 0..ones.len().max(others.len()) {
        push_byte(first, ones.as_slice(), index, &mut text)?;
        push_byte(second, others.as_slice(), index, &mut text)?;
    }
    Ok(text)
}

/// Appends the line for the byte at `index`, or nothing if there is no such byte.
fn push_byte(
    event: &Case<'_>,
    bytes: &[u8],
    index: usize,
    text: &mut String,
) -> Result<(), CaseFault> {
    if let Some(byte) = bytes.get(index) {
        let line = piece_line(event, &[*byte])?;
        text.push_str(line.as_str())?;
    }
    Ok(())
}
