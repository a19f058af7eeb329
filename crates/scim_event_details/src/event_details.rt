//! Finds the part of a line of an events file that isn't valid, by reading the line with its other parts replaced by
//! valid ones.
use scim_command::read_events;
use scim_text::{Failed, NoMemory};
use std::alloc::Global;
use std::fmt;

/// A moment, for a line whose other parts are tried.
const MOMENT: &str = "1970-01-01T00:00:00Z";

/// An id, for a line whose other parts are tried.
const ID: &str = "00000000-0000-0000-0000-000000000000";

/// The part of a line that isn't valid.
#[derive(Clone, Copy, PartialEq, Eq)]
pub enum EventDetail {
    /// The moment, which comes first.
    Moment,
    /// The first id, which comes second.
    Id,
    /// The name of the event, which comes third.
    Name,
    /// The number of the connection: behind the name, alone unless the event is a piece.
    Connection,
    /// The bytes of a piece, which come last.
    Bytes,
}

impl fmt::Display for EventDetail {
    fn fmt<W: fmt::Write>(&self, f: &mut fmt::Formatter<W>) -> fmt::Result {
        f.write_str(match self {
            EventDetail::Moment => "the first word is no moment (as 2024-06-01T12:00:00Z)",
            EventDetail::Id => "the second word is no id (as 00000000-0000-4000-8000-00000000000a)",
            EventDetail::Name => "the third word is none of joined, piece and left",
            EventDetail::Connection => "the number of a connection is due behind the third word",
            EventDetail::Bytes => "bytes in hex digits are due behind the fourth word",
        })
    }
}

/// Returns the first part that isn't valid of the line with this number, from 1, of an events file. Returns `None` if
/// there is no such line, or if it is valid.
pub fn event_detail(
    alloc: Global,
    text: &str,
    number: usize,
) -> Result<Option<EventDetail>, NoMemory> {
    let Some(before) = number.checked_sub(1) else {
        return Ok(None);
    };
    match text.split('\n').nth(before) {
        Some(line) => detail_of_line(alloc, line),
        None => Ok(None),
    }
}

/// Returns the first part of a line that isn't valid; `None` if the line is valid.
fn detail_of_line(alloc: Global, line: &str) -> Result<Option<EventDetail>, NoMemory> {
    let (moment, rest) = cut(line);
    let (id, rest) = cut(rest);
    if !is_line(alloc, moment, ID, "left 1")? {
        return Ok(Some(EventDetail::Moment));
    }
    if !is_line(alloc, MOMENT, id, "left 1")? {
        return Ok(Some(EventDetail::Id));
    }
    if is_line(alloc, MOMENT, ID, rest)? {
        return Ok(None);
    }
    detail_of_event(alloc, rest)
}

/// Returns the part that isn't valid of an event: its name and the words behind it.
fn detail_of_event(alloc: Global, event: &str) -> Result<Option<EventDetail>, NoMemory> {
    let (name, rest) = cut(event);
    let (connection, _bytes) = cut(rest);
    Ok(Some(match name {
        "piece" if is_connection(alloc, connection)? => EventDetail::Bytes,
        "joined" | "piece" | "left" => EventDetail::Connection,
        _ => EventDetail::Name,
    }))
}

/// Whether the word is the number of a connection.
fn is_connection(alloc: Global, word: &str) -> Result<bool, NoMemory> {
    let event = format!(in alloc; "left {word}")?;
    is_line(alloc, MOMENT, ID, event.as_str())
}

/// Whether a moment, an id and an event are a valid line.
fn is_line(alloc: Global, moment: &str, id: &str, event: &str) -> Result<bool, NoMemory> {
    let line = format!(in alloc; "{moment} {id} {event}")?;
    match read_events(alloc, line.as_str()) {
        Ok(_) => Ok(true),
        Err(Failed::Because(_)) => Ok(false),
        Err(Failed::NoMemory) => Err(NoMemory),
    }
}

/// Splits a text at its first space. If there is no space, returns the whole text and the empty text.
fn cut(text: &str) -> (&str, &str) {
    text.split_once(' ').unwrap_or((text, ""))
}
