//! Reads events files, which have one event of a connection per line.
ghost use Rattle.std.specs.Prelude.{◌≡◌, IfOk, map};
ghost use Rattle.scim_text.specs.Failures.{IfFault};
ghost use Rattle.scim_command.specs.EventFiles.{IsEventFile, IsFaultyAt, AreEventLines, file_lines, without_empty_last};
ghost use Rattle.scim_hub.specs.HubStates.{owned_event_of};

use crate::event_lines::read_line;
use scim_hub::OwnedEvent;
use scim_text::{Failed, push};
use std::alloc::Global;
use thiserror::Error;

/// The number, from 1, of the first invalid line of an events file.
#[derive(Clone, Copy, Debug, PartialEq, Eq, Error)]
#[error("line {0}")]
pub struct FaultyLine(pub usize);

/// Reads the events of a file, in order. Each line has one of the forms
///
///     MOMENT FIRST joined N
///     MOMENT FIRST piece N HEX
///     MOMENT FIRST left N
///
/// with one space between two words. MOMENT is the time, in the form in which the server prints times. FIRST
/// is the id for the resource that the event's first whole message creates. N is the connection's number, in
/// decimal digits and at most 64 bits. HEX is the piece of at least one byte, in hex digits of either case.
/// Each line ends in LF, which may be missing from the last line; a CR before the LF makes the line invalid.
///
/// Fails with [`FaultyLine`], which has the number of the first invalid line.
pub fn read_events(alloc: Global, text: &str) -> Result<Vec<OwnedEvent>, Failed<FaultyLine>>
    ensures events { IfOk result (λ events.
        IsEventFile text.now (map owned_event_of events.items)) }
    ensures faulty { IfFault result (λ fault. IsFaultyAt (file_lines text.now) fault.0) }
{
    let lines = text.split('\n').collect::<Vec<&str>>(alloc)?;
    events_of_lines(alloc, before_empty_last(lines.as_slice()))
}

/// Returns all lines, without the last line if it is empty.
fn before_empty_last<'a, 'b>(lines: &'a [&'b str]) -> &'a [&'b str]
    ensures { map (λ l. l.now) result.now ≡ without_empty_last (map (λ l. l.now) lines.now) }
{
    let count = lines.len();
    if count == 0 {
        return lines;
    }
    if lines[count - 1].is_empty() {
        &lines[..count - 1]
    } else {
        lines
    }
}

/// Reads the events of the lines. Fails with [`FaultyLine`], which has the number of the first invalid line.
fn events_of_lines(alloc: Global, lines: &[&str]) -> Result<Vec<OwnedEvent>, Failed<FaultyLine>>
    ensures events { IfOk result (λ events.
        AreEventLines (map (λ l. l.now) lines.now) (map owned_event_of events.items)) }
    ensures faulty { IfFault result (λ fault. IsFaultyAt (map (λ l. l.now) lines.now) fault.0) }
{
    let mut events = Vec::new(alloc);
    for index in 0..lines.len() {
        match read_line(alloc, lines[index])? {
            Some(event) => push(&mut events, event)?,
            None => return Err(Failed::Because(FaultyLine(index + 1))),
        }
    }
    Ok(events)
}
