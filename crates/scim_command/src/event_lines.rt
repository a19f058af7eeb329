//! Reads one line of an events file.
ghost use Rattle.std.specs.Prelude.{◌≡◌, IfOk, codes};
ghost use Rattle.scim_command.specs.EventFiles as spec;
ghost use Rattle.scim_command.specs.EventFiles.{IsNumberText, IsHexText, IsEventLine};
ghost use Rattle.scim_hub.specs.HubStates.{owned_event_kind_of, owned_event_of};
ghost use Rattle.scim_command.specs.code.Findings.{Finds, IsStampText, IsToldBy, IsAlone, told_event_of};

use hex::FromHexError;
use scim_cell::Id;
use scim_hub::{OwnedEvent, OwnedEventKind, Stamp};
use scim_text::{NoMemory, read_printed_moment};
use std::alloc::Global;

/// The number of a connection, and what occurred on it.
#[derive(Drop)]
struct ToldEvent {
    connection: u64,
    kind: OwnedEventKind,
}

/// Splits a text at its first space. If there is no space, returns the whole text and the empty text.
fn cut(text: &str) -> (&str, &str)
    ensures word { result.0.now ≡ spec.word text.now }
    ensures behind { result.1.now ≡ spec.behind text.now }
{
    match text.split_once(' ') {
        Some(parts) => parts,
        None => (text, ""),
    }
}

/// Parses a number of at most 64 bits in decimal digits; `None` if the text isn't one.
pub(crate) fn number_in(text: &str) -> Option<u64>
    ensures { Finds (λ n. n) (IsNumberText text.now) result }
{
    if matches!(text.as_bytes(), [b'+', ..]) {
        return None;
    }
    match text.parse::<u64>() {
        Ok(number) => Some(number),
        Err(_) => None,
    }
}

/// Decodes hex digits to one or more bytes; `None` for any other text.
fn bytes_in(alloc: Global, text: &str) -> Result<Option<Vec<u8>>, NoMemory>
    ensures { IfOk result (Finds (λ bytes. bytes.items) (IsHexText text.now)) }
{
    match hex::decode(alloc, text) {
        Ok(bytes) if bytes.is_empty() => Ok(None),
        Ok(bytes) => Ok(Some(bytes)),
        Err(FromHexError::OutOfMemory) => Err(NoMemory),
        Err(_) => Ok(None),
    }
}

/// Parses the time and the id of a stamp; `None` if either is invalid.
fn stamp_in(alloc: Global, moment: &str, first: &str) -> Result<Option<Stamp>, NoMemory>
    ensures { IfOk result (Finds (λ stamp. stamp) (IsStampText moment.now first.now)) }
{
    let Some(moment) = read_printed_moment(alloc, moment)? else {
        return Ok(None);
    };
    match Id::read(first) {
        Some(first) => Ok(Some(Stamp { moment, first })),
        None => Ok(None),
    }
}

/// Parses the words after `piece`: a connection number, and the piece in hex digits. `None` if either is
/// invalid.
fn piece_in(alloc: Global, text: &str) -> Result<Option<ToldEvent>, NoMemory>
    ensures { IfOk result (Finds told_event_of (IsToldBy (codes "piece") text.now)) }
{
    let (number, digits) = cut(text);
    let Some(connection) = number_in(number) else {
        return Ok(None);
    };
    match bytes_in(alloc, digits)? {
        Some(bytes) => Ok(Some(ToldEvent {
            connection,
            kind: OwnedEventKind::Piece(bytes),
        })),
        None => Ok(None),
    }
}

/// Returns an event of this kind on the connection with the number in `text`; `None` if `text` isn't a
/// number.
fn told_event(text: &str, kind: OwnedEventKind) -> Option<ToldEvent>
    ensures { Finds told_event_of (IsAlone (owned_event_kind_of kind) text.now) result }
{
    match number_in(text) {
        Some(connection) => Some(ToldEvent { connection, kind }),
        None => None,
    }
}

/// Parses an event from its name and the text after the name; `None` if they are invalid.
fn told_event_in(alloc: Global, name: &str, text: &str) -> Result<Option<ToldEvent>, NoMemory>
    ensures { IfOk result (Finds told_event_of (IsToldBy name.now text.now)) }
{
    match name {
        "joined" => Ok(told_event(text, OwnedEventKind::Joined)),
        "piece" => piece_in(alloc, text),
        "left" => Ok(told_event(text, OwnedEventKind::Left)),
        _ => Ok(None),
    }
}

/// Parses a line of an events file; `None` if it is invalid.
pub(crate) fn read_line(alloc: Global, line: &str) -> Result<Option<OwnedEvent>, NoMemory>
    ensures { IfOk result (Finds owned_event_of (IsEventLine line.now)) }
{
    let (moment, line) = cut(line);
    let (first, line) = cut(line);
    let (name, line) = cut(line);
    let Some(stamp) = stamp_in(alloc, moment, first)? else {
        return Ok(None);
    };
    match told_event_in(alloc, name, line)? {
        Some(ToldEvent { connection, kind }) => Ok(Some(OwnedEvent {
            connection,
            stamp,
            kind,
        })),
        None => Ok(None),
    }
}
