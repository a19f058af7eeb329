//! A round of requests of two connections.
use crate::served::{CREATING, TOKENS};
use scim_cell::{Text, id_of};
use scim_hub::{
    Event, EventAnswer, EventKind, Hub, Output, OwnedEvent, OwnedEventKind, Pace, Stamp,
};
use scim_policy_file::read_policy;
use scim_route::Routes;
use scim_samples::{BASE, POLICY};
use scim_service::Service;
use scim_shelf::Shelf;
use scim_text::Moment;
use scim_token::Tokens;
use std::alloc::Global;
use uuid::Uuid;

/// A request that removes the user Bob.
const REMOVING: &str =
    "DELETE /Users/00000000-0000-4000-8000-00000000000b HTTP/1.1\r\nAuthorization: Bearer abc\r\n\r\n";

/// A round that takes all events.
struct Unhurried;

impl Pace for Unhurried {
    fn goes_on(&self) -> bool {
        true
    }
}

/// Returns a piece of a connection's stream; `None` if memory runs out.
fn piece(alloc: Global, connection: u64, text: &str) -> Option<OwnedEvent> {
    let (Some(moment), Ok(bytes)) = (
        Moment::new(1_717_243_200),
        Vec::from_slice(alloc, text.as_bytes()),
    ) else {
        return None;
    };
    Some(OwnedEvent {
        connection,
        stamp: Stamp {
            moment,
            first: id_of(Uuid::from_u128(0x0000_0000_0000_4000_8000_0000_0000_00e1)),
        },
        kind: OwnedEventKind::Piece(bytes),
    })
}

/// Returns a list of the two events; `None` if memory runs out.
fn both(alloc: Global, first: OwnedEvent, second: OwnedEvent) -> Option<Vec<OwnedEvent>> {
    let mut events = Vec::with_capacity(alloc, 2).ok()?;
    events.push(first).ok()?;
    events.push(second).ok()?;
    Some(events)
}

/// Has a connection join.
fn joins<S: Shelf>(alloc: Global, hub: &mut Hub<S>, connection: u64) -> bool {
    let event = Event {
        connection,
        stamp: Stamp::unused(),
        kind: EventKind::Joined,
    };
    hub.event(alloc, &event).is_ok()
}

/// Whether each output of the answer is a reply with a status of success.
fn is_success(answer: &EventAnswer) -> bool {
    match &answer.result {
        Ok(outputs) => outputs.iter().all(|output| match output {
            Output::Write(_, text) => text.as_str().starts_with("HTTP/1.1 2"),
            Output::Shut(_) => false,
        }),
        Err(_) => false,
    }
}

/// Whether the requests of two connections are answered in one round, each with a status of success: the first
/// connection creates a user and asks for it, and the second one removes another user.
fn succeeds_together<S: Shelf>(alloc: Global, hub: &mut Hub<S>) -> bool {
    let (Some(first), Some(second)) = (piece(alloc, 0, CREATING), piece(alloc, 1, REMOVING)) else {
        return false;
    };
    let Some(events) = both(alloc, first, second) else {
        return false;
    };
    if !joins(alloc, hub, 0) || !joins(alloc, hub, 1) {
        return false;
    }
    match hub.round(alloc, events.as_slice(), &Unhurried) {
        Ok(answers) => answers.len() == 2 && answers.iter().all(is_success),
        Err(_) => false,
    }
}

/// Answers the requests of two connections in one round over the shelf, and returns the shelf. The result is an empty
/// text, or `None` if a request isn't answered with a status of success.
pub(crate) fn answered_together<S: Shelf>(alloc: Global, shelf: S) -> (Option<String>, S) {
    let (Ok(base), Ok(policy), Ok(tokens), Ok(routes)) = (
        Text::copy_of(alloc, BASE),
        read_policy(alloc, POLICY),
        Tokens::read(alloc, TOKENS),
        Routes::new(alloc),
    ) else {
        return (None, shelf);
    };
    let mut hub = Hub::new(alloc, routes, Service::new(policy, shelf, base), tokens);
    let told = if succeeds_together(alloc, &mut hub) {
        Some(String::new(alloc))
    } else {
        None
    };
    (told, hub.into_service().into_shelf())
}
