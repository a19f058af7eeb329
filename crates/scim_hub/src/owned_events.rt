//! Events that own their pieces.
ghost use Rattle.std.specs.Prelude.{◌≡◌};
ghost use Rattle.scim_hub.specs.HubStates.{event_of, owned_event_of};

use crate::events::{Event, EventKind, Stamp};

/// What occurred on a connection, with an owned piece.
pub enum OwnedEventKind {
    /// The connection was opened.
    Joined,
    /// The next piece of the connection's stream arrived.
    Piece(Vec<u8>),
    /// The connection has ended.
    Left,
}

impl Drop for OwnedEventKind {
    fn drop(self) {
        match self {
            OwnedEventKind::Joined | OwnedEventKind::Left => (),
            OwnedEventKind::Piece(_bytes) => (),
        }
    }
}

/// An event that owns its piece.
#[derive(Drop)]
pub struct OwnedEvent {
    /// The number of the connection.
    pub connection: u64,
    pub stamp: Stamp,
    pub kind: OwnedEventKind,
}

impl OwnedEvent {
    /// Returns the event as a hub takes it, with the piece borrowed.
    pub fn event(&self) -> Event<'_>
        ensures { event_of result ≡ owned_event_of self.now }
    {
        let kind = match &self.kind {
            OwnedEventKind::Joined => EventKind::Joined,
            OwnedEventKind::Piece(bytes) => EventKind::Piece(bytes.as_slice()),
            OwnedEventKind::Left => EventKind::Left,
        };
        Event {
            connection: self.connection,
            stamp: self.stamp,
            kind,
        }
    }
}
