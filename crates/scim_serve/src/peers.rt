//! The connections that a server serves, and the events that they report.
ghost use Rattle.std.specs.Prelude.{◌≡◌, ◌≤◌, ℕ, ◌==◌, Bool, true, false, IsTrue, List, [], ◌++◌, length, take, if◌then◌else◌};
ghost use Rattle.scim_hub.specs.Events.{HubEvent};
ghost use Rattle.scim_serve.specs.Peers.{told_by, told_ready, ends};

use scim_hub::{OwnedEvent, Pace};
use std::alloc::Global;
use thiserror::Error;

/// What occurred on a connection of the administrator.
pub enum AdminEventKind {
    /// The connection was opened.
    Joined,
    /// The next piece of the connection's stream arrived.
    Piece(Vec<u8>),
    /// The connection took fewer bytes than it was offered, and may take more now.
    Ready,
    /// The connection has ended.
    Left,
}

impl Drop for AdminEventKind {
    fn drop(self) {
        match self {
            AdminEventKind::Joined | AdminEventKind::Ready | AdminEventKind::Left => (),
            AdminEventKind::Piece(_bytes) => (),
        }
    }
}

/// An event of a connection of the administrator.
#[derive(Drop)]
pub struct AdminEvent {
    /// The number of the connection. The administrator's connections have numbers of their own, beside those of
    /// the clients' connections.
    pub connection: u64,
    pub kind: AdminEventKind,
}

/// An event that the connections report.
#[derive(Drop)]
pub enum PeerEvent {
    /// An event of a client's connection, for the hub.
    Event(OwnedEvent),
    /// The client's connection with this number took fewer bytes than it was offered, and may take more now.
    Ready(u64),
    /// An event of a connection of the administrator.
    Admin(AdminEvent),
    /// About a second has passed since the last event of this kind.
    Tick,
}

/// Something that the serving of a client's connection met.
#[derive(Clone, Copy, Debug, PartialEq, Eq)]
pub enum Note {
    /// `count` messages of an event of the connection were refused because no client has their token.
    RefusedTokens { connection: u64, count: u64 },
    /// Memory ran out for an event of the connection with this number. The connection is closed.
    NoMemory(u64),
}

/// How many connections there are, and how many ended in which way since the start.
#[derive(Clone, Copy, Debug, PartialEq, Eq)]
pub struct Figures {
    /// The number of open connections of clients.
    pub clients: u64,
    /// The number of open connections of the administrator.
    pub admins: u64,
    /// The number of connections of clients that were accepted.
    pub accepted: u64,
    /// The number of bytes that were offered to connections and aren't taken yet.
    pub bytes_waiting: u64,
    /// The number of connections that were closed because a message's head came too late.
    pub late_heads: u64,
    /// The number of connections that were closed because a message came too late.
    pub late_messages: u64,
    /// The number of connections that were closed because they took a reply too slowly.
    pub late_replies: u64,
    /// The number of idle connections that gave way to new ones.
    pub gave_way: u64,
    /// The number of connections that were closed because the bytes of all connections exceed the limit.
    pub over_memory: u64,
    /// The number of messages that were refused because no client has their token.
    pub refused_tokens: u64,
}

/// The error that ends the serving of all connections: the system can't report events or measure time.
#[derive(Clone, Copy, Debug, PartialEq, Eq, Error)]
#[error("the connections can't be served")]
pub struct PeersFault;

/// Connections that are served on one thread: those of clients and, beside them, those of the administrator.
///
/// A connection that takes fewer bytes than it is offered isn't read until it has taken all of them. The
/// contracts describe the connections of clients alone. As a [`Pace`] they tell how long a round may go on.
pub trait Peers: Pace {
    ghost use Rattle.scim_serve.specs.Peers.{KeepsClients};

    /// Whether the contracts describe the events and the bytes taken. False for the system's sockets.
    ghost is_known: { Bool };

    /// The events reported so far.
    ghost seen: { Self → List HubEvent };

    /// The bytes that each connection has taken, by connection number.
    ghost written: { Self → ℕ → List ℕ };

    /// Whether each connection is known to have taken all bytes that it was last offered, by connection
    /// number.
    ghost takes_all: { Self → ℕ → Bool };

    /// Whether each connection was closed by `close`, by connection number.
    ghost is_closed: { Self → ℕ → Bool };

    /// Whether the last call of `next` returned `None`.
    ghost is_over: { Self → Bool };

    /// Waits for the next event, and returns it; `None` if no connection is open and none can join.
    fn next(&mut self, alloc: Global) -> Result<Option<PeerEvent>, PeersFault>
        ensures seen { IsTrue is_known → seen self.new ≡ seen self.old ++ told_by result }
        ensures written { IsTrue is_known → (m : ℕ) → written self.new m ≡ written self.old m }
        ensures takes { IsTrue is_known → (m : ℕ) → takes_all self.new m ≡ true
            → takes_all self.old m ≡ true }
        ensures closed { IsTrue is_known → (m : ℕ) → is_closed self.new m ≡ is_closed self.old m }
        ensures over { IsTrue is_known → is_over self.new ≡ ends result };

    /// Returns one more piece that is ready now, for the round that the last event of `next` began, without waiting.
    /// It is a piece of a client's connection that reported no other event since then. Returns `None` if there is
    /// no such piece, or if the round takes no more.
    fn next_ready(&mut self, alloc: Global) -> Option<OwnedEvent>
        ensures seen { IsTrue is_known → seen self.new ≡ seen self.old ++ told_ready result }
        ensures written { IsTrue is_known → (m : ℕ) → written self.new m ≡ written self.old m }
        ensures takes { IsTrue is_known → (m : ℕ) → takes_all self.new m ≡ true
            → takes_all self.old m ≡ true }
        ensures closed { IsTrue is_known → (m : ℕ) → is_closed self.new m ≡ is_closed self.old m };

    /// Offers bytes to a connection, and returns the length of the prefix that it took.
    ///
    /// The length may be 0, and is 0 if no connection has the number.
    fn write(&mut self, connection: u64, bytes: &[u8]) -> usize
        ensures count { result ≤ length bytes.now }
        ensures seen { IsTrue is_known → seen self.new ≡ seen self.old }
        ensures written { IsTrue is_known → (m : ℕ)
            → written self.new m ≡ written self.old m
            ++ (if connection == m then take result bytes.now else []) }
        ensures takes { IsTrue is_known → (m : ℕ) → takes_all self.new m ≡ true
            → (if connection == m then result == length bytes.now else takes_all self.old m)
            ≡ true }
        ensures closed { IsTrue is_known → (m : ℕ) → is_closed self.new m ≡ is_closed self.old m };

    /// Closes the connection with the number, if there is one. `next` reports later that it has left.
    fn close(&mut self, connection: u64)
        ensures seen { IsTrue is_known → seen self.new ≡ seen self.old }
        ensures written { IsTrue is_known → (m : ℕ) → written self.new m ≡ written self.old m }
        ensures takes { IsTrue is_known → (m : ℕ) → takes_all self.new m ≡ true
            → takes_all self.old m ≡ true }
        ensures closed { IsTrue is_known → (m : ℕ) → is_closed self.new m
            ≡ (if connection == m then true else is_closed self.old m) };

    /// Offers bytes to a connection of the administrator, and returns the length of the prefix that it took.
    ///
    /// The length may be 0, and is 0 if no such connection has the number.
    fn write_to_admin(&mut self, connection: u64, bytes: &[u8]) -> usize
        ensures count { result ≤ length bytes.now }
        ensures clients { IsTrue is_known → KeepsClients seen written takes_all is_closed
            self.old self.new };

    /// Closes the connection of the administrator with the number, if there is one. `next` reports later that
    /// it has left.
    fn close_admin(&mut self, connection: u64)
        ensures clients { IsTrue is_known → KeepsClients seen written takes_all is_closed
            self.old self.new };

    /// Accepts no more connections, and closes each one once its request in hand is answered. Then `next`
    /// returns `None`.
    fn stop(&mut self)
        ensures clients { IsTrue is_known → KeepsClients seen written takes_all is_closed
            self.old self.new };

    /// Takes notice of what the serving of a client's connection met.
    fn note(&mut self, note: Note)
        ensures clients { IsTrue is_known → KeepsClients seen written takes_all is_closed
            self.old self.new };

    /// Returns how many connections there are, and how many ended in which way since the start.
    fn figures(&self) -> Figures;
}
