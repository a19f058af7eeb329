//! The events of connections, as the loop of a server hears them.
ghost use Rattle.std.specs.Prelude.{◌≡◌, IfSome};
ghost use Rattle.scim_hub.specs.declared.owned_events.OwnedEventKind.{OwnedEventKind};
ghost use Rattle.scim_serve.specs.declared.peers.AdminEventKind.{AdminEventKind};
ghost use Rattle.scim_sockets.specs.PeerEvents.{Tells};

use crate::poll_tokens::Role;
use crate::stamps::stamp_now;
use scim_hub::{OwnedEvent, OwnedEventKind, Stamp};
use scim_serve::{AdminEvent, AdminEventKind, PeerEvent};
use std::random::RandomSource;
use std::time::Clock;

/// Returns an event of a client's connection.
fn of_client(connection: u64, stamp: Stamp, kind: OwnedEventKind) -> PeerEvent
    ensures { result
        ≡ PeerEvent.Event (record { connection = connection; stamp = stamp; kind = kind }) }
{
    PeerEvent::Event(OwnedEvent {
        connection,
        stamp,
        kind,
    })
}

/// Returns an event of a connection of the administrator.
fn of_admin(connection: u64, kind: AdminEventKind) -> PeerEvent
    ensures { result ≡ PeerEvent.Admin (record { connection = connection; kind = kind }) }
{
    PeerEvent::Admin(AdminEvent { connection, kind })
}

/// Returns the event that a connection has joined. It has an unused stamp.
pub(crate) fn joined(role: Role, connection: u64) -> PeerEvent
    ensures { Tells role connection AdminEventKind.Joined result }
{
    match role {
        Role::Client => of_client(connection, Stamp::unused(), OwnedEventKind::Joined),
        Role::Admin => of_admin(connection, AdminEventKind::Joined),
    }
}

/// Returns the event that a connection may take more bytes.
pub(crate) fn ready(role: Role, connection: u64) -> PeerEvent
    ensures { Tells role connection AdminEventKind.Ready result }
{
    match role {
        Role::Client => PeerEvent::Ready(connection),
        Role::Admin => of_admin(connection, AdminEventKind::Ready),
    }
}

/// Returns the event that a connection has left. It has an unused stamp.
pub(crate) fn left(role: Role, connection: u64) -> PeerEvent
    ensures { Tells role connection AdminEventKind.Left result }
{
    match role {
        Role::Client => of_client(connection, Stamp::unused(), OwnedEventKind::Left),
        Role::Admin => of_admin(connection, AdminEventKind::Left),
    }
}

/// Whether an event is a piece of a client's connection.
pub(crate) fn is_client_piece(peer_event: &Option<PeerEvent>) -> bool {
    match peer_event {
        Some(PeerEvent::Event(event)) => matches!(event.kind, OwnedEventKind::Piece(_)),
        _ => false,
    }
}

/// Returns the event that the next piece of the stream of a client's connection has arrived, with its stamp;
/// `None` if the clock or the random source fails.
pub(crate) fn client_piece<R: Clock + RandomSource>(
    rt: &R,
    connection: u64,
    bytes: Vec<u8>,
) -> Option<OwnedEvent>
    ensures { IfSome result (λ event. (event.connection ≡ connection)
        × (event.kind ≡ OwnedEventKind.Piece bytes)) }
{
    match stamp_now(rt) {
        Ok(stamp) => Some(OwnedEvent {
            connection,
            stamp,
            kind: OwnedEventKind::Piece(bytes),
        }),
        Err(_) => None,
    }
}

/// Returns the event that the next piece of a connection's stream has arrived. That of a client is stamped:
/// returns `None` if the clock or the random source fails.
pub(crate) fn piece<R: Clock + RandomSource>(
    rt: &R,
    role: Role,
    connection: u64,
    bytes: Vec<u8>,
) -> Option<PeerEvent>
    ensures { IfSome result (Tells role connection (AdminEventKind.Piece bytes)) }
{
    match role {
        Role::Client => match client_piece(rt, connection, bytes) {
            Some(event) => Some(PeerEvent::Event(event)),
            None => None,
        },
        Role::Admin => Some(of_admin(connection, AdminEventKind::Piece(bytes))),
    }
}
