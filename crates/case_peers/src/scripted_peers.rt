//! Connections in memory whose events come from a script.
ghost use Rattle.std.specs.Prelude.{◌≡◌, ◌≤◌, ◌++◌, ◌∷◌, ◌==◌, [], IfOk, IfSome, length, take, true};
ghost use Rattle.scim_hub.specs.HubStates.{owned_event_of};
ghost use Rattle.case_peers.specs.Peers.{heard_in};

use scim_hub::{OwnedEvent, OwnedEventKind, Pace, Stamp};
use scim_serve::{AdminEvent, AdminEventKind, Figures, Note, PeerEvent, Peers, PeersFault};
use std::alloc::{AllocError, Global};

/// A connection in memory.
#[derive(Drop)]
pub struct ScriptedPeer {
    /// The bytes that the connection has taken.
    pub taken: Vec<u8>,
    /// Whether the connection took all bytes of the last offer.
    takes_all: bool,
    /// Whether the connection is closed.
    pub is_closed: bool,
}

impl ScriptedPeer {
    /// Returns an open connection that has taken nothing.
    fn new(alloc: Global) -> ScriptedPeer {
        ScriptedPeer {
            taken: Vec::new(alloc),
            takes_all: true,
            is_closed: false,
        }
    }

    /// Takes at most `most` bytes of an offer, and returns the number of bytes taken. Takes no bytes if
    /// memory runs out.
    fn take(&mut self, offer: &[u8], most: usize) -> usize
        ensures count { result ≤ length offer.now }
        ensures taken { self.new.taken.items ≡ self.old.taken.items ++ take result offer.now }
        ensures all { self.new.takes_all ≡ (result == length offer.now) }
        ensures closed { self.new.is_closed ≡ self.old.is_closed }
    {
        let wanted = offer.len().min(most);
        let count = match self.taken.extend_from_slice(&offer[..wanted]) {
            Ok(()) => wanted,
            Err(_) => 0,
        };
        self.takes_all = count == offer.len();
        count
    }
}

/// An event of a script.
#[derive(Clone, Copy)]
pub enum ScriptedEvent<'a> {
    /// The client's connection with this number joins.
    Joins(u64),
    /// These bytes arrive on the client's connection with this number.
    Sends(u64, &'a str),
    /// These bytes arrive on the connection of the administrator, which has the number 0.
    Administers(&'a str),
    /// A second passes.
    Ticks,
}

/// Two connections of clients with the numbers 0 and 1, which take at most `step` bytes at a call of `write`,
/// and one of the administrator, which takes all bytes.
#[derive(Drop)]
pub struct ScriptedPeers {
    /// The events, in order.
    script: Vec<PeerEvent>,
    /// The number of events reported so far.
    reported: usize,
    /// The number of events reported before the last event of `next`, or before its last `Ready`.
    since: usize,
    /// Whether `next_ready` reports pieces.
    gathers: bool,
    /// The connections that took fewer bytes than they were offered and may take more. The last of them is
    /// reported next.
    ready: Vec<u64>,
    step: usize,
    /// Whether the last call of `next` reported the end of the events.
    is_over: bool,
    /// Whether `stop` was called. Then `next` reports no more events of the script.
    is_stopped: bool,
    /// Connection 0.
    pub first: ScriptedPeer,
    /// Connection 1.
    pub second: ScriptedPeer,
    /// The connection of the administrator.
    pub admin: ScriptedPeer,
    /// The number of messages that were noted as refused for their token, 2^64 - 1 at most.
    refused_tokens: u64,
}

/// Returns the event of a client's connection.
fn client_event(connection: u64, kind: OwnedEventKind) -> PeerEvent {
    PeerEvent::Event(OwnedEvent {
        connection,
        stamp: Stamp::unused(),
        kind,
    })
}

/// Returns what the connections report for an event of a script.
fn event_of(alloc: Global, event: ScriptedEvent<'_>) -> Result<PeerEvent, AllocError> {
    Ok(match event {
        ScriptedEvent::Joins(connection) => client_event(connection, OwnedEventKind::Joined),
        ScriptedEvent::Sends(connection, bytes) => {
            let piece = Vec::from_slice(alloc, bytes.as_bytes())?;
            client_event(connection, OwnedEventKind::Piece(piece))
        }
        ScriptedEvent::Administers(bytes) => {
            let piece = Vec::from_slice(alloc, bytes.as_bytes())?;
            PeerEvent::Admin(AdminEvent {
                connection: 0,
                kind: AdminEventKind::Piece(piece),
            })
        }
        ScriptedEvent::Ticks => PeerEvent::Tick,
    })
}

/// Copies an event of a client's connection.
fn client_copy(alloc: Global, event: &OwnedEvent) -> Result<OwnedEvent, AllocError>
    ensures { IfOk result (λ copy. owned_event_of copy ≡ owned_event_of event.now) }
{
    let kind = match &event.kind {
        OwnedEventKind::Joined => OwnedEventKind::Joined,
        OwnedEventKind::Piece(bytes) => {
            OwnedEventKind::Piece(Vec::from_slice(alloc, bytes.as_slice())?)
        }
        OwnedEventKind::Left => OwnedEventKind::Left,
    };
    Ok(OwnedEvent {
        connection: event.connection,
        stamp: event.stamp,
        kind,
    })
}

/// Copies an event of a connection of the administrator.
fn admin_copy(alloc: Global, event: &AdminEvent) -> Result<AdminEvent, AllocError> {
    let kind = match &event.kind {
        AdminEventKind::Joined => AdminEventKind::Joined,
        AdminEventKind::Piece(bytes) => {
            AdminEventKind::Piece(Vec::from_slice(alloc, bytes.as_slice())?)
        }
        AdminEventKind::Ready => AdminEventKind::Ready,
        AdminEventKind::Left => AdminEventKind::Left,
    };
    Ok(AdminEvent {
        connection: event.connection,
        kind,
    })
}

/// Copies what the connections report.
fn copy_of(alloc: Global, event: &PeerEvent) -> Result<PeerEvent, AllocError>
    ensures { IfOk result (λ copy. heard_in copy ≡ heard_in event.now) }
{
    Ok(match event {
        PeerEvent::Event(event) => PeerEvent::Event(client_copy(alloc, event)?),
        PeerEvent::Ready(connection) => PeerEvent::Ready(*connection),
        PeerEvent::Admin(event) => PeerEvent::Admin(admin_copy(alloc, event)?),
        PeerEvent::Tick => PeerEvent::Tick,
    })
}

/// Whether the connections report this as an event of the client's connection with the number.
fn is_of(event: &PeerEvent, connection: u64) -> bool {
    match event {
        PeerEvent::Event(event) => event.connection == connection,
        PeerEvent::Ready(_) | PeerEvent::Admin(_) | PeerEvent::Tick => false,
    }
}

/// Copies a piece of a client's connection; `None` if this is no such piece, or if memory runs out.
fn piece_copy(alloc: Global, event: &PeerEvent) -> Option<OwnedEvent>
    ensures { IfSome result (λ copy. heard_in event.now ≡ owned_event_of copy ∷ []) }
{
    match event {
        PeerEvent::Event(event) => match &event.kind {
            OwnedEventKind::Piece(_) => client_copy(alloc, event).ok(),
            OwnedEventKind::Joined | OwnedEventKind::Left => None,
        },
        PeerEvent::Ready(_) | PeerEvent::Admin(_) | PeerEvent::Tick => None,
    }
}

impl ScriptedPeers {
    /// Returns connections with these events, in order. Each is reported alone.
    pub fn new(
        alloc: Global,
        step: usize,
        events: &[ScriptedEvent<'_>],
    ) -> Result<ScriptedPeers, AllocError> {
        let mut script = Vec::new(alloc);
        for event in events {
            script.push(event_of(alloc, *event)?)?;
        }
        Ok(ScriptedPeers {
            script,
            reported: 0,
            since: 0,
            gathers: false,
            ready: Vec::new(alloc),
            step,
            is_over: false,
            is_stopped: false,
            first: ScriptedPeer::new(alloc),
            second: ScriptedPeer::new(alloc),
            admin: ScriptedPeer::new(alloc),
            refused_tokens: 0,
        })
    }

    /// Returns connections with these events, in order. The pieces of different connections that follow one another
    /// are ready at the same time.
    pub fn in_rounds(
        alloc: Global,
        step: usize,
        events: &[ScriptedEvent<'_>],
    ) -> Result<ScriptedPeers, AllocError> {
        let mut peers = ScriptedPeers::new(alloc, step, events)?;
        peers.gathers = true;
        Ok(peers)
    }

    /// Whether the client's connection with the number has reported an event since the last call of `next`.
    fn has_reported(&self, connection: u64) -> bool {
        self.script
            .iter()
            .take(self.reported)
            .skip(self.since)
            .any(|event| is_of(event, connection))
    }
}

impl Pace for ScriptedPeers {
    fn goes_on(&self) -> bool {
        true
    }
}

impl Peers for ScriptedPeers {
    ghost use Rattle.std.specs.Prelude.{true};
    ghost use Rattle.case_peers.specs.Peers as spec;

    ghost is_known = { true };

    ghost seen = { spec.reported };

    ghost written = { λ p m. spec.taken_by (spec.peer_of p m) };

    ghost takes_all = { λ p m. spec.takes_all (spec.peer_of p m) };

    ghost is_closed = { λ p m. spec.is_closed (spec.peer_of p m) };

    ghost is_over = { λ p. p.is_over };

    fn next(&mut self, alloc: Global) -> Result<Option<PeerEvent>, PeersFault> {
        self.is_over = false;
        self.since = self.reported;
        if let Some(connection) = self.ready.pop() {
            return Ok(Some(PeerEvent::Ready(connection)));
        }
        if self.is_stopped {
            self.is_over = true;
            return Ok(None);
        }
        let Some(event) = self.script.as_slice().get(self.reported) else {
            self.is_over = true;
            return Ok(None);
        };
        match copy_of(alloc, event) {
            Ok(event) => {
                self.reported += 1;
                Ok(Some(event))
            }
            Err(_) => Err(PeersFault),
        }
    }

    fn next_ready(&mut self, alloc: Global) -> Option<OwnedEvent> {
        if !self.gathers || self.is_stopped {
            return None;
        }
        let event = piece_copy(alloc, self.script.as_slice().get(self.reported)?)?;
        if self.has_reported(event.connection) {
            return None;
        }
        self.reported += 1;
        Some(event)
    }

    fn write(&mut self, connection: u64, bytes: &[u8]) -> usize {
        let count = match connection {
            0 => self.first.take(bytes, self.step),
            1 => self.second.take(bytes, self.step),
            _ => 0,
        };
        if count < bytes.len() {
            // If the push fails, the reply stays incomplete and the case fails.
            let _kept = self.ready.push(connection);
        }
        count
    }

    fn close(&mut self, connection: u64) {
        match connection {
            0 => self.first.is_closed = true,
            1 => self.second.is_closed = true,
            _ => (),
        }
    }

    fn write_to_admin(&mut self, connection: u64, bytes: &[u8]) -> usize {
        match connection {
            0 => self.admin.take(bytes, usize::MAX),
            _ => 0,
        }
    }

    fn close_admin(&mut self, connection: u64) {
        if connection == 0 {
            self.admin.is_closed = true;
        }
    }

    fn stop(&mut self) {
        self.is_stopped = true;
    }

    fn note(&mut self, note: Note) {
        match note {
            Note::RefusedTokens { count, .. } => {
                self.refused_tokens = self.refused_tokens.saturating_add(count);
            }
            Note::NoMemory(_) => (),
        }
    }

    fn figures(&self) -> Figures {
        Figures {
            clients: 2,
            admins: 1,
            accepted: 2,
            bytes_waiting: 0,
            late_heads: 0,
            late_messages: 0,
            late_replies: 0,
            gave_way: 0,
            over_memory: 0,
            refused_tokens: self.refused_tokens,
        }
    }
}
