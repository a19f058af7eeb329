//! What happens to a server in a case, in order.
use case_runs::request_bytes;
use case_values::{Case, CaseFault};
use scim_cell::Id;
use scim_hub::{OwnedEvent, OwnedEventKind, Stamp};
use scim_serve::{AdminEvent, AdminEventKind, PeerEvent};
use scim_text::read_printed_moment;
use std::collections::VecDeque;

/// The default time of an event.
const NOON: &str = "2024-06-01T12:00:00Z";

/// The default id of a resource that the first message of an event creates.
const FRESH: &str = "00000000-0000-4000-8000-0000000000e1";

/// Something that happens to a server.
#[derive(Drop)]
pub(crate) struct Turn {
    pub(crate) event: PeerEvent,
    /// Whether the next turn comes before the connections report anything else.
    pub(crate) holds: bool,
}

/// The turns of a case, and the connections that have joined in them.
#[derive(Drop)]
struct Turns {
    turns: VecDeque<Turn>,
    clients: Vec<u64>,
    admins: Vec<u64>,
}

/// Returns the turns in the list `turns` of a case. A turn is one of:
///
/// - an object with the number `on` of a client's connection, which sends a `request` or `leaves`. The members
///   `at` and `first` are the stamp of the event;
/// - an object with the number `admin` of a connection of the administrator, which does likewise. If it
///   `holds`, the next turn comes before the connection may take more;
/// - an object with a number of `ticks`.
///
/// A connection joins before its first turn.
pub(crate) fn turns_of(case: &Case<'_>) -> Result<VecDeque<Turn>, CaseFault> {
    let mut turns = Turns {
        turns: VecDeque::new(case.alloc),
        clients: Vec::new(case.alloc),
        admins: Vec::new(case.alloc),
    };
    for value in case.list("turns") {
        turns.add(&case.inner(value))?;
    }
    let Turns { turns, .. } = turns;
    Ok(turns)
}

impl Turns {
    /// Appends a turn.
    fn add(&mut self, turn: &Case<'_>) -> Result<(), CaseFault> {
        if turn.has("ticks") {
            self.add_ticks(turn.count("ticks")?)
        } else if turn.has("admin") {
            self.add_admin(turn, turn.count("admin")? as u64)
        } else {
            self.add_client(turn, turn.count("on")? as u64)
        }
    }

    fn push(&mut self, event: PeerEvent, holds: bool) -> Result<(), CaseFault> {
        Ok(self.turns.push_back(Turn { event, holds })?)
    }

    fn add_ticks(&mut self, count: usize) -> Result<(), CaseFault> {
        for _ in 0..count {
            self.push(PeerEvent::Tick, false)?;
        }
        Ok(())
    }

    /// Appends a turn of a connection of the administrator, after its joining if it hasn't joined.
    fn add_admin(&mut self, turn: &Case<'_>, connection: u64) -> Result<(), CaseFault> {
        if !self.admins.as_slice().contains(&connection) {
            self.admins.push(connection)?;
            self.push(admin_event(connection, AdminEventKind::Joined), true)?;
        }
        let kind = if turn.is_true("leaves") {
            AdminEventKind::Left
        } else {
            AdminEventKind::Piece(request_bytes(turn)?)
        };
        self.push(admin_event(connection, kind), turn.is_true("holds"))
    }

    /// Appends the joining of a client's connection, if it hasn't joined.
    fn join_client(&mut self, connection: u64) -> Result<(), CaseFault> {
        if self.clients.as_slice().contains(&connection) {
            return Ok(());
        }
        self.clients.push(connection)?;
        let joined = OwnedEventKind::Joined;
        self.push(client_event(connection, Stamp::unused(), joined), true)
    }

    /// Appends a turn of a client's connection, after its joining if it hasn't joined.
    fn add_client(&mut self, turn: &Case<'_>, connection: u64) -> Result<(), CaseFault> {
        self.join_client(connection)?;
        let kind = client_kind(turn)?;
        let Some(first) = Id::read(turn.text_or("first", FRESH)) else {
            return Err(CaseFault::Missing("first"));
        };
        let Some(moment) = read_printed_moment(turn.alloc, turn.text_or("at", NOON))? else {
            return Err(CaseFault::Missing("at"));
        };
        self.push(
            client_event(connection, Stamp { moment, first }, kind),
            false,
        )
    }
}

/// Returns what happens to a client's connection in a turn.
fn client_kind(turn: &Case<'_>) -> Result<OwnedEventKind, CaseFault> {
    if turn.is_true("leaves") {
        Ok(OwnedEventKind::Left)
    } else {
        Ok(OwnedEventKind::Piece(request_bytes(turn)?))
    }
}

fn admin_event(connection: u64, kind: AdminEventKind) -> PeerEvent {
    PeerEvent::Admin(AdminEvent { connection, kind })
}

pub(crate) fn client_event(connection: u64, stamp: Stamp, kind: OwnedEventKind) -> PeerEvent {
    PeerEvent::Event(OwnedEvent {
        connection,
        stamp,
        kind,
    })
}
