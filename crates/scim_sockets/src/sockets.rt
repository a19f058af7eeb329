//! The system's sockets as the connections of a server.
ghost use Rattle.std.specs.Prelude.{◌≤◌, ◌≡◌, length, take, IsTrue, IfOk, IfSome, IfNone};
ghost use Rattle.std.specs.BTreeMap.{btree_map_len};
ghost use Rattle.scim_sockets.specs.Listening.{IsOver, Joins};
ghost use Rattle.scim_sockets.specs.PeerEvents.{IsOf, Tells};
ghost use Rattle.scim_sockets.specs.Ports.{connections_of};

use crate::connection::Turn;
use crate::counts::Counts;
use crate::log_pace::Log;
use crate::open_connections::MOST_OPEN;
use crate::operator_log::OperatorLog;
use crate::peer_events;
use crate::poll_tokens::{Place, Role};
use crate::ports::{MOST_ADMINS, Ports};
use crate::rounds::Round;
use crate::server_time::ServerTime;
use crate::time_limits::{LAST_READS, LAST_REPLIES, LAST_WAIT, LONG_TURN, Limits, WAIT, WATCH};
use mio::{Events, Poll};
use scim_hub::{OwnedEvent, Pace};
use scim_serve::{Figures, Note, PeerEvent, Peers, PeersFault};
use scim_text::Failed;
use std::alloc::{AllocError, Global};
use std::net::Net;
use std::random::RandomSource;
use std::time::{Clock, CpuClock, Duration, Instant};
use thiserror::Error;

/// The maximum number of bytes per read, and so the most that is held for a connection until it is handed on.
const PIECE: usize = 4096;

/// The maximum number of the system's reports per poll: one for each connection, and one for each listener.
const REPORTS: usize = MOST_OPEN + MOST_ADMINS + 2;

/// The maximum number of queue entries that are looked at for one more piece of a round. A connection has at
/// most three entries in turn meanwhile: it is read, moved on because its client's share has grown, and hands
/// on a piece.
const MOST_LOOKS: usize = 4 * REPORTS;

/// The error that a port can't be bound: another program uses it, or the system refuses it.
#[derive(Clone, Copy, Debug, PartialEq, Eq, Error)]
#[error("the port can't be listened at")]
pub struct CannotListen;

/// The buffers, which are allocated once.
#[derive(Drop)]
struct Buffers {
    events: Events,
    bytes: Vec<u8>,
}

impl Buffers {
    /// Allocates the buffers.
    fn new(alloc: Global) -> Result<Buffers, AllocError> {
        Ok(Buffers {
            events: Events::with_capacity(alloc, REPORTS)?,
            bytes: Vec::from_elem(alloc, 0, PIECE)?,
        })
    }

    /// Returns a copy of the first `count` bytes of the buffer, which are the piece.
    fn piece(&self, alloc: Global, count: usize) -> Result<Vec<u8>, AllocError>
        requires { count ≤ length self.now.bytes.items }
        ensures { IfOk result (λ bytes. bytes.items ≡ take count self.now.bytes.items) }
    {
        Vec::from_slice(alloc, &self.bytes[..count])
    }
}

/// The system's sockets as connections, many of which are served on one thread: those of clients, and those of
/// the administrator, which join at a port of their own.
///
/// Each piece that [`Peers::next`] reports completes the head of at most one request, and comes after the
/// connection has taken all replies to the pieces before it. Then it is the turn of the other connections.
///
/// A round is a piece of a client that [`Peers::next`] returned, and the pieces of other connections of clients
/// that [`Peers::next_ready`] adds to it; or any other event alone. The pieces are taken in turn, for at most
/// 20 milliseconds, and at most 64. The time that a round takes is divided among its connections. All else,
/// such as what the administrator's connections have to report, is kept for [`Peers::next`].
///
/// A connection is closed if it is late, as [`Limits`] says. Time counts while the system is polled: after a
/// pause of the process or of the machine, and after a request that took long, at most one second counts, and a
/// connection is late only if a poll since then reported nothing for it. A connection that [`Peers::close`]
/// closes leaves once the client has closed its side too, or two seconds later.
///
/// At most 1,024 connections of clients and 16 of the administrator are open at once. If another one waits
/// then, the connection of the same port that has been idle longest gives way; if none is idle, it waits until
/// one has left.
///
/// After each call of [`Peers::write_to_admin`] the connection's next turn is reported as ready, in the
/// administrator's share of the server's time; until then the connection isn't read.
///
/// After [`Peers::stop`] no connection is accepted. A connection that is at rest is shut after a poll that
/// reported nothing for it, or five seconds later. The others are shut when they are at rest: when their
/// requests are answered and the replies taken. After 29 seconds all that are left are ended.
#[derive(Drop)]
pub struct Sockets<'r, R: Clock + CpuClock + RandomSource + Log> {
    rt: &'r R,
    poll: Poll,
    buffers: Buffers,
    ports: Ports,
    port: u16,
    admin_port: Option<u16>,
    // The number of queue entries to process until the next poll.
    until_poll: usize,
    round: Round,
    limits: Limits,
    log: OperatorLog,
    time: ServerTime,
    // The time of the last search for late connections.
    watched: Duration,
    // Whether the server was told to stop.
    is_stopped: bool,
    // When the ports were closed, because the server was told to stop or all connections of clients have left.
    closed: Option<Instant>,
}

impl<'r, R: Net + Clock + CpuClock + RandomSource + Log> Sockets<'r, R> {
    /// Listens on a port of the loopback address; on a free port if `port` is 0. With `admin_port`, also
    /// listens on that port, or a free one, for the administrator.
    ///
    /// With `most`, at most that many connections of clients are accepted, and [`Peers::next`] returns `None`
    /// after the last has left. Fails with [`CannotListen`] if a port can't be bound, or if the system's poll
    /// or a clock fails. After any error no port is bound.
    pub fn listen(
        rt: &'r R,
        alloc: Global,
        port: u16,
        admin_port: Option<u16>,
        most: Option<u64>,
    ) -> Result<Sockets<'r, R>, Failed<CannotListen>> {
        let buffers = Buffers::new(alloc)?;
        let mut ports = Ports::new(alloc, most)?;
        let (Ok(poll), Ok(time)) = (Poll::new(rt), ServerTime::start(rt)) else {
            return Err(Failed::Because(CannotListen));
        };
        let Ok(port) = ports.clients.listen(rt, poll.registry(), port) else {
            return Err(Failed::Because(CannotListen));
        };
        let admin_port = match admin_port {
            Some(number) => match ports.admins.listen(rt, poll.registry(), number) {
                Ok(number) => Some(number),
                Err(_) => return Err(Failed::Because(CannotListen)),
            },
            None => None,
        };
        Ok(Sockets {
            rt,
            poll,
            buffers,
            ports,
            port,
            admin_port,
            until_poll: 0,
            round: Round::new(),
            limits: Limits::usual(),
            log: OperatorLog::new(alloc),
            time,
            watched: Duration::from_secs(0),
            is_stopped: false,
            closed: None,
        })
    }
}

impl<'r, R: Clock + CpuClock + RandomSource + Log> Sockets<'r, R> {
    /// Returns the port of the clients.
    pub fn port(&self) -> u16 {
        self.port
    }

    /// Returns the port of the administrator, if there is one.
    pub fn admin_port(&self) -> Option<u16> {
        self.admin_port
    }

    /// Sets the limits of time and memory; [`Limits::usual`] by default.
    pub fn set_limits(&mut self, limits: Limits) {
        self.limits = limits;
    }

    /// Returns how many connections were closed so far, and why.
    pub fn counts(&self) -> Counts {
        self.log.counts
    }

    /// Whether the server was told to stop or the maximum number of connections of clients was accepted, and no
    /// connection is open.
    fn is_over(&self) -> bool
        ensures { IsTrue result → IsOver self.now.is_stopped self.now.ports.clients.most
            self.now.ports.clients.turns.connections self.now.ports.admins.turns.connections }
    {
        (self.is_stopped || self.ports.clients.has_accepted_all()) && self.ports.is_empty()
    }

    /// Accepts a connection at a port, if one is waiting and may join now.
    fn accept(&mut self, alloc: Global, role: Role) -> Option<PeerEvent>
        ensures { IfSome result (Joins role (connections_of role self.old.ports)) }
    {
        let registry = self.poll.registry();
        let now = self.time.now();
        let counts = &mut self.log.counts;
        let number = self.ports.accept(alloc, role, registry, now, counts)?;
        Some(peer_events::joined(role, number))
    }

    /// Does the next work of a connection, and returns the resulting event, if any.
    ///
    /// Ends the connection if the piece that was read can't be allocated, or can't be stamped because the
    /// clock or the random source failed. The connection then leaves when its next work is done.
    fn serve(&mut self, alloc: Global, role: Role, number: u64) -> Option<PeerEvent>
        ensures { IfSome result (IsOf role number) }
    {
        let now = self.time.now();
        match self.ports.turn(role, number, now, &mut self.buffers.bytes) {
            Turn::Nothing | Turn::Read(_) => None,
            Turn::Ready => Some(peer_events::ready(role, number)),
            Turn::Left => Some(peer_events::left(role, number)),
            Turn::Piece(count) => {
                let peer_event = self.piece(alloc, role, number, count);
                if peer_event.is_none() {
                    self.ports.end(role, number);
                }
                peer_event
            }
        }
    }

    /// Returns the event that a piece of a connection has come, which is at the start of the buffer. `None` if
    /// it can't be allocated or stamped.
    fn piece(&mut self, alloc: Global, role: Role, number: u64, count: usize) -> Option<PeerEvent>
        requires { count ≤ length self.old.buffers.bytes.items }
        ensures { IfSome result (IsOf role number) }
    {
        let bytes = self.bytes(alloc, count)?;
        peer_events::piece(self.rt, role, number, bytes)
    }

    /// Returns a copy of the piece at the start of the buffer; `None` if it can't be allocated.
    fn bytes(&mut self, alloc: Global, count: usize) -> Option<Vec<u8>>
        requires { count ≤ length self.old.buffers.bytes.items }
    {
        match self.buffers.piece(alloc, count) {
            Ok(bytes) => Some(bytes),
            Err(_) => {
                self.log.note_no_memory();
                None
            }
        }
    }

    /// Polls the system. All work that is queued afterwards is done before the next poll. About once a second,
    /// returns a tick.
    ///
    /// Then it also ends late connections, after a poll without a wait: what such a poll doesn't report hadn't
    /// come at the time before it, even if the process was stopped for long just then.
    fn wait(&mut self) -> Result<Option<PeerEvent>, PeersFault> {
        if self.ports.clients.has_accepted_all() && self.ports.clients.turns.is_empty() {
            self.close_ports();
        }
        let is_watch = self.is_watch_due();
        self.take_reports(!is_watch)?;
        if is_watch {
            self.watch();
        }
        self.wind_down();
        let _ = self.time.look(self.rt)?;
        self.until_poll = self.ports.waiting();
        Ok(is_watch.then_some(PeerEvent::Tick))
    }

    /// Polls the system and handles its reports. Waits for one only if `may_wait` is true and no work is
    /// queued.
    fn take_reports(&mut self, may_wait: bool) -> Result<(), PeersFault> {
        let time = match self.closed {
            _ if !may_wait || self.ports.waiting() > 0 => 0,
            Some(_) => LAST_WAIT,
            None => WAIT,
        };
        let events = &mut self.buffers.events;
        if self
            .poll
            .poll(events, Some(Duration::from_millis(time)))
            .is_err()
        {
            return Err(PeersFault);
        }
        for event in &self.buffers.events {
            self.ports.note(event);
        }
        self.ports.reopen_doors();
        Ok(())
    }

    /// Whether late connections are to be searched for.
    fn is_watch_due(&self) -> bool {
        self.time.now().saturating_sub(self.watched) >= Duration::from_secs(WATCH)
    }

    /// Ends late connections, lets an idle one give way if a guest waits, and logs what happened.
    fn watch(&mut self) {
        let now = self.time.now();
        self.watched = now;
        self.ports.watch(now, &self.limits, &mut self.log.counts);
        self.log.log(self.rt, now);
    }

    /// Closes the ports, unless they are closed.
    fn close_ports(&mut self) {
        if self.closed.is_none() {
            self.closed = Some(self.time.clock());
            self.ports.close();
        }
    }

    /// If the ports are closed, shuts the connections that are at rest after the last poll, and those for which
    /// it reported something when requests aren't read any more; at last ends all.
    fn wind_down(&mut self) {
        let Some(closed) = self.closed else {
            return;
        };
        let passed = self.time.clock().duration_since(closed);
        if passed >= Duration::from_secs(LAST_REPLIES) {
            self.ports.end_all();
        } else {
            let may_wait = passed < Duration::from_secs(LAST_READS);
            self.ports.stop_idle(self.time.now(), may_wait);
        }
    }

    /// Processes one entry of the queue, or polls if `until_poll` is 0.
    fn step(&mut self, alloc: Global) -> Result<Option<PeerEvent>, PeersFault> {
        if self.until_poll == 0 {
            return self.wait();
        }
        self.until_poll -= 1;
        match self.ports.pop() {
            Some((role, Place::Door)) => Ok(self.accept(alloc, role)),
            Some((role, Place::Connection(number))) => Ok(self.take_turn(alloc, role, number)),
            None => Ok(None),
        }
    }

    /// Does the next work of a connection, as `serve` does. If there is no event, its turn is over.
    fn take_turn(&mut self, alloc: Global, role: Role, number: u64) -> Option<PeerEvent>
        ensures { IfSome result (IsOf role number) }
    {
        let peer_event = self.serve(alloc, role, number);
        if peer_event.is_none() {
            self.ports.pass(role);
        }
        peer_event
    }

    /// Waits for the next event, and returns it; `None` if the server was told to stop or the maximum number of
    /// connections of clients was accepted, and all have left.
    fn await_event(&mut self, alloc: Global) -> Result<Option<PeerEvent>, PeersFault>
        ensures { IfOk result (λ told. IfNone told (IsOver self.new.is_stopped
            self.new.ports.clients.most self.new.ports.clients.turns.connections
            self.new.ports.admins.turns.connections)) }
    {
        self.settle()?;
        for _ in 0..u64::MAX {
            if self.is_over() {
                return Ok(None);
            }
            if let Some(peer_event) = self.step(alloc)? {
                return Ok(Some(peer_event));
            }
        }
        Err(PeersFault)
    }

    /// Returns one more piece of a client's connection for the round, if one is ready and the round takes one
    /// more.
    fn find_piece(&mut self, alloc: Global) -> Option<OwnedEvent> {
        for _ in 0..MOST_LOOKS {
            if !self.takes_more() || !self.is_ready() {
                return None;
            }
            if let Some(event) = self.take_piece(alloc) {
                self.round.add();
                return Some(event);
            }
        }
        None
    }

    /// Whether the round may take one more piece: its size and its time allow it, the connections hold no more
    /// than they may, and it isn't the administrator's turn.
    fn takes_more(&self) -> bool {
        self.round.has_room()
            && self.round.goes_on(self.rt)
            && !self.ports.holds_over(self.limits.memory)
            && !self.ports.is_admins_turn()
    }

    /// Whether an entry of a client is queued. If none is, polls the system without a wait, once a round.
    fn is_ready(&mut self) -> bool {
        if self.ports.clients.turns.waiting() == 0 && self.round.begins_poll() {
            if self.take_reports(false).is_err() {
                return false;
            }
            self.until_poll = self.ports.waiting();
        }
        self.ports.clients.turns.waiting() > 0
    }

    /// Processes one entry of the clients' queue for the round, and returns the piece that its connection hands
    /// on.
    ///
    /// Ends the connection if the piece can't be allocated or stamped. That, and whatever else it has to
    /// report, is left for its next turn after the round.
    fn take_piece(&mut self, alloc: Global) -> Option<OwnedEvent> {
        self.until_poll = self.until_poll.saturating_sub(1);
        let now = self.time.now();
        let (number, count) = self.ports.next_piece(now, &mut self.buffers.bytes)?;
        let event = self.client_piece(alloc, number, count);
        if event.is_none() {
            self.ports.end_in_round(number);
        }
        event
    }

    /// Returns the event that a piece of a client's connection has come, which is at the start of the buffer.
    /// `None` if it can't be allocated or stamped.
    fn client_piece(&mut self, alloc: Global, number: u64, count: usize) -> Option<OwnedEvent>
        requires { count ≤ length self.old.buffers.bytes.items }
        ensures { IfSome result (λ event. event.connection ≡ number) }
    {
        let bytes = self.bytes(alloc, count)?;
        peer_events::client_piece(self.rt, number, bytes)
    }

    /// Ends the turns of the connections of the last round. After turns that took long, the system is polled
    /// before the next one, since requests of other clients may have come; also once a second.
    fn settle(&mut self) -> Result<(), PeersFault> {
        let passed = self.time.look(self.rt)?;
        let cost = self.time.cost_of(self.rt, passed)?;
        self.round.end(self.time.worked(), self.time.now());
        self.ports.settle(cost);
        self.ports.relieve(self.limits.memory, &mut self.log.counts);
        if passed > Duration::from_millis(LONG_TURN) || self.is_watch_due() {
            self.until_poll = 0;
        }
        Ok(())
    }
}

impl<'r, R: Clock + CpuClock + RandomSource + Log> Pace for Sockets<'r, R> {
    fn goes_on(&self) -> bool {
        self.round.goes_on(self.rt)
    }
}

impl<'r, R: Clock + CpuClock + RandomSource + Log> Peers for Sockets<'r, R> {
    ghost use Rattle.std.specs.Prelude.{false, []};

    ghost is_known = { false };

    ghost seen = { λ _. [] };

    ghost written = { λ _ _. [] };

    ghost takes_all = { λ _ _. false };

    ghost is_closed = { λ _ _. false };

    ghost is_over = { λ _. false };

    fn next(&mut self, alloc: Global) -> Result<Option<PeerEvent>, PeersFault> {
        let peer_event = self.await_event(alloc)?;
        let is_piece = peer_events::is_client_piece(&peer_event);
        self.round.begin(self.rt, is_piece);
        Ok(peer_event)
    }

    fn next_ready(&mut self, alloc: Global) -> Option<OwnedEvent> {
        self.find_piece(alloc)
    }

    fn write(&mut self, connection: u64, bytes: &[u8]) -> usize {
        let now = self.time.now();
        let count = self.ports.write(Role::Client, connection, now, bytes);
        self.round.note_reply(self.rt);
        count
    }

    fn close(&mut self, connection: u64) {
        let now = self.time.now();
        self.ports.shut(Role::Client, connection, now)
    }

    fn write_to_admin(&mut self, connection: u64, bytes: &[u8]) -> usize {
        let now = self.time.now();
        self.ports.write(Role::Admin, connection, now, bytes)
    }

    fn close_admin(&mut self, connection: u64) {
        let now = self.time.now();
        self.ports.shut(Role::Admin, connection, now)
    }

    fn stop(&mut self) {
        self.is_stopped = true;
        self.close_ports();
    }

    fn note(&mut self, note: Note) {
        match note {
            Note::RefusedTokens { connection, count } => {
                let address = self.ports.clients.turns.address_of(connection);
                self.log.refused.add(address, count);
            }
            Note::NoMemory(_) => self.log.note_no_memory(),
        }
    }

    fn figures(&self) -> Figures {
        let (clients, admins) = (&self.ports.clients.turns, &self.ports.admins.turns);
        let counts = &self.log.counts;
        Figures {
            clients: clients.open() as u64,
            admins: admins.open() as u64,
            accepted: clients.given(),
            bytes_waiting: clients.untaken().saturating_add(admins.untaken()),
            late_heads: counts.late_heads,
            late_messages: counts.late_messages,
            late_replies: counts.late_replies,
            gave_way: counts.gave_way,
            over_memory: counts.over_memory,
            refused_tokens: self.log.refused.total(),
        }
    }
}
