//! The administrator's port.
ghost use Rattle.std.specs.Prelude.{◌≡◌, IsTrue};
ghost use Rattle.scim_serve.specs.Peers.{KeepsClients};
ghost use Rattle.scim_admin.specs.Connections.{Continues, closes_after};
ghost use Rattle.scim_admin.specs.Hubs.{Reloads};
ghost use Rattle.scim_admin_streams.specs.Shelves.{KeepsShelf};

use crate::answers::{Standing, answer, refuse_input};
use crate::connections::{AdminConnection, Need};
use crate::hosts::Host;
use crate::housekeeping::{AdminEnding, Housekeeping};
use crate::jobs::Job;
use crate::reloads::log;
use crate::replies::Reply;
use crate::watching::ServerWatch;
use scim_admin_streams::OpenShelf;
use scim_hub::Hub;
use scim_serve::{AdminEvent, AdminEventKind, Operator, Pause, Peers, Then};
use scim_shelf::Shelf;
use scim_shelf_watch::WatchedShelf;
use scim_text::NoMemory;
use scim_token::Tokens;
use scim_wire::Item;
use std::alloc::Global;
use std::collections::BTreeMap;

/// The text that tells a client to send the body (RFC 9110 section 15.2.1).
const CONTINUE: &str = "HTTP/1.1 100 Continue\r\n\r\n";

/// The line for the operator when memory runs out.
const OUT_OF_MEMORY: &str = "a connection of the administrator is closed: out of memory";

/// Answers the administrator, and looks after the store once a second.
///
/// In one pause at most one piece of a reply is made and one is written.
pub struct Admin {
    connections: BTreeMap<u64, AdminConnection>,
    standing: Standing,
    housekeeping: Housekeeping,
    ending: Option<AdminEnding>,
    /// Whether the last pause ended the server.
    has_ended: bool,
}

impl Drop for Admin {
    fn drop(self) {
        let Admin {
            connections: _connections,
            standing: _standing,
            housekeeping: _housekeeping,
            ending: _,
            has_ended: _,
        } = self;
    }
}

impl Admin {
    /// Returns an administrator's port without connections, for administrators with these tokens. Without
    /// tokens no request is carried out. `has_cache` says whether the server is to have a cache: then it is
    /// filled later if it isn't filled at the start.
    pub fn new(alloc: Global, admin_tokens: Option<Tokens>, has_cache: bool) -> Admin {
        Admin {
            connections: BTreeMap::new(alloc),
            standing: Standing {
                tokens: admin_tokens,
                is_exporting: false,
                is_stopped: false,
            },
            housekeeping: Housekeeping::new(has_cache),
            ending: None,
            has_ended: false,
        }
    }

    /// Returns why the server has to end; `None` if it needn't.
    pub fn ending(&self) -> Option<AdminEnding> {
        if self.standing.is_stopped {
            Some(AdminEnding::Stopped)
        } else {
            self.ending
        }
    }

    /// Handles an event of a connection.
    fn hear<P: Peers, S: OpenShelf, H: Host>(
        &mut self,
        alloc: Global,
        peers: &mut P,
        hub: &mut Hub<WatchedShelf<S, ServerWatch<H>>>,
        event: &AdminEvent,
    )
        ensures clients { IsTrue P.is_known → KeepsClients P.seen P.written P.takes_all
            P.is_closed peers.old peers.new }
        ensures reloads { Reloads ⟦<WatchedShelf<S, ServerWatch<H>> as Shelf>⟧.stands
            ⟦<WatchedShelf<S, ServerWatch<H>> as Shelf>⟧.is_honest ⟦<WatchedShelf<S, ServerWatch<H>> as Shelf>⟧.has_round H.gives hub.old hub.new }
    {
        let connection = event.connection;
        match &event.kind {
            AdminEventKind::Joined => self.keep(peers, connection, AdminConnection::new(alloc)),
            AdminEventKind::Piece(piece) => {
                self.turn(alloc, peers, hub, connection, piece.as_slice());
            }
            AdminEventKind::Ready => self.turn(alloc, peers, hub, connection, &[]),
            AdminEventKind::Left => {
                self.connections.remove(&connection);
            }
        }
    }

    /// Keeps a connection, or closes it if memory runs out.
    fn keep<P: Peers>(&mut self, peers: &mut P, number: u64, connection: AdminConnection)
        ensures clients { IsTrue P.is_known → KeepsClients P.seen P.written P.takes_all
            P.is_closed peers.old peers.new }
    {
        if self.connections.insert(number, connection).is_err() {
            peers.close_admin(number);
        }
    }

    /// Gives a connection its turn: reads the piece, which may be empty, and does what comes next. Closes the
    /// connection if it is done or if it can't be carried on.
    fn turn<P: Peers, S: OpenShelf, H: Host>(
        &mut self,
        alloc: Global,
        peers: &mut P,
        hub: &mut Hub<WatchedShelf<S, ServerWatch<H>>>,
        number: u64,
        piece: &[u8],
    )
        ensures clients { IsTrue P.is_known → KeepsClients P.seen P.written P.takes_all
            P.is_closed peers.old peers.new }
        ensures reloads { Reloads ⟦<WatchedShelf<S, ServerWatch<H>> as Shelf>⟧.stands
            ⟦<WatchedShelf<S, ServerWatch<H>> as Shelf>⟧.is_honest ⟦<WatchedShelf<S, ServerWatch<H>> as Shelf>⟧.has_round H.gives hub.old hub.new }
    {
        let Some(mut connection) = self.connections.remove(&number) else {
            return;
        };
        self.standing.is_exporting = is_any_exporting(&self.connections);
        let standing = &mut self.standing;
        match step(alloc, peers, hub, standing, number, &mut connection, piece) {
            Ok(true) => self.keep(peers, number, connection),
            Ok(false) => peers.close_admin(number),
            Err(NoMemory) => {
                log(hub.shelf_mut(), OUT_OF_MEMORY);
                peers.close_admin(number);
            }
        }
    }
}

/// Whether one of the connections exports all resources.
fn is_any_exporting(connections: &BTreeMap<u64, AdminConnection>) -> bool {
    connections
        .values()
        .any(|connection| connection.is_exporting())
}

/// What a connection is to be after its turn.
#[derive(Clone, Copy)]
enum Next {
    /// Open, as it is.
    Stay,
    /// Offered what is pending.
    Offer,
    /// Closed.
    Close,
}

/// Reads a piece, which may be empty, and does what the connection needs next. Returns whether the connection
/// stays open.
fn step<P: Peers, S: OpenShelf, H: Host>(
    alloc: Global,
    peers: &mut P,
    hub: &mut Hub<WatchedShelf<S, ServerWatch<H>>>,
    standing: &mut Standing,
    number: u64,
    connection: &mut AdminConnection,
    piece: &[u8],
) -> Result<bool, NoMemory>
    ensures clients { IsTrue P.is_known → KeepsClients P.seen P.written P.takes_all P.is_closed
        peers.old peers.new }
    ensures reloads { Reloads ⟦<WatchedShelf<S, ServerWatch<H>> as Shelf>⟧.stands
        ⟦<WatchedShelf<S, ServerWatch<H>> as Shelf>⟧.is_honest ⟦<WatchedShelf<S, ServerWatch<H>> as Shelf>⟧.has_round H.gives hub.old hub.new }
{
    connection.read(alloc, piece)?;
    match prepare(alloc, peers, hub, standing, connection)? {
        Next::Stay => Ok(true),
        Next::Offer => {
            connection.offer(peers, number);
            Ok(true)
        }
        Next::Close => Ok(false),
    }
}

/// Prepares what a connection needs next, and returns what it is to be then.
fn prepare<P: Peers, S: OpenShelf, H: Host>(
    alloc: Global,
    peers: &mut P,
    hub: &mut Hub<WatchedShelf<S, ServerWatch<H>>>,
    standing: &mut Standing,
    connection: &mut AdminConnection,
) -> Result<Next, NoMemory>
    ensures clients { IsTrue P.is_known → KeepsClients P.seen P.written P.takes_all P.is_closed
        peers.old peers.new }
    ensures reloads { Reloads ⟦<WatchedShelf<S, ServerWatch<H>> as Shelf>⟧.stands
        ⟦<WatchedShelf<S, ServerWatch<H>> as Shelf>⟧.is_honest ⟦<WatchedShelf<S, ServerWatch<H>> as Shelf>⟧.has_round H.gives hub.old hub.new }
{
    match connection.next() {
        Need::Nothing => Ok(Next::Stay),
        Need::Offer => Ok(Next::Offer),
        Need::Close => Ok(Next::Close),
        Need::Piece(job) => Ok(carry_on(alloc, hub.shelf_mut(), connection, job)),
        Need::Answer(item) => {
            let reply = reply_to(alloc, peers, hub, standing, &item)?;
            connection.begin(reply);
            Ok(Next::Offer)
        }
    }
}

/// Makes the next piece of a body. The connection is to be closed if the body can't be carried on; then the
/// log says why.
fn carry_on<S: OpenShelf, H: Host>(
    alloc: Global,
    shelf: &mut WatchedShelf<S, ServerWatch<H>>,
    connection: &mut AdminConnection,
    job: Job,
) -> Next
    ensures keeps { KeepsShelf ⟦<WatchedShelf<S, ServerWatch<H>> as Shelf>⟧.stands
        ⟦<WatchedShelf<S, ServerWatch<H>> as Shelf>⟧.is_honest ⟦<WatchedShelf<S, ServerWatch<H>> as Shelf>⟧.has_round shelf.old shelf.new }
    ensures continues { result ≡ Next.Offer → Continues
        ⟦<WatchedShelf<S, ServerWatch<H>> as Shelf>⟧.stands
        ⟦<WatchedShelf<S, ServerWatch<H>> as Shelf>⟧.is_honest
        shelf.old shelf.new job connection.new }
    ensures closing { closes_after connection.new ≡ closes_after connection.old }
{
    let mut job = job;
    let changes = shelf.watcher().commits().changes;
    match job.next(alloc, shelf, changes) {
        Ok(text) => {
            connection.carry_on(text, job);
            Next::Offer
        }
        Err(cut) => {
            log(shelf, cut.line());
            Next::Close
        }
    }
}

/// Returns the reply to an item of a connection's stream.
fn reply_to<P: Peers, S: OpenShelf, H: Host>(
    alloc: Global,
    peers: &mut P,
    hub: &mut Hub<WatchedShelf<S, ServerWatch<H>>>,
    standing: &mut Standing,
    item: &Item,
) -> Result<Reply, NoMemory>
    ensures clients { IsTrue P.is_known → KeepsClients P.seen P.written P.takes_all
        P.is_closed peers.old peers.new }
    ensures reloads { Reloads ⟦<WatchedShelf<S, ServerWatch<H>> as Shelf>⟧.stands
        ⟦<WatchedShelf<S, ServerWatch<H>> as Shelf>⟧.is_honest ⟦<WatchedShelf<S, ServerWatch<H>> as Shelf>⟧.has_round H.gives hub.old hub.new }
{
    match item {
        Item::Continue => Ok(Reply {
            text: String::from_str(alloc, CONTINUE)?,
            job: None,
            closes: false,
        }),
        Item::Whole(message) => answer(alloc, peers, hub, standing, message),
        Item::Refused(refusal) => refuse_input(alloc, *refusal),
    }
}

impl<S: OpenShelf, H: Host> Operator<WatchedShelf<S, ServerWatch<H>>> for Admin {
    ghost has_ended = { λ admin. admin.has_ended };

    fn handle<P: Peers>(
        &mut self,
        alloc: Global,
        peers: &mut P,
        hub: &mut Hub<WatchedShelf<S, ServerWatch<H>>>,
        pause: Pause,
    ) -> Then {
        match &pause {
            Pause::Admin(event) => {
                self.hear(alloc, peers, hub, event);
                self.has_ended = false;
                Then::GoOn
            }
            Pause::Tick => match self.housekeeping.tick(alloc, hub.shelf_mut()) {
                Some(ending) => {
                    self.ending = Some(ending);
                    self.has_ended = true;
                    Then::End
                }
                None => {
                    self.has_ended = false;
                    Then::GoOn
                }
            },
        }
    }
}
