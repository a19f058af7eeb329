//! The ports of the clients and of the administrator, and whose turn is next.
ghost use Rattle.std.specs.Prelude.{◌≡◌, ◌≤◌, IfSome, IsTrue, length};
ghost use Rattle.std.specs.BTreeMap.{btree_map_len};
ghost use Rattle.scim_sockets.specs.Connections.{FitsIn};
ghost use Rattle.scim_sockets.specs.Listening.{IsNextOf};
ghost use Rattle.scim_sockets.specs.OpenConnections.{KeepsBusy};
ghost use Rattle.scim_sockets.specs.Ports.{connections_of};

use crate::clients::Account;
use crate::connection::Turn;
use crate::counts::Counts;
use crate::open_connections::MOST_OPEN;
use crate::poll_tokens::{Place, Role, place_of};
use crate::port::Port;
use crate::time_limits::Limits;
use mio::Registry;
use mio::event::Event;
use std::alloc::{AllocError, Global};
use std::time::Duration;

/// The maximum number of open connections of the administrator.
pub(crate) const MOST_ADMINS: usize = 16;

/// The ports of the clients and of the administrator.
///
/// The administrator is one client among the others: what its connections ask uses its share of the server's
/// time, and is answered first if that share is the least.
#[derive(Drop)]
pub(crate) struct Ports {
    pub(crate) clients: Port,
    pub(crate) admins: Port,
    // The share of the server's time that the administrator has used.
    account: Account,
}

impl Ports {
    /// Returns the ports, which aren't open yet. At most `most` connections of clients are accepted.
    pub(crate) fn new(alloc: Global, most: Option<u64>) -> Result<Ports, AllocError> {
        Ok(Ports {
            clients: Port::new(alloc, Role::Client, MOST_OPEN, most)?,
            admins: Port::new(alloc, Role::Admin, MOST_ADMINS, None)?,
            account: Account::new(),
        })
    }

    /// Whether no connection is open.
    pub(crate) fn is_empty(&self) -> bool
        ensures clients { IsTrue result
            → btree_map_len self.now.clients.turns.connections.by_number ≡ 0 }
        ensures admins { IsTrue result
            → btree_map_len self.now.admins.turns.connections.by_number ≡ 0 }
    {
        self.clients.turns.is_empty() && self.admins.turns.is_empty()
    }

    /// Returns the length of both queues together.
    pub(crate) fn waiting(&self) -> usize {
        self.clients
            .turns
            .waiting()
            .saturating_add(self.admins.turns.waiting())
    }

    /// Handles a report of the system: queues the listener or the connection that the report is about.
    pub(crate) fn note(&mut self, event: &Event) {
        match place_of(event.token()) {
            (Role::Client, place) => self.clients.turns.note(place, event),
            (Role::Admin, place) => self.admins.turns.note(place, event),
        }
    }

    /// Queues each listener if connections may be waiting there and it isn't queued.
    pub(crate) fn reopen_doors(&mut self) {
        self.clients.turns.reopen_door();
        self.admins.turns.reopen_door();
    }

    /// Returns whose turn is next: the administrator's if one of its entries is queued, and either none of a
    /// client is, or the administrator has used no more than the client that was served last.
    fn next_role(&self) -> Role {
        let share = self.clients.turns.share();
        let is_admins = self.admins.turns.waiting() > 0
            && (self.clients.turns.waiting() == 0 || self.account.share(share) <= share);
        if is_admins { Role::Admin } else { Role::Client }
    }

    /// Whether the administrator's turn is next.
    pub(crate) fn is_admins_turn(&self) -> bool {
        self.next_role() == Role::Admin
    }

    /// Removes the next entry of the queues, as [`crate::turn_queue::Turns::pop`] does, and returns it with the
    /// role of its port.
    pub(crate) fn pop(&mut self) -> Option<(Role, Place)> {
        match self.next_role() {
            Role::Client => Some((Role::Client, self.clients.turns.pop()?)),
            Role::Admin => Some((Role::Admin, self.admins.turns.pop()?)),
        }
    }

    /// Accepts a connection at a port, as [`Port::accept`] does.
    ///
    /// If the system fails to accept one of the administrator, for example because too many files are open, an
    /// idle connection of a client gives way.
    pub(crate) fn accept(
        &mut self,
        alloc: Global,
        role: Role,
        registry: &Registry,
        now: Duration,
        counts: &mut Counts,
    ) -> Option<u64>
        ensures { IfSome result (IsNextOf (connections_of role self.old)) }
    {
        match role {
            Role::Client => self.clients.accept(alloc, registry, now, counts),
            Role::Admin => {
                let number = self.admins.accept(alloc, registry, now, counts);
                if self.admins.is_refused() {
                    self.clients.turns.end_idlest(counts);
                }
                number
            }
        }
    }

    /// Does the next work of a connection, and returns the result.
    pub(crate) fn turn(&mut self, role: Role, number: u64, now: Duration, buffer: &mut [u8]) -> Turn
        ensures { FitsIn buffer.new result }
    {
        match role {
            Role::Client => self.clients.turns.turn(number, now, buffer),
            Role::Admin => self.admins.turns.turn(number, now, buffer),
        }
    }

    /// Processes the next entry of the clients' queue for a round. Returns the number of its connection and the
    /// length of the piece that it hands on, which is at the start of the buffer; `None` if it hands on none.
    pub(crate) fn next_piece(&mut self, now: Duration, buffer: &mut [u8]) -> Option<(u64, usize)>
        ensures { IfSome result (λ piece. piece.1 ≤ length buffer.new) }
    {
        let number = self.clients.turns.pop_for_piece()?;
        let count = self.clients.turns.turn_for_piece(number, now, buffer)?;
        Some((number, count))
    }

    /// Offers bytes to a connection, and returns the length of the prefix that it took. The next turn of a
    /// connection of the administrator is reported as ready.
    pub(crate) fn write(&mut self, role: Role, number: u64, now: Duration, bytes: &[u8]) -> usize
        ensures { result ≤ length bytes.now }
    {
        match role {
            Role::Client => self.clients.turns.write(number, now, bytes),
            Role::Admin => {
                let count = self.admins.turns.write(number, now, bytes);
                self.admins.turns.ask(number);
                count
            }
        }
    }

    /// Shuts a connection, as [`crate::connection::Connection::shut`] does.
    pub(crate) fn shut(&mut self, role: Role, number: u64, now: Duration) {
        match role {
            Role::Client => self.clients.turns.shut(number, now),
            Role::Admin => self.admins.turns.shut(number, now),
        }
    }

    /// Drops the socket of a connection.
    pub(crate) fn end(&mut self, role: Role, number: u64) {
        match role {
            Role::Client => self.clients.turns.end(number),
            Role::Admin => self.admins.turns.end(number),
        }
    }

    /// Drops the socket of a client's connection whose turn was begun last. Its next turn, after the round,
    /// reports that.
    pub(crate) fn end_in_round(&mut self, number: u64) {
        self.clients.turns.end(number);
        self.clients.turns.pass_for_now();
    }

    /// Ends the turns of the connections that were served since the last call, which took this time together.
    /// Each pays an equal part of it.
    pub(crate) fn settle(&mut self, cost: Duration) {
        let turns = self
            .clients
            .turns
            .serving()
            .saturating_add(self.admins.turns.serving());
        let part = cost / u32::try_from(turns).unwrap_or(u32::MAX).max(1);
        if self.admins.turns.serving() > 0 {
            self.account.charge(self.clients.turns.share(), part);
        }
        self.clients.turns.settle(cost, part);
        self.admins.turns.settle(cost, part);
    }

    /// Ends the turn of the connection of this role that was begun last and cost nothing.
    pub(crate) fn pass(&mut self, role: Role) {
        match role {
            Role::Client => self.clients.turns.pass(),
            Role::Admin => self.admins.turns.pass(),
        }
    }

    /// Whether the server holds more than `most` bytes for all connections together.
    pub(crate) fn holds_over(&self, most: u64) -> bool {
        let clients = self.clients.turns.weight();
        clients.saturating_add(self.admins.turns.weight()) > most
    }

    /// Ends the connection for which the server holds most, if it holds more than `most` bytes for all
    /// together.
    pub(crate) fn relieve(&mut self, most: u64, counts: &mut Counts) {
        if !self.holds_over(most) {
            return;
        }
        if self.admins.turns.weight() > self.clients.turns.weight() {
            self.admins.turns.end_heaviest(counts);
        } else {
            self.clients.turns.end_heaviest(counts);
        }
    }

    /// Ends the connections that are late, and lets an idle one give way at each port where a guest waits.
    pub(crate) fn watch(&mut self, now: Duration, limits: &Limits, counts: &mut Counts) {
        self.clients.turns.end_late(now, limits, counts);
        self.admins.turns.end_late(now, limits, counts);
        self.clients.give_way(counts);
        self.admins.give_way(counts);
    }

    /// Closes both ports. Their connections stay open.
    pub(crate) fn close(&mut self) {
        self.clients.close();
        self.admins.close();
    }

    /// Shuts the connections that can be shut when the server stops.
    pub(crate) fn stop_idle(&mut self, now: Duration, may_wait: bool)
        ensures clients { KeepsBusy self.old.clients.turns.connections.by_number
            self.new.clients.turns.connections.by_number }
        ensures admins { KeepsBusy self.old.admins.turns.connections.by_number
            self.new.admins.turns.connections.by_number }
    {
        self.clients.turns.stop_idle(now, may_wait);
        self.admins.turns.stop_idle(now, may_wait);
    }

    /// Drops the sockets of all connections.
    pub(crate) fn end_all(&mut self) {
        self.clients.turns.end_all();
        self.admins.turns.end_all();
    }
}
