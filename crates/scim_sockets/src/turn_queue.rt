//! The queue of connections that have work to do.
ghost use Rattle.std.specs.Prelude.{◌≡◌, ◌+◌, ◌-◌, ◌^◌, ◌<◌, ◌≤◌, ◌↔◌, ◌⊎◌, None, Some, IfSome, IsTrue, length, option_map};
ghost use Rattle.std.specs.BTreeMap.{btree_map_len};
ghost use Rattle.scim_sockets.specs.declared.connection.Connection.{Connection};
ghost use Rattle.scim_sockets.specs.Connections.{FitsIn, IsAsked, IsBehind, IsQuiet, StaysBehind};
ghost use Rattle.scim_sockets.specs.OpenConnections.{connection_at, total_weight, ChangesOne, KeepsBusy, KeepsOthers};

use crate::authorization::authorization;
use crate::clients::Clients;
use crate::connection::{Connection, Turn};
use crate::counts::Counts;
use crate::open_connections::{MOST_OPEN, Open};
use crate::poll_tokens::Place;
use crate::time_limits::Limits;
use mio::event::Event;
use std::alloc::{AllocError, Global};
use std::cmp::Reverse;
use std::collections::{BinaryHeap, VecDeque};
use std::net::IpAddr;
use std::time::Duration;

/// By how much the share of a client may have grown, in milliseconds, since its connection was queued.
const SLACK: u64 = 1;

/// The part of the time that counts as used by all clients. It forgets what a client has used, and lets a
/// connection wait for at most eight times the lead that a client may have.
const FADING: u32 = 8;

/// A place in the queue. The entry with the least share is the next, and among equals the one that was queued
/// first.
#[derive(Clone, Copy, PartialEq, Eq, PartialOrd, Ord)]
struct Entry {
    share: Duration,
    order: u64,
    place: Place,
}

/// Whether connections may be waiting to be accepted.
#[derive(Clone, Copy, PartialEq, Eq)]
enum Door {
    /// No connection is waiting.
    Empty,
    /// Connections may be waiting, and the listener is queued.
    Waiting,
    /// Connections may be waiting, and the listener isn't queued.
    Later,
}

/// The open connections of a port, and the queue of those that have work to do.
///
/// A connection with work to do is queued at most once, so the queue never outgrows its initial capacity. The
/// connection whose client has the least share of the server's time is the next. A connection whose turn it was
/// is queued again when its turn is over and the time that it took is known.
///
/// A round is made up of the turns of several connections that hand on a piece each. They are over together.
/// What the others have to report is put off until then, and keeps its place in the queue.
#[derive(Drop)]
pub(crate) struct Turns {
    connections: Open,
    clients: Clients,
    // The capacity suffices for the listener and all connections.
    queue: BinaryHeap<Reverse<Entry>>,
    // The number of entries queued so far.
    queued: u64,
    // The share of the client that was served last.
    share: Duration,
    // The connections whose turn it is, in the order in which their turns began: one, or those of a round. The
    // capacity suffices for all connections.
    served: VecDeque<u64>,
    // The entries that were put off until the turns are over. The capacity suffices for all.
    put_off: Vec<Entry>,
    door: Door,
}

impl Turns {
    /// Returns an empty set of connections, with an empty queue that holds `most` connections and the listener.
    pub(crate) fn new(alloc: Global, most: usize) -> Result<Turns, AllocError> {
        Ok(Turns {
            queue: BinaryHeap::with_capacity(alloc, most.saturating_add(1))?,
            served: VecDeque::with_capacity(alloc, most)?,
            put_off: Vec::with_capacity(alloc, most.saturating_add(1))?,
            clients: Clients::new(alloc, most)?,
            connections: Open::new(alloc),
            queued: 0,
            share: Duration::from_secs(0),
            door: Door::Empty,
        })
    }

    /// Whether no connection is open.
    pub(crate) fn is_empty(&self) -> bool
        ensures { IsTrue result ↔ (btree_map_len self.now.connections.by_number ≡ 0) }
    {
        self.connections.is_empty()
    }

    /// Returns the number of open connections.
    pub(crate) fn open(&self) -> usize
        ensures { result ≡ btree_map_len self.now.connections.by_number }
    {
        self.connections.len()
    }

    /// Returns how many numbers were given to connections.
    pub(crate) fn given(&self) -> u64
        ensures { result ≡ self.now.connections.next }
    {
        self.connections.given()
    }

    /// Returns a number for a new connection, as [`Open::new_number`] does.
    pub(crate) fn new_number(&mut self) -> Option<u64>
        ensures connections { self.new.connections.by_number ≡ self.old.connections.by_number }
        ensures next { IfSome result (λ n. (n ≡ self.old.connections.next)
            × (self.new.connections.next ≡ n + 1)) }
        ensures absent { IfSome result (λ n.
            connection_at self.old.connections.by_number n ≡ None) }
        ensures small { IfSome result (λ n. n < 2 ^ 63 - 1) }
    {
        self.connections.new_number()
    }

    /// Returns the length of the queue.
    pub(crate) fn waiting(&self) -> usize {
        self.queue.len()
    }

    /// Returns the share of the client that was served last.
    pub(crate) fn share(&self) -> Duration {
        self.share
    }

    /// Returns how many connections have their turn.
    pub(crate) fn serving(&self) -> usize {
        self.served.len()
    }

    /// Returns the address of the client of a connection, as [`Open::address_of`] does.
    pub(crate) fn address_of(&self, number: u64) -> Option<IpAddr>
        ensures { result ≡ option_map (λ c. c.address)
            (connection_at self.now.connections.by_number number) }
    {
        self.connections.address_of(number)
    }

    /// Returns the sum of the weights of the connections.
    pub(crate) fn weight(&self) -> u64
        ensures { result ≡ total_weight self.now.connections.by_number }
    {
        self.connections.total()
    }

    /// Returns how many bytes the connections were offered and haven't taken yet.
    pub(crate) fn untaken(&self) -> u64 {
        self.connections.untaken()
    }

    /// Returns the next entry, for a place at a share.
    fn next_entry(&mut self, place: Place, share: Duration) -> Entry
        ensures { self.new.connections ≡ self.old.connections }
    {
        let order = self.queued;
        self.queued = order.saturating_add(1);
        Entry {
            share,
            order,
            place,
        }
    }

    /// Queues a place at a share.
    fn push(&mut self, place: Place, share: Duration)
        ensures { self.new.connections ≡ self.old.connections }
    {
        let entry = self.next_entry(place, share);
        let _ = self.queue.push(Reverse(entry));
    }

    /// Removes the next entry of the queue. Returns `None` if the queue is empty, or if the next connection is
    /// queued again because its client has used more of its share meanwhile.
    pub(crate) fn pop(&mut self) -> Option<Place> {
        let entry = self.queue.pop()?.0;
        match entry.place {
            Place::Door => {
                self.door = Door::Later;
                Some(Place::Door)
            }
            Place::Connection(number) => self.begin_turn(entry, number).then_some(entry.place),
        }
    }

    /// Removes the next entry of the queue, and begins the turn of its connection if that may hand on a piece.
    /// Any other entry is put off until the turns are over. Returns `None` then, and in the cases in which
    /// `pop` does.
    pub(crate) fn pop_for_piece(&mut self) -> Option<u64> {
        let entry = self.queue.pop()?.0;
        if let Place::Connection(number) = entry.place
            && self.connections.may_give_piece(number)
        {
            return self.begin_turn(entry, number).then_some(number);
        }
        let _ = self.put_off.push(entry);
        None
    }

    /// Begins the turn of the connection of an entry that was removed from the queue. Returns false and queues
    /// the connection again if its client has used more of its share meanwhile.
    fn begin_turn(&mut self, entry: Entry, number: u64) -> bool {
        self.share = self.share.max(entry.share);
        let share = self.share_of(number);
        if share > entry.share.saturating_add(Duration::from_millis(SLACK)) && share > self.share {
            self.push(entry.place, share);
            return false;
        }
        let _ = self.served.push_back(number);
        true
    }

    /// Returns the share of the client of a connection; 0 if the connection has ended, so that it leaves next.
    fn share_of(&self, number: u64) -> Duration {
        match self.connections.client_of(number) {
            Some(client) => self.clients.share(client, self.share),
            None => Duration::from_secs(0),
        }
    }

    /// Queues the connection with the number, if it exists, has work to do and isn't queued. A connection whose
    /// turn it is isn't queued before its turn is over.
    fn enqueue(&mut self, number: u64)
        ensures changes { ChangesOne number self.old.connections.by_number
            self.new.connections.by_number }
        ensures next { self.new.connections.next ≡ self.old.connections.next }
    {
        if !self.served.contains(&number) && self.connections.begins_to_wait(number) {
            let share = self.share_of(number);
            self.push(Place::Connection(number), share);
        }
    }

    /// Ends all turns. `cost` is what those of all ports took together, and `part` what each connection pays.
    /// Queues the connections that have work to do, and what was put off.
    pub(crate) fn settle(&mut self, cost: Duration, part: Duration) {
        for _ in 0..MOST_OPEN {
            let Some(number) = self.served.pop_front() else {
                break;
            };
            if let Some(client) = self.connections.client_of(number) {
                self.clients.charge(client, self.share, part);
            }
            self.enqueue(number);
        }
        self.take_back();
        self.share = self.share.saturating_add(cost / FADING);
    }

    /// Queues what was put off, at the places that it had.
    fn take_back(&mut self) {
        for _ in 0..=MOST_OPEN {
            let Some(entry) = self.put_off.pop() else {
                return;
            };
            let _ = self.queue.push(Reverse(entry));
        }
    }

    /// Ends the turn that was begun last, which cost nothing. Queues the connection if it has work to do.
    pub(crate) fn pass(&mut self) {
        if let Some(number) = self.served.pop_back() {
            self.enqueue(number);
        }
    }

    /// Ends the turn that was begun last, which cost nothing. If the connection has work to do, that is put off
    /// until the other turns are over.
    pub(crate) fn pass_for_now(&mut self) {
        if let Some(number) = self.served.pop_back()
            && self.connections.begins_to_wait(number)
        {
            let share = self.share_of(number);
            let entry = self.next_entry(Place::Connection(number), share);
            let _ = self.put_off.push(entry);
        }
    }

    /// Records that connections may be waiting to be accepted, and queues the listener unless it is queued.
    pub(crate) fn open_door(&mut self)
        ensures { self.new.connections ≡ self.old.connections }
    {
        if self.door != Door::Waiting {
            self.door = Door::Waiting;
            self.push(Place::Door, self.share);
        }
    }

    /// Records that no connection is waiting to be accepted.
    pub(crate) fn close_door(&mut self)
        ensures { self.new.connections ≡ self.old.connections }
    {
        self.door = Door::Empty;
    }

    /// Queues the listener if connections may be waiting and it isn't queued.
    pub(crate) fn reopen_door(&mut self)
        ensures { self.new.connections ≡ self.old.connections }
    {
        if self.door == Door::Later {
            self.open_door();
        }
    }

    /// Handles a report of the system about the listener or a connection, and queues it.
    pub(crate) fn note(&mut self, place: Place, event: &Event) {
        let Place::Connection(number) = place else {
            return self.open_door();
        };
        // An error counts as readable and writable: the next call on the socket returns the error.
        let fails = event.is_error() || event.is_read_closed() || event.is_write_closed();
        self.connections.note(
            number,
            event.is_readable() || fails,
            event.is_writable() || fails,
        );
        self.enqueue(number);
    }

    /// Adds a connection and queues it. Returns false and drops it if memory runs out.
    pub(crate) fn join(&mut self, number: u64, connection: Connection) -> bool
        requires room { btree_map_len self.old.connections.by_number < 1024 }
        requires given { number < self.old.connections.next }
        ensures others { KeepsOthers number self.old.connections.by_number
            self.new.connections.by_number }
        ensures next { self.new.connections.next ≡ self.old.connections.next }
    {
        let has_joined = self.connections.insert(number, connection);
        self.enqueue(number);
        has_joined
    }

    /// Does the next work of the connection with the number, as [`Connection::turn`] does, and removes the
    /// connection if it has ended. The turn lasts until it is settled.
    pub(crate) fn turn(&mut self, number: u64, now: Duration, buffer: &mut [u8]) -> Turn
        ensures fits { FitsIn buffer.new result }
        ensures quiet { (old : Connection)
            → connection_at self.old.connections.by_number number ≡ Some old
            → IsBehind old ⊎ IsAsked old → IsQuiet result × (buffer.new ≡ buffer.old) }
        ensures behind { (old : Connection)
            → connection_at self.old.connections.by_number number ≡ Some old → IsBehind old
            → IfSome (connection_at self.new.connections.by_number number) (StaysBehind old) }
        ensures others { KeepsOthers number self.old.connections.by_number
            self.new.connections.by_number }
        ensures next { self.new.connections.next ≡ self.old.connections.next }
    {
        let turn = self.connections.turn(number, now, buffer);
        match turn {
            Turn::Left => {
                let client = self.connections.remove(number);
                self.clients.leave(client);
                self.reopen_door();
            }
            Turn::Read(count) => self.identify(number, &buffer[..count]),
            Turn::Nothing | Turn::Piece(_) | Turn::Ready => (),
        }
        turn
    }

    /// Does the next work of the connection whose turn was begun last, as [`Connection::turn`] does, and
    /// returns the length of the piece that it hands on. Otherwise its turn is over. A connection that has
    /// ended is kept, so that its next turn reports that.
    pub(crate) fn turn_for_piece(
        &mut self,
        number: u64,
        now: Duration,
        buffer: &mut [u8],
    ) -> Option<usize>
        ensures fits { IfSome result (λ count. count ≤ length buffer.new) }
        ensures quiet { (old : Connection)
            → connection_at self.old.connections.by_number number ≡ Some old
            → IsBehind old ⊎ IsAsked old → result ≡ None }
    {
        match self.connections.turn(number, now, buffer) {
            Turn::Piece(count) => Some(count),
            Turn::Read(count) => {
                self.identify(number, &buffer[..count]);
                self.pass();
                None
            }
            Turn::Nothing | Turn::Ready | Turn::Left => {
                self.pass_for_now();
                None
            }
        }
    }

    /// Notes the client of a connection if the bytes that it sent have a token.
    fn identify(&mut self, number: u64, bytes: &[u8])
        ensures changes { ChangesOne number self.old.connections.by_number
            self.new.connections.by_number }
        ensures next { self.new.connections.next ≡ self.old.connections.next }
    {
        let (Some(token), Some(client)) = (authorization(bytes), self.connections.client_of(number))
        else {
            return;
        };
        if !self.clients.has_name(client, token) {
            self.clients.leave(client);
            let client = self.clients.enter(token);
            self.connections.set_client(number, client);
        }
    }

    /// Offers bytes to a connection, and returns the length of the prefix that it took.
    pub(crate) fn write(&mut self, number: u64, now: Duration, bytes: &[u8]) -> usize
        ensures count { result ≤ length bytes.now }
        ensures changes { ChangesOne number self.old.connections.by_number
            self.new.connections.by_number }
        ensures next { self.new.connections.next ≡ self.old.connections.next }
    {
        let count = self.connections.write(number, now, bytes);
        self.enqueue(number);
        count
    }

    /// Asks a connection to report its next turn, as [`Connection::ask`] does.
    pub(crate) fn ask(&mut self, number: u64)
        ensures changes { ChangesOne number self.old.connections.by_number
            self.new.connections.by_number }
        ensures next { self.new.connections.next ≡ self.old.connections.next }
    {
        self.connections.ask(number);
        self.enqueue(number);
    }

    /// Shuts a connection, as [`Connection::shut`] does.
    pub(crate) fn shut(&mut self, number: u64, now: Duration)
        ensures changes { ChangesOne number self.old.connections.by_number
            self.new.connections.by_number }
        ensures next { self.new.connections.next ≡ self.old.connections.next }
    {
        self.connections.shut(number, now);
        self.enqueue(number);
    }

    /// Drops the socket of a connection.
    pub(crate) fn end(&mut self, number: u64)
        ensures changes { ChangesOne number self.old.connections.by_number
            self.new.connections.by_number }
        ensures next { self.new.connections.next ≡ self.old.connections.next }
    {
        self.connections.end(number);
        self.enqueue(number);
    }

    /// Ends the connection that has been idle longest, if one is idle, and counts it.
    pub(crate) fn end_idlest(&mut self, counts: &mut Counts) {
        if let Some(number) = self.connections.idlest() {
            counts.add_gave_way();
            self.end(number);
        }
    }

    /// Ends the connection with the greatest weight, if one has a weight, and counts it.
    pub(crate) fn end_heaviest(&mut self, counts: &mut Counts) {
        if let Some(number) = self.connections.heaviest() {
            counts.add_over_memory();
            self.end(number);
        }
    }

    /// Drops the sockets of the connections that are late, and counts them.
    pub(crate) fn end_late(&mut self, now: Duration, limits: &Limits, counts: &mut Counts) {
        let mut from = 0;
        for _ in 0..MOST_OPEN {
            let Some((number, late)) = self.connections.late_from(from, now, limits) else {
                return;
            };
            counts.add_late(late);
            self.end(number);
            from = number.saturating_add(1);
        }
    }

    /// Shuts the connections that can be shut when the server stops, as [`Connection::can_stop`] says.
    pub(crate) fn stop_idle(&mut self, now: Duration, may_wait: bool)
        ensures { KeepsBusy self.old.connections.by_number self.new.connections.by_number }
    {
        let mut from = 0;
        for _ in 0..MOST_OPEN {
            let Some(number) = self.connections.stoppable_from(from, may_wait) else {
                return;
            };
            self.shut(number, now);
            from = number.saturating_add(1);
        }
    }

    /// Drops the sockets of all connections.
    pub(crate) fn end_all(&mut self) {
        let mut from = 0;
        for _ in 0..MOST_OPEN {
            let Some(number) = self.connections.first_from(from) else {
                return;
            };
            self.end(number);
            from = number.saturating_add(1);
        }
    }
}
