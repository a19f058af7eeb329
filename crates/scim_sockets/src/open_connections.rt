//! The open connections, and how much memory the server may have allocated for all of them.
ghost use Rattle.std.specs.Prelude.{◌≡◌, ◌+◌, ◌-◌, ◌^◌, ◌<◌, ◌≤◌, ◌⊎◌, ◌↔◌, None, Some, IfSome, IsTrue, length, min, option_map};
ghost use Rattle.std.specs.BTreeMap.{btree_map_len};
ghost use Rattle.scim_sockets.specs.declared.connection.Connection.{Connection};
ghost use Rattle.scim_sockets.specs.Connections.{FitsIn, IsAsked, IsAtRest, IsBehind, IsQuiet, StaysBehind, TakesNothing};
ghost use Rattle.scim_sockets.specs.OpenConnections.{AreCounted, connection_at, total_weight, ChangesOne, KeepsOthers};

use crate::connection::{Connection, Late, Turn};
use crate::time_limits::Limits;
use std::alloc::Global;
use std::collections::BTreeMap;
use std::net::IpAddr;
use std::time::Duration;

/// The maximum number of open connections of a port.
pub(crate) const MOST_OPEN: usize = 1024;

/// How many numbers are given to connections at most: half of all, since the system's reports are about one
/// connection or listener of each port by a number of 64 bits.
const MOST_NUMBERS: u64 = (1 << 63) - 1;

/// The open connections by number, and the sum of their weights.
#[derive(Drop)]
pub(crate) struct Open {
    by_number: BTreeMap<u64, Connection>,
    // The number of the next connection.
    next: u64,
    // The sum of the weights of the connections.
    total: u64,
    ghost counted: { AreCounted by_number next total },
}

impl Open {
    /// Returns an empty set of connections. The first connection gets the number 0.
    pub(crate) fn new(alloc: Global) -> Open {
        Open {
            by_number: BTreeMap::new(alloc),
            next: 0,
            total: 0,
        }
    }

    /// Returns the sum of the weights of the connections.
    pub(crate) fn total(&self) -> u64
        ensures { result ≡ total_weight self.now.by_number }
    {
        self.total
    }

    /// Returns how many numbers were given to connections.
    pub(crate) fn given(&self) -> u64
        ensures { result ≡ self.now.next }
    {
        self.next
    }

    /// Whether no connection is open.
    pub(crate) fn is_empty(&self) -> bool
        ensures { IsTrue result ↔ (btree_map_len self.now.by_number ≡ 0) }
    {
        self.by_number.is_empty()
    }

    /// Returns the number of open connections.
    pub(crate) fn len(&self) -> usize
        ensures { result ≡ btree_map_len self.now.by_number }
    {
        self.by_number.len()
    }

    /// Returns a number that was given to no connection before; `None` after 2^63 - 1 numbers.
    pub(crate) fn new_number(&mut self) -> Option<u64>
        ensures connections { self.new.by_number ≡ self.old.by_number }
        ensures next { IfSome result (λ n. (n ≡ self.old.next) × (self.new.next ≡ n + 1)) }
        ensures absent { IfSome result (λ n. connection_at self.old.by_number n ≡ None) }
        ensures small { IfSome result (λ n. n < 2 ^ 63 - 1) }
    {
        let number = self.next;
        if number >= MOST_NUMBERS {
            return None;
        }
        self.next = number + 1;
        Some(number)
    }

    /// Adds a connection, in place of one that has the same number. Returns false and drops it if memory runs
    /// out.
    pub(crate) fn insert(&mut self, number: u64, connection: Connection) -> bool
        requires room { btree_map_len self.old.by_number < 1024 }
        requires given { number < self.old.next }
        ensures others { KeepsOthers number self.old.by_number self.new.by_number }
        ensures next { self.new.next ≡ self.old.next }
    {
        self.remove(number);
        let weight = connection.weight();
        match self.by_number.insert(number, connection) {
            Ok(_) => {
                self.total = recount(self.total, 0, weight);
                true
            }
            Err(_) => false,
        }
    }

    /// Removes the connection with the number, if there is one, and returns the place of its client; 0 if there
    /// is none.
    pub(crate) fn remove(&mut self, number: u64) -> usize
        ensures less { btree_map_len self.new.by_number ≤ btree_map_len self.old.by_number }
        ensures gone { connection_at self.new.by_number number ≡ None }
        ensures others { KeepsOthers number self.old.by_number self.new.by_number }
        ensures next { self.new.next ≡ self.old.next }
    {
        let Some(connection) = self.by_number.remove(&number) else {
            return 0;
        };
        self.total = recount(self.total, connection.weight(), 0);
        connection.client()
    }

    /// Records a report of the system, as [`Connection::note`] does.
    pub(crate) fn note(&mut self, number: u64, can_read: bool, can_write: bool)
        ensures changes { ChangesOne number self.old.by_number self.new.by_number }
        ensures next { self.new.next ≡ self.old.next }
    {
        if let Some(connection) = self.by_number.get_mut(&number) {
            connection.note(can_read, can_write);
        }
    }

    /// Asks a connection to report its next turn, as [`Connection::ask`] does.
    pub(crate) fn ask(&mut self, number: u64)
        ensures changes { ChangesOne number self.old.by_number self.new.by_number }
        ensures next { self.new.next ≡ self.old.next }
    {
        if let Some(connection) = self.by_number.get_mut(&number) {
            connection.ask();
        }
    }

    /// Whether the connection with the number may hand on a piece, as [`Connection::may_give_piece`] says;
    /// false if no connection has the number.
    pub(crate) fn may_give_piece(&self, number: u64) -> bool {
        match self.by_number.get(&number) {
            Some(connection) => connection.may_give_piece(),
            None => false,
        }
    }

    /// Calls [`Connection::begins_to_wait`]; returns false if no connection has the number.
    pub(crate) fn begins_to_wait(&mut self, number: u64) -> bool
        ensures changes { ChangesOne number self.old.by_number self.new.by_number }
        ensures next { self.new.next ≡ self.old.next }
    {
        match self.by_number.get_mut(&number) {
            Some(connection) => connection.begins_to_wait(),
            None => false,
        }
    }

    /// Does the next work of the connection with the number, as [`Connection::turn`] does. Doesn't remove a
    /// connection that has ended.
    pub(crate) fn turn(&mut self, number: u64, now: Duration, buffer: &mut [u8]) -> Turn
        ensures fits { FitsIn buffer.new result }
        ensures quiet { (old : Connection)
            → connection_at self.old.by_number number ≡ Some old → IsBehind old ⊎ IsAsked old
            → IsQuiet result × (buffer.new ≡ buffer.old) }
        ensures behind { (old : Connection)
            → connection_at self.old.by_number number ≡ Some old → IsBehind old
            → IfSome (connection_at self.new.by_number number) (StaysBehind old) }
        ensures changes { ChangesOne number self.old.by_number self.new.by_number }
        ensures next { self.new.next ≡ self.old.next }
    {
        let Some(connection) = self.by_number.get_mut(&number) else {
            return Turn::Nothing;
        };
        let before = connection.weight();
        let turn = connection.turn(now, buffer);
        self.total = recount(self.total, before, connection.weight());
        turn
    }

    /// Offers bytes to a connection, and returns the length of the prefix that it took.
    pub(crate) fn write(&mut self, number: u64, now: Duration, bytes: &[u8]) -> usize
        ensures count { result ≤ length bytes.now }
        ensures less { result < length bytes.now
            → IfSome (connection_at self.new.by_number number) (λ c.
            IsBehind c ⊎ TakesNothing c) }
        ensures changes { ChangesOne number self.old.by_number self.new.by_number }
        ensures next { self.new.next ≡ self.old.next }
    {
        let Some(connection) = self.by_number.get_mut(&number) else {
            return 0;
        };
        let before = connection.weight();
        let count = connection.write(now, bytes);
        self.total = recount(self.total, before, connection.weight());
        count
    }

    /// Shuts a connection, as [`Connection::shut`] does.
    pub(crate) fn shut(&mut self, number: u64, now: Duration)
        ensures shut { IfSome (connection_at self.new.by_number number) TakesNothing }
        ensures changes { ChangesOne number self.old.by_number self.new.by_number }
        ensures next { self.new.next ≡ self.old.next }
    {
        if let Some(connection) = self.by_number.get_mut(&number) {
            let before = connection.weight();
            connection.shut(now);
            self.total = recount(self.total, before, connection.weight());
        }
    }

    /// Drops the socket of a connection.
    pub(crate) fn end(&mut self, number: u64)
        ensures ended { IfSome (connection_at self.new.by_number number) (λ c.
            c.stream ≡ None) }
        ensures changes { ChangesOne number self.old.by_number self.new.by_number }
        ensures next { self.new.next ≡ self.old.next }
    {
        if let Some(connection) = self.by_number.get_mut(&number) {
            let before = connection.weight();
            connection.end();
            self.total = recount(self.total, before, 0);
        }
    }

    /// Returns the place of the client of a connection; `None` if the connection has ended or doesn't exist.
    pub(crate) fn client_of(&self, number: u64) -> Option<usize> {
        match self.by_number.get(&number) {
            Some(connection) if !connection.has_ended() => Some(connection.client()),
            _ => None,
        }
    }

    /// Sets the place of the client of a connection.
    pub(crate) fn set_client(&mut self, number: u64, client: usize)
        ensures changes { ChangesOne number self.old.by_number self.new.by_number }
        ensures next { self.new.next ≡ self.old.next }
    {
        if let Some(connection) = self.by_number.get_mut(&number) {
            connection.set_client(client);
        }
    }

    /// Returns the address of the client of a connection; `None` if no connection has the number.
    pub(crate) fn address_of(&self, number: u64) -> Option<IpAddr>
        ensures { result ≡ option_map (λ c. c.address) (connection_at self.now.by_number number) }
    {
        match self.by_number.get(&number) {
            Some(connection) => Some(connection.address()),
            None => None,
        }
    }

    /// Returns how many bytes the connections were offered and haven't taken yet.
    pub(crate) fn untaken(&self) -> u64 {
        let mut untaken: u64 = 0;
        for connection in self.by_number.values() {
            untaken = untaken.saturating_add(connection.untaken());
        }
        untaken
    }

    /// Returns the number of the connection that has been idle longest; `None` if no connection is idle.
    pub(crate) fn idlest(&self) -> Option<u64> {
        let mut idlest = None;
        let mut least = Duration::MAX;
        for (number, connection) in &self.by_number {
            if let Some(since) = connection.idle_since()
                && since < least
            {
                idlest = Some(*number);
                least = since;
            }
        }
        idlest
    }

    /// Returns the number of the connection with the greatest weight; `None` if no connection has a weight.
    pub(crate) fn heaviest(&self) -> Option<u64> {
        let mut heaviest = None;
        let mut greatest = 0;
        for (number, connection) in &self.by_number {
            let weight = connection.weight();
            if weight > greatest {
                heaviest = Some(*number);
                greatest = weight;
            }
        }
        heaviest
    }

    /// Returns the first connection from a number on.
    pub(crate) fn first_from(&self, from: u64) -> Option<u64> {
        match self.by_number.range(from..).next() {
            Some((number, _)) => Some(*number),
            None => None,
        }
    }

    /// Returns the first connection, from a number on, that can be shut when the server stops, as
    /// [`Connection::can_stop`] says.
    pub(crate) fn stoppable_from(&self, from: u64, may_wait: bool) -> Option<u64>
        ensures { IfSome result (λ n.
            IfSome (connection_at self.now.by_number n) IsAtRest) }
    {
        for (number, connection) in self.by_number.range(from..) {
            if connection.can_stop(may_wait) {
                return Some(*number);
            }
        }
        None
    }

    /// Returns the first connection that is late, from a number on, and why.
    pub(crate) fn late_from(
        &self,
        from: u64,
        now: Duration,
        limits: &Limits,
    ) -> Option<(u64, Late)> {
        for (number, connection) in self.by_number.range(from..) {
            if let Some(late) = connection.lateness(now, limits) {
                return Some((*number, late));
            }
        }
        None
    }
}

/// Returns the total after the weight of one of the connections changed from `before` to `after`.
fn recount(total: u64, before: u64, after: u64) -> u64
    ensures { result ≡ min (total - before + after) (2 ^ 64 - 1) }
{
    total.saturating_sub(before).saturating_add(after)
}
