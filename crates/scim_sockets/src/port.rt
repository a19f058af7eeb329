//! A port of the loopback address, and the connections that were accepted there.
ghost use Rattle.std.specs.Prelude.{◌≡◌, ◌<◌, ◌≤◌, ◌↔◌, IfSome, IsTrue};
ghost use Rattle.std.specs.BTreeMap.{btree_map_len};
ghost use Rattle.scim_sockets.specs.Listening.{AreAccepted, IsLoopback, IsNextOf};

use crate::connection::Connection;
use crate::counts::Counts;
use crate::poll_tokens::{Place, Role, token_of};
use crate::turn_queue::Turns;
use mio::net::{TcpListener, TcpStream};
use mio::{Interest, Registry};
use std::alloc::{AllocError, Global};
use std::io;
use std::io::ErrorKind;
use std::net::{IpAddr, Ipv4Addr, Net, SocketAddr};
use std::time::Duration;

/// Returns the loopback address with a port.
fn loopback(port: u16) -> SocketAddr
    ensures { IsLoopback port result }
{
    SocketAddr::from((Ipv4Addr::LOCALHOST, port))
}

/// A socket that was accepted, and the address of its client.
#[derive(Drop)]
struct Accepted {
    stream: TcpStream,
    address: IpAddr,
}

/// A port of the loopback address, and the connections that were accepted there.
#[derive(Drop)]
pub(crate) struct Port {
    pub(crate) turns: Turns,
    role: Role,
    // The maximum number of open connections. If another one comes, the connection that has been idle longest
    // gives way; if none is idle, the new one waits in the system's queue.
    room: usize,
    // The maximum number of accepted connections, if there is one.
    most: Option<u64>,
    // `None` if the port isn't open.
    listener: Option<TcpListener>,
    // An accepted connection for which there is no room yet.
    guest: Option<Accepted>,
    // Whether the system failed to accept the last connection, for example because too many files are open.
    is_refused: bool,
    ghost small: { room ≤ 1024 },
}

impl Port {
    /// Returns a port that isn't open. At most `room` connections are open at once there, and at most `most` are
    /// accepted.
    pub(crate) fn new(
        alloc: Global,
        role: Role,
        room: usize,
        most: Option<u64>,
    ) -> Result<Port, AllocError>
        requires { room ≤ 1024 }
    {
        Ok(Port {
            turns: Turns::new(alloc, room)?,
            role,
            room,
            most,
            listener: None,
            guest: None,
            is_refused: false,
        })
    }

    /// Opens the port with this number; a free one if it is 0. Returns its number.
    pub(crate) fn listen(
        &mut self,
        rt: &impl Net,
        registry: &Registry,
        number: u16,
    ) -> io::Result<u16> {
        let mut listener = TcpListener::bind(rt, loopback(number))?;
        let token = token_of(self.role, Place::Door);
        registry.register(&mut listener, token, Interest::READABLE)?;
        let number = listener.local_addr()?.port();
        self.listener = Some(listener);
        Ok(number)
    }

    /// Closes the port. Its connections stay open, and a guest is dropped.
    pub(crate) fn close(&mut self)
        ensures { self.new.turns ≡ self.old.turns }
    {
        self.listener = None;
        self.guest = None;
    }

    /// Whether the maximum number of connections was accepted.
    pub(crate) fn has_accepted_all(&self) -> bool
        ensures { IsTrue result → AreAccepted self.now.most self.now.turns.connections.next }
    {
        match self.most {
            Some(most) => self.turns.given() >= most,
            None => false,
        }
    }

    /// Whether the system failed to accept the last connection, for example because too many files are open.
    pub(crate) fn is_refused(&self) -> bool {
        self.is_refused
    }

    /// Whether the maximum number of connections is open.
    fn is_full(&self) -> bool
        ensures { IsTrue result
            ↔ (self.now.room ≤ btree_map_len self.now.turns.connections.by_number) }
    {
        self.turns.open() >= self.room
    }

    /// Accepts a connection, if one is waiting and may join now, and returns its number. If there is no room for
    /// it, lets an idle connection give way.
    ///
    /// If the system fails to accept a connection, for example because too many files are open, the attempt
    /// is repeated after the next poll and after a connection has left.
    pub(crate) fn accept(
        &mut self,
        alloc: Global,
        registry: &Registry,
        now: Duration,
        counts: &mut Counts,
    ) -> Option<u64>
        ensures next { IfSome result (IsNextOf self.old.turns.connections) }
        ensures room { IfSome result (λ _.
            btree_map_len self.old.turns.connections.by_number < self.old.room) }
    {
        self.is_refused = false;
        if self.has_accepted_all() {
            return None;
        }
        if self.is_full() {
            self.accept_guest(counts);
            return None;
        }
        let accepted = self.take()?;
        self.turns.open_door();
        self.join(alloc, registry, accepted, now)
    }

    /// Returns the guest, or else a connection that is waiting to be accepted, if there is one.
    fn take(&mut self) -> Option<Accepted>
        ensures connections { self.new.turns.connections ≡ self.old.turns.connections }
        ensures room { self.new.room ≡ self.old.room }
    {
        if let Some(guest) = self.guest.take() {
            return Some(guest);
        }
        let Some(listener) = &self.listener else {
            self.turns.close_door();
            return None;
        };
        match listener.accept() {
            Ok((stream, address)) => Some(Accepted {
                stream,
                address: address.ip(),
            }),
            Err(error) => {
                self.is_refused = error.kind() != ErrorKind::WouldBlock;
                if !self.is_refused {
                    self.turns.close_door();
                }
                None
            }
        }
    }

    /// Accepts a connection for which there is no room yet, unless there is such a guest already, and lets an
    /// idle connection give way to it.
    fn accept_guest(&mut self, counts: &mut Counts) {
        if self.guest.is_none() {
            self.guest = self.take();
            self.give_way(counts);
        }
    }

    /// Ends the connection that has been idle longest, if a guest waits and no connection can join.
    pub(crate) fn give_way(&mut self, counts: &mut Counts) {
        if self.guest.is_some() && self.is_full() {
            self.turns.end_idlest(counts);
        }
    }

    /// Adds an accepted connection, and returns its number, which is the next one. Drops it without a report if
    /// it can't be registered, if memory runs out, or if 2^63 - 1 numbers were given.
    fn join(
        &mut self,
        alloc: Global,
        registry: &Registry,
        accepted: Accepted,
        now: Duration,
    ) -> Option<u64>
        requires room { btree_map_len self.old.turns.connections.by_number < 1024 }
        ensures { IfSome result (IsNextOf self.old.turns.connections) }
    {
        let Accepted {
            mut stream,
            address,
        } = accepted;
        let number = self.turns.new_number()?;
        let both = Interest::READABLE | Interest::WRITABLE;
        let token = token_of(self.role, Place::Connection(number));
        let is_registered = registry.register(&mut stream, token, both).is_ok();
        let connection = Connection::new(alloc, stream, address, now);
        (is_registered && self.turns.join(number, connection)).then_some(number)
    }
}
