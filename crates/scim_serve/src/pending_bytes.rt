//! The pending bytes of connections.
ghost use Rattle.std.specs.Prelude.{◌≡◌, ◌≤◌, ◌+◌, ◌↔◌, ℕ, Option, None, Some, OnOk, OnErr, IfSome, IsTrue, length, max, option_map};
ghost use Rattle.scim_serve.specs.code.Rests.{no_rest, finished, with_more, without, to_close};
ghost use Rattle.scim_serve.specs.code.Waiting.{waiting_for, Becomes, Stays};

use scim_text::NoMemory;
use std::alloc::Global;
use std::collections::BTreeMap;
use std::marker::Model;

/// The pending bytes of one connection, and whether it is to be closed after them. Contracts see both as a
/// `Rest`.
#[derive(Drop)]
struct Pending {
    /// The bytes that the connection has taken since the buffer was last empty, followed by the pending
    /// bytes.
    bytes: Vec<u8>,
    /// The number of bytes at the start of `bytes` that the connection has taken.
    taken: usize,
    /// Whether the connection is to be closed after it has taken the bytes.
    closing: bool,
}

impl Model for Pending {
    ghost use Rattle.std.specs.Prelude.{◌≤◌, length, drop};
    ghost use Rattle.scim_serve.specs.code.Rests.{Rest};

    ghost Value = { Rest };

    ghost view = { λ p. record { bytes = drop p.taken p.bytes.items; closing = p.closing } };

    ghost invariant = { λ p. p.taken ≤ length p.bytes.items };
}

impl Pending {
    /// Returns an empty buffer.
    fn new(alloc: Global) -> Pending
        ensures { result ≡ no_rest }
    {
        Pending {
            bytes: Vec::new(alloc),
            taken: 0,
            closing: false,
        }
    }

    /// Returns the pending bytes.
    fn rest(&self) -> &[u8]
        ensures { result.now ≡ self.now.bytes }
    {
        &self.bytes[self.taken..]
    }

    /// Appends bytes, and allocates no more than they need. After `NoMemory` the pending bytes are unchanged.
    fn add(&mut self, bytes: &[u8]) -> Result<(), NoMemory>
        ensures ok { OnOk result (self.new ≡ with_more bytes.now self.old) }
        ensures err { OnErr result (self.new ≡ self.old) }
    {
        self.bytes.reserve_exact(bytes.len())?;
        self.bytes.extend_from_slice(bytes)?;
        Ok(())
    }

    /// Drops the first `count` pending bytes. Frees the buffer when no bytes are pending.
    fn take(&mut self, count: usize)
        requires { count ≤ length self.old.bytes }
        ensures { self.new ≡ without count self.old }
    {
        self.taken += count;
        if self.taken == self.bytes.len() {
            self.bytes = Vec::new(*self.bytes.allocator());
            self.taken = 0;
        }
    }

    /// Notes that the connection is to be closed after the pending bytes.
    fn close_after(&mut self)
        ensures { self.new ≡ to_close self.old }
    {
        self.closing = true;
    }

    /// Whether no bytes are pending and the connection is to be closed.
    fn is_done(&self) -> bool
        ensures { IsTrue result ↔ self.now ≡ finished }
    {
        self.closing && self.rest().is_empty()
    }
}

/// The pending bytes of all connections, by number.
#[derive(Drop)]
pub(crate) struct Waiting {
    by_number: BTreeMap<u64, Pending>,
    /// One more than the greatest connection number so far, and 0 at first. It may be 2^64.
    next: u128,
}

impl Waiting {
    /// Returns an empty set of connections.
    pub(crate) fn new(alloc: Global) -> Waiting
        ensures none { (m : ℕ) → waiting_for result m ≡ None }
        ensures next { result.next ≡ 0 }
    {
        Waiting {
            by_number: BTreeMap::new(alloc),
            next: 0,
        }
    }

    /// Notes the number of a connection, and returns whether it is greater than all numbers noted before.
    pub(crate) fn note(&mut self, connection: u64) -> bool
        ensures new { IsTrue result → self.old.next ≤ connection }
        ensures same { (m : ℕ) → waiting_for self.new m ≡ waiting_for self.old m }
        ensures next { self.new.next ≡ max self.old.next (connection + 1) }
    {
        let number = u128::from(connection);
        if number < self.next {
            return false;
        }
        self.next = number + 1;
        true
    }

    /// Adds a connection without pending bytes; from then on it can be written to. After `NoMemory` nothing
    /// has changed.
    pub(crate) fn enter(&mut self, alloc: Global, connection: u64) -> Result<(), NoMemory>
        ensures ok { OnOk result (Becomes connection (Some no_rest) self.old self.new) }
        ensures err { OnErr result (Stays self.old self.new) }
    {
        self.by_number.insert(connection, Pending::new(alloc))?;
        Ok(())
    }

    /// Drops the pending bytes of a connection, which can't be written to any more.
    pub(crate) fn leave(&mut self, connection: u64)
        ensures { Becomes connection None self.old self.new }
    {
        self.by_number.remove(&connection);
    }

    /// Returns the pending bytes of a connection; `None` if it can't be written to.
    pub(crate) fn rest(&self, connection: u64) -> Option<&[u8]>
        ensures { option_map (λ r. r.now) result
            ≡ option_map (λ rest. rest.bytes) (waiting_for self.now connection) }
    {
        match self.by_number.get(&connection) {
            Some(pending) => Some(pending.rest()),
            None => None,
        }
    }

    /// Appends bytes to the pending bytes of a connection, if it can be written to.
    ///
    /// After `NoMemory` nothing has changed.
    pub(crate) fn add(&mut self, connection: u64, bytes: &[u8]) -> Result<(), NoMemory>
        ensures ok { OnOk result (Becomes connection
            (option_map (with_more bytes.now) (waiting_for self.old connection)) self.old
            self.new) }
        ensures err { OnErr result (Stays self.old self.new) }
    {
        match self.by_number.get_mut(&connection) {
            Some(pending) => pending.add(bytes),
            None => Ok(()),
        }
    }

    /// Drops the first `count` pending bytes of a connection.
    pub(crate) fn take(&mut self, connection: u64, count: usize)
        requires { IfSome (waiting_for self.old connection) (λ rest. count ≤ length rest.bytes) }
        ensures { Becomes connection (option_map (without count) (waiting_for self.old connection))
            self.old self.new }
    {
        match self.by_number.get_mut(&connection) {
            Some(pending) => pending.take(count),
            None => (),
        }
    }

    /// Notes that a connection is to be closed after its pending bytes.
    pub(crate) fn close_after(&mut self, connection: u64)
        ensures { Becomes connection (option_map to_close (waiting_for self.old connection))
            self.old self.new }
    {
        match self.by_number.get_mut(&connection) {
            Some(pending) => pending.close_after(),
            None => (),
        }
    }

    /// Whether a connection has no pending bytes and is to be closed.
    pub(crate) fn is_done(&self, connection: u64) -> bool
        ensures { IsTrue result ↔ waiting_for self.now connection ≡ Some finished }
    {
        match self.by_number.get(&connection) {
            Some(pending) => pending.is_done(),
            None => false,
        }
    }
}
