//! The connections of a hub by number, each with the state of its stream.
ghost use Rattle.std.specs.Prelude.{ℕ, List};
ghost use Rattle.scim_hub.specs.Events as spec;
ghost use Rattle.scim_hub.specs.Events.{set};
ghost use Rattle.scim_hub.specs.HubStates.{AreConnections};
ghost use Rattle.scim_hub.specs.code.Changes.{IsRead, IsFed, IsJoined, IsGone, IsPieceTaken};

use crate::events::HubFault;
use scim_wire::{Item, Wire};
use std::alloc::Global;
use std::collections::BTreeMap;
use std::mem;

/// A connection that has joined and not left.
pub(crate) enum Connection {
    /// The hub reads the connection's stream.
    Open(Wire),
    /// The hub ignores the connection's stream.
    Shut,
}

impl Drop for Connection {
    fn drop(self) {
        match self {
            Connection::Open(_wire) => (),
            Connection::Shut => (),
        }
    }
}

impl Connection {
    /// Reads the next piece of the stream, and returns the items that it completes.
    ///
    /// Fails with `Closed` if the connection is shut. After `NoMemory` the connection can't be read further.
    fn read(&mut self, alloc: Global, piece: &[u8]) -> Result<Vec<Item>, HubFault>
        ensures { IsRead self.old piece.now result self.new }
    {
        match self {
            Connection::Open(wire) => Ok(wire.feed(alloc, piece)?),
            Connection::Shut => Err(HubFault::Closed),
        }
    }

    /// Reads the next piece of the stream, and returns the items that it completes.
    ///
    /// Fails with `Closed` if the connection is shut. After `NoMemory` the connection is shut.
    fn feed(&mut self, alloc: Global, piece: &[u8]) -> Result<Vec<Item>, HubFault>
        ensures { IsFed self.old piece.now result self.new }
    {
        let mut connection = mem::replace(self, Connection::Shut);
        let items = connection.read(alloc, piece)?;
        *self = connection;
        Ok(items)
    }
}

/// The connections that have joined and not left, by number.
#[derive(Drop)]
pub(crate) struct Connections {
    by_number: BTreeMap<u64, Connection>,
}

impl Connections {
    /// Returns an empty set of connections.
    pub(crate) fn new(alloc: Global) -> Connections
        ensures { AreConnections result (λ _. spec.absent) }
    {
        Connections {
            by_number: BTreeMap::new(alloc),
        }
    }

    /// Adds a connection.
    ///
    /// Fails with `AlreadyJoined` if the number is in use. After any error nothing has changed.
    pub(crate) fn join(&mut self, alloc: Global, number: u64) -> Result<(), HubFault>
        ensures { (connections : ℕ → spec.Connection) → AreConnections self.old connections
            → IsJoined (connections number) number connections result self.new }
    {
        if self.by_number.contains_key(&number) {
            return Err(HubFault::AlreadyJoined);
        }
        self.by_number
            .insert(number, Connection::Open(Wire::new(alloc)))?;
        Ok(())
    }

    /// Reads the next piece of a connection's stream, and returns the items that it completes.
    ///
    /// Fails with `Unknown` if no connection has the number, and with `Closed` if the connection is shut;
    /// then nothing has changed. After `NoMemory` the connection is shut.
    pub(crate) fn feed(
        &mut self,
        alloc: Global,
        number: u64,
        piece: &[u8],
    ) -> Result<Vec<Item>, HubFault>
        ensures { (connections : ℕ → spec.Connection) → AreConnections self.old connections
            → IsPieceTaken (connections number) number piece.now connections result self.new }
    {
        match self.by_number.get_mut(&number) {
            Some(connection) => connection.feed(alloc, piece),
            None => Err(HubFault::Unknown),
        }
    }

    /// Shuts an open connection: the hub ignores the rest of its stream.
    pub(crate) fn shut(&mut self, number: u64)
        ensures { (connections : ℕ → spec.Connection) (stream : List ℕ) (items : List Item)
            → AreConnections self.old (set number (spec.joined stream items) connections)
            → AreConnections self.new (set number spec.shut connections) }
    {
        let Some(connection) = self.by_number.get_mut(&number) else {
            return;
        };
        *connection = Connection::Shut;
    }

    /// Removes a connection. Fails with `Unknown` if no connection has the number; then nothing has changed.
    pub(crate) fn leave(&mut self, number: u64) -> Result<(), HubFault>
        ensures { (connections : ℕ → spec.Connection) → AreConnections self.old connections
            → IsGone (connections number) number connections result self.new }
    {
        match self.by_number.remove(&number) {
            Some(_) => Ok(()),
            None => Err(HubFault::Unknown),
        }
    }
}
