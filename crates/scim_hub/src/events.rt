//! Events of connections, and the hub's outputs for them.
ghost use Rattle.std.specs.Prelude.{◌≡◌};
ghost use Rattle.uuid.specs.Parts.{zero_bytes};

use scim_cell::{Id, id_of};
use scim_text::{Moment, NoMemory};
use std::alloc::AllocFailed;
use thiserror::Error;
use uuid::Uuid;

/// The time of an event, and the id for the first resource that it creates.
#[derive(Clone, Copy)]
pub struct Stamp {
    /// The time at which the event occurred.
    pub moment: Moment,
    /// The id for the resource that the event's first whole message creates, if it creates one. Each further
    /// whole message of the event gets the next number as its id, even if the previous id wasn't used.
    pub first: Id,
}

impl Stamp {
    /// Returns a stamp for the events `Joined` and `Left`, which don't use it: the first moment and the nil
    /// id.
    pub fn unused() -> Stamp
        ensures moment { result.moment ≡ 0 }
        ensures first { result.first ≡ zero_bytes }
    {
        Stamp {
            moment: Moment::new(0).unwrap(),
            first: id_of(Uuid::nil()),
        }
    }
}

/// What occurred on a connection.
#[derive(Clone, Copy)]
pub enum EventKind<'a> {
    /// The connection was opened.
    Joined,
    /// The next piece of the connection's stream arrived.
    Piece(&'a [u8]),
    /// The connection has ended.
    Left,
}

/// An occurrence on a connection, with its stamp.
#[derive(Clone, Copy)]
pub struct Event<'a> {
    /// The number of the connection. After the connection has left, a new one may use the number.
    pub connection: u64,
    pub stamp: Stamp,
    pub kind: EventKind<'a>,
}

/// An instruction for a connection.
#[derive(Drop)]
pub enum Output {
    /// Write the text to the connection.
    Write(u64, String),
    /// Close the connection after all earlier texts are written.
    Shut(u64),
}

/// What a hub answers to an event of a round.
#[derive(Drop)]
pub struct EventAnswer {
    /// The outputs for the event's connection, in order, or the error of the event.
    pub result: Result<Vec<Output>, HubFault>,
    /// The number of messages of the event that were refused because no client has their token, 2^64 - 1 at most.
    pub refused: u64,
}

/// The error if the hub can't handle an event.
#[derive(Clone, Copy, Debug, PartialEq, Eq, Error)]
pub enum HubFault {
    /// A connection joins with a number that is in use; nothing has changed.
    #[error("already joined")]
    AlreadyJoined,
    /// No connection has the number; nothing has changed.
    #[error("unknown")]
    Unknown,
    /// A piece arrived for a connection that is shut; nothing has changed.
    #[error("closed")]
    Closed,
    /// An allocation failed. If the connection was joining, it hasn't joined. If a piece was read, the
    /// connection is shut and the outputs are lost; the changes that its requests made remain committed.
    #[error("out of memory")]
    NoMemory,
}

impl From<NoMemory> for HubFault {
    ghost use Rattle.std.specs.Prelude.{◌≡◌};
    ghost use Rattle.scim_hub.specs.declared.events.HubFault.{HubFault};

    ghost from_gives = { λ _ f. f ≡ HubFault.NoMemory };

    fn from(_: NoMemory) -> HubFault {
        HubFault::NoMemory
    }
}

impl<T: Drop> From<AllocFailed<T>> for HubFault {
    ghost use Rattle.std.specs.Prelude.{◌≡◌};
    ghost use Rattle.scim_hub.specs.declared.events.HubFault.{HubFault};

    ghost from_gives = { λ _ f. f ≡ HubFault.NoMemory };

    fn from(_: AllocFailed<T>) -> HubFault {
        HubFault::NoMemory
    }
}
