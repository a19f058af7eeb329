//! The state of reading a stream of requests.
ghost use Rattle.std.specs.Prelude.{◌≡◌, ◌≤◌, ℕ, List, [], ◌∷◌, ◌++◌, None, IfOk, length, take};
ghost use Rattle.scim_wire.specs.code.Wires.{StandsAt, Steps};

use crate::chunked::ChunkedPart;
use crate::head_parts::HeadPart;
use crate::message_heads::MessageHead;
use crate::messages::Item;
use crate::state_steps::take_in_head;
use scim_text::NoMemory;
use std::alloc::Global;

/// An unfinished body of known length.
#[derive(Drop)]
pub struct BodyPart {
    pub head: MessageHead,
    pub body: Vec<u8>,
    /// The number of missing bytes.
    pub left: u64,
}

/// An unfinished chunked body.
#[derive(Drop)]
pub struct ChunksPart {
    pub head: MessageHead,
    pub chunks: ChunkedPart,
}

/// The state of a stream.
pub enum State {
    /// In a head or before its first byte.
    Opening(HeadPart),
    /// In a body of known length.
    InBody(BodyPart),
    /// In a chunked body.
    InChunks(ChunksPart),
    /// After a refusal, or after an allocation failed: all further bytes are ignored.
    Shut,
}

impl Drop for State {
    fn drop(self) {
        match self {
            State::Opening(_part) => (),
            State::InBody(_part) => (),
            State::InChunks(_part) => (),
            State::Shut => (),
        }
    }
}

/// The result of reading one byte: the next state, and the item that the byte completes, if any.
#[derive(Drop)]
pub struct StateStep {
    pub state: State,
    pub item: Option<Item>,
}

impl State {
    /// Returns the state before the first byte of a message.
    pub fn new(alloc: Global) -> State
        ensures { StandsAt result [] [] }
    {
        State::Opening(HeadPart::new(alloc))
    }

    /// Reads one byte. In `Shut` the byte is ignored.
    pub fn take(self, alloc: Global, byte: u8) -> Result<StateStep, NoMemory>
        ensures steps { (bytes : List ℕ) (items : List Item) → StandsAt self bytes items
            → IfOk result (λ r. Steps r.state r.item (bytes ++ byte ∷ []) items) }
        ensures shut { self ≡ State.Shut → IfOk result (λ r. (r.state ≡ State.Shut)
            × (r.item ≡ None)) }
    {
        match self {
            State::Opening(part) => take_in_head(part, alloc, byte),
            State::InBody(part) => part.take(alloc, byte),
            State::InChunks(part) => part.take(alloc, byte),
            State::Shut => Ok(StateStep {
                state: State::Shut,
                item: None,
            }),
        }
    }

    /// Reads a prefix of `piece` that completes no item, and returns its length in bytes, perhaps 0.
    ///
    /// In `Shut`, reads the whole piece. After `NoMemory` the state must not be used.
    pub fn take_run(&mut self, piece: &[u8]) -> Result<usize, NoMemory>
        ensures within { IfOk result (λ n. n ≤ length piece.now) }
        ensures stands { (bytes : List ℕ) (items : List Item) → StandsAt self.old bytes items
            → IfOk result (λ n. StandsAt self.new (bytes ++ take n piece.now) items) }
        ensures shut { self.old ≡ State.Shut → IfOk result (λ n. self.new ≡ State.Shut) }
    {
        match self {
            State::Opening(part) => part.take_run(piece),
            State::InBody(part) => part.take_run(piece),
            State::InChunks(part) => part.take_run(piece),
            State::Shut => Ok(piece.len()),
        }
    }
}
