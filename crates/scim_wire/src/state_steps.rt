//! The transitions of a stream's state, for one byte or for a run of bytes.
ghost use Rattle.std.specs.Prelude.{◌≡◌, ◌≤◌, ℕ, List, [], ◌∷◌, ◌++◌, Some, None, Ok, IfOk, length, take, option_to_list};
ghost use Rattle.scim_wire.specs.Parts.{IsHeadText};
ghost use Rattle.scim_wire.specs.Streams.{OpensThen};
ghost use Rattle.scim_wire.specs.Bodies.{refusal_of};
ghost use Rattle.scim_wire.specs.Messages.{OpensSaying, announced, message_of};
ghost use Rattle.scim_wire.specs.code.Wires.{StandsAt, Steps};

use crate::body_framing::Framing;
use crate::chunk_faults::BadChunks;
use crate::chunked::{ChunkStep, ChunkedPart};
use crate::head_parsing::parse_message_head;
use crate::head_parts::{HeadPart, HeadStep};
use crate::message_heads::MessageHead;
use crate::messages::{Item, Message};
use crate::octets::Octets;
use crate::states::{BodyPart, ChunksPart, State, StateStep};
use scim_audit::Refusal;
use scim_text::{Failed, NoMemory};
use std::alloc::Global;

/// Returns the step that refuses the stream and changes the state to `Shut`.
fn refused(refusal: Refusal) -> StateStep
    ensures state { result.state ≡ State.Shut }
    ensures item { result.item ≡ Some (Item.Refused refusal) }
{
    StateStep {
        state: State::Shut,
        item: Some(Item::Refused(refusal)),
    }
}

/// Returns the step that completes the message with this head and body. The next state expects a new message.
fn whole(alloc: Global, head: MessageHead, body: Vec<u8>) -> StateStep
    ensures state { StandsAt result.state [] [] }
    ensures item { result.item ≡ Some (Item.Whole (message_of head body.items)) }
{
    let MessageHead {
        method,
        target,
        token,
        close,
        ..
    } = head;
    let message = Message {
        method,
        target,
        token,
        body: Octets::of(body),
        close,
    };
    StateStep {
        state: State::new(alloc),
        item: Some(Item::Whole(message)),
    }
}

/// Returns `Item::Continue` if the client may wait for 100 (Continue) before it sends the body; otherwise
/// `None`, as when there is no body.
fn announced(head: &MessageHead) -> Option<Item>
    ensures { option_to_list result ≡ announced head.now }
{
    if head.expects_continue && head.framing.has_body() {
        Some(Item::Continue)
    } else {
        None
    }
}

/// Returns the step after a whole head: it begins the body, or completes the message if there is no body.
fn begin_body(alloc: Global, head: MessageHead) -> StateStep
    ensures { (bytes : List ℕ) → OpensSaying bytes (Ok head) []
        → Steps result.state result.item bytes [] }
{
    match head.framing {
        Framing::Chunked => {
            let item = announced(&head);
            let chunks = ChunkedPart::new(alloc);
            StateStep {
                state: State::InChunks(ChunksPart { head, chunks }),
                item,
            }
        }
        Framing::Sized(0) => whole(alloc, head, Vec::new(alloc)),
        Framing::Sized(left) => {
            let item = announced(&head);
            let body = Vec::new(alloc);
            StateStep {
                state: State::InBody(BodyPart { head, body, left }),
                item,
            }
        }
    }
}

/// Parses the text of a whole head, and returns the step after the head. The step is a refusal if the head is
/// invalid.
fn open_message(alloc: Global, text: &[u8]) -> Result<StateStep, NoMemory>
    ensures { (bytes : List ℕ) → OpensThen (λ t. IsHeadText t × (t ≡ text.now)) bytes []
        → IfOk result (λ r. Steps r.state r.item bytes []) }
{
    match parse_message_head(alloc, text) {
        Ok(head) => Ok(begin_body(alloc, head)),
        Err(Failed::Because(refusal)) => Ok(refused(refusal)),
        Err(Failed::NoMemory) => Err(NoMemory),
    }
}

/// Reads one byte of a head.
pub fn take_in_head(part: HeadPart, alloc: Global, byte: u8) -> Result<StateStep, NoMemory>
    ensures { (bytes : List ℕ) (items : List Item) → StandsAt (State.Opening part) bytes items
        → IfOk result (λ r. Steps r.state r.item (bytes ++ byte ∷ []) items) }
{
    match part.take(alloc, byte)? {
        HeadStep::More(part) => Ok(StateStep {
            state: State::Opening(part),
            item: None,
        }),
        HeadStep::Ended(text) => open_message(alloc, text.as_slice()),
        HeadStep::Overlong => Ok(refused(Refusal::BadHead)),
    }
}

impl BodyPart {
    /// Reads one byte of the body.
    pub fn take(mut self, alloc: Global, byte: u8) -> Result<StateStep, NoMemory>
        ensures { (bytes : List ℕ) (items : List Item) → StandsAt (State.InBody self) bytes items
            → IfOk result (λ r. Steps r.state r.item (bytes ++ byte ∷ []) items) }
    {
        self.body.push(byte)?;
        if self.left <= 1 {
            return Ok(whole(alloc, self.head, self.body));
        }
        self.left -= 1;
        Ok(StateStep {
            state: State::InBody(self),
            item: None,
        })
    }

    /// Reads a prefix of `piece` that doesn't contain the body's last byte, and returns its length in bytes.
    ///
    /// After `NoMemory` the part must not be used.
    pub fn take_run(&mut self, piece: &[u8]) -> Result<usize, NoMemory>
        ensures within { IfOk result (λ n. n ≤ length piece.now) }
        ensures stands { (bytes : List ℕ) (items : List Item)
            → StandsAt (State.InBody self.old) bytes items
            → IfOk result (λ n.
            StandsAt (State.InBody self.new) (bytes ++ take n piece.now) items) }
    {
        let count = piece.len().min(self.left.saturating_sub(1) as usize);
        self.body.extend_from_slice(&piece[..count])?;
        self.left -= count as u64;
        Ok(count)
    }
}

/// Returns the refusal for a fault of a chunked body.
fn refusal_of(fault: BadChunks) -> Refusal
    ensures { result ≡ refusal_of fault }
{
    match fault {
        BadChunks::TooLarge => Refusal::TooLarge,
        BadChunks::Malformed => Refusal::BadFraming,
    }
}

impl ChunksPart {
    /// Reads one byte of the body.
    pub fn take(self, alloc: Global, byte: u8) -> Result<StateStep, NoMemory>
        ensures { (bytes : List ℕ) (items : List Item) → StandsAt (State.InChunks self) bytes items
            → IfOk result (λ r. Steps r.state r.item (bytes ++ byte ∷ []) items) }
    {
        let ChunksPart { head, chunks } = self;
        match chunks.take(byte) {
            Ok(ChunkStep::More(chunks)) => Ok(StateStep {
                state: State::InChunks(ChunksPart { head, chunks }),
                item: None,
            }),
            Ok(ChunkStep::Whole(body)) => Ok(whole(alloc, head, body)),
            Err(Failed::Because(fault)) => Ok(refused(refusal_of(fault))),
            Err(Failed::NoMemory) => Err(NoMemory),
        }
    }
    /// Reads a prefix of `piece` that lies in a chunk's data, and returns its length in bytes.
    ///
    /// Returns 0 outside a chunk's data. After `NoMemory` the part must not be used.
    pub fn take_run(&mut self, piece: &[u8]) -> Result<usize, NoMemory>
        ensures within { IfOk result (λ n. n ≤ length piece.now) }
        ensures stands { (bytes : List ℕ) (items : List Item)
            → StandsAt (State.InChunks self.old) bytes items
            → IfOk result (λ n.
            StandsAt (State.InChunks self.new) (bytes ++ take n piece.now) items) }
    {
        self.chunks.take_run(piece)
    }
}
