//! Reads requests from a stream that arrives in pieces.
ghost use Rattle.std.specs.Prelude.{◌≡◌, ℕ, List, [], ◌++◌, IfOk, OnOk, OnErr, option_to_list};
ghost use Rattle.scim_wire.specs.Wires.{IsShut, StandsFor};

use crate::messages::Item;
use crate::states::State;
use scim_text::{NoMemory, push};
use std::alloc::Global;
use std::mem;

/// A reader of a stream of HTTP/1.1 requests (RFC 9112).
///
/// The stream may be cut into pieces in any way without changing the result
/// ([`crate::streams_are_read_in_one_way`]). Requests may be pipelined. Empty lines before a request are
/// dropped. After a refusal or `NoMemory` the wire is shut: it drops all further bytes and returns no items.
#[derive(Drop)]
pub struct Wire {
    state: State,
}

/// Appends the item, if any.
fn add(items: &mut Vec<Item>, item: Option<Item>) -> Result<(), NoMemory>
    ensures { OnOk result (items.new.items ≡ items.old.items ++ option_to_list item) }
{
    if let Some(item) = item {
        push(items, item)?;
    }
    Ok(())
}

impl Wire {
    /// Returns a wire that hasn't read any byte of its stream.
    pub fn new(alloc: Global) -> Wire
        ensures { StandsFor result [] [] }
    {
        Wire {
            state: State::new(alloc),
        }
    }

    /// Reads the next piece of the stream, and returns the items that it completes, in order.
    ///
    /// A body allocates only for the bytes received, whatever length was announced.
    ///
    /// An invalid request is refused with one of these refusals:
    ///
    /// - `BadHead`: the head doesn't end within 16,384 bytes, has more than 66 line feeds or 64 headers, or
    ///   isn't a valid request line with headers (RFC 9112 sections 2 to 5);
    /// - `TooLarge`: a `Content-Length` is above 1,048,576, or the chunks have more bytes in total;
    /// - `BadFraming`: the `Content-Length` isn't a number, there are several `Content-Length` or
    ///   `Transfer-Encoding` headers (RFC 9112 section 6.3), or the chunked body is invalid
    ///   ([`crate::BadChunks`]);
    /// - `UnknownCoding`: the transfer coding isn't `chunked` (RFC 9112 section 7).
    ///
    /// If a head has several of these faults, the refusal is the first in this list. After `NoMemory` the
    /// items of this piece are lost.
    pub fn feed(&mut self, alloc: Global, piece: &[u8]) -> Result<Vec<Item>, NoMemory>
        ensures items { (stream : List ℕ) (items : List Item) → StandsFor self.old stream items
            → IfOk result (λ new. StandsFor self.new (stream ++ piece.now) (items ++ new.items)) }
        ensures shut { IsShut self.old → IfOk result (λ new. (new.items ≡ []) × IsShut self.new) }
        ensures no_memory { OnErr result (IsShut self.new) }
    {
        let mut items = Vec::new(alloc);
        let mut state = mem::replace(&mut self.state, State::Shut);
        let mut taken = 0;
        loop {
            taken += state.take_run(&piece[taken..])?;
            let Some(byte) = piece.get(taken) else {
                break;
            };
            let step = state.take(alloc, *byte)?;
            state = step.state;
            add(&mut items, step.item)?;
            taken += 1;
        }
        self.state = state;
        Ok(items)
    }
}
