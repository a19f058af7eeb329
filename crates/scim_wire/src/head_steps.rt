//! Reads a head byte by byte, or in runs of bytes.
ghost use Rattle.std.specs.Prelude.{◌≡◌, ◌≤◌, ℕ, List, ◌∷◌, ◌++◌, [], IfOk, length, take};
ghost use Rattle.httparse.specs.Grammar.{LineEnd, print_blank};
ghost use Rattle.scim_wire.specs.Parts.{feeds};
ghost use Rattle.scim_wire.specs.code.Steps.{HoldsHead, StepsTo};

use crate::head_ends::{ends_head, is_empty_line};
use crate::head_parts::{HeadPart, HeadStep};
use scim_text::NoMemory;
use std::alloc::Global;

/// The maximum length of a head in bytes.
const MAX_BYTES: usize = 16_384;

/// The maximum number of line feeds in a head.
const MAX_FEEDS: u32 = 66;

/// Returns the number of bytes before the first line feed, or of all bytes if there is none.
fn line_length(bytes: &[u8]) -> usize
    ensures within { result ≤ length bytes.now }
    ensures no_feeds { feeds (take result bytes.now) ≡ 0 }
{
    for (i, byte) in bytes.iter().enumerate() {
        if *byte == b'\n' {
            return i;
        }
    }
    bytes.len()
}

impl HeadPart {
    /// Returns the state before the first byte of a head.
    pub fn new(alloc: Global) -> HeadPart
        ensures { (blank : List LineEnd) → HoldsHead result (print_blank blank) }
    {
        HeadPart {
            bytes: Vec::new(alloc),
            feeds: 0,
        }
    }

    /// Reads one byte of the head. An empty line before the head is dropped (RFC 9112 section 2.2).
    pub fn take(self, alloc: Global, byte: u8) -> Result<HeadStep, NoMemory>
        ensures { (bytes : List ℕ) → HoldsHead self bytes
            → IfOk result (StepsTo (bytes ++ byte ∷ [])) }
    {
        let HeadPart { mut bytes, feeds } = self;
        bytes.push(byte)?;
        if is_empty_line(bytes.as_slice()) {
            return Ok(HeadStep::More(HeadPart::new(alloc)));
        }
        let feeds = feeds + u32::from(byte == b'\n');
        if feeds > MAX_FEEDS {
            return Ok(HeadStep::Overlong);
        }
        if ends_head(bytes.as_slice()) {
            return Ok(HeadStep::Ended(bytes));
        }
        if bytes.len() >= MAX_BYTES {
            return Ok(HeadStep::Overlong);
        }
        Ok(HeadStep::More(HeadPart { bytes, feeds }))
    }

    /// Reads a prefix of `piece` without a line feed, and returns its length in bytes.
    ///
    /// Stops before the byte that would make the head 16,384 bytes long, so the head neither ends nor becomes
    /// too long. After `NoMemory` the part must not be used.
    pub fn take_run(&mut self, piece: &[u8]) -> Result<usize, NoMemory>
        ensures within { IfOk result (λ n. n ≤ length piece.now) }
        ensures holds { (bytes : List ℕ) → HoldsHead self.old bytes
            → IfOk result (λ n. HoldsHead self.new (bytes ++ take n piece.now)) }
    {
        let room = (MAX_BYTES - 1).saturating_sub(self.bytes.len());
        let count = line_length(&piece[..room.min(piece.len())]);
        self.bytes.extend_from_slice(&piece[..count])?;
        Ok(count)
    }
}
