//! Reads a chunked body byte by byte (RFC 9112 section 7.1).
ghost use Rattle.std.specs.Prelude.{◌≡◌, ℕ, ◌<◌, ◌≤◌, List, [], ◌∷◌, ◌++◌, IfOk, length, take};
ghost use Rattle.scim_text.specs.Failures.{UnlessMemory};
ghost use Rattle.scim_wire.specs.Chunked.{HasChunks, IsLineOf};
ghost use Rattle.scim_wire.specs.ChunkParts.{StandsFor, Leads};
ghost use Rattle.scim_wire.specs.code.ChunkSteps.{StandsAt};

use crate::chunk_faults::BadChunks;
use crate::chunk_lines::{LinePart, LineStep};
use crate::trailers::{Trailed, TrailerPart};
use scim_schema::MAX_BODY;
use scim_text::{Failed, NoMemory};
use std::alloc::Global;

/// A position in a chunked body.
#[derive(Clone, Copy)]
enum Place {
    /// In a chunk line.
    Line(LinePart),
    /// In the data of a chunk, of which this many bytes are missing. CR LF follows the data.
    Data(u64),
    /// After the CR that follows a chunk's data.
    Return,
    /// In the trailers.
    Trailers(TrailerPart),
}

/// The part of a chunked body that was read so far.
///
/// Allocates memory only for the data received, not for the size that a chunk line announces. Each byte of a
/// chunk line and of the trailers takes constant time, and none of them is kept.
#[derive(Drop)]
pub struct ChunkedPart {
    place: Place,
    body: Vec<u8>,
}

/// The result of reading one byte.
#[derive(Drop)]
pub enum ChunkStep {
    /// The body isn't finished.
    More(ChunkedPart),
    /// The body is finished and has this content.
    Whole(Vec<u8>),
}

impl ChunkedPart {
    /// Returns the state before the first byte of a body.
    pub fn new(alloc: Global) -> ChunkedPart
        ensures { StandsFor result [] }
    {
        ChunkedPart {
            place: Place::Line(LinePart::new()),
            body: Vec::new(alloc),
        }
    }

    /// Reads one byte of the body. Chunk extensions and trailers are checked and dropped.
    ///
    /// Fails with [`BadChunks::Malformed`] at the first byte that can't continue a chunk line, the end of a
    /// chunk's data or the trailers. Fails with [`BadChunks::TooLarge`] at the end of a chunk line whose size
    /// would make the content exceed 1,048,576 bytes.
    pub fn take(self, byte: u8) -> Result<ChunkStep, Failed<BadChunks>>
        ensures { (bytes : List ℕ) → StandsFor self bytes
            → UnlessMemory (Leads (bytes ++ byte ∷ [])) result }
    {
        match self.place {
            Place::Line(part) => self.take_in_line(part, byte),
            Place::Data(0) => self.take_return(byte),
            Place::Data(left) => self.take_in_data(left, byte),
            Place::Return => self.take_feed(byte),
            Place::Trailers(part) => self.take_in_trailers(part, byte),
        }
    }

    /// Reads a prefix of `piece` that lies in the current chunk's data, and returns its length in bytes.
    ///
    /// Returns 0 outside a chunk's data. After `NoMemory` the part must not be used.
    pub fn take_run(&mut self, piece: &[u8]) -> Result<usize, NoMemory>
        ensures within { IfOk result (λ n. n ≤ length piece.now) }
        ensures stands { (bytes : List ℕ) → StandsFor self.old bytes
            → IfOk result (λ n. StandsFor self.new (bytes ++ take n piece.now)) }
    {
        let Place::Data(left) = self.place else {
            return Ok(0);
        };
        let count = piece.len().min(left as usize);
        self.body.extend_from_slice(&piece[..count])?;
        self.place = Place::Data(left - count as u64);
        Ok(count)
    }

    /// Reads a byte of a chunk line.
    fn take_in_line(mut self, part: LinePart, byte: u8) -> Result<ChunkStep, Failed<BadChunks>>
        ensures { (bytes : List ℕ) → StandsAt (Place.Line part) self.body.items bytes
            → UnlessMemory (Leads (bytes ++ byte ∷ [])) result }
    {
        match part.take(byte) {
            LineStep::More(next) => {
                self.place = Place::Line(next);
                Ok(ChunkStep::More(self))
            }
            LineStep::Whole(size) => self.after_line(size),
            LineStep::Bad => Err(Failed::Because(BadChunks::Malformed)),
        }
    }

    /// Returns the state after a whole chunk line with this size. Fails with [`BadChunks::TooLarge`] if the
    /// content would exceed 1,048,576 bytes.
    fn after_line(mut self, size: u64) -> Result<ChunkStep, Failed<BadChunks>>
        ensures { (bytes line : List ℕ) → HasChunks bytes self.body.items line → IsLineOf size line
            → UnlessMemory (Leads bytes) result }
    {
        let content = self.body.len() as u64;
        if content.saturating_add(size) > MAX_BODY {
            return Err(Failed::Because(BadChunks::TooLarge));
        }
        if size == 0 {
            self.place = Place::Trailers(TrailerPart::new());
            return Ok(ChunkStep::More(self));
        }
        self.place = Place::Data(size);
        Ok(ChunkStep::More(self))
    }

    /// Reads a byte of a chunk's data, of which `left` bytes are missing.
    fn take_in_data(mut self, left: u64, byte: u8) -> Result<ChunkStep, Failed<BadChunks>>
        requires { 0 < left }
        ensures { (bytes : List ℕ) → StandsAt (Place.Data left) self.body.items bytes
            → UnlessMemory (Leads (bytes ++ byte ∷ [])) result }
    {
        self.body.push(byte)?;
        self.place = Place::Data(left - 1);
        Ok(ChunkStep::More(self))
    }

    /// Reads the CR after a chunk's data. Fails with [`BadChunks::Malformed`] for any other byte.
    fn take_return(mut self, byte: u8) -> Result<ChunkStep, Failed<BadChunks>>
        ensures { (bytes : List ℕ) → StandsAt (Place.Data 0) self.body.items bytes
            → UnlessMemory (Leads (bytes ++ byte ∷ [])) result }
    {
        if byte != b'\r' {
            return Err(Failed::Because(BadChunks::Malformed));
        }
        self.place = Place::Return;
        Ok(ChunkStep::More(self))
    }

    /// Reads the LF after a chunk's data. Fails with [`BadChunks::Malformed`] for any other byte.
    fn take_feed(mut self, byte: u8) -> Result<ChunkStep, Failed<BadChunks>>
        ensures { (bytes : List ℕ) → StandsAt Place.Return self.body.items bytes
            → UnlessMemory (Leads (bytes ++ byte ∷ [])) result }
    {
        if byte != b'\n' {
            return Err(Failed::Because(BadChunks::Malformed));
        }
        self.place = Place::Line(LinePart::new());
        Ok(ChunkStep::More(self))
    }

    /// Reads a byte of the trailers.
    fn take_in_trailers(
        mut self,
        part: TrailerPart,
        byte: u8,
    ) -> Result<ChunkStep, Failed<BadChunks>>
        ensures { (bytes : List ℕ) → StandsAt (Place.Trailers part) self.body.items bytes
            → UnlessMemory (Leads (bytes ++ byte ∷ [])) result }
    {
        match part.take(byte) {
            Trailed::More(next) => {
                self.place = Place::Trailers(next);
                Ok(ChunkStep::More(self))
            }
            Trailed::Whole => Ok(ChunkStep::Whole(self.body)),
            Trailed::Bad => Err(Failed::Because(BadChunks::Malformed)),
        }
    }
}
