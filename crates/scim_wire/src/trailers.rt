//! Reads the trailers after the last chunk (RFC 9112 section 7.1.2).
ghost use Rattle.std.specs.Prelude.{◌≡◌, ◌↔◌, ℕ, List};
ghost use Rattle.scim_wire.specs.Chunked.{AreTrailers};
ghost use Rattle.scim_wire.specs.code.Trailers.{IsAfterFeed, IsRestAt, IsRestOfLines, IsRestOfName, IsRestOfValue, IsRest, IsFree, ByteLeads, GoesOn, Trails, least};

use httparse::{is_header_name_token, is_header_value_token};

/// The maximum number of headers in trailers.
const MAX_HEADERS: u32 = 64;

/// The maximum length of trailers in bytes, with the empty line.
const MAX_BYTES: u32 = 16_384;

/// A position in trailers.
#[derive(Clone, Copy)]
pub enum TrailerPlace {
    /// At the start of a line.
    LineStart,
    /// After the CR of the empty line.
    EmptyReturn,
    /// In the name of a header, after its first byte.
    Name,
    /// In the value of a header.
    Value,
    /// After the CR at the end of a header.
    Return,
    /// After the empty line.
    End,
}

/// The state of reading trailers.
#[derive(Clone, Copy)]
pub struct TrailerPart {
    /// The current position.
    pub place: TrailerPlace,
    /// The number of headers that may still begin.
    pub headers: u32,
    /// The number of bytes that may still follow.
    pub bytes: u32,
}

/// The result of reading one byte of trailers.
#[derive(Clone, Copy)]
pub enum Trailed {
    /// The trailers aren't finished.
    More(TrailerPart),
    /// The trailers are finished.
    Whole,
    /// The byte makes the trailers invalid.
    Bad,
}

impl TrailerPlace {
    /// Returns the smallest number of bytes that can finish the trailers from here.
    fn least(self) -> u32
        ensures { result ≡ least self }
    {
        match self {
            TrailerPlace::LineStart | TrailerPlace::EmptyReturn => 1,
            TrailerPlace::Name => 3,
            TrailerPlace::Value | TrailerPlace::Return => 2,
            TrailerPlace::End => 0,
        }
    }
}

impl TrailerPart {
    /// Returns the state before the first byte of trailers.
    pub fn new() -> TrailerPart
        ensures rest { (text : List ℕ) → AreTrailers text ↔ IsRest result text }
        ensures goes_on { GoesOn result }
    {
        TrailerPart {
            place: TrailerPlace::LineStart,
            headers: MAX_HEADERS,
            bytes: MAX_BYTES,
        }
    }

    /// Returns this state with its position replaced by `place`.
    fn at(self, place: TrailerPlace) -> TrailerPart
        ensures { result ≡ record self { place = place } }
    {
        TrailerPart { place, ..self }
    }

    /// Reads a byte at the start of a line; `None` if the byte is invalid there.
    fn at_line_start(self, byte: u8) -> Option<TrailerPart>
        ensures { ByteLeads (IsRestOfLines self.headers) byte result }
    {
        if byte == b'\r' {
            return Some(self.at(TrailerPlace::EmptyReturn));
        }
        if byte == b'\n' {
            return Some(self.at(TrailerPlace::End));
        }
        if self.headers == 0 || !is_header_name_token(byte) {
            return None;
        }
        Some(TrailerPart {
            place: TrailerPlace::Name,
            headers: self.headers - 1,
            bytes: self.bytes,
        })
    }

    /// Reads a byte in the name of a header, after its first byte; `None` if the byte is invalid there.
    fn in_name(self, byte: u8) -> Option<TrailerPart>
        ensures { ByteLeads (IsRestOfName self.headers) byte result }
    {
        if byte == b':' {
            return Some(self.at(TrailerPlace::Value));
        }
        if is_header_name_token(byte) {
            return Some(self.at(TrailerPlace::Name));
        }
        None
    }

    /// Reads a byte in the value of a header; `None` if the byte is invalid there.
    fn in_value(self, byte: u8) -> Option<TrailerPart>
        ensures { ByteLeads (IsRestOfValue self.headers) byte result }
    {
        if byte == b'\r' {
            return Some(self.at(TrailerPlace::Return));
        }
        if byte == b'\n' {
            return Some(self.at(TrailerPlace::LineStart));
        }
        if is_header_value_token(byte) {
            return Some(self.at(TrailerPlace::Value));
        }
        None
    }

    /// Reads a line feed and moves to `place`; `None` for any other byte.
    fn at_feed(self, byte: u8, place: TrailerPlace) -> Option<TrailerPart>
        ensures { ByteLeads (IsAfterFeed (IsRestAt place self.headers)) byte result }
    {
        if byte == b'\n' {
            return Some(self.at(place));
        }
        None
    }

    /// Returns the state after one byte, ignoring the limit of bytes; `None` if the byte is invalid here.
    fn step(self, byte: u8) -> Option<TrailerPart>
        ensures { ByteLeads (IsFree self) byte result }
    {
        match self.place {
            TrailerPlace::LineStart => self.at_line_start(byte),
            TrailerPlace::EmptyReturn => self.at_feed(byte, TrailerPlace::End),
            TrailerPlace::Name => self.in_name(byte),
            TrailerPlace::Value => self.in_value(byte),
            TrailerPlace::Return => self.at_feed(byte, TrailerPlace::LineStart),
            TrailerPlace::End => None,
        }
    }

    /// Reads one byte. Returns `Bad` if the byte is invalid here, or if the trailers can't end within the
    /// limit of bytes.
    pub fn take(self, byte: u8) -> Trailed
        ensures { Trails self byte result }
    {
        let Some(next) = self.step(byte) else {
            return Trailed::Bad;
        };
        if next.place.least() >= self.bytes {
            return Trailed::Bad;
        }
        match next.place {
            TrailerPlace::End => Trailed::Whole,
            _ => Trailed::More(TrailerPart {
                place: next.place,
                headers: next.headers,
                bytes: self.bytes - 1,
            }),
        }
    }
}
