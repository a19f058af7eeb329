//! Reads a chunk line byte by byte (RFC 9112 section 7.1).
ghost use Rattle.std.specs.Prelude.{◌≡◌, ◌↔◌, ℕ, List, [], ◌∷◌};
ghost use Rattle.httparse.specs.Ascii.{line_feed};
ghost use Rattle.scim_wire.specs.Chunked.{IsLineOf};
ghost use Rattle.scim_wire.specs.code.ChunkLines.{IsRestOfExtension, IsRestOfPad, IsRestOfDigits, IsRestOfSize, IsRest, IsFree, ByteLeads, GoesOn, Steps, least};

use httparse::{is_space_or_tab, parse_hex_digit};

/// The maximum number of digits of a size.
const MAX_DIGITS: u32 = 16;

/// The maximum length of a chunk line in bytes, with its CR LF.
const MAX_BYTES: u32 = 1_024;

/// A position in a chunk line.
#[derive(Clone, Copy)]
pub enum LinePlace {
    /// Before the first digit of the size.
    Start,
    /// In the size, after its first digit.
    Digits,
    /// In the spaces and tabs after the size.
    Pad,
    /// In the extension, after its semicolon.
    Extension,
    /// After the CR at the end of the line.
    Return,
    /// After the line.
    End,
}

/// The state of reading a chunk line.
#[derive(Clone, Copy)]
pub struct LinePart {
    /// The current position.
    pub place: LinePlace,
    /// The number that the digits so far make.
    pub size: u64,
    /// The number of digits that may still follow.
    pub digits: u32,
    /// The number of bytes that may still follow.
    pub bytes: u32,
}

/// The result of reading one byte of a chunk line.
#[derive(Clone, Copy)]
pub enum LineStep {
    /// The line isn't finished.
    More(LinePart),
    /// The line is finished and has this size.
    Whole(u64),
    /// The byte makes the line invalid.
    Bad,
}

impl LinePlace {
    /// Returns the smallest number of bytes that can finish the line from here.
    fn least(self) -> u32
        ensures { result ≡ least self }
    {
        match self {
            LinePlace::Start => 3,
            LinePlace::Digits | LinePlace::Pad | LinePlace::Extension => 2,
            LinePlace::Return => 1,
            LinePlace::End => 0,
        }
    }
}

impl LinePart {
    /// Returns the state before the first byte of a chunk line.
    pub fn new() -> LinePart
        ensures rest { (size : ℕ) (text : List ℕ) → IsLineOf size text ↔ IsRest result size text }
        ensures goes_on { GoesOn result }
    {
        LinePart {
            place: LinePlace::Start,
            size: 0,
            digits: MAX_DIGITS,
            bytes: MAX_BYTES,
        }
    }

    /// Returns this state with its position replaced by `place`.
    fn at(self, place: LinePlace) -> LinePart
        ensures { result ≡ record self { place = place } }
    {
        LinePart { place, ..self }
    }

    /// Reads a digit of the size; `None` for any other byte, after 16 digits, and if the size exceeds 64 bits.
    fn in_size(self, byte: u8) -> Option<LinePart>
        ensures { ByteLeads (IsRestOfSize self.digits self.size) byte result }
    {
        let Some(digit) = parse_hex_digit(byte) else {
            return None;
        };
        if self.digits == 0 {
            return None;
        }
        if self.size > u64::MAX / 16 {
            return None;
        }
        Some(LinePart {
            place: LinePlace::Digits,
            size: self.size * 16 + digit,
            digits: self.digits - 1,
            bytes: self.bytes,
        })
    }

    /// Reads a byte after the digits of the size; `None` if the byte is invalid there.
    fn after_size(self, byte: u8) -> Option<LinePart>
        ensures { ByteLeads (λ size text. IsRestOfPad text × (size ≡ self.size)) byte result }
    {
        if is_space_or_tab(byte) {
            return Some(self.at(LinePlace::Pad));
        }
        if byte == b';' {
            return Some(self.at(LinePlace::Extension));
        }
        if byte == b'\r' {
            return Some(self.at(LinePlace::Return));
        }
        None
    }

    /// Reads a byte after the first digit of the size; `None` if the byte is invalid there.
    fn in_digits(self, byte: u8) -> Option<LinePart>
        ensures { ByteLeads (IsRestOfDigits self.digits self.size) byte result }
    {
        if byte.is_ascii_hexdigit() {
            return self.in_size(byte);
        }
        self.after_size(byte)
    }

    /// Reads a byte of the extension; `None` if the byte is invalid there.
    fn in_extension(self, byte: u8) -> Option<LinePart>
        ensures { ByteLeads (λ size text. IsRestOfExtension text × (size ≡ self.size)) byte result }
    {
        if byte == b'\r' {
            return Some(self.at(LinePlace::Return));
        }
        if byte == b'\n' {
            return None;
        }
        Some(self.at(LinePlace::Extension))
    }

    /// Reads the LF at the end of the line; `None` for any other byte.
    fn at_feed(self, byte: u8) -> Option<LinePart>
        ensures { ByteLeads
            (λ size text. (text ≡ line_feed ∷ []) × (size ≡ self.size)) byte result }
    {
        if byte == b'\n' {
            return Some(self.at(LinePlace::End));
        }
        None
    }

    /// Returns the state after one byte, ignoring the limit of bytes; `None` if the byte is invalid here.
    fn step(self, byte: u8) -> Option<LinePart>
        ensures { ByteLeads (IsFree self) byte result }
    {
        match self.place {
            LinePlace::Start => self.in_size(byte),
            LinePlace::Digits => self.in_digits(byte),
            LinePlace::Pad => self.after_size(byte),
            LinePlace::Extension => self.in_extension(byte),
            LinePlace::Return => self.at_feed(byte),
            LinePlace::End => None,
        }
    }

    /// Reads one byte. Returns `Bad` if the byte is invalid here, or if the line can't end within the limit of
    /// bytes.
    pub fn take(self, byte: u8) -> LineStep
        ensures { Steps self byte result }
    {
        let Some(next) = self.step(byte) else {
            return LineStep::Bad;
        };
        if next.place.least() >= self.bytes {
            return LineStep::Bad;
        }
        match next.place {
            LinePlace::End => LineStep::Whole(next.size),
            _ => LineStep::More(LinePart {
                bytes: self.bytes - 1,
                ..next
            }),
        }
    }
}
