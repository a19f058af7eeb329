//! Cuts the bytes of a stream into pieces, and finds which part of a message the stream is in.
ghost use Rattle.std.specs.Prelude.{◌≡◌, ◌≤◌, length};

/// The least length of a request that keeps its connection open. A piece is cut behind an empty line only
/// from this length on, so that a stream of empty lines isn't cut into pieces of a byte or two.
const SHORTEST: usize = 16;

/// The current line of a stream.
#[derive(Clone, Copy, PartialEq, Eq)]
enum Line {
    /// The line has no bytes.
    Empty,
    /// The line has only a carriage return.
    Return,
    /// The line has other bytes.
    Text,
}

impl Line {
    /// Returns the line after a further byte.
    fn after(self, byte: u8) -> Line {
        match byte {
            b'\n' => Line::Empty,
            b'\r' if self == Line::Empty => Line::Return,
            _ => Line::Text,
        }
    }
}

/// The part of a message that a stream is in.
#[derive(Clone, Copy, PartialEq, Eq)]
pub(crate) enum Part {
    /// No message has begun: only empty lines came since the last reply was begun.
    Between,
    /// A head has begun.
    Head,
    /// The first empty line behind the head has come.
    Body,
}

/// What the bytes of a stream so far show of the message that it is in.
///
/// It knows nothing of the length of a body: a body lasts until the server begins the reply.
#[derive(Clone, Copy)]
pub(crate) struct Scan {
    line: Line,
    part: Part,
}

impl Scan {
    /// Returns the state before the first byte of a stream.
    pub(crate) fn new() -> Scan {
        Scan {
            line: Line::Empty,
            part: Part::Between,
        }
    }

    /// Returns the part of the message that the stream is in.
    pub(crate) fn part(self) -> Part
        ensures { result ≡ self.part }
    {
        self.part
    }

    /// Notes that the reply to the message was begun: the next byte that isn't part of an empty line begins
    /// another message.
    pub(crate) fn end_message(&mut self) {
        *self = Scan::new();
    }

    /// Notes that the client may send the body of the message now.
    pub(crate) fn begin_body(&mut self) {
        self.part = Part::Body;
    }

    /// Reads the next piece of the stream from the start of `bytes`, and returns its length.
    ///
    /// The piece ends with the first empty line that ends at or behind its sixteenth byte, or with the last
    /// of the bytes. So the heads of two requests that keep a connection open don't end in one piece.
    pub(crate) fn cut(&mut self, bytes: &[u8]) -> usize
        ensures { result ≤ length bytes.now }
    {
        for (index, byte) in bytes.iter().enumerate() {
            let ends = self.read(*byte);
            if ends && index + 1 >= SHORTEST {
                return index + 1;
            }
        }
        bytes.len()
    }

    /// Reads a byte, and returns whether it ends an empty line.
    fn read(&mut self, byte: u8) -> bool {
        let ends = byte == b'\n' && self.line != Line::Text;
        self.line = self.line.after(byte);
        self.part = match self.part {
            Part::Between if self.line == Line::Text => Part::Head,
            Part::Head if ends => Part::Body,
            part => part,
        };
        ends
    }
}
