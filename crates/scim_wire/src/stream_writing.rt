//! Writes a text to a stream.
ghost use Rattle.std.specs.Prelude.{OnOk, OnErr};
ghost use Rattle.std.specs.Io.KnownBytes.{Appends};
ghost use Rattle.scim_wire.specs.Streams.{AppendsFront};

use std::io;
use std::io::{ErrorKind, Write};

/// Writes the whole text and nothing else. Doesn't flush the writer.
///
/// Repeats a write that a signal interrupted. Fails with the error of any other failed write, with
/// [`ErrorKind::WriteZero`] if the writer accepts no more bytes, or with [`ErrorKind::TimedOut`] after
/// `u64::MAX` writes. After an error, a prefix of the text has been written, perhaps empty or whole, and
/// nothing else.
pub fn write_text<W: Write>(text: &str, writer: &mut W) -> io::Result<()>
    ensures whole { OnOk result (Appends (W.contents writer.old) (W.contents writer.new) text.now) }
    ensures front { OnErr result (AppendsFront (W.contents writer.old)
        (W.contents writer.new) text.now) }
{
    let bytes = text.as_bytes();
    let mut written = 0;
    for _ in 0..u64::MAX {
        if written == bytes.len() {
            return Ok(());
        }
        match writer.write(&bytes[written..]) {
            Ok(0) => return Err(ErrorKind::WriteZero.into()),
            Ok(count) => written += count,
            Err(error) if error.kind() == ErrorKind::Interrupted => {}
            Err(error) => return Err(error),
        }
    }
    Err(ErrorKind::TimedOut.into())
}
