//! A log of whole lines.
ghost use Rattle.std.specs.Prelude.{◌≤◌, length};

use std::alloc::{AllocError, Global};
use std::io::Write;

/// A log to which lines are appended, over a writer. The writer takes the accepted lines in order, each with its
/// line feed and each whole before the next: if it takes a part of a line, or fails, the rest of the line is
/// written before the next one.
#[derive(Drop)]
pub struct LineLog<W> {
    writer: W,
    // The line that was accepted last, with its line feed, and how many of its bytes the writer took.
    line: Vec<u8>,
    written: usize,
    ghost fits: { written ≤ length line.items },
}

impl<W: Write> LineLog<W> {
    ghost use Rattle.std.specs.Prelude.{◌≡◌, [], ◌∷◌, ◌++◌, OnOk, OnErr, IsTrue, IsFalse};
    ghost use Rattle.scim_line_log.specs.LineLogs.{Takes, rest_of, writer_of};

    /// Returns a log over a writer, to which nothing is written yet.
    pub fn new(alloc: Global, writer: W) -> LineLog<W>
        ensures writer { writer_of result ≡ writer }
        ensures rest { rest_of result ≡ [] }
    {
        LineLog {
            writer,
            line: Vec::new(alloc),
            written: 0,
        }
    }

    /// Appends a line, given without its line feed, and returns whether it is accepted. It isn't if the writer
    /// doesn't take the rest of the last line, or if memory runs out. An accepted line that the writer doesn't
    /// take whole is kept until the next call.
    pub fn append(&mut self, line: &str) -> bool
        ensures accepted { IsTrue result
            → Takes W.contents (line.now ++ 10 ∷ []) self.old self.new }
        ensures lost { IsFalse result → Takes W.contents [] self.old self.new }
    {
        if !self.write_rest() {
            return false;
        }
        if self.set_line(line).is_err() {
            return false;
        }
        let _is_whole = self.write_rest();
        true
    }

    /// Makes this the line that is to be written. If memory runs out, there is nothing to be written.
    fn set_line(&mut self, line: &str) -> Result<(), AllocError>
        requires { rest_of self.old ≡ [] }
        ensures same { writer_of self.new ≡ writer_of self.old }
        ensures ok { OnOk result (rest_of self.new ≡ line.now ++ 10 ∷ []) }
        ensures err { OnErr result (rest_of self.new ≡ []) }
    {
        self.written = 0;
        self.line.clear();
        self.line.reserve(line.len() + 1)?;
        self.line.extend_from_slice(line.as_bytes())?;
        self.line.push(b'\n')?;
        Ok(())
    }

    /// Writes the rest of the last line, and returns whether all of it was written.
    fn write_rest(&mut self) -> bool
        ensures takes { Takes W.contents [] self.old self.new }
        ensures whole { IsTrue result → rest_of self.new ≡ [] }
    {
        for _ in 0..u64::MAX {
            if self.written == self.line.len() {
                return true;
            }
            match self.writer.write(&self.line[self.written..]) {
                Ok(0) | Err(_) => return false,
                Ok(count) => self.written += count,
            }
        }
        false
    }
}
