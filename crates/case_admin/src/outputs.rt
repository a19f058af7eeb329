//! The outputs of a server, as lines of text.
use case_values::{CaseFault, push_all, shown};
use std::alloc::Global;

/// The outputs of a server so far, as lines in the format of `replay`.
#[derive(Drop)]
pub(crate) struct Outputs {
    alloc: Global,
    /// The lines that are complete.
    lines: String,
    /// The number of the connection that was written to last, if its line isn't complete, and its bytes.
    connection: Option<u64>,
    bytes: Vec<u8>,
}

impl Outputs {
    /// Returns no outputs.
    pub(crate) fn new(alloc: Global) -> Outputs {
        Outputs {
            alloc,
            lines: String::new(alloc),
            connection: None,
            bytes: Vec::new(alloc),
        }
    }

    /// Notes that bytes were written to a connection. Bytes that are written to one connection without another
    /// output between them get one line.
    pub(crate) fn write(&mut self, connection: u64, bytes: &[u8]) -> Result<(), CaseFault> {
        if self.connection != Some(connection) {
            self.end_line()?;
            self.connection = Some(connection);
        }
        Ok(self.bytes.extend_from_slice(bytes)?)
    }

    /// Notes that a connection was closed.
    pub(crate) fn close(&mut self, connection: u64) -> Result<(), CaseFault> {
        self.end_line()?;
        let number = shown(self.alloc, &connection)?;
        push_all(&mut self.lines, &["close ", number.as_str(), "\n"])
    }

    /// Appends a line: a word, and what follows it.
    pub(crate) fn push(&mut self, word: &str, rest: &str) -> Result<(), CaseFault> {
        self.end_line()?;
        push_all(&mut self.lines, &[word, rest, "\n"])
    }

    /// Completes the line of the bytes that were written last.
    fn end_line(&mut self) -> Result<(), CaseFault> {
        let Some(connection) = self.connection else {
            return Ok(());
        };
        let number = shown(self.alloc, &connection)?;
        let digits = hex::encode(self.alloc, self.bytes.as_slice())?;
        self.connection = None;
        self.bytes.clear();
        push_all(
            &mut self.lines,
            &["write ", number.as_str(), " ", digits.as_str(), "\n"],
        )
    }

    /// Returns the lines.
    pub(crate) fn finish(self) -> Result<String, CaseFault> {
        let mut outputs = self;
        outputs.end_line()?;
        let Outputs { lines, .. } = outputs;
        Ok(lines)
    }
}
