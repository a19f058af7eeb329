//! Readers and a writer that fail at a given point.
use std::alloc::Global;
use std::io;
use std::io::{ErrorKind, Read, Write};

/// A reader that returns one byte at a time, and fails after the last byte.
#[derive(Drop)]
pub(crate) struct Trickle<'a> {
    pub(crate) bytes: &'a [u8],
}

impl<'a> Read for Trickle<'a> {
    fn read(&mut self, buf: &mut [u8]) -> io::Result<usize> {
        if buf.is_empty() {
            return Ok(0);
        }
        let Some((first, rest)) = self.bytes.split_first() else {
            return Err(ErrorKind::Other.into());
        };
        buf[0] = *first;
        self.bytes = rest;
        Ok(1)
    }
}

/// A reader that returns one byte at a time, and ends after the last byte. After `left` reads, the next read
/// fails.
#[derive(Drop)]
pub(crate) struct Drip<'a> {
    pub(crate) bytes: &'a [u8],
    pub(crate) left: usize,
}

impl<'a> Read for Drip<'a> {
    fn read(&mut self, buf: &mut [u8]) -> io::Result<usize> {
        if self.left == 0 {
            return Err(ErrorKind::Other.into());
        }
        self.left -= 1;
        if buf.is_empty() {
            return Ok(0);
        }
        let Some((first, rest)) = self.bytes.split_first() else {
            return Ok(0);
        };
        buf[0] = *first;
        self.bytes = rest;
        Ok(1)
    }
}

/// A writer that takes at most `step` bytes at a call. The call with the number `failing`, counted from 0,
/// fails with `kind`. Later calls take bytes again.
#[derive(Drop)]
pub(crate) struct Stutter {
    pub(crate) taken: Vec<u8>,
    step: usize,
    calls: u32,
    failing: u32,
    kind: ErrorKind,
}

impl Stutter {
    pub(crate) fn new(alloc: Global, step: usize, failing: u32, kind: ErrorKind) -> Stutter {
        Stutter {
            taken: Vec::new(alloc),
            step,
            calls: 0,
            failing,
            kind,
        }
    }
}

impl Write for Stutter {
    fn write(&mut self, buf: &[u8]) -> io::Result<usize> {
        let call = self.calls;
        self.calls = call.wrapping_add(1);
        if call == self.failing {
            return Err(self.kind.into());
        }
        let count = buf.len().min(self.step);
        self.taken.extend_from_slice(&buf[..count])?;
        Ok(count)
    }

    fn flush(&mut self) -> io::Result<()> {
        Ok(())
    }
}

/// A reader that returns one empty line at each of the next `left` reads, and then ends.
#[derive(Drop)]
pub(crate) struct EmptyLines {
    pub(crate) left: u32,
}

impl Read for EmptyLines {
    fn read(&mut self, buf: &mut [u8]) -> io::Result<usize> {
        if self.left == 0 || buf.len() < 2 {
            return Ok(0);
        }
        self.left -= 1;
        buf[0] = b'\r';
        buf[1] = b'\n';
        Ok(2)
    }
}
