//! The bytes that a connection has read and not handed on.
ghost use Rattle.std.specs.Prelude.{◌≡◌, ◌≤◌, ◌↔◌, IsTrue, length, vec_len};

use crate::pieces::Scan;
use std::alloc::{AllocError, Global};

/// The bytes that were read and aren't handed on yet. It has no memory while it is empty.
#[derive(Drop)]
pub(crate) struct Held {
    bytes: Vec<u8>,
    // The number of bytes at the start of `bytes` that were handed on.
    start: usize,
    ghost within: { start ≤ vec_len bytes },
}

impl Held {
    /// Returns an empty buffer.
    pub(crate) fn new(alloc: Global) -> Held {
        Held {
            bytes: Vec::new(alloc),
            start: 0,
        }
    }

    /// Whether all bytes were handed on.
    pub(crate) fn is_empty(&self) -> bool
        ensures { IsTrue result ↔ self.now.start ≡ vec_len self.now.bytes }
    {
        self.start == self.bytes.len()
    }

    /// Holds the bytes in place of what was held. After an error the buffer is empty.
    pub(crate) fn hold(&mut self, bytes: &[u8]) -> Result<(), AllocError> {
        self.clear();
        if bytes.is_empty() {
            return Ok(());
        }
        self.bytes = Vec::from_slice(*self.bytes.allocator(), bytes)?;
        Ok(())
    }

    /// Moves the next piece to the start of `buffer`, and returns its length. The piece ends where `scan` cuts
    /// the stream, or at the end of `buffer`.
    pub(crate) fn give(&mut self, scan: &mut Scan, buffer: &mut [u8]) -> usize
        ensures { result ≤ length buffer.new }
    {
        let rest = &self.bytes[self.start..];
        let most = rest.len().min(buffer.len());
        let count = scan.cut(&rest[..most]);
        let front = &mut buffer[..count];
        front.copy_from_slice(&rest[..count]);
        self.start += count;
        if self.start == self.bytes.len() {
            self.clear();
        }
        count
    }

    /// Drops the bytes, and frees their memory.
    pub(crate) fn clear(&mut self)
        ensures { self.new.start ≡ 0 }
    {
        self.bytes = Vec::new(*self.bytes.allocator());
        self.start = 0;
    }
}
