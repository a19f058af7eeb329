//! The faults of token files.
use thiserror::Error;

/// The fault of a line of a token file. The variants are in the order in which they are checked.
#[derive(Clone, Copy, Debug, PartialEq, Eq, Error)]
pub enum LineFault {
    /// The line has no space.
    #[error("no space")]
    BadLine,
    /// The text before the first space isn't a valid client name.
    #[error("client")]
    BadName,
    /// The text after the first space isn't 64 hex digits.
    #[error("digest")]
    BadDigest,
    /// An earlier line has the same digest.
    #[error("digest of an earlier line")]
    Twice,
    /// The lines before this one already have 10,000 tokens.
    #[error("too many tokens")]
    TooMany,
}

/// The number of the first faulty line of a token file, counted from 1, and the fault of that line.
#[derive(Clone, Copy, Debug, PartialEq, Eq, Error)]
#[error("line {line}: {cause}")]
pub struct TokenFault {
    pub line: usize,
    pub cause: LineFault,
}
