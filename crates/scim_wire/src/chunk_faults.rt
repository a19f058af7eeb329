//! The faults of a chunked body.
use thiserror::Error;

/// Why a chunked body is refused.
#[derive(Clone, Copy, Debug, PartialEq, Eq, Error)]
pub enum BadChunks {
    /// The chunks have more than 1,048,576 bytes of data in total.
    #[error("the chunks of the body are too large together")]
    TooLarge,
    /// The bytes aren't a chunked body: a chunk line is invalid or longer than 1,024 bytes with its CR LF, no
    /// CR LF follows a chunk's data, or the trailers are invalid, have more than 64 headers, or are longer
    /// than 16,384 bytes with the empty line.
    #[error("not a chunked body")]
    Malformed,
}
