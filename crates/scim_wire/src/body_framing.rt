//! How the headers of a request frame its body (RFC 9112 section 6).
ghost use Rattle.std.specs.Prelude.{◌≡◌, ◌+◌, map, false};
ghost use Rattle.std.specs.List.{list_any};
ghost use Rattle.scim_text.specs.Failures.{UnlessMemory};
ghost use Rattle.scim_wire.specs.Headers.{header_parts, texts};
ghost use Rattle.scim_wire.specs.Bodies.{has_body};
ghost use Rattle.scim_wire.specs.Framings.{is_over_limit, framing, number_up_to, framing_by};

use crate::headers::{Header, same_name, values_named};
use scim_audit::Refusal;
use scim_schema::MAX_BODY;
use scim_text::Failed;
use std::alloc::Global;

/// How a body is framed (RFC 9112 section 6).
#[derive(Clone, Copy, PartialEq, Eq)]
pub enum Framing {
    /// The body has this many bytes.
    Sized(u64),
    /// The body is in chunks (RFC 9112 section 7.1).
    Chunked,
}

impl Framing {
    /// Whether a body follows the head: the body is chunked, or it has at least one byte.
    pub fn has_body(self) -> bool
        ensures { result ≡ has_body self }
    {
        match self {
            Framing::Sized(length) => length > 0,
            Framing::Chunked => true,
        }
    }
}

/// Parses a decimal number. Returns `MAX_BODY + 1` if the number is larger than that, and `None` if the bytes
/// aren't one or more digits.
fn number(digits: &[u8]) -> Option<u64>
    ensures { result ≡ number_up_to (MAX_BODY + 1) digits.now }
{
    if digits.is_empty() {
        return None;
    }
    let mut number: u64 = 0;
    for digit in digits {
        if !digit.is_ascii_digit() {
            return None;
        }
        number = (number * 10 + u64::from(*digit - b'0')).min(MAX_BODY + 1);
    }
    Some(number)
}

/// Whether the bytes are the digits of a number above [`MAX_BODY`].
fn is_over_limit(digits: &[u8]) -> bool
    ensures { result ≡ is_over_limit digits.now }
{
    number(digits).is_some_and(|n| n > MAX_BODY)
}

/// Whether any of the lengths is above [`MAX_BODY`].
fn any_over_limit(lengths: &[&[u8]]) -> bool
    ensures { result ≡ list_any is_over_limit (texts lengths.now) }
{
    for length in lengths {
        if is_over_limit(length) {
            return true;
        }
    }
    false
}

/// Returns the framing for these values of `Content-Length`, which aren't above [`MAX_BODY`], and these
/// values of `Transfer-Encoding`. Fails with `UnknownCoding` if the only value is a `Transfer-Encoding` other
/// than `chunked`. Fails with `BadFraming` if there are several values, or if the `Content-Length` isn't a
/// number.
fn framing_by(lengths: &[&[u8]], codings: &[&[u8]]) -> Result<Framing, Refusal>
    requires { list_any is_over_limit (texts lengths.now) ≡ false }
    ensures { result ≡ framing_by (texts lengths.now) (texts codings.now) }
{
    match (lengths, codings) {
        ([], []) => Ok(Framing::Sized(0)),
        ([length], []) => number(length)
            .map(Framing::Sized)
            .ok_or(Refusal::BadFraming),
        ([], [coding]) if same_name(coding, b"chunked") => Ok(Framing::Chunked),
        ([], [_]) => Err(Refusal::UnknownCoding),
        _ => Err(Refusal::BadFraming),
    }
}

/// Returns the framing of the body that follows these headers.
///
/// Fails with `TooLarge` if a `Content-Length` is above [`MAX_BODY`]. Otherwise fails with `UnknownCoding` if
/// the only framing header is one `Transfer-Encoding` other than `chunked`, and with `BadFraming` if there
/// are several framing headers or the `Content-Length` isn't a number (RFC 9112 section 6.3).
pub fn framing_of(alloc: Global, headers: &[Header<'_>]) -> Result<Framing, Failed<Refusal>>
    ensures { UnlessMemory (λ r. r ≡ framing (map header_parts headers.now)) result }
{
    let lengths = values_named(alloc, headers, b"content-length")?;
    let codings = values_named(alloc, headers, b"transfer-encoding")?;
    if any_over_limit(lengths.as_slice()) {
        return Err(Failed::Because(Refusal::TooLarge));
    }
    match framing_by(lengths.as_slice(), codings.as_slice()) {
        Ok(framing) => Ok(framing),
        Err(refusal) => Err(Failed::Because(refusal)),
    }
}
