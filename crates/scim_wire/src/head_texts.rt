//! The positions of a head's parts in its text.
ghost use Rattle.std.specs.Prelude.{◌≡◌, length, IfSome, IfNone};
ghost use Rattle.httparse.specs.Spans.{IsRequestAt, IsRequestWithin};
ghost use Rattle.httparse.specs.Grammar.{RequestHead};
ghost use Rattle.scim_wire.specs.Heads.{IsRequestText};

use httparse::Status;
use httparse::spans::{HeaderSpan, RequestSpans, parse_request};

/// Parses the whole text as a head, and returns the positions of its parts.
///
/// Writes the positions of the headers to `headers`, which must have 64 entries. `None` if the text isn't a
/// request line with at most 64 headers.
pub fn spans_of(text: &[u8], headers: &mut [HeaderSpan]) -> Option<RequestSpans>
    requires { length headers.old ≡ 64 }
    ensures found { IfSome result (λ spans. (h : RequestHead) × IsRequestText text.now h
        × IsRequestAt text.now headers.new spans h) }
    ensures within { IfSome result (IsRequestWithin text.now headers.new) }
    ensures none { IfNone result ((h : RequestHead) → ¬ (IsRequestText text.now h)) }
{
    match parse_request(text, headers) {
        Ok(Status::Complete(spans)) if spans.len == text.len() => Some(spans),
        _ => None,
    }
}
