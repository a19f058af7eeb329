//! Parses the text of a request's head.
ghost use Rattle.std.specs.Prelude.{◌≡◌, length, map, All, IfOk};
ghost use Rattle.httparse.specs.Spans.{IsHeaderWithin, header_bytes};
ghost use Rattle.scim_text.specs.Failures.{UnlessMemory};
ghost use Rattle.scim_wire.specs.Headers.{header_parts};
ghost use Rattle.scim_wire.specs.MessageHeads.{ReadsMessage};

use crate::bearer_tokens::token_of;
use crate::body_framing::framing_of;
use crate::connection_headers::{expects_continue, says_close};
use crate::head_texts::spans_of;
use crate::headers::Header;
use crate::message_heads::MessageHead;
use crate::octets::Octets;
use httparse::spans::{EMPTY_HEADER_SPAN, HeaderSpan};
use scim_audit::Refusal;
use scim_text::{Failed, NoMemory, push};
use std::alloc::Global;

/// Returns the headers at these positions in the text.
fn headers_at<'b>(
    alloc: Global,
    text: &'b [u8],
    spans: &[HeaderSpan],
) -> Result<Vec<Header<'b>>, NoMemory>
    requires { All (IsHeaderWithin (length text.now)) spans.now }
    ensures { IfOk result (λ v. map header_parts v.items ≡ map (header_bytes text.now) spans.now) }
{
    let mut headers = Vec::new(alloc);
    for span in spans {
        let header = Header {
            name: span.name.of(text),
            value: span.value.of(text),
        };
        push(&mut headers, header)?;
    }
    Ok(headers)
}

/// Parses the text of a head (RFC 9112 sections 2 to 6).
///
/// Fails with `BadHead` if the text isn't a request line with at most 64 headers. Otherwise fails with the
/// error of [`framing_of`], if any: `TooLarge`, `BadFraming` or `UnknownCoding`.
pub fn parse_message_head(alloc: Global, text: &[u8]) -> Result<MessageHead, Failed<Refusal>>
    ensures { UnlessMemory (ReadsMessage text.now) result }
{
    let mut headers = [EMPTY_HEADER_SPAN; 64];
    let Some(spans) = spans_of(text, &mut headers) else {
        return Err(Failed::Because(Refusal::BadHead));
    };
    let headers = headers_at(alloc, text, &headers[..spans.headers])?;
    let framing = framing_of(alloc, headers.as_slice())?;
    let close = spans.version == 0 || says_close(headers.as_slice());
    let expects_continue = spans.version == 1 && expects_continue(headers.as_slice());
    let token = token_of(alloc, headers.as_slice())?;
    let method = Octets::copied(alloc, spans.method.of(text))?;
    let target = Octets::copied(alloc, spans.path.of(text))?;
    Ok(MessageHead {
        method,
        target,
        token,
        framing,
        close,
        expects_continue,
    })
}
