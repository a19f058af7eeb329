//! Prints a reply (RFC 9112 section 4).
ghost use Rattle.std.specs.Prelude.{◌≡◌, [], ◌++◌, unwrap_or, IfOk, OnOk, string_bytes};
ghost use Rattle.std.specs.Option.{option_copied};
ghost use Rattle.scim_wire.specs.Replies as spec;
ghost use Rattle.scim_wire.specs.Replies.{line, option_line, optional_line, phrase_of, status_line, said_by, reply_text};

use crate::messages::Message;
use http::StatusCode;
use scim_text::NoMemory;
use std::alloc::Global;

/// The reply to a request.
#[derive(Clone, Copy)]
pub struct HttpReply<'a> {
    /// The status code (RFC 9110 section 15), a number of three digits. Any other number is printed as it is,
    /// without a phrase. With 204 no `Content-Length` is printed, since the reply has no body. This is a
    /// plain number rather than a type of the crate `http`, so that callers don't depend on that crate.
    pub status: u16,
    /// The body, in JSON (RFC 7644 section 3.1).
    pub body: Option<&'a str>,
    /// The URI of the resource, for `Location`.
    pub location: Option<&'a str>,
    /// The allowed methods, for `Allow`.
    pub allow: Option<&'a str>,
    /// Whether the reply asks for a bearer token with `WWW-Authenticate` (RFC 6750 section 3).
    pub asks_for_token: bool,
}

/// How a reply is printed.
#[derive(Clone, Copy)]
pub struct ReplyForm {
    /// Whether the reply has the header `Connection: close`.
    pub closes: bool,
    /// Whether the reply ends with its head, as every reply to HEAD does (RFC 9110 section 9.3.2).
    pub omits_body: bool,
}

impl ReplyForm {
    /// Returns the form of a reply that doesn't omit its body. `closes` tells whether the reply has the
    /// header `Connection: close`.
    pub fn whole(closes: bool) -> ReplyForm
        ensures { result ≡ spec.whole_form closes }
    {
        ReplyForm {
            closes,
            omits_body: false,
        }
    }

    /// Returns the form of the reply to a message. The reply omits its body if the method is exactly `HEAD`.
    pub fn of(message: &Message) -> ReplyForm
        ensures { result ≡ spec.form_of message.now }
    {
        ReplyForm {
            closes: message.close,
            omits_body: message.method.as_slice() == b"HEAD".as_slice(),
        }
    }
}

/// Appends a header line.
fn push_line(text: &mut String, name: &str, value: &str) -> Result<(), NoMemory>
    ensures { OnOk result (string_bytes text.new ≡ string_bytes text.old
        ++ line name.now value.now) }
{
    text.push_str(name)?;
    text.push_str(": ")?;
    text.push_str(value)?;
    Ok(text.push_str("\r\n")?)
}

/// Appends a header line if there is a value.
fn push_option(text: &mut String, name: &str, value: Option<&str>) -> Result<(), NoMemory>
    ensures { OnOk result (string_bytes text.new ≡ string_bytes text.old
        ++ option_line name.now (option_copied value.entry)) }
{
    match value {
        Some(value) => push_line(text, name, value),
        None => Ok(()),
    }
}

/// Appends a header line if `due` is true.
fn push_if(text: &mut String, due: bool, name: &str, value: &str) -> Result<(), NoMemory>
    ensures { OnOk result (string_bytes text.new ≡ string_bytes text.old
        ++ optional_line due name.now value.now) }
{
    if due {
        push_line(text, name, value)
    } else {
        Ok(())
    }
}

/// Returns the text, or the empty text for `None`.
fn or_empty<'a>(text: Option<&'a str>) -> &'a str
    ensures { result.now ≡ unwrap_or (option_copied text.entry) [] }
{
    match text {
        Some(text) => text,
        None => "",
    }
}

/// Returns the reason phrase of a status code, or the empty text if it has none.
fn phrase_of(status: u16) -> &'static str
    ensures { result.now ≡ phrase_of status }
{
    match StatusCode::from_u16(status) {
        Ok(status) => or_empty(status.canonical_reason()),
        Err(_) => "",
    }
}

/// Returns the status line.
fn status_line(alloc: Global, status: u16) -> Result<String, NoMemory>
    ensures { IfOk result (λ text. string_bytes text ≡ status_line status) }
{
    let phrase = phrase_of(status);
    let text = format!(in alloc; "HTTP/1.1 {status} {phrase}\r\n")?;
    Ok(text)
}

/// Returns the head of a reply (RFC 9112 section 4): status line, headers and empty line.
fn head_text(alloc: Global, reply: &HttpReply<'_>, closes: bool) -> Result<String, NoMemory>
    ensures { IfOk result (λ text. string_bytes text ≡ spec.head_text (said_by reply.now) closes) }
{
    let length = format!(in alloc; "{}", or_empty(reply.body).len())?;
    let mut text = status_line(alloc, reply.status)?;
    push_if(
        &mut text,
        reply.body.is_some(),
        "Content-Type",
        "application/scim+json",
    )?;
    push_if(
        &mut text,
        reply.status != 204,
        "Content-Length",
        length.as_str(),
    )?;
    push_option(&mut text, "Location", reply.location)?;
    push_option(&mut text, "Allow", reply.allow)?;
    push_if(
        &mut text,
        reply.asks_for_token,
        "WWW-Authenticate",
        "Bearer",
    )?;
    push_if(&mut text, closes, "Connection", "close")?;
    text.push_str("\r\n")?;
    Ok(text)
}

/// Returns the text of a reply, printed in this form: its head, and its body unless the form omits it.
pub fn print_reply(
    alloc: Global,
    reply: &HttpReply<'_>,
    form: ReplyForm,
) -> Result<String, NoMemory>
    ensures { IfOk result (λ text. string_bytes text ≡ reply_text reply.now form) }
{
    let mut text = head_text(alloc, reply, form.closes)?;
    if !form.omits_body {
        text.push_str(or_empty(reply.body))?;
    }
    Ok(text)
}
