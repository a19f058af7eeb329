//! Prints the replies to the administrator (RFC 9112 sections 4 and 7.1).
ghost use Rattle.std.specs.Prelude.{◌≡◌, ◌++◌, IfOk, OnOk, codes, length, string_bytes};
ghost use Rattle.std.specs.Option.{option_copied};
ghost use Rattle.scim_wire.specs.Replies.{line, option_line, optional_line};
ghost use Rattle.scim_admin_text.specs.Replies as spec;

use scim_text::NoMemory;
use std::alloc::Global;

/// The status of a reply to the administrator (RFC 9110 section 15).
#[derive(Clone, Copy, Debug, PartialEq, Eq)]
pub enum Status {
    /// 200: the request was carried out.
    Ok,
    /// 400: the request isn't valid.
    BadRequest,
    /// 401: the request has no token of an administrator.
    Unauthorized,
    /// 404: there is no such endpoint or resource.
    NotFound,
    /// 405: the endpoint doesn't allow the method.
    MethodNotAllowed,
    /// 409: the files don't fit the server that runs.
    Conflict,
    /// 413: the body of the request is too long.
    ContentTooLarge,
    /// 500: memory ran out, or the store can't be read.
    InternalServerError,
    /// 501: the transfer coding of the request is unknown.
    NotImplemented,
    /// 503: the server can't do this now.
    ServiceUnavailable,
}

impl Status {
    /// Returns the code and the reason phrase.
    fn text(self) -> &'static str
        ensures { result.now ≡ spec.status_text self }
    {
        match self {
            Status::Ok => "200 OK",
            Status::BadRequest => "400 Bad Request",
            Status::Unauthorized => "401 Unauthorized",
            Status::NotFound => "404 Not Found",
            Status::MethodNotAllowed => "405 Method Not Allowed",
            Status::Conflict => "409 Conflict",
            Status::ContentTooLarge => "413 Payload Too Large",
            Status::InternalServerError => "500 Internal Server Error",
            Status::NotImplemented => "501 Not Implemented",
            Status::ServiceUnavailable => "503 Service Unavailable",
        }
    }
}

/// How the body of a reply is framed (RFC 9112 section 6).
#[derive(Clone, Copy)]
pub enum Body {
    /// The body has this length.
    Length(usize),
    /// The body comes in chunks.
    Chunks,
    /// The body ends with the connection.
    UntilClose,
}

/// The head of a reply.
#[derive(Clone, Copy)]
pub struct Head<'a> {
    /// The status.
    pub status: Status,
    /// The media type of the body.
    pub content: &'a str,
    /// How the body is framed.
    pub body: Body,
    /// The allowed method, for `Allow`.
    pub allow: Option<&'a str>,
    /// Whether the reply asks for a bearer token with `WWW-Authenticate` (RFC 6750 section 3).
    pub asks_for_token: bool,
    /// Whether the reply has the header `Connection: close`.
    pub closes: bool,
}

/// Appends a header line.
fn add_line(text: &mut String, name: &str, value: &str) -> Result<(), NoMemory>
    ensures { OnOk result (string_bytes text.new ≡ string_bytes text.old
        ++ line name.now value.now) }
{
    text.push_str(name)?;
    text.push_str(": ")?;
    text.push_str(value)?;
    Ok(text.push_str("\r\n")?)
}

/// Appends a header line if there is a value.
fn add_option(text: &mut String, name: &str, value: Option<&str>) -> Result<(), NoMemory>
    ensures { OnOk result (string_bytes text.new ≡ string_bytes text.old
        ++ option_line name.now (option_copied value.entry)) }
{
    match value {
        Some(value) => add_line(text, name, value),
        None => Ok(()),
    }
}

/// Appends a header line if `due` is true.
fn add_if(text: &mut String, due: bool, name: &str, value: &str) -> Result<(), NoMemory>
    ensures { OnOk result (string_bytes text.new ≡ string_bytes text.old
        ++ optional_line due name.now value.now) }
{
    if due {
        add_line(text, name, value)
    } else {
        Ok(())
    }
}

/// Appends the header line that frames the body, if there is one.
fn add_framing(alloc: Global, text: &mut String, body: Body) -> Result<(), NoMemory>
    ensures { OnOk result (string_bytes text.new
        ≡ string_bytes text.old ++ spec.framing_line body) }
{
    match body {
        Body::Length(length) => {
            let length = format!(in alloc; "{length}")?;
            add_line(text, "Content-Length", length.as_str())
        }
        Body::Chunks => add_line(text, "Transfer-Encoding", "chunked"),
        Body::UntilClose => Ok(()),
    }
}

/// Returns the head of a reply (RFC 9112 section 4): status line, headers and empty line.
pub fn head_text(alloc: Global, head: &Head<'_>) -> Result<String, NoMemory>
    ensures { IfOk result (λ text. string_bytes text ≡ spec.head_text head.now) }
{
    let mut text = String::from_str(alloc, "HTTP/1.1 ")?;
    text.push_str(head.status.text())?;
    text.push_str("\r\n")?;
    add_line(&mut text, "Content-Type", head.content)?;
    add_framing(alloc, &mut text, head.body)?;
    add_option(&mut text, "Allow", head.allow)?;
    add_if(&mut text, head.asks_for_token, "WWW-Authenticate", "Bearer")?;
    add_if(&mut text, head.closes, "Connection", "close")?;
    text.push_str("\r\n")?;
    Ok(text)
}

/// Appends a piece of a body as one chunk (RFC 9112 section 7.1). An empty piece adds nothing, since an empty
/// chunk would end the body.
pub fn add_chunk(alloc: Global, text: &mut String, piece: &str) -> Result<(), NoMemory>
    ensures { OnOk result (string_bytes text.new ≡ string_bytes text.old ++ spec.chunk piece.now) }
{
    if piece.is_empty() {
        return Ok(());
    }
    let length = piece.len();
    let size = format!(in alloc; "{length:x}\r\n")?;
    text.push_str(size.as_str())?;
    text.push_str(piece)?;
    Ok(text.push_str("\r\n")?)
}

/// The text that ends a body in chunks: the last chunk and no trailers (RFC 9112 section 7.1).
pub fn last_chunk() -> &'static str
    ensures { result.now ≡ spec.last_chunk }
{
    "0\r\n\r\n"
}

/// Returns a whole reply with this body, whose head `head` describes but for the length.
pub fn whole_reply(alloc: Global, head: &Head<'_>, body: &str) -> Result<String, NoMemory>
    ensures { IfOk result (λ text. string_bytes text ≡ spec.whole_reply head.now body.now) }
{
    let head = Head {
        body: Body::Length(body.len()),
        ..*head
    };
    let mut text = head_text(alloc, &head)?;
    text.push_str(body)?;
    Ok(text)
}
