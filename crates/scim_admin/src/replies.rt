//! Replies to the administrator.
ghost use Rattle.std.specs.Prelude.{◌≡◌, ℕ, List, not, IfOk, string_bytes};
ghost use Rattle.scim_admin.specs.Replies.{IsUnauthorized, Says, Streams, status_of};
ghost use Rattle.scim_admin_text.specs.declared.refusals.AdminRefusal.{AdminRefusal};

use crate::jobs::Job;
use scim_admin_text::{AdminRefusal, Body, Head, Status, head_text, whole_reply};
use scim_text::NoMemory;
use std::alloc::Global;

/// The media type of a text for people.
const TEXT: &str = "text/plain; charset=utf-8";

/// A reply to the administrator.
#[derive(Drop)]
pub(crate) struct Reply {
    /// The whole reply, or the head of a reply whose body is sent in pieces.
    pub(crate) text: String,
    /// What sends the body in pieces.
    pub(crate) job: Option<Job>,
    /// Whether the connection closes after the reply.
    pub(crate) closes: bool,
}

/// Returns a reply with this body, and with the header `Allow` if there is a method to name.
fn whole(
    alloc: Global,
    status: Status,
    allow: Option<&str>,
    closes: bool,
    body: &str,
) -> Result<Reply, NoMemory>
    ensures says { IfOk result (Says status body.now) }
    ensures closing { IfOk result (λ reply. reply.closes ≡ closes) }
{
    let head = Head {
        status,
        content: TEXT,
        body: Body::UntilClose,
        allow,
        asks_for_token: status == Status::Unauthorized,
        closes,
    };
    let text = whole_reply(alloc, &head, body)?;
    Ok(Reply {
        text,
        job: None,
        closes,
    })
}

/// Returns a reply with this body.
pub(crate) fn plain(
    alloc: Global,
    status: Status,
    closes: bool,
    body: &str,
) -> Result<Reply, NoMemory>
    ensures says { IfOk result (Says status body.now) }
    ensures closing { IfOk result (λ reply. reply.closes ≡ closes) }
{
    whole(alloc, status, None, closes, body)
}

/// Returns the head of a reply whose body the job sends, with this media type. The body comes in chunks, or
/// ends with the connection if the request closes it.
pub(crate) fn streamed(
    alloc: Global,
    content: &str,
    closes: bool,
    job: Job,
) -> Result<Reply, NoMemory>
    ensures streams { job.is_chunked ≡ not closes
        → IfOk result (λ reply. Streams content.now closes reply job) }
    ensures closing { IfOk result (λ reply. reply.closes ≡ closes) }
{
    let head = Head {
        status: Status::Ok,
        content,
        body: if closes {
            Body::UntilClose
        } else {
            Body::Chunks
        },
        allow: None,
        asks_for_token: false,
        closes,
    };
    let text = head_text(alloc, &head)?;
    Ok(Reply {
        text,
        job: Some(job),
        closes,
    })
}

/// Returns the reply to a request that isn't carried out.
pub(crate) fn refused(alloc: Global, refusal: AdminRefusal, closes: bool) -> Result<Reply, NoMemory>
    ensures token { refusal ≡ AdminRefusal.NoToken
        → IfOk result (λ reply. IsUnauthorized (string_bytes reply.text)) }
    ensures says { IfOk result (λ reply. (body : List ℕ) × Says (status_of refusal) body reply) }
    ensures closing { IfOk result (λ reply. reply.closes ≡ closes) }
{
    match refusal {
        AdminRefusal::NoToken => plain(alloc, Status::Unauthorized, closes, NO_TOKEN),
        AdminRefusal::NoEndpoint => plain(alloc, Status::NotFound, closes, "no such endpoint\n"),
        AdminRefusal::BadMethod(endpoint) => whole(
            alloc,
            Status::MethodNotAllowed,
            Some(endpoint.method()),
            closes,
            "method not allowed\n",
        ),
        AdminRefusal::UnknownParameter => {
            plain(alloc, Status::BadRequest, closes, "unknown parameter\n")
        }
        AdminRefusal::BadValue(parameter) => {
            let name = parameter.name();
            let body = format!(in alloc; "bad value of parameter: {name}\n")?;
            plain(alloc, Status::BadRequest, closes, body.as_str())
        }
    }
}

/// The body of a reply to a request without a token of an administrator.
const NO_TOKEN: &str = "no token of an administrator\n";
