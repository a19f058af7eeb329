//! The items that are read from a stream of requests.
use crate::octets::Octets;
use scim_audit::Refusal;

/// A whole request: the contents of its head, and its body.
#[derive(Drop)]
pub struct Message {
    /// The method, such as `GET`.
    pub method: Octets,
    /// The request target with its query, as in the request line.
    pub target: Octets,
    /// The bearer token in the header `Authorization`: the part of the value after the scheme `Bearer`, in
    /// any case, and one space (RFC 6750 section 2.1). `None` if there isn't exactly one such header, or if
    /// its scheme isn't `Bearer`.
    pub token: Option<Octets>,
    /// The body, at most 1,048,576 bytes; empty if the head announces no body.
    pub body: Octets,
    /// Whether the connection closes after the reply: the version is HTTP/1.0, or a header `Connection` has
    /// the option `close` (RFC 9112 sections 9.3 and 9.6).
    pub close: bool,
}

/// An item of a stream of requests.
#[derive(Drop)]
pub enum Item {
    /// The client waits for 100 (Continue) before it sends the body (RFC 9110 section 10.1.1).
    Continue,
    /// A whole request.
    Whole(Message),
    /// The bytes aren't a valid request. The refusal is `BadHead`, `TooLarge`, `BadFraming` or
    /// `UnknownCoding`. No item follows.
    Refused(Refusal),
}
