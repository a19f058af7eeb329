//! The contents of a request's head.
use crate::body_framing::Framing;
use crate::octets::Octets;

/// The parts of a request's head that the server uses (RFC 9112 sections 2 to 6).
#[derive(Drop)]
pub struct MessageHead {
    pub method: Octets,
    pub target: Octets,
    pub token: Option<Octets>,
    pub framing: Framing,
    /// Whether the connection closes after the reply.
    pub close: bool,
    /// Whether the client may wait for 100 (Continue) before it sends the body, if the request has one.
    pub expects_continue: bool,
}
