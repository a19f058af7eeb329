//! HTTP/1.1 for SCIM (RFC 9112): reads requests from a byte stream, prints replies and writes texts to a
//! stream.
#![tactic(auto)]

mod bearer_tokens;
mod body_framing;
mod chunk_faults;
mod chunk_laws;
mod chunk_lines;
mod chunked;
mod connection_headers;
mod head_ends;
mod head_parsing;
mod head_parts;
mod head_steps;
mod head_texts;
mod headers;
mod laws;
mod message_heads;
mod messages;
mod octets;
mod replies;
mod state_steps;
mod states;
mod stream_writing;
mod trailers;
mod wires;

pub use chunk_laws::chunked_bodies_are_read_in_one_way;
pub use laws::streams_are_read_in_one_way;
pub use messages::{Item, Message};
pub use octets::Octets;
pub use replies::{HttpReply, ReplyForm, print_reply};
pub use stream_writing::write_text;
pub use wires::Wire;
