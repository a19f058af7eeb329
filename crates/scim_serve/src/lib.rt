//! Serves many connections on one thread with a hub.
#![tactic(auto)]

mod laws;
mod operators;
mod peers;
mod pending_bytes;
mod serving;

pub use laws::{runs_in_parts, runs_without_reload};
pub use operators::{NoOperator, Operator, Pause, Then};
pub use peers::{AdminEvent, AdminEventKind, Figures, Note, PeerEvent, Peers, PeersFault};
pub use serving::{Ending, serve};
