//! Serves many connections over the system's sockets on one thread.
#![tactic(auto)]

mod authorization;
mod clients;
mod connection;
mod counts;
mod held_bytes;
mod log_pace;
mod open_connections;
mod operator_log;
mod peer_events;
mod pieces;
mod poll_tokens;
mod port;
mod ports;
mod refused_tokens;
mod rounds;
mod server_time;
mod sockets;
mod stamps;
mod time_limits;
mod turn_queue;

pub use counts::Counts;
pub use log_pace::Log;
pub use sockets::{CannotListen, Sockets};
pub use time_limits::Limits;
