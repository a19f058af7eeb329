//! Answers the events of many connections with one service, and keeps the state of each connection (RFC 9112
//! section 9).
#![tactic(auto)]

mod answering;
mod connections;
mod events;
mod hubs;
mod io_faults;
mod owned_events;
mod rounds;
mod stamps;
mod streams;
mod writing;

pub use events::{Event, EventAnswer, EventKind, HubFault, Output, Stamp};
pub use hubs::Hub;
pub use io_faults::IoFault;
pub use owned_events::{OwnedEvent, OwnedEventKind};
pub use rounds::Pace;
pub use stamps::{NoStamp, Stamps};
pub use streams::{Served, serve_stream};
