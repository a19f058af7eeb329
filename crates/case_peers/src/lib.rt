//! Connections in memory for cases. Their contracts describe the reported events and the bytes taken, as the
//! theorem about `serve` requires.
#![tactic(auto)]

mod scripted_peers;

pub use scripted_peers::{ScriptedEvent, ScriptedPeer, ScriptedPeers};
