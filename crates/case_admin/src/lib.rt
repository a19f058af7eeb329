//! Cases of a server with an administrator's port, over a database in memory with a cache. The connections and
//! the system are scripted.
#![tactic(auto)]

mod outputs;
mod scripted_hosts;
mod scripted_peers;
mod servers;
mod turns;

pub use servers::answered;
