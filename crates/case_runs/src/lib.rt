//! Runs the cases in a folder: compares the expected result of each case with the actual one, and counts the
//! cases. The caller provides the calls of the cases.
#![tactic(auto)]

mod arguments;
mod expected;
mod faults;
mod folder;
mod outputs;
mod requests;
mod runs;
mod stores;
mod tally;

pub use faults::FolderFault;
pub use requests::request_bytes;
pub use runs::{Calls, go_through};
pub use stores::{Store, goes_to, stores_of};
pub use tally::Tally;
