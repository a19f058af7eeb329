//! The bearer tokens of clients (RFC 6750). Tokens aren't stored: a file lists clients with the
//! SHA-256 of their tokens, and the client of a token is looked up by its SHA-256.
#![tactic(auto)]

mod digests;
mod faults;
mod token_lines;
mod token_table;

pub use faults::{LineFault, TokenFault};
pub use token_table::Tokens;
