//! New bearer tokens of clients (RFC 6750), and their lines in a token file.
//!
//! Cases: `crates/cases/data/new_tokens.jsonl`.
#![tactic(auto)]

mod new_tokens;

pub use new_tokens::{NewToken, TOKEN_BYTES};
