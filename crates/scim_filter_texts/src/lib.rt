//! The texts that a filter requires of what it matches (RFC 7644 section 3.4.2.2).
#![tactic(auto)]

mod needs;

pub use needs::{NeededText, compared_text, needed_text, needed_texts};
