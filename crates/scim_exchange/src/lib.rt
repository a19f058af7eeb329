//! Answers one message of a client (RFC 7644 section 3): finds its endpoint, checks that a client has its
//! token, reads what it asks for, and calls the service.
#![tactic(auto)]

mod answers;
mod asks;
mod attribute_lists;
mod exchanges;
mod paging;
mod query_strings;
mod replies;
mod search_bodies;
mod searches;

pub use answers::Answer;
pub use asks::ask;
pub use exchanges::{Arrival, answer, answer_unserved};
