//! The service: answers clients' requests, one or several at a time (RFC 7644 section 3). Plans the reply,
//! the change and the audit row of each request according to the policy, and commits the change with the
//! audit row.
#![tactic(auto)]

mod answering_turns;
mod changed_resources;
mod create_plans;
mod get_plans;
mod patch_plans;
mod plans;
mod put_plans;
mod reached_resources;
mod replies;
mod requests;
mod taken_names;

pub use answering_turns::Service;
pub use replies::Reply;
pub use requests::{Ask, Request, Turn, turn_is_sound};
