//! Warns of rules that allow something in vain, because another decision that it needs is never allowed.
//!
//! A client changes or deletes only a resource that it sees, which needs to read `id`; it creates one only if it
//! may create at `id`; and it writes a unit only as a whole. Also finds the clients of a
//! policy that have no token, and those with a token that no rule is for. Each warning is certain.
//!
//! Cases: `crates/cases/data/policy_warnings.jsonl`.
#![tactic(auto)]

mod clients;
mod laws;
mod losses;
mod needs;
mod policy_warnings;
mod possibilities;
mod texts;
mod token_clients;

pub use clients::Client;
pub use laws::{denies_what_it_may_not_allow, warnings_are_certain};
pub use losses::{Loss, Scope};
pub use needs::Need;
pub use policy_warnings::{Warning, warnings};
pub use texts::print_warnings;
pub use token_clients::token_warnings;
