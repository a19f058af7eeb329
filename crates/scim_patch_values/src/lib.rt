//! Applies a step of a PATCH to values of a unit (RFC 7644 section 3.5.2): to the values that match a filter,
//! to the values whose `value` is in a list, or to all values.
#![tactic(auto)]

mod described_values;
mod everywhere;
mod fields;
mod listed;
mod matches;
mod positions;

pub use everywhere::{clear_everywhere, set_everywhere, value_of};
pub use fields::demoted;
pub use listed::remove_listed;
pub use matches::{
    add_at_matches, clear_at_matches, is_any_match, remove_matches, replace_matches, set_at_matches,
};
pub use positions::{Position, given_primary, keep, mark};
