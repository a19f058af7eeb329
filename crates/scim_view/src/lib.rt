//! Computes a client's view of a resource: the cells that it may read, a user's computed `groups`, and the
//! projection that a reply shows (RFC 7643 sections 4.1.2 and 7, RFC 7644 section 3.9).
#![tactic(auto)]

mod attribute_lists;
mod computed_groups;
mod group_index;
mod laws;
mod listing_groups;
mod lists;
mod memberships;
mod projection;
mod shown_parts;
mod viewers;
mod views;

pub use attribute_lists::Names;
pub use group_index::{GroupIndex, member_id};
pub use laws::{allowed_leaves_are_seen, denied_values_are_unseen, nothing_comes_into_view};
pub use listing_groups::ListingGroups;
pub use projection::{Wanted, project};
pub use viewers::Viewer;
pub use views::{MayBeSeenPlainlyOf, shows_id, shows_some, visible_attributes};
