//! Computes the page of results of a client's query over the part of a store that the client may see (RFC
//! 7644 section 3.4.2), and the groups that appear in the `groups` of a resource (RFC 7643 section 4.1.2).
#![tactic(auto)]

mod groups_of_resource;
mod id_matches;
mod lookups;
mod pages;
mod pages_by_id;
mod pattern_cache;
mod possible_ids;
mod read_patterns;
mod shown_items;
mod texts;
mod unfiltered;
mod view_builders;
mod visitors;
mod walks;

pub use groups_of_resource::groups_beside;
pub use pages::page_of_query;
