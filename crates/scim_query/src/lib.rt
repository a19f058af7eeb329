//! Searches a list of parts: filter, sort order and page (RFC 7644 sections 3.4.2.2 to 3.4.2.4).
#![tactic(auto)]

mod client_searches;
mod kept_parts;
mod laws;
mod matching_entries;
mod named_attributes;
mod needed_groups;
mod needed_texts;
mod pagers;
mod possible_matches;
mod queries;
mod shown_pages;
mod sort_by;
mod sort_keys;

pub use client_searches::search_view;
pub use laws::{pages_are_arranged, queries_have_one_page};
pub use matching_entries::slice_of;
pub use pagers::Pager;
pub use queries::{Page, Query, search};
pub use shown_pages::shown_page;
pub use sort_by::read_sort_by;
