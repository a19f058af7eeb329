//! Base URLs: the URLs below which a server's resources have their locations, as `https://scim.example.com/v2`.
//!
//! Cases: `crates/cases/data/base_urls.jsonl`.
#![tactic(auto)]

mod base_urls;

pub use base_urls::is_base_url;
