//! The discovery pages, in which the server describes itself (RFC 7644 section 4, RFC 7643 sections 5, 6 and
//! 7).
//!
//! Schemas are generated from the attribute table that the server itself uses.
//!
//! Test cases: `crates/cases/data/requests_discovery.json`.
#![tactic(auto)]

mod attributes;
mod lists;
mod members;
mod pages;
mod resource_types;
mod schemas;
mod service_provider_config;

pub use pages::page_reply;
