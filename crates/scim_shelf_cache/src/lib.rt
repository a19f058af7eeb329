//! A shelf that caches the resources of the shelf below it in memory, and puts the commits of a round on its device
//! together.
#![tactic(auto)]

mod caches;
mod contents;
mod rounds;

pub use caches::CachedShelf;
pub use contents::CacheContents;
