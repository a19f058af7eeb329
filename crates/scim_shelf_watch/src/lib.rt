//! A shelf that tells a watcher what is committed to the shelf below it. The watcher hears of each audit row
//! once, in order and with its number, and can refuse commits.
#![tactic(auto)]

mod watched;
mod watcher;

pub use watched::WatchedShelf;
pub use watcher::Watcher;
