//! A watcher for cases, which keeps the rows that it is told of.
#![tactic(auto)]

mod row_watcher;

pub use row_watcher::{RowWatcher, ToldRow};
