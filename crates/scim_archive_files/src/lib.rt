//! The files of the command `archive`: their names, and the steps that put an archive and a new database in the place of
//! a database.
#![tactic(auto)]

mod names;
mod steps;

pub use names::ArchiveNames;
pub use steps::{put_in_place, remove_parts};
