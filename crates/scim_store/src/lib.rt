//! The store of a service provider in an SQLite database, as a shelf over its tables. All rows of the tables
//! are checked when the database is opened. Each change is committed in one transaction with its audit row.
#![tactic(auto)]

mod changes;
mod committing;
mod creation;
mod damage;
mod edits;
mod examining;
mod importing;
mod passing;
mod row_owners;
mod sql_shelf;
mod transactions;

pub use damage::{holding_rows_are_sound, sound_rows_hold};
pub use importing::{ImportFault, import};
pub use sql_shelf::{OpenFault, SqlShelf};
