//! Why a database can't be used as a store: its file can't be opened, its tables are those of another program, or its
//! rows aren't those of a valid store. The database is only read.
#![tactic(auto)]

mod audit_causes;
mod audit_columns;
mod file_causes;
mod foreign_objects;
mod look_ups;
mod row_ids;
mod unusable_causes;

pub use audit_causes::AuditCause;
pub use file_causes::{FileCause, open_cause};
pub use foreign_objects::OwnedObject;
pub use unusable_causes::{UnusableCause, unusable_cause};
