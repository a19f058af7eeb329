//! Reads a store from its database: resources by id, by unique name, by member value and by kind, and
//! audit rows. The specs define which store the tables represent. No read changes anything, and a crash leaves
//! only a state that a crash before the read could also leave.
#![tactic(auto)]

mod audit_columns;
mod audit_counting;
mod audit_fields;
mod audit_numbers;
mod audit_reading;
mod audit_records;
mod door_codes;
mod leaf_paths;
mod look_ups;
mod old_resources;
mod walks;

pub use audit_columns::{AuditTexts, columns_of, kind_number};
pub use audit_counting::count_audit;
pub use audit_reading::{LAST_NUMBER, read_audit_rows};
pub use look_ups::{find_by_id, find_groups_with, find_owner_of_name};
pub use old_resources::find_old;
pub use walks::walk;
