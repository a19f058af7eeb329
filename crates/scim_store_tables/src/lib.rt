//! The tables of a database file, in versions 1 and 2, and the SQL statements on them. Tables of version 1 are
//! only read, and migrated. In contracts the contents of a table are a plain list of rows.
#![tactic(auto)]

mod asking;
mod audit;
mod creating_tables;
mod database_kinds;
mod foreign_objects;
mod keys;
mod migrating;
mod queries;
mod schema;
mod versions;
mod writes;

pub use asking::{
    ask, find_owner, find_resource, find_secret, first_text, read_audit_between, read_groups,
};
pub use audit::{AuditColumns, insert_audit};
pub use creating_tables::{create_tables, make_tables};
pub use database_kinds::{DatabaseKind, TableRows, is_empty_database, read_tables};
pub use foreign_objects::{ForeignObject, foreign_object};
pub use migrating::migrate;
pub use queries::{Table, rows_query};
pub use schema::{is_old_schema, is_store_schema};
pub use versions::Version;
pub use writes::{
    delete_member, delete_name, delete_resource, delete_secret, insert_member, insert_name,
    insert_resource, insert_secret, update_resource,
};
