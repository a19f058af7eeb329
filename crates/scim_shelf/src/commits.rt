//! Changes that are committed together.

use crate::changes::Change;
use scim_audit::AuditRow;
use scim_value::Resource;

/// A change to commit, with its audit row.
#[derive(Clone, Copy)]
pub struct Commit<'c> {
    /// The user or group that has the id of the change just before it is made, if any. Ignored for
    /// `Change::Nothing`.
    pub old: Option<&'c Resource>,
    pub change: &'c Change,
    pub row: &'c AuditRow,
}
