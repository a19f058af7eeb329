//! Reads audit rows back from the rows of the table.
ghost use Rattle.std.specs.Prelude.{◌≡◌, ◌≤◌, ℕ, length, All, IsUtf8, IfOk, option_map};
ghost use Rattle.sqlite.specs.declared.types.Value.TheVariants.{Text as SqlText};
ghost use Rattle.sqlite.specs.Order.{column};
ghost use Rattle.scim_store_tables.specs.Audit as columns;
ghost use Rattle.scim_store_rows.specs.Audit as spec;
ghost use Rattle.scim_store_rows.specs.AuditBack.{ReadsBack, IsSound};

use crate::audit_fields::{
    decided_in, id_in, kind_in, leaf_in, moment_in, number_in, op_in, refusal_in, rule_in, text_in,
};
use scim_audit::AuditRow;
use scim_cell::Text;
use scim_text::{NoMemory, push};
use sqlite::Row;
use std::alloc::Global;

/// The number of columns of the table `audit`.
const COLUMNS: usize = 10;

/// Returns the audit row with this client name. Reads all other fields from the columns; returns `None` if
/// one of them isn't valid.
fn read_fields(client: Text, row: &Row) -> Option<AuditRow>
    requires long { length row.now ≡ 10 }
    requires client { column row.now 2 ≡ SqlText client }
    requires utf8 { IsUtf8 client }
    ensures { (n : ℕ) → column row.now 0 ≡ columns.number n
        → ReadsBack IsSound (spec.audit_row n) row.now result }
{
    Some(AuditRow {
        moment: moment_in(row, 1)?,
        client,
        op: op_in(row, 3)?,
        kind: kind_in(row, 4)?,
        id: id_in(row, 5)?,
        decided: decided_in(row, 6)?,
        rule: rule_in(row, 7)?,
        leaf: leaf_in(row, 8)?,
        refusal: refusal_in(row, 9)?,
    })
}

/// Reads the audit row with this number from a row of the table; `None` if the row isn't valid, or has
/// another number. The refusal `BadMethod` is returned with the methods of a collection, since the methods of
/// the requested endpoint aren't stored.
pub(crate) fn read_audit_row(
    alloc: Global,
    number: u64,
    row: &Row,
) -> Result<Option<AuditRow>, NoMemory>
    ensures { IfOk result (ReadsBack IsSound (spec.audit_row number) row.now) }
{
    if row.column_count() != COLUMNS || number_in(row, 0) != Some(number) {
        return Ok(None);
    }
    let Some(client) = text_in(row, 2) else {
        return Ok(None);
    };
    let client = Text::copy_of(alloc, client)?;
    Ok(read_fields(client, row))
}

/// Reads audit rows from rows of the table; `None` if a row isn't valid, or if the rows aren't numbered
/// consecutively from `first`. The refusal `BadMethod` is returned with the methods of a collection.
pub(crate) fn are_audit_rows(
    alloc: Global,
    first: u64,
    rows: &[Row],
) -> Result<Option<Vec<AuditRow>>, NoMemory>
    requires { first ≤ columns.last_number }
    ensures { IfOk result (λ found.
        ReadsBack (All IsSound) (spec.audit_rows first) rows.now
        (option_map (λ v. v.items) found)) }
{
    let mut number = first;
    let mut read = Vec::new(alloc);
    for row in rows {
        let Some(audit_row) = read_audit_row(alloc, number, row)? else {
            return Ok(None);
        };
        push(&mut read, audit_row)?;
        number += 1;
    }
    Ok(Some(read))
}
