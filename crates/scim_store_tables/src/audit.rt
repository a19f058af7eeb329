//! Writes the rows of the audit.

ghost use Rattle.std.specs.Prelude.{◌≡◌, ◌≤◌, ◌∷◌, pos};
ghost use Rattle.scim_store_tables.specs.Lists.{Lists, Are};
ghost use Rattle.scim_store_tables.specs.Audit.{last_number, audit_values};
ghost use Rattle.scim_store_tables.specs.Steps.{DoesIn};

use sqlite::{Alter, Error, Transaction, params};

/// The columns of an audit row. `None` is NULL in the table.
#[derive(Clone, Copy)]
pub struct AuditColumns<'a> {
    /// The number of the row, which is its key.
    pub number: u64,
    /// The time of the request, in seconds since 1970-01-01T00:00:00Z.
    pub moment: u64,
    /// The name of the client.
    pub client: &'a str,
    /// The operation, as a number.
    pub op: u32,
    /// The kind of the resource, as a number.
    pub kind: u32,
    /// The id of the resource.
    pub id: Option<&'a str>,
    /// The decision, as a number.
    pub decided: u32,
    /// The number of the rule that decided, or 0 if no rule matched; `None` if no single rule decided.
    pub rule: Option<u32>,
    /// The path of the leaf at which the rule denied the request, or to which the change would have widened
    /// access.
    pub leaf: Option<&'a str>,
    /// The refusal, as a number.
    pub refusal: Option<u32>,
}

/// Converts a number to an SQL integer.
fn sql_number(number: u64) -> i64
    requires { number ≤ last_number }
    ensures { result ≡ pos number }
{
    number as i64
}

/// Inserts an audit row, whose number and moment are passed as SQL integers.
fn insert_columns<S: Alter>(
    tx: &mut Transaction<'_, S>,
    number: i64,
    moment: i64,
    columns: &AuditColumns<'_>,
) -> Result<usize, Error>
    requires number { number ≡ pos columns.now.number }
    requires moment { moment ≡ pos columns.now.moment }
    ensures does { DoesIn S.Store tx.old tx.new result
        (λ old new. (lists : Lists) → Are old lists
        → Are new (record lists { audit = audit_values columns.now ∷ lists.audit })) }
{
    tx.execute(
        "INSERT INTO audit (number, moment, client, op, kind, id, decided, rule, leaf, refusal) VALUES (?1, ?2, ?3, ?4, ?5, ?6, ?7, ?8, ?9, ?10)",
        params![
            number,
            moment,
            columns.client,
            columns.op,
            columns.kind,
            columns.id,
            columns.decided,
            columns.rule,
            columns.leaf,
            columns.refusal
        ],
    )
}

/// Inserts an audit row. Its number and moment must be at most 2^63 - 1.
///
/// Returns the number of rows written, as the database counts them. Fails with a constraint error if another
/// row has this number, or with the database's error if the disk failed or memory ran out. Then nothing is
/// committed, but the transaction may have been rolled back: the caller must drop it.
pub fn insert_audit<S: Alter>(
    tx: &mut Transaction<'_, S>,
    columns: &AuditColumns<'_>,
) -> Result<usize, Error>
    requires number { columns.now.number ≤ last_number }
    requires moment { columns.now.moment ≤ last_number }
    ensures does { DoesIn S.Store tx.old tx.new result
        (λ old new. (lists : Lists) → Are old lists
        → Are new (record lists { audit = audit_values columns.now ∷ lists.audit })) }
{
    let number = sql_number(columns.number);
    let moment = sql_number(columns.moment);
    insert_columns(tx, number, moment, columns)
}
