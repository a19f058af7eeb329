//! Converts audit rows to columns.
ghost use Rattle.std.specs.Prelude.{◌≡◌, ◌≤◌, IfOk, option_map};
ghost use Rattle.std.specs.Option.{option_copied};
ghost use Rattle.scim_cell.specs.Ids.{id_text};
ghost use Rattle.scim_audit.specs.Rows as rows;
ghost use Rattle.scim_store_tables.specs.Audit.{audit_values, last_number};
ghost use Rattle.scim_store_rows.specs.Audit as spec;

use scim_audit::{AuditRow, Decided, Refusal, leaf_path};
use scim_cell::{Id, Text};
use scim_schema::{Kind, Leaf, Op};
use scim_store_tables::AuditColumns;
use scim_text::NoMemory;
use std::alloc::Global;

/// The texts of the id and the leaf of an audit row, which [`AuditColumns`] borrows.
#[derive(Drop)]
pub struct AuditTexts {
    id: Option<Text>,
    leaf: Option<Text>,
}

/// Returns the text of the id; `None` if there is no id.
fn id_of(alloc: Global, id: Option<Id>) -> Result<Option<Text>, NoMemory>
    ensures { IfOk result (λ text. text ≡ option_map id_text id) }
{
    match id {
        Some(id) => Ok(Some(id.text(alloc)?)),
        None => Ok(None),
    }
}

/// Returns the path of the leaf; `None` if there is no leaf.
fn leaf_of(alloc: Global, leaf: Option<Leaf>) -> Result<Option<Text>, NoMemory>
    ensures { IfOk result (λ text. text ≡ option_map rows.leaf_path leaf) }
{
    match leaf {
        Some(leaf) => Ok(Some(Text::new(leaf_path(alloc, leaf)?))),
        None => Ok(None),
    }
}

impl AuditTexts {
    /// Returns the texts of the id and the leaf of an audit row.
    pub fn of(alloc: Global, row: &AuditRow) -> Result<AuditTexts, NoMemory>
        ensures { IfOk result (λ texts. spec.AreTexts texts row.now) }
    {
        let id = id_of(alloc, row.id)?;
        let leaf = leaf_of(alloc, row.leaf)?;
        Ok(AuditTexts { id, leaf })
    }
}

/// Returns the index of a kind in the list of all kinds.
pub fn kind_number(kind: Kind) -> u32
    ensures { result ≡ spec.kind_number kind }
{
    match kind {
        Kind::User => 0,
        Kind::Group => 1,
    }
}

/// Returns the index of an operation in the list of all operations.
fn op_number(op: Op) -> u32
    ensures { result ≡ spec.op_number op }
{
    match op {
        Op::Read => 0,
        Op::Create => 1,
        Op::Modify => 2,
        Op::Delete => 3,
    }
}

/// Returns the index of a decision in the list of all decisions.
fn decided_number(decided: Decided) -> u32
    ensures { result ≡ spec.decided_number decided }
{
    match decided {
        Decided::Allow => 0,
        Decided::Deny => 1,
        Decided::Hidden => 2,
        Decided::Absent => 3,
        Decided::Refused => 4,
    }
}

/// Returns the index of a refusal, if any, in the list of all refusals.
fn refusal_number(refusal: Option<Refusal>) -> Option<u32>
    ensures { result ≡ option_map spec.refusal_number refusal }
{
    match refusal {
        Some(refusal) => Some(u32::from(refusal.number()) - 1),
        None => None,
    }
}

/// Borrows the text, if any.
fn text_in(text: &Option<Text>) -> Option<&str>
    ensures { option_copied result ≡ text.now }
{
    match text {
        Some(text) => Some(text.as_str()),
        None => None,
    }
}

/// Returns the columns of an audit row with this number. `texts` must be the texts of the row.
pub fn columns_of<'a>(number: u64, row: &'a AuditRow, texts: &'a AuditTexts) -> AuditColumns<'a>
    requires { spec.AreTexts texts.now row.now }
    ensures values { audit_values result ≡ spec.audit_row number row.now }
    ensures number { result.number ≡ number }
    ensures moment { result.moment ≤ last_number }
{
    AuditColumns {
        number,
        moment: row.moment.seconds(),
        client: row.client.as_str(),
        op: op_number(row.op),
        kind: kind_number(row.kind),
        id: text_in(&texts.id),
        decided: decided_number(row.decided),
        rule: row.rule,
        leaf: text_in(&texts.leaf),
        refusal: refusal_number(row.refusal),
    }
}
