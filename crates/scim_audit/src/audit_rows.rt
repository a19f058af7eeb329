//! Audit rows, and the line of text for each row.
ghost use Rattle.std.specs.Prelude.{◌≡◌, IfOk, string_bytes};
ghost use Rattle.scim_audit.specs.Rows as spec;

use crate::refusals::Refusal;
use scim_cell::{Id, Text};
use scim_schema::{Kind, Leaf, Op};
use scim_text::{Moment, NoMemory, print_moment};
use std::alloc::Global;

/// The decision on a request.
#[derive(Clone, Copy, PartialEq, Eq)]
pub enum Decided {
    /// The policy allowed the request, and it was carried out.
    Allow,
    /// The policy denied the request, or the change would have widened access.
    Deny,
    /// The resource exists, but the client may not see it.
    Hidden,
    /// The resource doesn't exist.
    Absent,
    /// The request was refused because of its content or its result.
    Refused,
}

impl Decided {
    /// Returns all decisions, in the order of their numbers in a database.
    #[tactic(auto, unfolding(crate::specs::Rows::decisions))]
    pub fn all() -> &'static [Decided]
        ensures { result.now ≡ spec.decisions }
    {
        &[
            Decided::Allow,
            Decided::Deny,
            Decided::Hidden,
            Decided::Absent,
            Decided::Refused,
        ]
    }

    /// The word for the decision in an audit line, such as `Allow`.
    pub fn name(self) -> &'static str
        ensures { result.now ≡ spec.decided_name self }
    {
        match self {
            Decided::Allow => "Allow",
            Decided::Deny => "Deny",
            Decided::Hidden => "Hidden",
            Decided::Absent => "Absent",
            Decided::Refused => "Refused",
        }
    }
}

/// The audit record of a client's request. Audit rows are numbered from 1 in the order of the audit.
pub struct AuditRow {
    /// When the request was received.
    pub moment: Moment,
    /// The name of the client.
    pub client: Text,
    /// The operation.
    pub op: Op,
    /// The kind of the resources.
    pub kind: Kind,
    /// The id of the resource. `None` if the request contains no id, or a text that isn't a valid id.
    pub id: Option<Id>,
    /// The decision.
    pub decided: Decided,
    /// The number of the rule that made the decision, or 0 if no rule applied. `None` if no single rule
    /// made the decision.
    pub rule: Option<u32>,
    /// The leaf at which the rule denied the request, or to which the change would have widened
    /// access. `None` if the rule allowed the request, or no single rule made the decision.
    pub leaf: Option<Leaf>,
    /// The refusal in the reply; `None` if the request was carried out.
    pub refusal: Option<Refusal>,
}

impl Drop for AuditRow {
    fn drop(self) {
        let AuditRow {
            moment: _moment,
            client: _client,
            op: _op,
            kind: _kind,
            id: _id,
            decided: _decided,
            rule: _rule,
            leaf: _leaf,
            refusal: _refusal,
        } = self;
    }
}

impl AuditRow {
    /// Copies this row.
    pub fn try_copy(&self, alloc: Global) -> Result<AuditRow, NoMemory>
        ensures { IfOk result (λ row. row ≡ self.now) }
    {
        Ok(AuditRow {
            moment: self.moment,
            client: self.client.try_copy(alloc)?,
            op: self.op,
            kind: self.kind,
            id: self.id,
            decided: self.decided,
            rule: self.rule,
            leaf: self.leaf,
            refusal: self.refusal,
        })
    }
}

/// Returns the path of a leaf as in policies: `userName`, `emails.value` (RFC 7644 section 3.10).
/// The path has no URN, even for an attribute of an extension.
pub fn leaf_path(alloc: Global, leaf: Leaf) -> Result<String, NoMemory>
    ensures { IfOk result (λ text. string_bytes text ≡ spec.leaf_path leaf) }
{
    let attribute = leaf.attribute.name();
    match leaf.sub_attribute {
        None => Ok(String::from_str(alloc, attribute)?),
        Some(sub_attribute) => {
            let sub_attribute = sub_attribute.name();
            Ok(format!(in alloc; "{attribute}.{sub_attribute}")?)
        }
    }
}

/// Returns `-`, the word for a missing value in an audit line.
fn no_word(alloc: Global) -> Result<String, NoMemory>
    ensures { IfOk result (λ text. string_bytes text ≡ spec.no_word) }
{
    Ok(String::from_str(alloc, "-")?)
}

/// The number of a rule, or `-` if there is none.
fn rule_word(alloc: Global, rule: Option<u32>) -> Result<String, NoMemory>
    ensures { IfOk result (λ text. string_bytes text ≡ spec.rule_word rule) }
{
    match rule {
        Some(rule) => Ok(format!(in alloc; "{rule}")?),
        None => no_word(alloc),
    }
}

/// The path of a leaf, or `-` if there is none.
fn leaf_word(alloc: Global, leaf: Option<Leaf>) -> Result<String, NoMemory>
    ensures { IfOk result (λ text. string_bytes text ≡ spec.leaf_word leaf) }
{
    match leaf {
        Some(leaf) => leaf_path(alloc, leaf),
        None => no_word(alloc),
    }
}

/// `F` and the number of a refusal, or `-` if there is none.
fn refusal_word(alloc: Global, refusal: Option<Refusal>) -> Result<String, NoMemory>
    ensures { IfOk result (λ text. string_bytes text ≡ spec.refusal_word refusal) }
{
    match refusal {
        Some(refusal) => {
            let number = refusal.number();
            Ok(format!(in alloc; "F{number}")?)
        }
        None => no_word(alloc),
    }
}

/// The text of an id, or `-` if there is none.
fn id_word(buffer: &mut [u8; Id::TEXT_LENGTH], id: Option<Id>) -> &str
    ensures { result.now ≡ spec.id_word id }
{
    match id {
        Some(id) => id.write(buffer),
        None => "-",
    }
}

/// Returns the line of text for an audit row, without a line feed.
///
/// The line has ten words with one space between them: number, moment, client, operation, kind, id,
/// decision, rule, leaf, and `F` with the number of the refusal. The word is `-` for a value that
/// the row doesn't have.
#[tactic(auto, unfolding(crate::specs::Rows::row_line))]
pub fn print_row(alloc: Global, number: u64, row: &AuditRow) -> Result<String, NoMemory>
    ensures { IfOk result (λ text. string_bytes text ≡ spec.row_line number row.now) }
{
    let moment = print_moment(alloc, row.moment)?;
    let client = row.client.as_str();
    let op = row.op.name();
    let kind = row.kind.name();
    let mut buffer = [0; Id::TEXT_LENGTH];
    let id = id_word(&mut buffer, row.id);
    let decided = row.decided.name();
    let rule = rule_word(alloc, row.rule)?;
    let leaf = leaf_word(alloc, row.leaf)?;
    let refusal = refusal_word(alloc, row.refusal)?;
    let line = format!(in alloc;
        "{number} {moment} {client} {op} {kind} {id} {decided} {rule} {leaf} {refusal}"
    )?;
    Ok(line)
}
