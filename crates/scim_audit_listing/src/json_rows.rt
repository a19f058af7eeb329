//! The JSON of an audit row.
//!
//! If memory runs out, the private functions leave an unfinished text in `out`, which their caller drops.
ghost use Rattle.std.specs.Prelude.{◌≡◌, ◌<◌, ◌^◌, codes, IfOk, OnOk, Some, IfSome, option_map, string_bytes};
ghost use Rattle.serde_json.specs.Read.{read};
ghost use Rattle.serde_json.specs.Written.{compact_text};
ghost use Rattle.scim_text.specs.Moments.{moment_text};
ghost use Rattle.scim_cell.specs.Ids.{id_text};
ghost use Rattle.scim_audit.specs.Rows.{leaf_path as path_of_leaf, refusal_mark};
ghost use Rattle.scim_json.specs.Tokens.{Adds, value_tokens, member_tokens, members_tokens};
ghost use Rattle.scim_audit_listing.specs.JsonRows as spec;

use json::Writer;
use scim_audit::{AuditRow, Refusal, leaf_path};
use scim_cell::Id;
use scim_schema::Leaf;
use scim_text::{Moment, NoMemory, print_moment};
use std::alloc::Global;

/// Returns the JSON text of an audit row, without a line feed.
///
/// The text is an object without spaces, with the keys `client`, `decision`, `id`, `kind`, `leaf`, `moment`,
/// `number`, `op`, `refusal` and `rule` in byte order. The values are those of [`scim_audit::print_row`], with
/// `null` in place of `-`; `number` and `rule` are numbers. serde_json parses the text to exactly the value
/// that was written.
#[tactic(auto, using(crate::proofs::JsonLemmas::texts, crate::proofs::JsonLemmas::read_row))]
pub fn print_json_row(alloc: Global, number: u64, row: &AuditRow) -> Result<String, NoMemory>
    ensures text { IfOk result (λ t. string_bytes t
        ≡ compact_text (spec.row_data number row.now)) }
    ensures reads { IfOk result (λ t. read (string_bytes t) ≡ Some (spec.row_data number row.now)) }
{
    let mut out = Writer::new(Vec::with_capacity(alloc, 256)?);
    write_row(alloc, &mut out, number, row)?;
    Ok(unsafe { String::from_utf8_unchecked(out.into_inner()) })
}

/// Writes the object of a row.
#[tactic(auto, unfolding(crate::specs::JsonRows::row_data))]
fn write_row(alloc: Global, out: &mut Writer, number: u64, row: &AuditRow) -> Result<(), NoMemory>
    ensures added { OnOk result (Adds out.old out.new
        (value_tokens (spec.row_data number row.now))) }
    ensures rule { OnOk result (IfSome row.now.rule (λ n. n < 2 ^ 32)) }
{
    out.begin_object()?;
    write_text(out, "client", row.client.as_str())?;
    write_text(out, "decision", row.decided.name())?;
    write_id(out, row.id)?;
    write_text(out, "kind", row.kind.name())?;
    write_leaf(alloc, out, row.leaf)?;
    write_later_members(alloc, out, number, row)
}

/// Writes the members from `moment` on, then ends the object.
fn write_later_members(
    alloc: Global,
    out: &mut Writer,
    number: u64,
    row: &AuditRow,
) -> Result<(), NoMemory>
    ensures added { OnOk result (Adds out.old out.new
        (members_tokens (spec.later_members number row.now))) }
    ensures rule { OnOk result (IfSome row.now.rule (λ n. n < 2 ^ 32)) }
{
    let rule = rule_number(row.rule);
    write_moment(alloc, out, row.moment)?;
    write_number(out, "number", Some(number))?;
    write_text(out, "op", row.op.name())?;
    write_refusal(alloc, out, row.refusal)?;
    write_number(out, "rule", rule)?;
    out.end_object()?;
    Ok(())
}

/// Returns the number of a rule, in the width of [`write_number`].
fn rule_number(rule: Option<u32>) -> Option<u64>
    ensures same { result ≡ rule }
    ensures bound { IfSome rule (λ n. n < 2 ^ 32) }
{
    match rule {
        Some(rule) => Some(u64::from(rule)),
        None => None,
    }
}

/// Writes a member with a text.
fn write_text(out: &mut Writer, name: &str, text: &str) -> Result<(), NoMemory>
    ensures { OnOk result (Adds out.old out.new
        (member_tokens name.now (Some (spec.text_data (Some text.now))))) }
{
    out.key(name)?;
    out.string(text)?;
    Ok(())
}

/// Writes a member with a number, or with `null` if there is none.
fn write_number(out: &mut Writer, name: &str, number: Option<u64>) -> Result<(), NoMemory>
    ensures { OnOk result (Adds out.old out.new
        (member_tokens name.now (Some (spec.number_data number)))) }
{
    out.key(name)?;
    match number {
        Some(number) => out.u64(number)?,
        None => out.null()?,
    }
    Ok(())
}

/// Writes a member with `null`.
fn write_null(out: &mut Writer, name: &str) -> Result<(), NoMemory>
    ensures { OnOk result (Adds out.old out.new
        (member_tokens name.now (Some (spec.text_data None)))) }
{
    out.key(name)?;
    out.null()?;
    Ok(())
}

/// Writes the member `id`.
fn write_id(out: &mut Writer, id: Option<Id>) -> Result<(), NoMemory>
    ensures { OnOk result (Adds out.old out.new
        (member_tokens (codes "id") (Some (spec.text_data (option_map id_text id))))) }
{
    match id {
        Some(id) => {
            let mut buffer = [0; Id::TEXT_LENGTH];
            write_text(out, "id", id.write(&mut buffer))
        }
        None => write_null(out, "id"),
    }
}

/// Writes the member `leaf`.
fn write_leaf(alloc: Global, out: &mut Writer, leaf: Option<Leaf>) -> Result<(), NoMemory>
    ensures { OnOk result (Adds out.old out.new
        (member_tokens (codes "leaf") (Some (spec.text_data (option_map path_of_leaf leaf))))) }
{
    match leaf {
        Some(leaf) => {
            let path = leaf_path(alloc, leaf)?;
            write_text(out, "leaf", path.as_str())
        }
        None => write_null(out, "leaf"),
    }
}

/// Writes the member `moment`.
fn write_moment(alloc: Global, out: &mut Writer, moment: Moment) -> Result<(), NoMemory>
    ensures { OnOk result (Adds out.old out.new
        (member_tokens (codes "moment") (Some (spec.text_data (Some (moment_text moment)))))) }
{
    let moment = print_moment(alloc, moment)?;
    write_text(out, "moment", moment.as_str())
}

/// Writes the member `refusal`: `F` and the number of the refusal.
fn write_refusal(alloc: Global, out: &mut Writer, refusal: Option<Refusal>) -> Result<(), NoMemory>
    ensures { OnOk result (Adds out.old out.new
        (member_tokens (codes "refusal") (Some (spec.text_data (option_map refusal_mark refusal))))) }
{
    match refusal {
        Some(refusal) => {
            let number = refusal.number();
            let mark = format!(in alloc; "F{number}")?;
            write_text(out, "refusal", mark.as_str())
        }
        None => write_null(out, "refusal"),
    }
}
