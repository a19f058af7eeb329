//! The JSON of a list of parts, the reply to a search (RFC 7644 section 3.4.2).
ghost use Rattle.std.specs.Prelude.{◌≡◌, ◌∷◌, IfOk, OnOk, Some, codes, length, string_bytes};
ghost use Rattle.json.specs.Token.{begin_array};
ghost use Rattle.serde_json.specs.Written.{compact_text};
ghost use Rattle.scim_json.specs.PartData.{part_data, items_of, array_of};
ghost use Rattle.scim_json.specs.ListData as spec;
ghost use Rattle.scim_json.specs.Tokens.{Adds, value_tokens, member_tokens, members_tokens, items_tokens};

use crate::writing::write_part;
use json::Writer;
use scim_schema::JsonForm;
use scim_text::NoMemory;
use scim_value::Part;
use std::alloc::Global;

/// Returns the JSON text of a list for a client (RFC 7644 section 3.4.2).
///
/// `Resources` contains the parts, and is omitted if there are no parts. `itemsPerPage` is the number of
/// parts. `startIndex` is `start`, the position of the first part among all results, counted from 1.
/// `totalResults` is `total`, the number of all results. The text has no spaces, and the keys of each
/// object are in byte order.
#[tactic(auto, using(crate::proofs::Printed::texts))]
pub fn to_list_json(
    alloc: Global,
    total: usize,
    start: usize,
    parts: &[Part],
) -> Result<String, NoMemory>
    ensures { IfOk result (λ t. string_bytes t
        ≡ compact_text (spec.list_data total start parts.now)) }
{
    let mut out = Writer::new(Vec::with_capacity(alloc, 1024)?);
    write_list(alloc, &mut out, total, start, parts)?;
    Ok(unsafe { String::from_utf8_unchecked(out.into_inner()) })
}

/// Writes the JSON object of a list response. If memory runs out, `out` contains an unfinished text.
#[tactic(auto, unfolding(crate::specs::ListData::list_data))]
fn write_list(
    alloc: Global,
    out: &mut Writer,
    total: usize,
    start: usize,
    parts: &[Part],
) -> Result<(), NoMemory>
    ensures { OnOk result (Adds out.old out.new
        (value_tokens (spec.list_data total start parts.now))) }
{
    out.begin_object()?;
    write_resources(alloc, out, parts)?;
    write_counts(out, total, start, parts.len())
}

/// Writes the member `Resources`, unless there are no parts.
fn write_resources(alloc: Global, out: &mut Writer, parts: &[Part]) -> Result<(), NoMemory>
    ensures { OnOk result (Adds out.old out.new
        (member_tokens (codes "Resources") (array_of (items_of part_data parts.now)))) }
{
    if parts.is_empty() {
        return Ok(());
    }
    out.key("Resources")?;
    write_parts(alloc, out, parts)?;
    Ok(())
}

/// Writes the array of parts.
#[tactic(auto, unfolding(crate::specs::PartData::part_data))]
fn write_parts(alloc: Global, out: &mut Writer, parts: &[Part]) -> Result<(), NoMemory>
    ensures { OnOk result (Adds out.old out.new
        (begin_array ∷ items_tokens (items_of part_data parts.now))) }
{
    out.begin_array()?;
    for part in parts {
        write_part(alloc, out, part, JsonForm::Shown)?;
    }
    out.end_array()?;
    Ok(())
}

/// Writes all members except `Resources`, then ends the object.
fn write_counts(out: &mut Writer, total: usize, start: usize, shown: usize) -> Result<(), NoMemory>
    ensures { OnOk result (Adds out.old out.new (members_tokens (spec.counts total start shown))) }
{
    write_count(out, "itemsPerPage", shown)?;
    write_schemas(out)?;
    write_count(out, "startIndex", start)?;
    write_count(out, "totalResults", total)?;
    out.end_object()?;
    Ok(())
}

/// Writes a member with a number.
fn write_count(out: &mut Writer, name: &str, count: usize) -> Result<(), NoMemory>
    ensures { OnOk result (Adds out.old out.new
        (member_tokens name.now (Some (spec.count_data count)))) }
{
    out.key(name)?;
    out.u64(count as u64)?;
    Ok(())
}

/// Writes the member `schemas`.
#[tactic(auto, unfolding(crate::specs::ListData::list_schemas))]
fn write_schemas(out: &mut Writer) -> Result<(), NoMemory>
    ensures { OnOk result (Adds out.old out.new
        (member_tokens (codes "schemas") (Some spec.list_schemas))) }
{
    out.key("schemas")?;
    out.begin_array()?;
    out.string("urn:ietf:params:scim:api:messages:2.0:ListResponse")?;
    out.end_array()?;
    Ok(())
}
