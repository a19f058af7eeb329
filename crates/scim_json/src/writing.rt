//! Writes a part as JSON, token by token (RFC 7643 sections 2.3, 3 and 8).
//!
//! If memory runs out, the private functions leave an unfinished text in `out`, which their caller
//! drops.
ghost use Rattle.std.specs.Prelude.{◌≡◌, ◌∷◌, filter, IfOk, OnOk, string_bytes, Some, option_map, is_some};
ghost use Rattle.std.specs.List.{list_any};
ghost use Rattle.std.specs.Option.{option_copied};
ghost use Rattle.json.specs.Token.{begin_array};
ghost use Rattle.serde_json.specs.Read.{read};
ghost use Rattle.serde_json.specs.Written.{compact_text};
ghost use Rattle.scim_schema.specs.Names.{attribute_name, sub_attribute_name};
ghost use Rattle.scim_schema.specs.Schemas.{urn};
ghost use Rattle.scim_cell.specs.Rows.{rows, cell_at};
ghost use Rattle.scim_schema.specs.JsonKeys.{key_text};
ghost use Rattle.scim_json.specs.PartData as spec;
ghost use Rattle.scim_json.specs.PartData.{members_where, items_of};
ghost use Rattle.scim_json.specs.Stored.{stored_text};
ghost use Rattle.scim_json.specs.Tokens.{Adds, value_tokens, member_tokens, members_tokens, items_tokens};

use json::Writer;
use scim_cell::{Atom, Row, compare_units};
use scim_schema::{
    Attribute, JsonForm, JsonKey, JsonShape, Leaf, Schema, SubAttribute, core_schema,
    extension_keys, extension_of, extensions, keys, ordered_sub_attributes, shape_of, unit_of,
};
use scim_text::{NoMemory, print_moment};
use scim_value::{Part, Resource};
use std::alloc::Global;

/// Returns the JSON text of a part for a client: the cells and `schemas` (RFC 7643 section 3). The text
/// has no spaces, and the keys of each object are in byte order. serde_json parses the text to exactly
/// the value that was written.
#[tactic(auto, unfolding(crate::specs::PartData::part_data))]
pub fn to_json(alloc: Global, part: &Part) -> Result<String, NoMemory>
    ensures text { IfOk result (λ t. string_bytes t ≡ compact_text (spec.part_data part.now)) }
    ensures reads { IfOk result (λ t. read (string_bytes t) ≡ Some (spec.part_data part.now)) }
{
    text_of(alloc, part, JsonForm::Shown)
}

/// Returns the stored JSON text of a resource: the text of [`to_json`] without `schemas`, `groups` and
/// `meta.location`, which the server computes. serde_json parses the text to exactly the value that
/// was written.
#[tactic(auto, unfolding(crate::specs::PartData::stored_data))]
pub fn stored_text(alloc: Global, resource: &Resource) -> Result<String, NoMemory>
    ensures text { IfOk result (λ t. string_bytes t ≡ stored_text resource.now) }
    ensures reads { IfOk result (λ t. read (string_bytes t)
        ≡ Some (spec.stored_data resource.now)) }
{
    text_of(alloc, resource.part(), JsonForm::Stored)
}

/// Returns the JSON text of a part, for clients or for the store.
#[tactic(auto, using(crate::proofs::Printed::texts, crate::proofs::Kept::read_from_part))]
fn text_of(alloc: Global, part: &Part, form: JsonForm) -> Result<String, NoMemory>
    ensures text { IfOk result (λ t. string_bytes t ≡ compact_text (spec.data_of form part.now)) }
    ensures reads { IfOk result (λ t. read (string_bytes t) ≡ Some (spec.data_of form part.now)) }
{
    let mut out = Writer::new(Vec::with_capacity(alloc, 1024)?);
    write_part(alloc, &mut out, part, form)?;
    Ok(unsafe { String::from_utf8_unchecked(out.into_inner()) })
}

/// Writes a part as a JSON object. If memory runs out, `out` contains an unfinished text.
#[tactic(auto, unfolding(crate::specs::PartData::data_of))]
pub(crate) fn write_part(
    alloc: Global,
    out: &mut Writer,
    part: &Part,
    form: JsonForm,
) -> Result<(), NoMemory>
    ensures { OnOk result (Adds out.old out.new (value_tokens (spec.data_of form part.now))) }
{
    out.begin_object()?;
    write_keys(alloc, out, part, form, keys(form, part.kind()))
}

/// Writes a member for each of these keys that has a value, then ends the object.
fn write_keys(
    alloc: Global,
    out: &mut Writer,
    part: &Part,
    form: JsonForm,
    keys: &[JsonKey],
) -> Result<(), NoMemory>
    ensures { OnOk result (Adds out.old out.new
        (members_tokens (members_where key_text (spec.key_data form part.now) keys.now))) }
{
    for key in keys {
        write_key(alloc, out, part, form, *key)?;
    }
    out.end_object()?;
    Ok(())
}

/// Writes the member for a key, if the key has a value.
fn write_key(
    alloc: Global,
    out: &mut Writer,
    part: &Part,
    form: JsonForm,
    key: JsonKey,
) -> Result<(), NoMemory>
    ensures { OnOk result (Adds out.old out.new
        (member_tokens (key_text key) (spec.key_data form part.now key))) }
{
    match key {
        JsonKey::Of(attribute) => write_attribute(alloc, out, part, form, attribute),
        JsonKey::Schemas => {
            let kind = part.kind();
            write_schemas(out, part, core_schema(kind), extensions(kind))
        }
        JsonKey::Extension(schema) => write_extension(alloc, out, part, form, schema),
    }
}

/// Writes the member `schemas`.
fn write_schemas(
    out: &mut Writer,
    part: &Part,
    core: Schema,
    extensions: &[Schema],
) -> Result<(), NoMemory>
    ensures { OnOk result (Adds out.old out.new
        (member_tokens (key_text JsonKey.Schemas)
        (Some (spec.schemas_data (rows part.now) core extensions.now)))) }
{
    out.key(JsonKey::Schemas.text())?;
    write_urns(out, part, core, extensions)
}

/// Writes the array of schema URNs: the core schema, then each extension that has cells in the part.
fn write_urns(
    out: &mut Writer,
    part: &Part,
    core: Schema,
    extensions: &[Schema],
) -> Result<(), NoMemory>
    ensures { OnOk result (Adds out.old out.new
        (value_tokens (spec.schemas_data (rows part.now) core extensions.now))) }
{
    out.begin_array()?;
    out.string(core.urn())?;
    for extension in extensions {
        if has_extension(part, *extension) {
            out.string(extension.urn())?;
        }
    }
    out.end_array()?;
    Ok(())
}

/// Whether the part has a cell of an attribute of the extension.
#[tactic(auto, unfolding(crate::specs::PartData::has_extension))]
pub fn has_extension(part: &Part, schema: Schema) -> bool
    ensures { result ≡ spec.has_extension (rows part.now) schema }
{
    part.rows()
        .iter()
        .any(|row| extension_of(row.unit().attribute) == Some(schema))
}

/// Writes the member for an extension, if the part has a cell of an attribute of the extension.
#[tactic(auto, unfolding(crate::specs::PartData::extension_data))]
fn write_extension(
    alloc: Global,
    out: &mut Writer,
    part: &Part,
    form: JsonForm,
    schema: Schema,
) -> Result<(), NoMemory>
    ensures { OnOk result (Adds out.old out.new
        (member_tokens (urn schema) (spec.extension_data form (rows part.now) schema))) }
{
    if !has_extension(part, schema) {
        return Ok(());
    }
    out.key(schema.urn())?;
    out.begin_object()?;
    write_attributes(alloc, out, part, form, extension_keys(schema))
}

/// Writes a member for each of these attributes that has a cell, then ends the object.
fn write_attributes(
    alloc: Global,
    out: &mut Writer,
    part: &Part,
    form: JsonForm,
    attributes: &[Attribute],
) -> Result<(), NoMemory>
    ensures { OnOk result (Adds out.old out.new
        (members_tokens
        (members_where attribute_name (spec.attribute_data form (rows part.now)) attributes.now))) }
{
    for attribute in attributes {
        write_attribute(alloc, out, part, form, *attribute)?;
    }
    out.end_object()?;
    Ok(())
}

/// Writes the member for an attribute, if the attribute has a cell.
fn write_attribute(
    alloc: Global,
    out: &mut Writer,
    part: &Part,
    form: JsonForm,
    attribute: Attribute,
) -> Result<(), NoMemory>
    ensures { OnOk result (Adds out.old out.new
        (member_tokens (attribute_name attribute)
        (spec.attribute_data form (rows part.now) attribute))) }
{
    let own = part.attribute_rows(attribute);
    if own.is_empty() {
        return Ok(());
    }
    match shape_of(attribute) {
        JsonShape::Simple => write_simple(alloc, out, own, attribute),
        JsonShape::Complex => {
            let sub_attributes = ordered_sub_attributes(form, attribute);
            write_complex(alloc, out, own, attribute, sub_attributes)
        }
        JsonShape::MultiValued => write_values(alloc, out, own, form, attribute),
    }
}

/// The atom at a leaf of a single-valued attribute, or `None` if there is no such cell. `own` are the rows of
/// the attribute.
fn single_atom(own: &[Row], leaf: Leaf) -> Option<&Atom>
    ensures { option_copied result ≡ cell_at leaf 0 own.now }
{
    let unit = unit_of(leaf);
    for row in own {
        if compare_units(row.unit(), unit).is_eq() {
            return row.get(leaf);
        }
    }
    None
}

/// Writes the member for a simple attribute, if the attribute has a value.
fn write_simple(
    alloc: Global,
    out: &mut Writer,
    own: &[Row],
    attribute: Attribute,
) -> Result<(), NoMemory>
    ensures { OnOk result (Adds out.old out.new
        (member_tokens (attribute_name attribute) (spec.simple_data own.now attribute))) }
{
    let atom = single_atom(own, Leaf::simple(attribute));
    write_member(alloc, out, attribute.name(), atom)
}

/// Writes the member for a single-valued complex attribute, if one of these sub-attributes has a cell.
fn write_complex(
    alloc: Global,
    out: &mut Writer,
    own: &[Row],
    attribute: Attribute,
    sub_attributes: &[SubAttribute],
) -> Result<(), NoMemory>
    ensures { OnOk result (Adds out.old out.new (member_tokens (attribute_name attribute)
        (spec.object_of (members_where sub_attribute_name
        (spec.sub_data own.now attribute) sub_attributes.now)))) }
{
    if !has_sub_attribute(own, attribute, sub_attributes) {
        return Ok(());
    }
    out.key(attribute.name())?;
    out.begin_object()?;
    write_sub_attributes(alloc, out, own, attribute, sub_attributes)
}

/// Whether these rows have a cell of one of these sub-attributes of a single-valued attribute.
fn has_sub_attribute(own: &[Row], attribute: Attribute, sub_attributes: &[SubAttribute]) -> bool
    ensures { result
        ≡ list_any (λ b. is_some (spec.sub_data own.now attribute b)) sub_attributes.now }
{
    sub_attributes
        .iter()
        .any(|b| single_atom(own, Leaf::of(attribute, *b)).is_some())
}

/// Writes a member for each of these sub-attributes that has a cell, then ends the object.
fn write_sub_attributes(
    alloc: Global,
    out: &mut Writer,
    own: &[Row],
    attribute: Attribute,
    sub_attributes: &[SubAttribute],
) -> Result<(), NoMemory>
    ensures { OnOk result (Adds out.old out.new
        (members_tokens (members_where sub_attribute_name
        (spec.sub_data own.now attribute) sub_attributes.now))) }
{
    for sub_attribute in sub_attributes {
        let atom = single_atom(own, Leaf::of(attribute, *sub_attribute));
        write_member(alloc, out, sub_attribute.name(), atom)?;
    }
    out.end_object()?;
    Ok(())
}

/// Writes the member for a multi-valued attribute, if `values` isn't empty.
fn write_values(
    alloc: Global,
    out: &mut Writer,
    values: &[Row],
    form: JsonForm,
    attribute: Attribute,
) -> Result<(), NoMemory>
    ensures { OnOk result (Adds out.old out.new (member_tokens (attribute_name attribute)
        (spec.array_of (items_of (spec.value_data form attribute) values.now)))) }
{
    if values.is_empty() {
        return Ok(());
    }
    out.key(attribute.name())?;
    write_array(alloc, out, values, form, attribute)
}

/// Writes the array of the values of a multi-valued attribute.
fn write_array(
    alloc: Global,
    out: &mut Writer,
    values: &[Row],
    form: JsonForm,
    attribute: Attribute,
) -> Result<(), NoMemory>
    ensures { OnOk result (Adds out.old out.new
        (begin_array ∷ items_tokens (items_of (spec.value_data form attribute) values.now))) }
{
    out.begin_array()?;
    for value in values {
        write_value(alloc, out, value, form, attribute)?;
    }
    out.end_array()?;
    Ok(())
}

/// Writes the object of one value of a multi-valued attribute.
fn write_value(
    alloc: Global,
    out: &mut Writer,
    value: &Row,
    form: JsonForm,
    attribute: Attribute,
) -> Result<(), NoMemory>
    ensures { OnOk result (Adds out.old out.new
        (value_tokens (spec.value_data form attribute value.now))) }
{
    out.begin_object()?;
    for sub_attribute in ordered_sub_attributes(form, attribute) {
        let atom = value.get(Leaf::of(attribute, *sub_attribute));
        write_member(alloc, out, sub_attribute.name(), atom)?;
    }
    out.end_object()?;
    Ok(())
}

/// Writes a member with this name and this atom, or nothing if `atom` is `None`.
fn write_member(
    alloc: Global,
    out: &mut Writer,
    name: &str,
    atom: Option<&Atom>,
) -> Result<(), NoMemory>
    ensures { OnOk result (Adds out.old out.new
        (member_tokens name.now (option_map spec.atom_data (option_copied atom.entry)))) }
{
    match atom {
        Some(atom) => {
            out.key(name)?;
            write_atom(alloc, out, atom)
        }
        None => Ok(()),
    }
}

/// Writes the value of an atom.
fn write_atom(alloc: Global, out: &mut Writer, atom: &Atom) -> Result<(), NoMemory>
    ensures { OnOk result (Adds out.old out.new (value_tokens (spec.atom_data atom.now))) }
{
    match atom {
        Atom::Text(text) => out.string(text.as_str())?,
        Atom::Truth(truth) => out.boolean(*truth)?,
        Atom::Moment(moment) => out.string(print_moment(alloc, *moment)?.as_str())?,
    }
    Ok(())
}
