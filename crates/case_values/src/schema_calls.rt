//! The calls of `scim_schema`.
use crate::arguments::{beside, joined, push_all, said, truth};
use crate::case::Case;
use crate::faults::CaseFault;
use crate::tables::named;
use scim_samples::leaf_text;
use scim_schema::{
    Attribute, Characteristics, Kind, Leaf, Schema, attribute_characteristics, attribute_named,
    attribute_named_in, attributes, characteristics_of, core_schema, extension_of, extensions,
    has_leaf, is_dropped, is_multi_valued, leaves, schema_of, sub_attribute_named, sub_attributes,
    unique_leaves_by_name, unit_of,
};
use std::alloc::Global;

/// A call of `scim_schema`.
#[derive(Clone, Copy)]
enum SchemaCall {
    Attribute,
    AttributeIn,
    SubAttribute,
    Schema(SchemaBy),
    Name,
    Schemas,
    Extensions,
    Attributes,
    SubAttributes,
    Leaf,
    WholeAttribute,
    HasLeaf,
    UnitOf,
    UniqueLeavesByName,
    IsDropped,
}

/// The key by which a call looks up a schema.
#[derive(Clone, Copy)]
enum SchemaBy {
    Urn,
    Kind,
    Attribute,
    Extension,
}

static CALLS: [(&str, SchemaCall); 18] = [
    ("attribute", SchemaCall::Attribute),
    ("attribute_in", SchemaCall::AttributeIn),
    ("sub_attribute", SchemaCall::SubAttribute),
    ("schema", SchemaCall::Schema(SchemaBy::Urn)),
    ("core_schema", SchemaCall::Schema(SchemaBy::Kind)),
    ("schema_of", SchemaCall::Schema(SchemaBy::Attribute)),
    ("extension_of", SchemaCall::Schema(SchemaBy::Extension)),
    ("name", SchemaCall::Name),
    ("schemas", SchemaCall::Schemas),
    ("extensions", SchemaCall::Extensions),
    ("attributes", SchemaCall::Attributes),
    ("sub_attributes", SchemaCall::SubAttributes),
    ("leaf", SchemaCall::Leaf),
    ("whole_attribute", SchemaCall::WholeAttribute),
    ("has_leaf", SchemaCall::HasLeaf),
    ("unit_of", SchemaCall::UnitOf),
    ("unique_leaves_by_name", SchemaCall::UniqueLeavesByName),
    ("is_dropped", SchemaCall::IsDropped),
];

/// Returns the result of the case's call, or `None` if it isn't a call of `scim_schema`.
pub fn answer(case: &Case<'_>, call: &str) -> Option<Result<String, CaseFault>> {
    let call = named(&CALLS, call)?;
    Some(match call {
        SchemaCall::Attribute => attribute_call(case),
        SchemaCall::AttributeIn => attribute_in_call(case),
        SchemaCall::SubAttribute => sub_attribute_call(case),
        SchemaCall::Schema(by) => schema_call(case, by),
        SchemaCall::Name => name(case),
        SchemaCall::Schemas => urns(case.alloc, Schema::all()),
        SchemaCall::Extensions => urns(case.alloc, extensions(case.kind())),
        SchemaCall::Attributes => attribute_list(case),
        SchemaCall::SubAttributes => sub_attribute_list(case),
        SchemaCall::Leaf => leaf(case),
        SchemaCall::WholeAttribute => whole_attribute(case),
        SchemaCall::HasLeaf => has_leaf_call(case),
        SchemaCall::UnitOf => unit_call(case),
        SchemaCall::UniqueLeavesByName => {
            leaf_list(case.alloc, unique_leaves_by_name(case.kind()))
        }
        SchemaCall::IsDropped => is_dropped_call(case),
    })
}

fn schema_word(schema: Schema) -> &'static str {
    match schema {
        Schema::User => "User",
        Schema::Group => "Group",
        Schema::EnterpriseUser => "EnterpriseUser",
        Schema::SiteUser => "Site",
    }
}

/// Returns the characteristics as text: type, `multi` or `single`, `required` or `optional`, `caseExact` or
/// `caseInexact`, mutability, `returned` and uniqueness.
fn characteristics_text(
    alloc: Global,
    multi_valued: bool,
    of: &Characteristics,
) -> Result<String, CaseFault> {
    let plurality = if multi_valued { "multi" } else { "single" };
    let need = if of.required { "required" } else { "optional" };
    let case = if of.case_exact {
        "caseExact"
    } else {
        "caseInexact"
    };
    let words = [
        of.attribute_type.name(),
        " ",
        plurality,
        " ",
        need,
        " ",
        case,
        " ",
        of.mutability.name(),
        " ",
        of.returned.name(),
        " ",
        of.uniqueness.name(),
    ];
    joined(alloc, &words)
}

/// Returns the attribute in the argument `attribute`. It may be an attribute of a user or of a group.
fn attribute_of(case: &Case<'_>) -> Result<Attribute, CaseFault> {
    Ok(case.leaf("attribute")?.attribute)
}

/// Returns the schema whose URN is the argument `urn`. Fails with `Missing` if there is no such schema.
fn schema_named(case: &Case<'_>) -> Result<Schema, CaseFault> {
    match Schema::named(case.text("urn")?) {
        Some(schema) => Ok(schema),
        None => Err(CaseFault::Missing("urn")),
    }
}

/// Returns the name of an attribute, or `none` if `attribute` is `None`.
pub fn attribute_name(attribute: Option<Attribute>) -> &'static str {
    match attribute {
        Some(attribute) => attribute.name(),
        None => "none",
    }
}

/// Returns the attribute of the kind that has the name in the argument `name`, or `none`.
fn attribute_call(case: &Case<'_>) -> Result<String, CaseFault> {
    let found = attribute_named(case.kind(), case.text("name")?);
    said(case.alloc, attribute_name(found))
}

/// Returns the attribute of the kind in a schema that has the name in the argument `name`, or `none`.
fn attribute_in_call(case: &Case<'_>) -> Result<String, CaseFault> {
    let name = case.text("name")?;
    let found = attribute_named_in(case.kind(), schema_named(case)?, name);
    said(case.alloc, attribute_name(found))
}

/// Returns the sub-attribute that has the name in the argument `name`, or `none`.
fn sub_attribute_call(case: &Case<'_>) -> Result<String, CaseFault> {
    let name = case.text("name")?;
    match sub_attribute_named(attribute_of(case)?, name) {
        Some(found) => said(case.alloc, found.name()),
        None => said(case.alloc, "none"),
    }
}

/// Returns the URN of a schema, or `none` if `schema` is `None`.
pub fn urn_of(schema: Option<Schema>) -> &'static str {
    match schema {
        Some(schema) => schema.urn(),
        None => "none",
    }
}

/// Returns the URN of the schema that the look-up finds, or `none`.
fn schema_call(case: &Case<'_>, by: SchemaBy) -> Result<String, CaseFault> {
    let found = match by {
        SchemaBy::Urn => Schema::named(case.text("urn")?),
        SchemaBy::Kind => Some(core_schema(case.kind())),
        SchemaBy::Attribute => Some(schema_of(case.kind(), attribute_of(case)?)),
        SchemaBy::Extension => extension_of(attribute_of(case)?),
    };
    said(case.alloc, urn_of(found))
}

/// Returns the name of the kind, its endpoint or the name of the operation, as the argument `of` says.
fn name(case: &Case<'_>) -> Result<String, CaseFault> {
    let name = match case.text("of")? {
        "kind" => case.kind().name(),
        "endpoint" => case.kind().endpoint(),
        _ => case.op().name(),
    };
    said(case.alloc, name)
}

/// Returns the URNs of the schemas, with a space after each.
fn urns(alloc: Global, schemas: &[Schema]) -> Result<String, CaseFault> {
    let mut text = String::new(alloc);
    for schema in schemas {
        push_all(&mut text, &[schema.urn(), " "])?;
    }
    Ok(text)
}

/// Returns the names of a kind's attributes, with a space after each.
fn attribute_list(case: &Case<'_>) -> Result<String, CaseFault> {
    let mut text = String::new(case.alloc);
    for attribute in attributes(case.kind()) {
        push_all(&mut text, &[attribute.name(), " "])?;
    }
    Ok(text)
}

/// Returns the names of an attribute's sub-attributes, with a space after each.
fn sub_attribute_list(case: &Case<'_>) -> Result<String, CaseFault> {
    let mut text = String::new(case.alloc);
    for sub_attribute in sub_attributes(attribute_of(case)?) {
        push_all(&mut text, &[sub_attribute.name(), " "])?;
    }
    Ok(text)
}

/// Returns the schema, path and characteristics of a leaf, or `none` if there is no such leaf. The argument
/// `place` is the number of the leaf in the kind's list of leaves, counted from 1.
fn leaf(case: &Case<'_>) -> Result<String, CaseFault> {
    let kind = case.kind();
    let place = case.count("place")?;
    match leaves(kind).get(place.wrapping_sub(1)) {
        Some(leaf) => told_of_leaf(case.alloc, kind, *leaf),
        None => said(case.alloc, "none"),
    }
}

fn told_of_leaf(alloc: Global, kind: Kind, leaf: Leaf) -> Result<String, CaseFault> {
    let of = characteristics_of(kind, leaf);
    let text = characteristics_text(alloc, is_multi_valued(leaf.attribute), &of)?;
    let path = leaf_text(alloc, leaf)?;
    let words = beside(alloc, path.as_str(), text.as_str())?;
    beside(
        alloc,
        schema_word(schema_of(kind, leaf.attribute)),
        words.as_str(),
    )
}

/// Returns the characteristics of a whole complex attribute.
fn whole_attribute(case: &Case<'_>) -> Result<String, CaseFault> {
    let of = attribute_characteristics(case.kind(), attribute_of(case)?);
    characteristics_text(case.alloc, of.multi_valued, &of)
}

/// Whether the kind has the leaf.
fn has_leaf_call(case: &Case<'_>) -> Result<String, CaseFault> {
    truth(case.alloc, has_leaf(case.kind(), case.leaf("leaf")?))
}

/// Returns the path of a leaf's unit. If the attribute is multi-valued, this is the path of the whole
/// attribute.
fn unit_call(case: &Case<'_>) -> Result<String, CaseFault> {
    let unit = unit_of(case.leaf("leaf")?);
    let leaf = Leaf {
        attribute: unit.attribute,
        sub_attribute: unit.sub_attribute,
    };
    Ok(leaf_text(case.alloc, leaf)?)
}

/// Returns the paths of the leaves, with a space after each.
fn leaf_list(alloc: Global, leaves: &[Leaf]) -> Result<String, CaseFault> {
    let mut text = String::new(alloc);
    for leaf in leaves {
        let path = leaf_text(alloc, *leaf)?;
        push_all(&mut text, &[path.as_str(), " "])?;
    }
    Ok(text)
}

/// Whether a body may give the leaf though it is neither stored nor returned.
fn is_dropped_call(case: &Case<'_>) -> Result<String, CaseFault> {
    truth(case.alloc, is_dropped(case.leaf("leaf")?))
}
