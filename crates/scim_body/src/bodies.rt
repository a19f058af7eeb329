//! Reads bodies that create or replace a resource (RFC 7644 sections 3.3 and 3.5.1). Checks the keys for
//! clashes before it reads the values.
ghost use Rattle.std.specs.Prelude.{◌≡◌, ◌++◌, IfOk, OnOk, Some, None, option_map, map};
ghost use Rattle.std.specs.List.{flat_map};
ghost use Rattle.serde_json.specs.Read.{read};
ghost use Rattle.scim_body.specs.View.{view, members_view};
ghost use Rattle.scim_schema.specs.JsonKeys.{shape_of};
ghost use Rattle.scim_text.specs.Failures.{UnlessMemory, OnFault};
ghost use Rattle.scim_body.specs.BodyValues.{collected, values_of};
ghost use Rattle.scim_body.specs.Bodies as spec;
ghost use Rattle.scim_body.specs.Bodies.{GivesDraft};
ghost use Rattle.scim_body.specs.Drafts as drafts;
ghost use Rattle.scim_body.specs.Given.{AreOfBody, with_given, unit_given, units_given, members_or_none};

use crate::absent_values::given_named;
use crate::drafts::{Draft, UseFor};
use crate::json_reading::NotJson;
use crate::repeated_keys::body_clashes;
use crate::required_attributes::lacks_required;
use crate::trees::{Member, Tree};
use crate::values::{WrongValue, read_atom, read_fields, read_values};
use json::Scratch;
use scim_cell::{Atom, Field, Row};
use scim_schema::{
    Attribute, JsonShape, Kind, Leaf, Schema, Unit, attributes, characteristics_of, extension_of,
    is_dropped, is_read_only, shape_of, unit_of,
};
use scim_text::{Failed, NoMemory, push};
use std::alloc::Global;
use thiserror::Error;

/// Why a body is refused.
#[derive(Clone, Copy, Debug, PartialEq, Eq, Error)]
pub enum BodyFault {
    /// The body isn't a JSON object, or two different keys of one object name the same attribute,
    /// sub-attribute or extension (RFC 7644 section 3.12, invalidSyntax).
    #[error("not a JSON object whose keys are each a name of its own")]
    Syntax,
    /// A value has the wrong type or is over a limit, or a required attribute is missing (RFC 7644 section
    /// 3.12, invalidValue).
    #[error("a value is missing, of another type, or over a limit")]
    Value,
}

/// A unit for which a body has a value, with the values to store.
///
/// The unit of a dropped leaf, as `password` is, has no values here, since they aren't stored.
#[derive(Drop)]
pub struct UnitGiven {
    /// The unit.
    pub unit: Unit,
    /// Its values to store.
    pub values: Vec<Row>,
}

/// Reads the body of a create or a replace into a draft of a resource of `kind` (RFC 7643 sections 2 to 4).
///
/// Names match in any case. readOnly attributes, unknown keys and `schemas` are ignored. A boolean may be the
/// text `true` or `false` in any case. A single value is accepted as a list with one item, and a text as a
/// complex value that has only the sub-attribute `value`. These count as absent: null, `[]`, values without
/// known sub-attributes, and repeated values in a list.
///
/// Fails with `Syntax` if the text isn't a JSON object, or if two different keys name one attribute, one
/// extension, or one sub-attribute in a value of an attribute that isn't readOnly, anywhere in the body.
///
/// Fails with `Value` if the syntax is right, but a value has the wrong type, a text is over 65,536 bytes,
/// `userName` is empty, a group member has no `value`, an attribute has two primary values or more than
/// 10,000 values, or, for `Creating`, a required attribute is missing.
pub fn read_body(
    alloc: Global,
    kind: Kind,
    use_for: UseFor,
    text: &str,
) -> Result<Draft, Failed<BodyFault>>
    ensures { UnlessMemory (GivesDraft kind use_for (read text.now)) result }
{
    let mut scratch = Scratch::new(alloc);
    let tree = match Tree::read(alloc, text, &mut scratch) {
        Ok(tree) => tree,
        Err(Failed::Because(NotJson)) => return Err(Failed::Because(BodyFault::Syntax)),
        Err(Failed::NoMemory) => return Err(Failed::NoMemory),
    };
    let Some(members) = tree.as_object() else {
        return Err(Failed::Because(BodyFault::Syntax));
    };
    if body_clashes(members, kind) {
        return Err(Failed::Because(BodyFault::Syntax));
    }
    match read_draft(alloc, members, kind, use_for) {
        Ok(draft) => Ok(draft),
        Err(Failed::Because(WrongValue)) => Err(Failed::Because(BodyFault::Value)),
        Err(Failed::NoMemory) => Err(Failed::NoMemory),
    }
}

/// Reads the draft from the members of the body.
///
/// Fails with `WrongValue` if a value is refused, or if a create lacks a required attribute.
fn read_draft(
    alloc: Global,
    members: &[Member<'_>],
    kind: Kind,
    use_for: UseFor,
) -> Result<Draft, Failed<WrongValue>>
    ensures given { IfOk result
        (λ d. spec.body_with kind use_for (spec.all_given kind (members_view members.now))
        ≡ spec.drafted d) }
    ensures wrong { OnFault result
        (spec.body_with kind use_for (spec.all_given kind (members_view members.now))
        ≡ spec.wrong) }
{
    let given = read_all(alloc, members, kind)?;
    draft_of(alloc, kind, use_for, given)
}

/// Reads all units for which the body has values, in the order of the attribute table.
///
/// Fails with `WrongValue` if a value is refused.
#[tactic(auto, unfolding(crate::specs::Bodies::all_given))]
fn read_all(
    alloc: Global,
    members: &[Member<'_>],
    kind: Kind,
) -> Result<Vec<UnitGiven>, Failed<WrongValue>>
    ensures given { IfOk result
        (λ v. spec.all_given kind (members_view members.now) ≡ Some (units_given v.items)) }
    ensures wrong { OnFault result (spec.all_given kind (members_view members.now) ≡ None) }
{
    let mut given = Vec::new(alloc);
    read_attributes(alloc, members, kind, attributes(kind), &mut given)?;
    Ok(given)
}

/// Appends to `given` the units of `attributes` for which the body has values.
///
/// Fails with `WrongValue` if a value is refused. On an error `given` keeps the units read before it.
fn read_attributes(
    alloc: Global,
    members: &[Member<'_>],
    kind: Kind,
    attributes: &[Attribute],
    given: &mut Vec<UnitGiven>,
) -> Result<(), Failed<WrongValue>>
    ensures given { OnOk result
        (with_given given.old.items
        (collected (spec.given_of kind (members_view members.now)) attributes.now)
        ≡ Some (units_given given.new.items)) }
    ensures wrong { OnFault result
        (collected (spec.given_of kind (members_view members.now)) attributes.now ≡ None) }
{
    for attribute in attributes {
        read_given(alloc, members, kind, *attribute, given)?;
    }
    Ok(())
}

/// Appends the units of `attribute` for which the body has values. Looks for them in the body itself, or in
/// the extension's object if the attribute belongs to an extension.
///
/// Fails with `WrongValue` if a value is refused.
fn read_given(
    alloc: Global,
    members: &[Member<'_>],
    kind: Kind,
    attribute: Attribute,
    given: &mut Vec<UnitGiven>,
) -> Result<(), Failed<WrongValue>>
    ensures given { OnOk result
        (with_given given.old.items (spec.given_of kind (members_view members.now) attribute)
        ≡ Some (units_given given.new.items)) }
    ensures wrong { OnFault result
        (spec.given_of kind (members_view members.now) attribute ≡ None) }
{
    match schema_members(members, extension_of(attribute))? {
        Some(object) => read_attribute(alloc, object, kind, attribute, given),
        None => Ok(()),
    }
}

/// The object that holds the attributes of `schema`: the body itself for the core schema (`None`), else the
/// object under the extension's URN.
///
/// `None` if the body doesn't have the extension. Fails with `WrongValue` if its value isn't an object.
fn schema_members<'a, 'b>(
    members: &'a [Member<'b>],
    schema: Option<Schema>,
) -> Result<Option<&'a [Member<'b>]>, Failed<WrongValue>>
    ensures given { IfOk result (λ o. spec.schema_members schema (members_view members.now)
        ≡ Some (members_or_none (option_map (λ m. members_view m.now) o))) }
    ensures wrong { OnFault result (spec.schema_members schema (members_view members.now) ≡ None) }
{
    let Some(schema) = schema else {
        return Ok(Some(members));
    };
    match given_named(members, schema.urn()) {
        Some(value) => match value.as_object() {
            Some(object) => Ok(Some(object)),
            None => Err(Failed::Because(WrongValue)),
        },
        None => Ok(None),
    }
}

/// Appends the units of `attribute` for which an object has values. Appends nothing if `attribute` is
/// readOnly.
///
/// Fails with `WrongValue` if a value is refused.
fn read_attribute(
    alloc: Global,
    members: &[Member<'_>],
    kind: Kind,
    attribute: Attribute,
    given: &mut Vec<UnitGiven>,
) -> Result<(), Failed<WrongValue>>
    ensures given { OnOk result
        (with_given given.old.items (spec.attribute_given kind attribute (members_view members.now))
        ≡ Some (units_given given.new.items)) }
    ensures wrong { OnFault result
        (spec.attribute_given kind attribute (members_view members.now) ≡ None) }
{
    if is_read_only(kind, Leaf::simple(attribute)) {
        return Ok(());
    }
    let Some(value) = given_named(members, attribute.name()) else {
        return Ok(());
    };
    read_shaped(alloc, value, kind, attribute, given)
}

/// Appends the units read from a value of `attribute`, by its shape: simple, complex or multi-valued.
///
/// Fails with `WrongValue` if the value is refused.
fn read_shaped(
    alloc: Global,
    value: &Tree<'_>,
    kind: Kind,
    attribute: Attribute,
    given: &mut Vec<UnitGiven>,
) -> Result<(), Failed<WrongValue>>
    ensures given { OnOk result
        (with_given given.old.items
        (spec.shaped_given kind attribute (shape_of attribute) (view value.now))
        ≡ Some (units_given given.new.items)) }
    ensures wrong { OnFault result
        (spec.shaped_given kind attribute (shape_of attribute) (view value.now) ≡ None) }
{
    match shape_of(attribute) {
        JsonShape::Simple => read_simple(alloc, value, kind, attribute, given),
        JsonShape::Complex => read_complex(alloc, value, kind, attribute, given),
        JsonShape::MultiValued => read_multi_valued(alloc, value, kind, attribute, given),
    }
}

/// Reads the units in a value of an attribute (RFC 7643 section 2.3).
///
/// For a simple attribute, returns one unit. For a complex attribute, returns a unit for each sub-attribute
/// in the value that isn't readOnly. For a multi-valued attribute, returns one unit with all values, each
/// once, or no unit if there are no values. Doesn't check whether `attribute` itself is readOnly.
///
/// Fails with `WrongValue` if a value has the wrong type, a text is over 65,536 bytes, `userName` is empty, a
/// group member has no `value`, or the attribute has two primary values or more than 10,000 values.
pub fn read_units(
    alloc: Global,
    value: &Tree<'_>,
    kind: Kind,
    attribute: Attribute,
) -> Result<Vec<UnitGiven>, Failed<WrongValue>>
    ensures given { IfOk result
        (λ v. spec.shaped_given kind attribute (shape_of attribute) (view value.now)
        ≡ Some (units_given v.items)) }
    ensures wrong { OnFault result
        (spec.shaped_given kind attribute (shape_of attribute) (view value.now) ≡ None) }
{
    let mut given = Vec::new(alloc);
    read_shaped(alloc, value, kind, attribute, &mut given)?;
    Ok(given)
}

/// Appends the unit of a simple attribute.
///
/// Fails with `WrongValue` if the value has the wrong type, is a text over 65,536 bytes, or is an empty
/// `userName`.
fn read_simple(
    alloc: Global,
    value: &Tree<'_>,
    kind: Kind,
    attribute: Attribute,
    given: &mut Vec<UnitGiven>,
) -> Result<(), Failed<WrongValue>>
    ensures given { OnOk result (with_given given.old.items
        (spec.simple_given kind attribute (view value.now))
        ≡ Some (units_given given.new.items)) }
    ensures wrong { OnFault result (spec.simple_given kind attribute (view value.now) ≡ None) }
{
    let leaf = Leaf::simple(attribute);
    let atom = read_atom(alloc, value, characteristics_of(kind, leaf).attribute_type)?;
    if attribute == Attribute::UserName && is_empty(&atom) {
        return Err(Failed::Because(WrongValue));
    }
    push(given, field_given(alloc, Field { leaf, atom })?)?;
    Ok(())
}

/// Whether an atom is an empty text.
fn is_empty(atom: &Atom) -> bool
    ensures { result ≡ drafts.is_empty atom.now }
{
    match atom {
        Atom::Text(text) => text.as_str().is_empty(),
        Atom::Truth(_) | Atom::Moment(_) => false,
    }
}

/// The unit of a single-valued field, with no values if the leaf of the field is dropped, as `password` is.
pub fn field_given(alloc: Global, field: Field) -> Result<UnitGiven, NoMemory>
    ensures { IfOk result (λ g. unit_given g ≡ spec.field_given field) }
{
    let unit = unit_of(field.leaf);
    let mut values = Vec::new(alloc);
    if is_dropped(field.leaf) {
        return Ok(UnitGiven { unit, values });
    }
    let mut fields = Vec::new(alloc);
    push(&mut fields, field)?;
    push(&mut values, Row::new(unit, fields))?;
    Ok(UnitGiven { unit, values })
}

/// Appends a unit for each sub-attribute in a value of a complex attribute, except readOnly ones.
///
/// Fails with `WrongValue` if the value is refused.
fn read_complex(
    alloc: Global,
    value: &Tree<'_>,
    kind: Kind,
    attribute: Attribute,
    given: &mut Vec<UnitGiven>,
) -> Result<(), Failed<WrongValue>>
    ensures given { OnOk result (with_given given.old.items
        (spec.complex_given kind attribute (view value.now))
        ≡ Some (units_given given.new.items)) }
    ensures wrong { OnFault result (spec.complex_given kind attribute (view value.now) ≡ None) }
{
    let fields = read_fields(alloc, value, kind, attribute)?;
    push_fields(alloc, fields, given)?;
    Ok(())
}

/// Appends each field as a unit of its own.
fn push_fields(
    alloc: Global,
    fields: Vec<Field>,
    given: &mut Vec<UnitGiven>,
) -> Result<(), NoMemory>
    ensures { OnOk result (units_given given.new.items
        ≡ units_given given.old.items ++ map spec.field_given fields.items) }
{
    for field in fields {
        push(given, field_given(alloc, field)?)?;
    }
    Ok(())
}

/// Appends the unit of a multi-valued attribute, unless it has no values.
///
/// Fails with `WrongValue` if a value is refused.
fn read_multi_valued(
    alloc: Global,
    value: &Tree<'_>,
    kind: Kind,
    attribute: Attribute,
    given: &mut Vec<UnitGiven>,
) -> Result<(), Failed<WrongValue>>
    ensures given { OnOk result
        (with_given given.old.items
        (option_map (spec.whole_given attribute) (values_of kind attribute (view value.now)))
        ≡ Some (units_given given.new.items)) }
    ensures wrong { OnFault result (values_of kind attribute (view value.now) ≡ None) }
{
    let values = read_values(alloc, value, kind, attribute)?;
    if !values.is_empty() {
        let unit = Unit::whole(attribute);
        push(given, UnitGiven { unit, values })?;
    }
    Ok(())
}

/// Makes the draft with the given units.
///
/// Fails with `WrongValue` if the draft is for `Creating` and lacks a required attribute.
fn draft_of(
    alloc: Global,
    kind: Kind,
    use_for: UseFor,
    given: Vec<UnitGiven>,
) -> Result<Draft, Failed<WrongValue>>
    requires { AreOfBody kind given.items }
    ensures given { IfOk result
        (λ d. spec.judged use_for (spec.draft_of kind use_for (units_given given.items))
        ≡ spec.drafted d) }
    ensures wrong { OnFault result
        (spec.judged use_for (spec.draft_of kind use_for (units_given given.items)) ≡ spec.wrong) }
{
    let (units, rows) = parts_of(alloc, given)?;
    if use_for == UseFor::Creating && lacks_required(kind, rows.as_slice()) {
        return Err(Failed::Because(WrongValue));
    }
    Ok(Draft::new(kind, use_for, units, rows))
}

/// Splits the given units into two lists: the units themselves, and the rows of all their values.
fn parts_of(alloc: Global, given: Vec<UnitGiven>) -> Result<(Vec<Unit>, Vec<Row>), NoMemory>
    ensures units { IfOk result (λ parts. parts.0.items
        ≡ map (λ g. g.unit) (units_given given.items)) }
    ensures rows { IfOk result (λ parts. parts.1.items
        ≡ flat_map (λ g. g.values) (units_given given.items)) }
{
    let mut units = Vec::new(alloc);
    let mut rows = Vec::new(alloc);
    for one in given {
        let UnitGiven { unit, mut values } = one;
        push(&mut units, unit)?;
        rows.append(&mut values)?;
    }
    Ok((units, rows))
}
